// What a part that was read is given to: the frame on top of the stack.

ghost use Rattle.std.specs.Prelude.{◌≡◌, ◌∷◌, List, length, IfOk};
ghost use Rattle.dae_tree.specs.Trees.{Expression, Specifiers, Declarator, Initialiser as InitialiserTree, Declaration as DeclarationTree, Statement as StatementTree};
ghost use Rattle.dae_parse_grammar.specs.Frames as plain;
ghost use Rattle.dae_parse_grammar.specs.Frames.{Frame as PlainFrame, state};
ghost use Rattle.dae_parse_grammar.specs.Machine.{given, specifiers_taken, declarator_taken, initialiser_taken, declaration_taken, statement_taken};
ghost use Rattle.dae_parse_grammar.specs.Standing.{Holds};
ghost use Rattle.dae_parse_grammar.specs.Taken.{tokens_of};
ghost use Rattle.dae_parse_states.specs.Bottom.{IsBottom};
ghost use Rattle.dae_parse_nodes.specs.Parts.{ShowsOperand, ShowsSpecified, ShowsDeclared, ShowsInitialiser, ShowsDeclaration, ShowsStatement};
ghost use Rattle.dae_parse_states.specs.Frames.{kind_of_statement};
ghost use Rattle.dae_parse_states.specs.States.{Stands, Follows, outside_stack, Steps};

use dae_parse_declarations::{
    behind_star, for_cast, for_declaration, for_member, for_parameter, for_sizeof, in_block,
    in_definition, in_enumerator, in_file, in_group, in_list, in_size, in_value, of_cast, of_item,
    of_member, of_parameter, of_sizeof, of_value,
};
use dae_parse_nodes::{Declared, ReadOperand, Specified};
use dae_parse_parts::Read;
use dae_parse_statements::{
    behind_assignment, behind_binary, behind_cast, behind_colon, behind_comma, behind_prefix,
    behind_question, behind_sizeof, case_body, default_body, do_body, else_branch, for_body,
    in_arguments, in_case, in_evaluation, in_index, in_loop_test, in_parentheses, in_return,
    in_start, in_statements, in_step, in_test, switch_body, then_branch, while_body,
};
use dae_parse_states::{
    DeclarationFrame, DeclaratorFrame, Doing, ExpressionFrame, InitialiserFrame, Parser,
    SpecifiersFrame, StatementFrame, StatementKind,
};
use dae_tree::{Declaration, Initialiser, Statement};
use std::alloc::AllocError;

/// Behind an expression, for what awaits it.
pub fn give_expression(
    machine: &mut Parser<'_>,
    a: ReadOperand,
) -> Result<Option<Doing>, AllocError>
    ensures { (e : Expression) → ShowsOperand a e → Steps machine.old result machine.new (given e) }
{
    let Some(frame) = machine.pop_expression() else {
        return Ok(None);
    };
    match frame {
        ExpressionFrame::InParentheses(place, level) => in_parentheses(machine, a, place, level),
        ExpressionFrame::InIndex(base, place, level) => in_index(machine, a, base, place, level),
        ExpressionFrame::InArguments(callee, place, before, level) => {
            in_arguments(machine, a, callee, place, before, level)
        }
        ExpressionFrame::BehindPrefix(place, operator, level) => {
            behind_prefix(machine, a, place, operator, level)
        }
        ExpressionFrame::BehindSizeof(place, level) => behind_sizeof(machine, a, place, level),
        ExpressionFrame::BehindCast(place, specified, declared, level) => {
            behind_cast(machine, a, place, specified, declared, level)
        }
        ExpressionFrame::BehindBinary(left, place, operator, level) => {
            behind_binary(machine, a, left, place, operator, level)
        }
        ExpressionFrame::BehindQuestion(test, place, level) => behind_question(
            machine, a, test, place, level,
        ),
        ExpressionFrame::BehindColon(test, place, then, level) => {
            behind_colon(machine, a, test, place, then, level)
        }
        ExpressionFrame::BehindAssignment(left, place, operator, level) => {
            behind_assignment(machine, a, left, place, operator, level)
        }
        ExpressionFrame::BehindComma(left, level) => behind_comma(machine, a, left, level),
        ExpressionFrame::InSize(declared, place, manner) => in_size(
            machine, a, declared, place, manner,
        ),
        ExpressionFrame::InEnumerator(body, list, name, place) => {
            in_enumerator(machine, a, body, list, name, place)
        }
        ExpressionFrame::InValue => in_value(machine, a),
        ExpressionFrame::InEvaluation => in_evaluation(machine, a),
        ExpressionFrame::InTest(head, paren) => in_test(machine, a, head, paren),
        ExpressionFrame::InStart { word, paren } => in_start(machine, a, word, paren),
        ExpressionFrame::InLoopTest {
            word,
            paren,
            start,
            first,
        } => in_loop_test(machine, a, word, paren, start, first),
        ExpressionFrame::InStep(parts) => in_step(machine, a, parts),
        ExpressionFrame::InReturn(place) => in_return(machine, a, place),
        ExpressionFrame::InCase(place) => in_case(machine, a, place),
    }
}

/// Behind specifiers, for what awaits them.
pub fn give_specifiers(
    machine: &mut Parser<'_>,
    specified: Specified,
) -> Result<Option<Doing>, AllocError>
    ensures { (ws : Specifiers) → ShowsSpecified specified ws →
        Steps machine.old result machine.new (specifiers_taken ws) }
{
    let Some(frame) = machine.pop_specifiers() else {
        return Ok(None);
    };
    match frame {
        SpecifiersFrame::ForCast(place, level) => for_cast(machine, specified, place, level),
        SpecifiersFrame::ForSizeof {
            place,
            paren,
            level,
        } => for_sizeof(machine, specified, place, paren, level),
        SpecifiersFrame::ForParameter(open, list) => for_parameter(machine, specified, open, list),
        SpecifiersFrame::ForMember(body, members) => for_member(machine, specified, body, members),
        SpecifiersFrame::ForDeclaration(function_body) => {
            for_declaration(machine, specified, function_body)
        }
    }
}

/// Behind a declarator, for what awaits it.
pub fn give_declarator(
    machine: &mut Parser<'_>,
    declared: Declared,
) -> Result<Option<Doing>, AllocError>
    ensures { (d : Declarator) (s : List PlainFrame) → ShowsDeclared declared d
        → Stands machine.old s (outside_stack s)
        → Holds (state (plain.gave_declarator d) s machine.old.scope.names machine.old.rest)
        → IfOk result (λ r. Follows r machine.new
        (declarator_taken d s machine.old.scope.names machine.old.rest)) }
{
    let Some(frame) = machine.pop_declarator() else {
        return Ok(None);
    };
    match frame {
        DeclaratorFrame::BehindStar(place, qualifiers) => behind_star(
            machine, declared, place, qualifiers,
        ),
        DeclaratorFrame::InGroup(place, manner) => in_group(machine, declared, place, manner),
        DeclaratorFrame::OfCast(place, specified, level) => of_cast(
            machine, declared, place, specified, level,
        ),
        DeclaratorFrame::OfSizeof {
            place,
            paren,
            specified,
            level,
        } => of_sizeof(machine, declared, place, paren, specified, level),
        DeclaratorFrame::OfParameter(open, list, specified) => {
            of_parameter(machine, declared, open, list, specified)
        }
        DeclaratorFrame::OfMember(body, members, specified, before) => {
            of_member(machine, declared, body, members, specified, before)
        }
        DeclaratorFrame::OfItem(function_body, specified, items) => of_item(
            machine,
            declared,
            function_body,
            specified,
            items,
        ),
    }
}

/// Behind an initialiser, for what awaits it.
pub fn give_initialiser(
    machine: &mut Parser<'_>,
    initialiser: Read<Initialiser>,
) -> Result<Option<Doing>, AllocError>
    ensures { (x : InitialiserTree) → ShowsInitialiser initialiser x →
        Steps machine.old result machine.new (initialiser_taken x) }
{
    let Some(frame) = machine.pop_initialiser() else {
        return Ok(None);
    };
    match frame {
        InitialiserFrame::InList(place, before) => in_list(machine, initialiser, place, before),
        InitialiserFrame::OfValue(specified, items, declared, place) => {
            of_value(machine, initialiser, specified, items, declared, place)
        }
    }
}

/// Behind a declaration, for what awaits it, in a file of so many tokens.
pub fn give_declaration(
    machine: &mut Parser<'_>,
    found: Read<Declaration>,
    total: usize,
) -> Result<Option<Doing>, AllocError>
    ensures { (d : DeclarationTree) (s : List PlainFrame) → ShowsDeclaration found d
        → Stands machine.old s (outside_stack s) → IsBottom s
        → length (tokens_of (state (plain.gave_declaration d) s machine.old.scope.names
        machine.old.rest)) ≡ total
        → IfOk result (λ r. Follows r machine.new
        (declaration_taken d s machine.old.scope.names machine.old.rest)) }
{
    let Some(frame) = machine.pop_declaration() else {
        return Ok(None);
    };
    match frame {
        DeclarationFrame::InFile(before) => in_file(machine, found, before, total),
        DeclarationFrame::InBlock(inside) => in_block(machine, found, inside),
    }
}

/// Behind a statement, for what awaits it, in a file of so many tokens.
pub fn give_statement(
    machine: &mut Parser<'_>,
    found: Read<Box<Statement>>,
    kind: StatementKind,
    total: usize,
) -> Result<Option<Doing>, AllocError>
    ensures { (b : StatementTree) (s : List PlainFrame) → ShowsStatement found b
        → kind ≡ kind_of_statement b → Stands machine.old s (outside_stack s) → IsBottom s
        → length (tokens_of (state (plain.gave_statement b) s machine.old.scope.names
        machine.old.rest)) ≡ total
        → IfOk result (λ r. Follows r machine.new
        (statement_taken b s machine.old.scope.names machine.old.rest)) }
{
    let Some(frame) = machine.pop_statement() else {
        return Ok(None);
    };
    match frame {
        StatementFrame::ThenBranch { place, paren, test } => then_branch(
            machine, found, place, paren, test,
        ),
        StatementFrame::ElseBranch {
            place,
            paren,
            test,
            branch,
        } => else_branch(machine, found, place, paren, test, branch),
        StatementFrame::WhileBody { place, paren, test } => while_body(
            machine, found, place, paren, test,
        ),
        StatementFrame::SwitchBody { place, paren, test } => switch_body(
            machine, found, place, paren, test,
        ),
        StatementFrame::DoBody(place) => do_body(machine, found, place),
        StatementFrame::ForBody(parts, step) => for_body(machine, found, parts, step),
        StatementFrame::CaseBody(place, value) => case_body(machine, found, place, value),
        StatementFrame::DefaultBody(place) => default_body(machine, found, place),
        StatementFrame::InStatements(inside, before) => in_statements(
            machine, found, inside, before,
        ),
        StatementFrame::InDefinition(specified, declared) => {
            in_definition(machine, found, kind, specified, declared, total)
        }
    }
}
