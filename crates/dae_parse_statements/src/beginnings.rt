// Where a statement or a part of one begins (C90 6.6): its word, its parentheses, its block.

ghost use Rattle.std.specs.Prelude.{◌≡◌, ◌∷◌, List, Option, Some, IfOk};
ghost use Rattle.dae_tree.specs.Marks.{word_mark};
ghost use Rattle.dae_tree.specs.Trees.{Expression, Statement as StatementTree};
ghost use Rattle.dae_parse_grammar.specs.Frames as plain;
ghost use Rattle.dae_parse_grammar.specs.Frames.{Frame as PlainFrame};
ghost use Rattle.dae_parse_grammar.specs.Machine.{step_at, block_begun, block_followed, stated, started, loop_tested, stepped, returned, evaluation_begun};
ghost use Rattle.dae_parse_grammar.specs.Stuck.{behind};
ghost use Rattle.dae_parse_nodes.specs.Parts.{ShowsOperand, ShowsOptional, ShowsLoop, ShowsStatement, ShowsStatements};
ghost use Rattle.dae_parse_states.specs.Frames.{ShowsHead, ShowsInside};
ghost use Rattle.dae_parse_states.specs.States.{Stands, Follows, outside_stack, frames_of, Steps};

use crate::nodes::{
    block, break_statement, continue_statement, do_statement, empty_statement, return_statement,
};
use dae_base::Place;
use dae_parse_nodes::{DoParts, Loop, ReadOperand, no_declarations, no_specifiers, no_statements};
use dae_parse_parts::{COMMA, CONDITIONAL, Read};
use dae_parse_states::{
    DeclarationFrame, Doing, ExpressionFrame, FunctionBody, Inside, Parser, SpecifiersFrame,
    StatementFrame, StatementHead, StatementKind, begins_specifiers,
};
use dae_tree::{Keyword, Seen, Sign, Statement};
use std::alloc::AllocError;

/// In a block, before a declaration or the first statement (C90 6.6.2).
pub fn read_declaration(
    machine: &mut Parser<'_>,
    inside: Inside,
) -> Result<Option<Doing>, AllocError>
    ensures { (i : plain.Inside) (s : List PlainFrame) → ShowsInside inside i
        → Stands machine.old s (i.outside ∷ outside_stack s)
        → IfOk result (λ r. Follows r machine.new
        (block_begun i s machine.old.scope.names machine.old.rest)) }
{
    if begins_specifiers(&machine.scope, &machine.rest) {
        machine.push_declaration(DeclarationFrame::InBlock(inside))?;
        machine.push_specifiers(SpecifiersFrame::ForDeclaration(FunctionBody::Excluded))?;
        let before = no_specifiers(machine.alloc);
        return Ok(Some(Doing::Specifying(Seen::nothing(), before)));
    }
    Ok(Some(Doing::Statements(inside, no_statements(machine.alloc))))
}

/// In a block, before a statement or the brace, where the scope of the block ends (C90 6.6.2 and 6.1.2.1).
#[tactic(auto, using(crate::proofs::OtherwiseStatements::followed_otherwise))]
pub fn read_block(
    machine: &mut Parser<'_>,
    inside: Inside,
    list: Read<Vec<Statement>>,
) -> Result<Option<Doing>, AllocError>
    ensures { (i : plain.Inside) (ss : List StatementTree) (s : List PlainFrame)
        → ShowsInside inside i → ShowsStatements list ss
        → Stands machine.old s (i.outside ∷ outside_stack s)
        → IfOk result (λ r. Follows r machine.new
        (block_followed i ss s machine.old.scope.names machine.old.rest)) }
{
    if machine.rest.take_sign(Sign::RightBrace).is_some() {
        machine.scope.close();
        let Inside {
            place,
            declarations,
        } = inside;
        let whole = block(machine.alloc, place, declarations, list)?;
        return Ok(Some(Doing::GaveStatement(whole, StatementKind::Block)));
    }
    machine.push_statement(StatementFrame::InStatements(inside, list))?;
    Ok(Some(Doing::AtStatement))
}

/// Before a statement (C90 6.6).
#[tactic(auto, using(crate::proofs::OtherwiseStatements::stated_otherwise, dae_parse_states::proofs::Laws::word_is))]
pub fn read_statement(machine: &mut Parser<'_>) -> Result<Option<Doing>, AllocError>
    ensures { Steps machine.old result machine.new stated }
{
    if let Some(place) = machine.rest.take_sign(Sign::LeftBrace) {
        machine.scope.open()?;
        let declarations = no_declarations(machine.alloc);
        return Ok(Some(Doing::Declarations(Inside {
            place,
            declarations,
        })));
    }
    if let Some(place) = machine.rest.take_sign(Sign::Semicolon) {
        let whole = empty_statement(machine.alloc, place)?;
        return Ok(Some(Doing::GaveStatement(whole, StatementKind::Other)));
    }
    let Some(word) = machine.rest.word() else {
        return begin_evaluation(machine);
    };
    match machine.rest.front() {
        Some(token) => read_statement_word(machine, word, token.place),
        None => begin_evaluation(machine),
    }
}

/// Before the expression of a statement (C90 6.6.3).
fn begin_evaluation(machine: &mut Parser<'_>) -> Result<Option<Doing>, AllocError>
    ensures { Steps machine.old result machine.new evaluation_begun }
{
    machine.push_expression(ExpressionFrame::InEvaluation)?;
    Ok(Some(Doing::Seek(COMMA)))
}

/// Before a word that may begin a statement (C90 6.6.1 and 6.6.4 to 6.6.6).
#[tactic(auto, using(crate::proofs::OtherwiseStatements::word_otherwise))]
fn read_statement_word(
    machine: &mut Parser<'_>,
    word: Keyword,
    place: Place,
) -> Result<Option<Doing>, AllocError>
    ensures { machine.old.rest ≡ word_mark word place ∷ behind machine.old.rest →
        Steps machine.old result machine.new stated }
{
    match word {
        Keyword::Do => {
            machine.rest.skip();
            machine.push_statement(StatementFrame::DoBody(place))?;
            Ok(Some(Doing::AtStatement))
        }
        Keyword::Case => {
            machine.rest.skip();
            machine.push_expression(ExpressionFrame::InCase(place))?;
            Ok(Some(Doing::Seek(CONDITIONAL)))
        }
        Keyword::If => begin(machine, Doing::Opening(StatementHead::If(place))),
        Keyword::While => begin(machine, Doing::Opening(StatementHead::While(place))),
        Keyword::Switch => begin(machine, Doing::Opening(StatementHead::Switch(place))),
        Keyword::For => begin(machine, Doing::Looping(place)),
        Keyword::Break => begin(machine, Doing::Breaking(place)),
        Keyword::Continue => begin(machine, Doing::Continuing(place)),
        Keyword::Return => begin(machine, Doing::Returning(place)),
        Keyword::Default => begin(machine, Doing::Defaulting(place)),
        _ => begin_evaluation(machine),
    }
}

/// Behind the first word of a statement.
fn begin(machine: &mut Parser<'_>, doing: Doing) -> Result<Option<Doing>, AllocError>
    ensures doing { IfOk result (λ r. r ≡ Some doing) }
    ensures rest { machine.new.rest ≡ behind machine.old.rest }
    ensures scope { machine.new.scope ≡ machine.old.scope }
    ensures stack { frames_of machine.new ≡ frames_of machine.old }
{
    machine.rest.skip();
    Ok(Some(doing))
}

/// Before the parenthesis of a test.
#[inline(never)]
#[tactic(auto, using(dae_parse_states::proofs::Laws::open_or_none))]
pub fn read_test(machine: &mut Parser<'_>, head: StatementHead) -> Result<Option<Doing>, AllocError>
    ensures { (a : plain.StatementHead) → ShowsHead head a →
        Steps machine.old result machine.new (step_at (plain.opening a)) }
{
    let Some(paren) = machine.rest.take_sign(Sign::LeftParen) else {
        return Ok(None);
    };
    machine.push_expression(ExpressionFrame::InTest(head, paren))?;
    Ok(Some(Doing::Seek(COMMA)))
}

/// Behind `for`.
#[inline(never)]
#[tactic(auto, using(dae_parse_states::proofs::Laws::open_or_none))]
pub fn read_for(machine: &mut Parser<'_>, word: Place) -> Result<Option<Doing>, AllocError>
    ensures { Steps machine.old result machine.new (step_at (plain.looping word)) }
{
    match machine.rest.take_sign(Sign::LeftParen) {
        Some(paren) => Ok(Some(Doing::Starting { word, paren })),
        None => Ok(None),
    }
}

/// Behind the first semicolon of a `for`.
#[inline(never)]
#[tactic(auto, using(crate::proofs::OtherwiseStatements::tested_otherwise))]
pub fn read_loop_test(
    machine: &mut Parser<'_>,
    word: Place,
    paren: Place,
    start: Option<ReadOperand>,
    first: Place,
) -> Result<Option<Doing>, AllocError>
    ensures { (a : Option Expression) → ShowsOptional start a →
        Steps machine.old result machine.new (loop_tested word paren a first) }
{
    if let Some(second) = machine.rest.take_sign(Sign::Semicolon) {
        let parts = Loop {
            word,
            paren,
            start,
            first,
            test: None,
            second,
        };
        return Ok(Some(Doing::Stepping(Box::new(machine.alloc, parts)?)));
    }
    machine.push_expression(ExpressionFrame::InLoopTest {
        word,
        paren,
        start,
        first,
    })?;
    Ok(Some(Doing::Seek(COMMA)))
}

/// Behind the second semicolon of a `for`.
#[inline(never)]
#[tactic(auto, using(crate::proofs::OtherwiseStatements::stepped_otherwise))]
pub fn read_loop_step(
    machine: &mut Parser<'_>,
    parts: Box<Loop>,
) -> Result<Option<Doing>, AllocError>
    ensures { (a : plain.Loop) → ShowsLoop parts.value a →
        Steps machine.old result machine.new (stepped a) }
{
    if machine.rest.take_sign(Sign::RightParen).is_some() {
        machine.push_statement(StatementFrame::ForBody(parts, None))?;
        return Ok(Some(Doing::AtStatement));
    }
    machine.push_expression(ExpressionFrame::InStep(parts))?;
    Ok(Some(Doing::Seek(COMMA)))
}

/// Behind `default`.
#[inline(never)]
#[tactic(auto, using(dae_parse_states::proofs::Laws::colon_or_none))]
pub fn read_default(machine: &mut Parser<'_>, place: Place) -> Result<Option<Doing>, AllocError>
    ensures { Steps machine.old result machine.new (step_at (plain.defaulting place)) }
{
    if machine.rest.take_sign(Sign::Colon).is_none() {
        return Ok(None);
    }
    machine.push_statement(StatementFrame::DefaultBody(place))?;
    Ok(Some(Doing::AtStatement))
}

/// Behind the parenthesis of a `for`.
#[inline(never)]
#[tactic(auto, using(crate::proofs::OtherwiseStatements::started_otherwise))]
pub fn read_loop_start(
    machine: &mut Parser<'_>,
    word: Place,
    paren: Place,
) -> Result<Option<Doing>, AllocError>
    ensures { Steps machine.old result machine.new (started word paren) }
{
    if let Some(first) = machine.rest.take_sign(Sign::Semicolon) {
        return Ok(Some(Doing::Testing {
            word,
            paren,
            start: None,
            first,
        }));
    }
    machine.push_expression(ExpressionFrame::InStart { word, paren })?;
    Ok(Some(Doing::Seek(COMMA)))
}

/// Behind the test of a `do` (C90 6.6.5.2).
#[inline(never)]
#[tactic(auto, using(dae_parse_states::proofs::Laws::semicolon_or_none))]
pub fn read_do_end(machine: &mut Parser<'_>, parts: DoParts) -> Result<Option<Doing>, AllocError>
    ensures { (b : StatementTree) (e : Expression) → ShowsStatement parts.body b
        → ShowsOperand parts.test e
        → Steps machine.old result machine.new
        (step_at (plain.finishing parts.place b parts.word parts.paren e)) }
{
    let Some(end) = machine.rest.take_sign(Sign::Semicolon) else {
        return Ok(None);
    };
    let whole = do_statement(machine.alloc, parts, end)?;
    Ok(Some(Doing::GaveStatement(whole, StatementKind::Other)))
}

/// Behind `return` (C90 6.6.6.4).
#[inline(never)]
#[tactic(auto, using(crate::proofs::OtherwiseStatements::returned_otherwise))]
pub fn read_return(machine: &mut Parser<'_>, place: Place) -> Result<Option<Doing>, AllocError>
    ensures { Steps machine.old result machine.new (returned place) }
{
    if let Some(end) = machine.rest.take_sign(Sign::Semicolon) {
        let whole = return_statement(machine.alloc, place, None, end)?;
        return Ok(Some(Doing::GaveStatement(whole, StatementKind::Other)));
    }
    machine.push_expression(ExpressionFrame::InReturn(place))?;
    Ok(Some(Doing::Seek(COMMA)))
}

/// Behind `break` (C90 6.6.6.3).
#[inline(never)]
#[tactic(auto, using(dae_parse_states::proofs::Laws::semicolon_or_none))]
pub fn read_break(machine: &mut Parser<'_>, place: Place) -> Result<Option<Doing>, AllocError>
    ensures { Steps machine.old result machine.new (step_at (plain.breaking place)) }
{
    let Some(end) = machine.rest.take_sign(Sign::Semicolon) else {
        return Ok(None);
    };
    let whole = break_statement(machine.alloc, place, end)?;
    Ok(Some(Doing::GaveStatement(whole, StatementKind::Other)))
}

/// Behind `continue` (C90 6.6.6.2).
#[inline(never)]
#[tactic(auto, using(dae_parse_states::proofs::Laws::semicolon_or_none))]
pub fn read_continue(machine: &mut Parser<'_>, place: Place) -> Result<Option<Doing>, AllocError>
    ensures { Steps machine.old result machine.new (step_at (plain.continuing place)) }
{
    let Some(end) = machine.rest.take_sign(Sign::Semicolon) else {
        return Ok(None);
    };
    let whole = continue_statement(machine.alloc, place, end)?;
    Ok(Some(Doing::GaveStatement(whole, StatementKind::Other)))
}
