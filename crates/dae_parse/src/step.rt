// One step of the machine, by what it does. What is done seldom stays in functions of its own (`inline(never)`), and so does the choice
// among it, so that a step sets up no more than what is done often needs.

ghost use Rattle.std.specs.Prelude.{◌≡◌, List, length, IfOk};
ghost use Rattle.dae_parse_grammar.specs.Frames as plain;
ghost use Rattle.dae_parse_grammar.specs.Frames.{Frame as PlainFrame, state};
ghost use Rattle.dae_parse_grammar.specs.Machine.{step_at};
ghost use Rattle.dae_parse_grammar.specs.Standing.{Holds};
ghost use Rattle.dae_parse_grammar.specs.Taken.{tokens_of};
ghost use Rattle.dae_parse_states.specs.Bottom.{IsBottom};
ghost use Rattle.dae_parse_states.specs.Frames.{ShowsDoing};
ghost use Rattle.dae_parse_states.specs.States.{Stands, Follows, outside_stack, outside_doing};
ghost use Rattle.dae_parse.specs.Seldom.{IsSeldom};

use crate::given::{
    give_declaration, give_declarator, give_expression, give_initialiser, give_specifiers,
    give_statement,
};
use dae_parse_declarations::{
    read_behind_comma, read_behind_enumerator, read_behind_item, read_body, read_declarator,
    read_enumerator, read_enumerator_value, read_external, read_initialiser, read_list,
    read_member, read_parameters, read_qualifier, read_size, read_specifier, read_suffix, read_tag,
};
use dae_parse_statements::{
    read_block, read_break, read_call, read_continue, read_declaration, read_default, read_do_end,
    read_for, read_loop_start, read_loop_step, read_loop_test, read_operator, read_return,
    read_sizeof, read_statement, read_test, seek_operand,
};
use dae_parse_states::{Doing, Parser};
use std::alloc::AllocError;

/// One step of the machine, where it does what is done seldom.
#[inline(never)]
#[tactic(auto, using(crate::proofs::Seldom::none_left))]
fn step_seldom(machine: &mut Parser<'_>, doing: Doing) -> Result<Option<Doing>, AllocError>
    requires { IsSeldom doing }
    ensures { (d : plain.Doing) (s : List PlainFrame) → ShowsDoing doing d
        → Stands machine.old s (outside_doing d (outside_stack s))
        → IfOk result (λ r. Follows r machine.new
        (step_at d s machine.old.scope.names machine.old.rest)) }
{
    match doing {
        Doing::Measuring(place, level) => read_sizeof(machine, place, level),
        Doing::Tagging(kind, place, seen, before) => read_tag(machine, kind, place, seen, before),
        Doing::Tagged(kind, place, name, seen, before) => {
            read_body(machine, kind, place, name, seen, before)
        }
        Doing::InMembers(body, members) => read_member(machine, body, members),
        Doing::Enumerating(body, list) => read_enumerator(machine, body, list),
        Doing::Enumerated(body, list, name) => read_enumerator_value(machine, body, list, name),
        Doing::Entered(body, list) => read_behind_enumerator(machine, body, list),
        Doing::Entering(body, list) => read_behind_comma(machine, body, list),
        Doing::Qualifying(manner, place, list) => read_qualifier(machine, manner, place, list),
        Doing::Sizing(manner, declared, place) => read_size(machine, manner, declared, place),
        Doing::InParameters(manner, declared, place) => {
            read_parameters(machine, manner, declared, place)
        }
        Doing::Opening(head) => read_test(machine, head),
        Doing::Finishing(parts) => read_do_end(machine, parts),
        Doing::Looping(word) => read_for(machine, word),
        Doing::Starting { word, paren } => read_loop_start(machine, word, paren),
        Doing::Testing {
            word,
            paren,
            start,
            first,
        } => read_loop_test(machine, word, paren, start, first),
        Doing::Stepping(parts) => read_loop_step(machine, parts),
        Doing::Returning(place) => read_return(machine, place),
        Doing::Breaking(place) => read_break(machine, place),
        Doing::Continuing(place) => read_continue(machine, place),
        Doing::Defaulting(place) => read_default(machine, place),
        _ => unreachable!(),
    }
}

/// One step of the machine, in a file of so many tokens: what it does next, or none where the tokens go no further.
#[tactic(auto, using(crate::proofs::Seldom::seldom_left))]
pub fn step(
    machine: &mut Parser<'_>,
    doing: Doing,
    total: usize,
) -> Result<Option<Doing>, AllocError>
    ensures { (d : plain.Doing) (s : List PlainFrame) → ShowsDoing doing d
        → Stands machine.old s (outside_doing d (outside_stack s))
        → Holds (state d s machine.old.scope.names machine.old.rest) → IsBottom s
        → length (tokens_of (state d s machine.old.scope.names machine.old.rest)) ≡ total
        → IfOk result (λ r. Follows r machine.new
        (step_at d s machine.old.scope.names machine.old.rest)) }
{
    match doing {
        Doing::Seek(level) => seek_operand(machine, level),
        Doing::Operated(operand, level) => read_operator(machine, operand, level),
        Doing::Gave(operand) => give_expression(machine, operand),
        Doing::Calling(callee, place, level) => read_call(machine, callee, place, level),
        Doing::Specifying(seen, before) => read_specifier(machine, seen, before),
        Doing::GaveSpecifiers(specified) => give_specifiers(machine, specified),
        Doing::Declaring(manner, presence) => read_declarator(machine, manner, presence),
        Doing::Suffixing(manner, declared) => read_suffix(machine, manner, declared),
        Doing::GaveDeclarator(declared) => give_declarator(machine, declared),
        Doing::Initialising => read_initialiser(machine),
        Doing::Listing(place, list) => read_list(machine, place, list),
        Doing::GaveInitialiser(initialiser) => give_initialiser(machine, initialiser),
        Doing::AfterItem(specified, items) => read_behind_item(machine, specified, items),
        Doing::GaveDeclaration(found) => give_declaration(machine, found, total),
        Doing::Externals(before) => read_external(machine, before),
        Doing::Declarations(inside) => read_declaration(machine, inside),
        Doing::Statements(inside, list) => read_block(machine, inside, list),
        Doing::AtStatement => read_statement(machine),
        Doing::GaveStatement(found, kind) => give_statement(machine, found, kind, total),
        other => step_seldom(machine, other),
    }
}
