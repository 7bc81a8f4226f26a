// The walk that elides checks.

ghost use Rattle.std.specs.Prelude.{◌≡◌, length, IfOk};
ghost use Rattle.dae_ir.specs.Form.{form_of};
ghost use Rattle.dae_ir.specs.Streams.{actions_of};
ghost use Rattle.dae_select_facts.specs.Knowns.{facts_by};
ghost use Rattle.dae_elide.specs.LikeSteps.{BeginsAlike};
ghost use Rattle.dae_elide.specs.Elided.{as_actions, elided, elided_check, elided_item, is_known, kept_width};
ghost use Rattle.dae_elide.specs.Walked.{IsElided, chosen_by};

use crate::likes::{action_like, first_list, second_list};
use dae_base::Width;
use dae_ir::{Branch, Check, Class, Item, Operand, Statement, Step, Value};
use dae_select_facts::{
    KnownFacts, bounds_in, facts_at_turn, facts_behind, facts_behind_turn, facts_in_list,
    facts_past_if, facts_past_loop, is_aligned, is_good,
};
use dae_select_walks::Edge;
use std::alloc::{AllocError, Global};

/// Whether A alone needs the variable, so that E doesn't have its value sent where it is set.
fn is_chosen(classes: &[Class], variable: u32) -> bool
    ensures { result ≡ chosen_by classes.now variable }
{
    match classes.get(variable as usize) {
        Some(class) => class.a && !class.e,
        None => false,
    }
}

/// Whether each word that the variable may hold is a good address of an access of the width.
fn is_known(memory: u32, classes: &[Class], known: &KnownFacts, width: Width, variable: u32) -> bool
    ensures { result
        ≡ is_known memory (chosen_by classes.now) (facts_by known.now) width variable }
{
    is_chosen(classes, variable)
        && 0 < variable
        && is_good(memory, width, bounds_in(known, variable))
}

/// The width that is left of a check: where the variable is known to hold multiples of the width, the first byte does.
fn kept_width(memory: u32, known: &KnownFacts, width: Width, variable: u32) -> Width
    ensures { result ≡ kept_width memory (facts_by known.now) width variable }
{
    if is_aligned(width, bounds_in(known, variable)) && memory % 4 == 0 {
        Width::B1
    } else {
        width
    }
}

fn elide_check(memory: u32, classes: &[Class], known: &KnownFacts, check: Check) -> Item
    ensures { result ≡ elided_check memory (chosen_by classes.now) (facts_by known.now) check }
{
    match check {
        Check::Place(width, Operand::Variable(variable)) => {
            if is_known(memory, classes, known, width, variable) {
                Item::Assign(variable, Value::Same(Operand::Variable(variable)))
            } else {
                let width = kept_width(memory, known, width, variable);
                Item::Expect(Check::Place(width, Operand::Variable(variable)))
            }
        }
        Check::Place(_, Operand::Number(_)) => Item::Expect(check),
        Check::InBounds(_, _) => Item::Expect(check),
        Check::Zero(_) => Item::Expect(check),
        Check::Room(_) => Item::Expect(check),
        Check::Frame => Item::Expect(check),
        Check::Abort => Item::Expect(check),
    }
}

fn elide_item(
    alloc: Global,
    memory: u32,
    classes: &[Class],
    known: &KnownFacts,
    item: &Item,
) -> Result<Item, AllocError>
    ensures { IfOk result (λ new.
        new ≡ elided_item memory (chosen_by classes.now) (facts_by known.now) item.now) }
{
    match item {
        Item::Expect(check) => Ok(elide_check(memory, classes, known, *check)),
        Item::Assign(_, _) | Item::Load(_, _, _) | Item::Store(_, _, _) => item.copy(alloc),
        Item::Print(_, _) | Item::Break | Item::Continue => item.copy(alloc),
        Item::Call(_, _, _) | Item::Return(_) | Item::Halt(_) => item.copy(alloc),
    }
}

/// A statement without its known checks, and what is known behind it.
#[derive(Drop)]
struct Elided {
    statement: Statement,
    known: KnownFacts,
}

#[cycle(elide)]
fn elide_statement(
    alloc: Global,
    memory: u32,
    classes: &[Class],
    known: KnownFacts,
    statement: &Statement,
    like: &Step,
) -> Result<Elided, AllocError>
    requires { BeginsAlike statement.now like.now }
    ensures { IfOk result (λ e. IsElided memory (chosen_by classes.now) (facts_by known)
        statement.now e.statement (facts_by e.known)) }
{
    match statement {
        Statement::Simple(place, item) => {
            let action = action_like(alloc, item);
            let item = elide_item(alloc, memory, classes, &known, item)?;
            let past = facts_behind(memory, known, &action)?;
            Ok(Elided {
                statement: Statement::Simple(*place, item),
                known: past,
            })
        }
        Statement::If(place, test, yes, no) => {
            let branch = Branch::Silent(*test);
            let one = first_list(like);
            let other = second_list(like);
            let in_first = facts_in_list(alloc, branch, Edge::Then, &known)?;
            let first = elide_list(alloc, memory, classes, in_first, yes, one)?;
            let in_second = facts_in_list(alloc, branch, Edge::Else, &known)?;
            let second = elide_list(alloc, memory, classes, in_second, no, other)?;
            let past = facts_past_if(alloc, branch, one, other, &known)?;
            Ok(Elided {
                statement: Statement::If(*place, *test, first, second),
                known: past,
            })
        }
        Statement::Loop(place, body, step) => {
            let turn = first_list(like);
            let again = second_list(like);
            let at_turn = facts_at_turn(alloc, memory, turn, again, &known)?;
            let at_step = facts_behind_turn(alloc, turn, &at_turn)?;
            let past = facts_past_loop(alloc, turn, again, &known)?;
            let first = elide_list(alloc, memory, classes, at_turn, body, turn)?;
            let second = elide_list(alloc, memory, classes, at_step, step, again)?;
            Ok(Elided {
                statement: Statement::Loop(*place, first, second),
                known: past,
            })
        }
    }
}

/// Statements without the checks that are known to pass, where this is known before them, memory has so many addresses, and these
/// are the classes of the variables. The steps are those in which the same is known.
#[cycle(elide)]
pub fn elide_list(
    alloc: Global,
    memory: u32,
    classes: &[Class],
    known: KnownFacts,
    statements: &[Statement],
    steps: &[Step],
) -> Result<Vec<Statement>, AllocError>
    requires alike { actions_of steps.now ≡ as_actions (form_of statements.now) }
    requires long { length steps.now ≡ length statements.now }
    ensures { IfOk result (λ new. form_of new.items
        ≡ elided memory (chosen_by classes.now) (facts_by known) (form_of statements.now)) }
{
    let mut new = Vec::with_capacity(alloc, statements.len())?;
    let mut known = known;
    for index in 0..statements.len() {
        let statement = &statements[index];
        let like = &steps[index];
        let elided = elide_statement(alloc, memory, classes, known, statement, like)?;
        new.push(elided.statement)?;
        known = elided.known;
    }
    Ok(new)
}
