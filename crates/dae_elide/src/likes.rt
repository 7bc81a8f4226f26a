// Steps in which the same is known as in statements.

ghost use Rattle.std.specs.Prelude.{◌≡◌, IfOk};
ghost use Rattle.dae_ir.specs.Form.{form_of};
ghost use Rattle.dae_ir.specs.Code.{Done};
ghost use Rattle.dae_ir.specs.Streams.{actions_of, step_onto};
ghost use Rattle.dae_elide.specs.LikeSteps.{first_list, second_list};
ghost use Rattle.dae_elide.specs.Elided.{as_action, as_actions};
ghost use Rattle.dae_elide.specs.Walked.{IsLike};

use dae_base::Items;
use dae_ir::{Action, Branch, Item, Mark, Statement, Step};
use std::alloc::{AllocError, Global};

/// The action behind which the same is known as behind an item.
pub fn action_like(alloc: Global, item: &Item) -> Action
    ensures { result ≡ as_action item.now }
{
    match item {
        Item::Assign(variable, value) => Action::Set(*variable, *value),
        Item::Load(variable, kind, operand) => Action::Own(*variable, *kind, *operand),
        Item::Store(_, _, _) => Action::Hear(None),
        Item::Print(_, _) => Action::Hear(None),
        Item::Expect(check) => Action::Probe(*check),
        Item::Break => Action::Break,
        Item::Continue => Action::Continue,
        Item::Call(variable, function, _) => {
            Action::Call(Some(*variable), *function, Items::new(alloc))
        }
        Item::Return(operand) => Action::Return(Some(*operand)),
        Item::Halt(_) => Action::Hear(None),
    }
}

#[cycle(like)]
fn step_like(alloc: Global, statement: &Statement) -> Result<Step, AllocError>
    ensures { IfOk result (IsLike statement.now) }
{
    match statement {
        Statement::Simple(place, item) => {
            let mark = Mark {
                place: *place,
                group: 0,
            };
            Ok(Step::Act(mark, action_like(alloc, item)))
        }
        Statement::If(place, test, yes, no) => {
            let first = steps_like(alloc, yes)?;
            let second = steps_like(alloc, no)?;
            let mark = Mark {
                place: *place,
                group: 0,
            };
            Ok(Step::If(mark, Branch::Silent(*test), first, second))
        }
        Statement::Loop(place, body, step) => {
            let first = steps_like(alloc, body)?;
            let second = steps_like(alloc, step)?;
            let mark = Mark {
                place: *place,
                group: 0,
            };
            Ok(Step::Loop(mark, first, second))
        }
    }
}

/// The steps in which the same is known as in statements.
#[cycle(like)]
pub fn steps_like(alloc: Global, statements: &[Statement]) -> Result<Vec<Step>, AllocError>
    ensures { IfOk result (λ steps.
        actions_of steps.items ≡ as_actions (form_of statements.now)) }
{
    let mut steps = Vec::with_capacity(alloc, statements.len())?;
    for statement in statements {
        let step = step_like(alloc, statement)?;
        steps.push(step)?;
    }
    Ok(steps)
}

/// The first list of a step; an empty one where it has no lists.
pub fn first_list(step: &Step) -> &[Step]
    ensures { actions_of result.now ≡ first_list (step_onto step.now Done) }
{
    match step {
        Step::If(_, _, first, _) => first.as_slice(),
        Step::Loop(_, first, _) => first.as_slice(),
        Step::Act(_, _) => &[],
    }
}

/// The second list of a step; an empty one where it has no lists.
pub fn second_list(step: &Step) -> &[Step]
    ensures { actions_of result.now ≡ second_list (step_onto step.now Done) }
{
    match step {
        Step::If(_, _, _, second) => second.as_slice(),
        Step::Loop(_, _, second) => second.as_slice(),
        Step::Act(_, _) => &[],
    }
}
