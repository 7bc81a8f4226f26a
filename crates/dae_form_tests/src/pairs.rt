// The budget of a pair that is made by hand: each group of each function is counted for itself.

ghost use Rattle.std.specs.Prelude.{◌≡◌, IfOk};
ghost use Rattle.dae_base.specs.declared.LoadKind.TheVariants.{I32};
ghost use Rattle.dae_ir.specs.Code.{Do};
ghost use Rattle.dae_ir.specs.Streams.{Actions, step_onto};
ghost use Rattle.dae_ir.specs.declared.form.Operand.TheVariants.{Number};
ghost use Rattle.dae_ir.specs.declared.stream.Action.TheVariants.{Issue};
ghost use Rattle.dae_split_pair.specs.Tallies.{HasSmallGroups};

use dae_base::{Depths, Items, LoadKind, Place, Side, Text};
use dae_ir::{Action, Mark, Operand, Pair, Step, Stream, StreamFunction};
use dae_split_pair::budget;
use std::alloc::{AllocError, Global};
use std::test::Fail;

fn mark(group: u64) -> Mark
    ensures { result.group ≡ group }
{
    let place = Place {
        file: 0,
        line: 1,
        col: 1,
    };
    Mark { place, group }
}

fn act(mark: Mark, action: Action) -> Step
    ensures { (k : Actions) → step_onto result k ≡ Do mark action k }
{
    Step::Act(mark, action)
}

fn load(mark: Mark) -> Step
    ensures { (k : Actions) → step_onto result k ≡ Do mark (Issue I32 (Number 16)) k }
{
    act(mark, Action::Issue(LoadKind::I32, Operand::Number(16)))
}

fn function(alloc: Global, body: Vec<Step>) -> Result<StreamFunction, AllocError>
    ensures { IfOk result (λ f. f.body ≡ body.items) }
{
    Ok(StreamFunction {
        name: Text::from_str(alloc, "f")?,
        parameters: 0,
        variables: 1,
        frame: 0,
        body: Items::from_vec(body),
    })
}

fn stream(side: Side, functions: Vec<StreamFunction>) -> Stream
    ensures { result.functions ≡ functions.items }
{
    Stream {
        side,
        memory: 64,
        frames: 32,
        calls: 1,
        main: 0,
        functions: Items::from_vec(functions),
    }
}

// A issues two loads of one group and a third of the next, and in another function three of one group, with a message behind.
// E gives a datum.
fn pair(alloc: Global) -> Result<Pair, AllocError>
    ensures { IfOk result HasSmallGroups }
{
    let one = mark(0);
    let next = mark(1);
    let first = Vec::from_array(alloc, [load(one), load(one), load(next)])?;
    let message = act(one, Action::Tell(Operand::Number(0)));
    let second = Vec::from_array(alloc, [load(one), load(one), load(one), message])?;
    let functions = [function(alloc, first)?, function(alloc, second)?];
    let a = Vec::from_array(alloc, functions)?;
    let datum = act(one, Action::Datum(Operand::Number(7)));
    let body = Vec::from_array(alloc, [datum])?;
    let e = Vec::from_array(alloc, [function(alloc, body)?])?;
    Ok(Pair {
        a: stream(Side::A, a),
        e: stream(Side::E, e),
    })
}

#[test]
fn groups_are_counted_apart(rt: HostRuntime) -> Result<(), Fail> {
    let wanted = Depths {
        ld: 3,
        al: 0,
        sa: 0,
        sd: 1,
        ab: 1,
        eb: 0,
        cq: 0,
    };
    assert!(rt; budget(&pair(rt.alloc())?) == wanted);
    Ok(())
}
