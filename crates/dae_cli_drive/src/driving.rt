// The loop of every run: turn by turn, with a put for each piece that is printed.
ghost use Rattle.std.specs.Prelude.{◌≡◌, ℕ, ◌≤◌, [], ◌∷◌, map, OnOk, OnErr};
ghost use Rattle.dae_io.specs.Sinks.{IsPutFailed};
ghost use Rattle.dae_cli_drive.specs.Turns.{AreOut, Drives, Rested};
ghost use Rattle.dae_cli_drive.specs.Pieces.{then_later};
ghost use Rattle.dae_cli_drive.specs.Puts.{Out};

use dae_base::Piece;
use dae_cli_options::RunOptions;
use dae_io::{Sink, SinkFailed};
use dae_machine::{End, Machine, Rest, Turn, Words};

/// What a drive came to: the machine is final, with this end, or stuck; or the stated steps were taken and it can go on;
/// or a put failed.
#[derive(Clone, Copy, PartialEq, Eq, Debug)]
pub enum Driven {
    Final(End),
    Stuck,
    Spent,
    SinkFailed,
}

/// Lets the machine make the turns of the next words, until it is final or stuck or until it has taken the steps of the
/// options in all, and puts out what each step prints, one put a step. It takes no memory. Where a put fails, no further
/// step is taken.
pub fn drive<O: Sink>(
    machine: &mut Machine,
    words: &mut Words,
    options: &RunOptions,
    out: &mut O,
) -> Driven
    requires { machine.old.state.steps ≤ options.now.steps }
    ensures setup { machine.new.setup ≡ machine.old.setup }
    ensures drives { Drives result options.now.steps
        machine.old.setup machine.old.state machine.new.state
        words.old words.new (O.seen out.old) (O.seen out.new) }
{
    let steps = options.values().steps;
    for _ in machine.taken()..steps {
        match machine.turn(words.next()) {
            Turn::Stepped(_, piece) => {
                if put_piece(out, &piece).is_err() {
                    return Driven::SinkFailed;
                }
            }
            Turn::Final(end) => return Driven::Final(end),
            Turn::Stuck => return Driven::Stuck,
        }
    }
    rested(machine)
}

// How a machine that has taken its stated steps rests, or that it can go on.
fn rested(machine: &Machine) -> Driven
    ensures { Rested result machine.now.state.steps machine.now.setup machine.now.state }
{
    match machine.rest() {
        Some(Rest::Final(end)) => Driven::Final(end),
        Some(Rest::Stuck) => Driven::Stuck,
        None => Driven::Spent,
    }
}

// Puts out what a step printed, where that is something.
fn put_piece<O: Sink>(out: &mut O, piece: &Piece) -> Result<(), SinkFailed>
    ensures whole { OnOk result
        (AreOut (map Out (then_later piece.now [])) (O.seen out.old) (O.seen out.new)) }
    ensures part { OnErr result (then_later piece.now [] ≡ piece.now ∷ []) }
    ensures failed { OnErr result (IsPutFailed piece.now (O.seen out.old) (O.seen out.new)) }
{
    if piece.is_empty() {
        Ok(())
    } else {
        out.put(piece.text().as_bytes())
    }
}
