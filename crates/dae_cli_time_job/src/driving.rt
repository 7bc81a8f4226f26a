// The loop of a timed run: tick by tick, with a put for each piece that is printed.
ghost use Rattle.std.specs.Prelude.{◌≡◌, ◌≤◌, [], ◌∷◌, map, OnErr, OnOk};
ghost use Rattle.dae_io.specs.Sinks.{IsPutFailed};
ghost use Rattle.dae_cli_drive.specs.Pieces.{then_later};
ghost use Rattle.dae_cli_drive.specs.Puts.{Out};
ghost use Rattle.dae_cli_drive.specs.Turns.{AreOut, Rested};
ghost use Rattle.dae_cli_time_job.specs.Driving.{DrivesTicks, IsOpened};

use dae_base::Piece;
use dae_cli_drive::Driven;
use dae_io::{Sink, SinkFailed};
use dae_machine::{Machine, Rest};
use dae_timing::{TickState, Timed};

/// Lets the machine make ticks until it is final or stuck or the stated number is made, and puts out what each of them
/// prints, one put a tick. It takes no memory. Where a put fails, no further tick is made.
pub fn drive_ticks<O: Sink>(timed: &mut Timed, most: u64, out: &mut O) -> Driven
    requires opened { IsOpened timed.old.clock }
    requires few { most ≤ 100000000000 }
    ensures setup { timed.new.setup ≡ timed.old.setup }
    ensures drives { DrivesTicks result most timed.old timed.new (O.seen out.old) (O.seen out.new) }
{
    for _ in 0..most {
        let tick = timed.tick();
        match tick.state {
            TickState::Going => match put_print(out, &tick.piece) {
                Ok(()) => (),
                Err(_) => return Driven::SinkFailed,
            },
            TickState::Final(end) => return Driven::Final(end),
            TickState::Stuck => return Driven::Stuck,
        }
    }
    rest_of(timed.machine())
}

// How a machine rests that made its stated ticks, or that it can go on.
fn rest_of(machine: &Machine) -> Driven
    ensures { Rested result machine.now.state.steps machine.now.setup machine.now.state }
{
    match machine.rest() {
        Some(Rest::Final(end)) => Driven::Final(end),
        Some(Rest::Stuck) => Driven::Stuck,
        None => Driven::Spent,
    }
}

// Puts out what a tick printed, where that is something.
fn put_print<O: Sink>(out: &mut O, piece: &Piece) -> Result<(), SinkFailed>
    ensures whole { OnOk result
        (AreOut (map Out (then_later piece.now [])) (O.seen out.old) (O.seen out.new)) }
    ensures part { OnErr result (then_later piece.now [] ≡ piece.now ∷ []) }
    ensures failed { OnErr result (IsPutFailed piece.now (O.seen out.old) (O.seen out.new)) }
{
    if piece.is_empty() {
        Ok(())
    } else {
        out.put(piece.text().as_bytes())
    }
}
