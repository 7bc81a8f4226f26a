// Turns by the round, up to a breakpoint.
ghost use Rattle.std.specs.Prelude.{◌≡◌, is_some};
ghost use Rattle.dae_debug.specs.Sessions.{Went, is_at_break, is_halt, reaches_break};
ghost use Rattle.dae_machine.specs.Answers.{processor};

use crate::breaks::Breaks;
use dae_base::Side;
use dae_core::CoreAnswer;
use dae_machine::{Machine, Pick, Turn};

/// A session takes at most so many steps.
pub const MOST_STEPS: u64 = 1_000_000_000_000;

/// Takes up to so many turns by the round, whose first word is the number of steps that were taken modulo 2^32: until the most steps
/// were taken, until no pick is enabled, or until a step brings its processor to a breakpoint.
pub fn go_on(machine: &mut Machine, breaks: &Breaks, turns: u32)
    ensures { Went breaks.now turns machine.old machine.new }
{
    for _ in 0..turns {
        let taken = machine.taken();
        if taken >= MOST_STEPS {
            return;
        }
        match machine.turn((taken % 4_294_967_296) as u32) {
            Turn::Stepped(pick, _) => {
                if reaches_break(machine, breaks, pick) {
                    return;
                }
            }
            Turn::Final(_) => return,
            Turn::Stuck => return,
        }
    }
}

// Whether the step of this pick, which was the last, brought its processor to a breakpoint.
#[inline(always)]
fn reaches_break(machine: &Machine, breaks: &Breaks, pick: Pick) -> bool
    ensures { result ≡ reaches_break breaks.now pick machine.now.state }
{
    match pick {
        Pick::A => is_at_break(machine, breaks, Side::A),
        Pick::E => is_at_break(machine, breaks, Side::E),
        Pick::Fill(_, _) | Pick::Drain => false,
    }
}

// Whether the next word of a processor is that of a breakpoint.
#[inline(always)]
fn is_at_break(machine: &Machine, breaks: &Breaks, side: Side) -> bool
    ensures { result ≡ is_at_break breaks.now side (processor side machine.now.state) }
{
    breaks.is_at(side, machine.counter(side)) && !is_halted(machine, side)
}

// Whether a processor has halted.
fn is_halted(machine: &Machine, side: Side) -> bool
    ensures { result ≡ is_some (processor side machine.now.state).halt }
{
    is_halt(&machine.answer(side))
}

fn is_halt(answer: &CoreAnswer) -> bool
    ensures { result ≡ is_halt answer.now }
{
    matches!(answer, CoreAnswer::Halted)
}
