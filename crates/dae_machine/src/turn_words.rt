// The words by which a schedule chooses its turns.

ghost use Rattle.std.specs.Prelude.{◌≡◌, ℕ, ◌+◌};
ghost use Rattle.dae_machine.specs.Schedules.{coming, next_number, word_of};

use crate::Schedule;
use std::marker::Model;

/// The words of a schedule, from the next turn on. Clauses see where the schedule stands.
#[derive(Drop)]
pub struct Words {
    schedule: Schedule,
    at: u32,
}

impl Model for Words {
    ghost use Rattle.dae_machine.specs.Schedules.{Standing};

    ghost Value = { Standing };

    ghost view = { λ w. record { schedule = w.schedule; at = w.at } };
}

impl Words {
    /// The words from turn 0 on.
    pub fn of(schedule: Schedule) -> Words
        ensures { (t : ℕ) → coming result t ≡ word_of schedule t }
    {
        let at = match schedule {
            Schedule::Seed(number) => number,
            _ => 0,
        };
        Words { schedule, at }
    }

    /// The word of the next turn.
    #[tactic(auto, using(crate::proofs::Generator::step_first))]
    pub fn next(&mut self) -> u32
        ensures word { result ≡ coming self.old 0 }
        ensures rest { (t : ℕ) → coming self.new t ≡ coming self.old (t + 1) }
    {
        let word = match self.schedule {
            Schedule::Round => self.at,
            Schedule::A => 0,
            Schedule::E => 1,
            Schedule::Fill => 2,
            Schedule::Drain => 3,
            Schedule::Seed(_) => next_number(self.at) / 65_536,
        };
        self.at = match self.schedule {
            Schedule::Seed(_) => next_number(self.at),
            _ => self.at.wrapping_add(1),
        };
        word
    }
}

fn next_number(number: u32) -> u32
    ensures { result ≡ next_number number }
{
    number.wrapping_mul(1_664_525).wrapping_add(1_013_904_223)
}
