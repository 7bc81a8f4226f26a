// The numbers of the spans of variables.

ghost use Rattle.std.specs.Prelude.{◌≡◌, ℕ, ◌≤◌, ◌<◌, List, [], Option, length, OnOk};
ghost use Rattle.dae_regalloc.specs.Seen.{number_in, with_number};

use std::alloc::{AllocError, Global};
use std::marker::Model;

/// For each variable that has a span, its number. Clauses see what each variable has, from 0 on, up to some variable
/// behind which none has one.
#[derive(Drop)]
pub struct SpanNumbers {
    inside: Vec<Option<usize>>,
}

impl Model for SpanNumbers {
    ghost use Rattle.std.specs.Prelude.{ℕ, List, Option};

    ghost Value = { List (Option ℕ) };

    ghost view = { λ numbers. numbers.inside.items };
}

impl SpanNumbers {
    /// No variable has a number. It takes no memory.
    pub fn new(alloc: Global) -> SpanNumbers
        ensures { result ≡ [] }
    {
        SpanNumbers {
            inside: Vec::new(alloc),
        }
    }

    /// How many variables there are up to the last one that has a number, or more.
    pub fn bound(&self) -> usize
        ensures { result ≡ length self.now }
    {
        self.inside.len()
    }

    /// The number of the variable at this place, which may be behind those of all variables.
    #[tactic(auto, using(crate::proofs::Numbering::number_inside, crate::proofs::Numbering::number_beyond))]
    pub fn number(&self, variable: usize) -> Option<usize>
        ensures { result ≡ number_in self.now variable }
    {
        if variable < self.inside.len() {
            self.inside[variable]
        } else {
            None
        }
    }

    #[tactic(auto, using(crate::proofs::Numbering::number_pushed))]
    fn grow(&mut self, bound: usize) -> Result<(), AllocError>
        ensures same { OnOk result (number_in self.new ≡ number_in self.old) }
        ensures long { OnOk result (bound ≤ length self.new) }
        ensures few { OnOk result ((n : ℕ) → length self.old ≤ n → bound ≤ n
            → length self.new ≤ n) }
    {
        for _ in 0..bound.saturating_sub(self.inside.len()) {
            self.inside.push(None)?;
        }
        Ok(())
    }

    /// The variable gets a number.
    #[tactic(auto, using(crate::proofs::Numbering::number_set))]
    pub fn put(&mut self, variable: u32, number: usize) -> Result<(), AllocError>
        ensures number { OnOk result (number_in self.new
            ≡ with_number variable number (number_in self.old)) }
        ensures few { OnOk result ((n : ℕ) → length self.old ≤ n → variable < n
            → length self.new ≤ n) }
    {
        self.grow(variable as usize + 1)?;
        self.inside[variable as usize] = Some(number);
        Ok(())
    }
}
