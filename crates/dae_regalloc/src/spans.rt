// The spans of variables over the places seen so far.

ghost use Rattle.std.specs.Prelude.{◌≡◌, ℕ, ◌+◌, ◌^◌, ◌<◌, ◌∷◌, [], List, true, length, slice_get, slice_set, Some, OnOk};
ghost use Rattle.dae_ir.specs.Classes.{VariableSet};
ghost use Rattle.dae_select_live.specs.Members.{member};
ghost use Rattle.dae_regalloc.specs.Seen.{widened, number_in, with_number, IsFurther, AreSeen};

use crate::Span;
use crate::numbers::SpanNumbers;
use dae_select_live::LiveSet;
use std::alloc::{AllocError, Global};

/// The spans of the variables that are live at the places seen so far, which are seen from the last to the first: the place
/// that is seen first has the number 0. They are in the order of their first places.
#[derive(Drop)]
pub struct Spans {
    pub spans: Vec<Span>,
    pub numbers: SpanNumbers,
    pub places: u32,
}

impl Spans {
    /// No place is seen yet.
    pub fn new(alloc: Global) -> Spans
        ensures { AreSeen [] result }
    {
        Spans {
            spans: Vec::new(alloc),
            numbers: SpanNumbers::new(alloc),
            places: 0,
        }
    }

    /// A span comes to reach up to the next place.
    fn widen(&mut self, number: usize)
        requires { number < length self.old.spans.items }
        ensures spans { (x : _) → slice_get self.old.spans.items number ≡ Some x
            → self.new.spans.items
            ≡ slice_set self.old.spans.items number (widened x self.old.places) }
        ensures numbers { self.new.numbers ≡ self.old.numbers }
        ensures places { self.new.places ≡ self.old.places }
    {
        self.spans[number].last = self.places;
    }

    /// A variable is live at the next place.
    fn see_variable(&mut self, variable: u32) -> Result<(), AllocError>
        ensures { OnOk result (IsFurther (λ v. v ≡ variable) self.old self.new) }
    {
        match self.numbers.number(variable as usize) {
            Some(number) => {
                if number < self.spans.len() {
                    self.widen(number);
                }
                Ok(())
            }
            None => {
                self.numbers.put(variable, self.spans.len())?;
                self.spans.push(Span {
                    variable,
                    first: self.places,
                    last: self.places,
                })?;
                Ok(())
            }
        }
    }

    /// The variables of the set are live at the next place.
    fn see_variables(&mut self, set: &LiveSet) -> Result<(), AllocError>
        ensures { OnOk result (IsFurther (λ v. member set.now v ≡ true) self.old self.new) }
    {
        for variable in set.variables() {
            self.see_variable(*variable)?;
        }
        Ok(())
    }

    /// The next place is seen, where the variables of the set are live.
    pub fn see(&mut self, set: &LiveSet) -> Result<(), AllocError>
        requires { self.old.places + 1 < 2 ^ 32 }
        ensures seen { OnOk result ((places : List VariableSet) → AreSeen places self.old
            → AreSeen (member set.now ∷ places) self.new) }
        ensures count { OnOk result (self.new.places ≡ self.old.places + 1) }
    {
        self.see_variables(set)?;
        self.places += 1;
        Ok(())
    }
}
