// The equations that are known at a place of code.

ghost use Rattle.std.specs.Prelude.{◌≡◌, [], length, nat_eq, IfOk};
ghost use Rattle.dae_commons.specs.Above.{InvolveNoneAbove};
ghost use Rattle.dae_commons.specs.Equations.{both_known, equations_in, met, with_equation, without_variable};

use crate::equations::{Equation, both_known, equation_of, push_equation, remove_involved};
use crate::highest::highest_with;
use dae_ir::Value;
use std::alloc::{AllocError, Global};
use std::marker::Model;

/// The equations that are known at a place, the latest first. None of them involves a variable above the highest, so that what sets
/// such a one, as most that are new, takes none away, without a look. Clauses see the list.
#[derive(Drop)]
pub struct KnownEquations {
    equations: Vec<Equation>,
    highest: u32,
}

impl Model for KnownEquations {
    ghost use Rattle.std.specs.Prelude.{List};
    ghost use Rattle.dae_commons.specs.declared.equations.Equation.{Equation};
    ghost use Rattle.dae_commons.specs.Above.{InvolveNoneAbove};

    ghost Value = { List Equation };

    ghost view = { λ known. known.equations.items };

    ghost invariant = { λ known. InvolveNoneAbove known.highest known.equations.items };
}

impl KnownEquations {
    /// Nothing is known. It takes no memory.
    pub fn new(alloc: Global) -> KnownEquations
        ensures { result ≡ [] }
    {
        KnownEquations {
            equations: Vec::new(alloc),
            highest: 0,
        }
    }

    /// The same equations once more.
    pub fn copy(&self, alloc: Global) -> Result<KnownEquations, AllocError>
        ensures { IfOk result (λ known. known ≡ self.now) }
    {
        let equations = Vec::from_slice(alloc, self.equations.as_slice())?;
        Ok(KnownEquations {
            equations,
            highest: self.highest,
        })
    }

    /// The equations, the latest first.
    pub fn as_slice(&self) -> &[Equation]
        ensures { result.now ≡ self.now }
    {
        self.equations.as_slice()
    }

    /// Whether nothing is known.
    pub fn is_empty(&self) -> bool
        ensures { result ≡ nat_eq (length self.now) 0 }
    {
        self.equations.is_empty()
    }

    /// The equations that are known here, and at another place too.
    fn keep_known_in(
        &self,
        alloc: Global,
        other: &KnownEquations,
    ) -> Result<KnownEquations, AllocError>
        ensures { IfOk result (λ new. new ≡ both_known self.now other.now) }
    {
        let equations = both_known(alloc, self.equations.as_slice(), other.as_slice())?;
        Ok(KnownEquations {
            equations,
            highest: self.highest,
        })
    }
}

// Those of some equations that don't involve a variable: all of them, without a look, where it is above the highest.
fn without_involved(equations: Vec<Equation>, highest: u32, variable: u32) -> Vec<Equation>
    requires { InvolveNoneAbove highest equations.items }
    ensures { result.items ≡ without_variable variable equations.items }
{
    if highest < variable {
        equations
    } else {
        let mut equations = equations;
        remove_involved(&mut equations, variable);
        equations
    }
}

/// The equations that are known behind what sets a variable.
pub fn without_variable(known: KnownEquations, variable: u32) -> KnownEquations
    ensures { result ≡ without_variable variable known }
{
    let KnownEquations { equations, highest } = known;
    KnownEquations {
        equations: without_involved(equations, highest, variable),
        highest,
    }
}

/// The equations that are known behind an assignment.
pub fn with_equation(
    known: KnownEquations,
    variable: u32,
    value: Value,
) -> Result<KnownEquations, AllocError>
    ensures { IfOk result (λ new. new ≡ with_equation variable value known) }
{
    let KnownEquations { equations, highest } = known;
    let mut equations = without_involved(equations, highest, variable);
    push_equation(&mut equations, equation_of(variable, value))?;
    Ok(KnownEquations {
        equations,
        highest: highest_with(highest, variable, value),
    })
}

/// The equations that are known at a place, none where the code doesn't go on.
pub fn equations_in(alloc: Global, known: Option<KnownEquations>) -> KnownEquations
    ensures { result ≡ equations_in known }
{
    match known {
        Some(equations) => equations,
        None => KnownEquations::new(alloc),
    }
}

/// What is known where two ways meet, by what is known at the end of either.
pub fn meet(
    alloc: Global,
    one: Option<KnownEquations>,
    other: Option<KnownEquations>,
) -> Result<Option<KnownEquations>, AllocError>
    ensures { IfOk result (λ new. new ≡ met one other) }
{
    match one {
        None => Ok(other),
        Some(first) => match other {
            None => Ok(Some(first)),
            Some(second) => Ok(Some(first.keep_known_in(alloc, &second)?)),
        },
    }
}
