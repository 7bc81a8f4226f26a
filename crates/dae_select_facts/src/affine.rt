// Which affine word a variable equals, and which variable equals an affine word.

ghost use Rattle.std.specs.Prelude.{◌≡◌};
ghost use Rattle.dae_select_walks.specs.Facts.{gives_affine, own_word, fact_affine, affine_among};
ghost use Rattle.dae_select_walks.specs.Facts.{has_affine, fact_variable, equal_among, affine_fact};
ghost use Rattle.dae_select_facts.specs.Knowns.{listed};

use dae_select_bounds::same_affine;
use dae_select_walks::{Affine, Fact};

/// The word of a variable itself.
pub fn own_word(variable: u32) -> Affine
    ensures { result ≡ own_word variable }
{
    Affine {
        scale: 1,
        base: variable,
        offset: 0,
    }
}

fn gives_affine(variable: u32, fact: Fact) -> bool
    ensures { result ≡ gives_affine variable fact }
{
    match fact {
        Fact::Within(_, _) => false,
        Fact::Equals(other, _) => other == variable,
    }
}

fn fact_affine(fact: Fact) -> Affine
    ensures { result ≡ fact_affine fact }
{
    match fact {
        Fact::Within(variable, _) => own_word(variable),
        Fact::Equals(_, affine) => affine,
    }
}

/// The first affine word that is told of a variable.
pub fn affine_among(facts: &[Fact], variable: u32, otherwise: Affine) -> Affine
    ensures { result ≡ affine_among facts.now variable otherwise }
{
    for fact in facts {
        if gives_affine(variable, *fact) {
            return fact_affine(*fact);
        }
    }
    otherwise
}

fn has_affine(affine: Affine, fact: Fact) -> bool
    ensures { result ≡ has_affine affine fact }
{
    match fact {
        Fact::Within(_, _) => false,
        Fact::Equals(_, other) => same_affine(other, affine),
    }
}

fn fact_variable(fact: Fact) -> u32
    ensures { result ≡ fact_variable fact }
{
    match fact {
        Fact::Within(variable, _) => variable,
        Fact::Equals(variable, _) => variable,
    }
}

/// The first variable of which it is told that it equals this word.
pub fn equal_among(facts: &[Fact], affine: Affine, otherwise: Option<u32>) -> Option<u32>
    ensures { result ≡ equal_among facts.now affine otherwise }
{
    for fact in facts {
        if has_affine(affine, *fact) {
            return Some(fact_variable(*fact));
        }
    }
    otherwise
}

/// That a variable equals a word, but where its bounds tell as much, and where the word was made of the variable itself.
pub fn affine_fact(variable: u32, affine: Option<Affine>) -> Option<Fact>
    ensures { listed result ≡ affine_fact variable affine }
{
    match affine {
        None => None,
        Some(affine) => {
            if affine.scale == 0 || affine.base == variable {
                None
            } else {
                Some(Fact::Equals(variable, affine))
            }
        }
    }
}
