// What is known of variables at a place of a list, and behind an action.

ghost use Rattle.std.specs.Prelude.{◌≡◌, ◌++◌, take, IfOk, OnOk};
ghost use Rattle.dae_select_walks.specs.Facts.{unknown, gives_bounds, fact_bounds, bounds_among};
ghost use Rattle.dae_select_walks.specs.Facts.{bounds_in, operand_bounds, affine_in, operand_affine};
ghost use Rattle.dae_select_walks.specs.Facts.{some_bounds, equal_in, equal_bounds, result_affine};
ghost use Rattle.dae_select_walks.specs.Facts.{value_bounds, affine_of, just, is_about, less};
ghost use Rattle.dae_select_walks.specs.Facts.{fact_of, any, with_bounds, with_affine};
ghost use Rattle.dae_select_walks.specs.Facts.{refined, facts_behind, result_bounds};
ghost use Rattle.dae_select_facts.specs.Knowns.{facts_by, listed};

use crate::affine::{affine_among, affine_fact, equal_among, own_word};
use crate::bounds::{passed_bounds, says_nothing};
use dae_ir::{Action, Check, Operand, Value};
use dae_meaning::Operator;
use dae_select_bounds::{
    any, closer, combined_affine, combined_bounds, difference_affine, extended_bounds, flag_bounds,
    is_bounded, single,
};
use dae_select_walks::{Affine, Bounds, Fact};
use std::alloc::{AllocError, Global};

/// What is known at a place of a list: what was known where the list begins, of variables that it hasn't set, and what its
/// latest actions tell.
#[derive(Drop)]
pub struct KnownFacts {
    pub outer: Vec<Fact>,
    pub inner: Vec<Fact>,
}

fn gives_bounds(variable: u32, fact: Fact) -> bool
    ensures { result ≡ gives_bounds variable fact }
{
    match fact {
        Fact::Within(other, _) => other == variable,
        Fact::Equals(_, _) => false,
    }
}

fn fact_bounds(fact: Fact) -> Bounds
    ensures { result ≡ fact_bounds fact }
{
    match fact {
        Fact::Within(_, bounds) => bounds,
        Fact::Equals(_, _) => any(),
    }
}

/// The first bounds that are told of a variable.
fn bounds_among(facts: &[Fact], variable: u32, otherwise: Bounds) -> Bounds
    ensures { result ≡ bounds_among facts.now variable otherwise }
{
    for fact in facts {
        if gives_bounds(variable, *fact) {
            return fact_bounds(*fact);
        }
    }
    otherwise
}

pub fn bounds_in(known: &KnownFacts, variable: u32) -> Bounds
    ensures { result ≡ bounds_in (facts_by known.now) variable }
{
    let outer = bounds_among(known.outer.as_slice(), variable, any());
    bounds_among(known.inner.as_slice(), variable, outer)
}

pub fn operand_bounds(known: &KnownFacts, operand: Operand) -> Bounds
    ensures { result ≡ operand_bounds (facts_by known.now) operand }
{
    match operand {
        Operand::Variable(variable) => bounds_in(known, variable),
        Operand::Number(number) => single(number),
    }
}

fn affine_in(known: &KnownFacts, variable: u32) -> Affine
    ensures { result ≡ affine_in (facts_by known.now) variable }
{
    let outer = affine_among(known.outer.as_slice(), variable, own_word(variable));
    affine_among(known.inner.as_slice(), variable, outer)
}

fn operand_affine(known: &KnownFacts, operand: Operand) -> Affine
    ensures { result ≡ operand_affine (facts_by known.now) operand }
{
    match operand {
        Operand::Variable(variable) => affine_in(known, variable),
        Operand::Number(number) => Affine {
            scale: 0,
            base: 0,
            offset: number,
        },
    }
}

/// The bounds of a word that equals a variable's.
fn some_bounds(known: &KnownFacts, variable: Option<u32>) -> Bounds
    ensures { result ≡ some_bounds (facts_by known.now) variable }
{
    match variable {
        None => any(),
        Some(variable) => {
            let bounds = bounds_in(known, variable);
            if is_bounded(bounds) { bounds } else { any() }
        }
    }
}

fn equal_in(known: &KnownFacts, affine: Affine) -> Option<u32>
    ensures { result ≡ equal_in (facts_by known.now) affine }
{
    let outer = equal_among(known.outer.as_slice(), affine, None);
    equal_among(known.inner.as_slice(), affine, outer)
}

/// What is told of variables that equal an affine word.
fn equal_bounds(known: &KnownFacts, affine: Option<Affine>) -> Bounds
    ensures { result ≡ equal_bounds (facts_by known.now) affine }
{
    match affine {
        None => any(),
        Some(affine) => some_bounds(known, equal_in(known, affine)),
    }
}

/// The affine word that an operation computes.
fn result_affine(
    known: &KnownFacts,
    operator: Operator,
    left: Operand,
    right: Operand,
) -> Option<Affine>
    ensures { result ≡ result_affine (facts_by known.now) operator left right }
{
    let one = operand_affine(known, left);
    match operator {
        Operator::Subtract => difference_affine(one, right),
        _ => combined_affine(operator, one, operand_affine(known, right)),
    }
}

/// The bounds of an operation's result, which is this affine word if one: by those of its operands, and by what is told of
/// variables that equal it.
fn result_bounds(
    known: &KnownFacts,
    operator: Operator,
    left: Operand,
    right: Operand,
    affine: Option<Affine>,
) -> Bounds
    requires { affine ≡ result_affine (facts_by known.now) operator left right }
    ensures { result ≡ result_bounds (facts_by known.now) operator left right }
{
    let one = operand_bounds(known, left);
    let bounds = combined_bounds(operator, one, operand_bounds(known, right));
    closer(bounds, equal_bounds(known, affine))
}

/// The affine word that a value computes.
fn affine_of(known: &KnownFacts, value: Value) -> Option<Affine>
    ensures { result ≡ affine_of (facts_by known.now) value }
{
    match value {
        Value::Same(operand) => Some(operand_affine(known, operand)),
        Value::Binary(operator, left, right) => result_affine(known, operator, left, right),
        Value::Extended(_, _) | Value::Holds(_) | Value::FrameAddress(_) => None,
    }
}

/// The bounds of a value, which is this affine word if one.
fn value_bounds(known: &KnownFacts, value: Value, affine: Option<Affine>) -> Bounds
    requires { affine ≡ affine_of (facts_by known.now) value }
    ensures { result ≡ value_bounds (facts_by known.now) value }
{
    match value {
        Value::Same(operand) => operand_bounds(known, operand),
        Value::Binary(operator, left, right) => {
            result_bounds(known, operator, left, right, affine)
        }
        Value::Extended(kind, operand) => extended_bounds(kind, operand_bounds(known, operand)),
        Value::Holds(_) => flag_bounds(),
        Value::FrameAddress(_) => any(),
    }
}

/// Whether a fact is of a variable.
fn is_of(variable: u32, fact: Fact) -> bool
    ensures { result ≡ is_about (just variable) fact }
{
    match fact {
        Fact::Within(other, _) => other == variable,
        Fact::Equals(other, affine) => other == variable || affine.base == variable,
    }
}

/// What is told of a variable is told no longer.
fn remove_facts(facts: &mut Vec<Fact>, variable: u32)
    ensures { facts.new.items ≡ less (just variable) facts.old.items }
{
    facts.retain(|fact| !is_of(variable, *fact));
}

/// A fact, where there is one, comes before others, of which the latest few are kept.
fn push_latest(facts: &mut Vec<Fact>, fact: Option<Fact>) -> Result<(), AllocError>
    ensures { OnOk result (facts.new.items ≡ take 64 (listed fact ++ facts.old.items)) }
{
    if let Some(fact) = fact {
        facts.insert(0, fact)?;
    }
    facts.truncate(64);
    Ok(())
}

/// That a variable's word is in these bounds, where they say anything.
fn fact_of(variable: u32, bounds: Bounds) -> Option<Fact>
    ensures { listed result ≡ fact_of variable bounds }
{
    if says_nothing(bounds) {
        None
    } else {
        Some(Fact::Within(variable, bounds))
    }
}

/// A variable gets a word in these bounds.
fn with_bounds(known: KnownFacts, variable: u32, bounds: Bounds) -> Result<KnownFacts, AllocError>
    ensures { IfOk result (λ new. facts_by new ≡ with_bounds variable bounds (facts_by known)) }
{
    let KnownFacts {
        mut outer,
        mut inner,
    } = known;
    remove_facts(&mut outer, variable);
    remove_facts(&mut inner, variable);
    push_latest(&mut inner, fact_of(variable, bounds))?;
    Ok(KnownFacts { outer, inner })
}

/// A variable that was set equals an affine word.
fn with_affine(
    known: KnownFacts,
    variable: u32,
    affine: Option<Affine>,
) -> Result<KnownFacts, AllocError>
    ensures { IfOk result (λ new. facts_by new ≡ with_affine variable affine (facts_by known)) }
{
    let KnownFacts { outer, mut inner } = known;
    push_latest(&mut inner, affine_fact(variable, affine))?;
    Ok(KnownFacts { outer, inner })
}

/// More is known of a variable.
fn refine(known: KnownFacts, variable: u32, bounds: Bounds) -> Result<KnownFacts, AllocError>
    ensures { IfOk result (λ new. facts_by new ≡ refined variable bounds (facts_by known)) }
{
    let KnownFacts { outer, mut inner } = known;
    push_latest(&mut inner, fact_of(variable, bounds))?;
    Ok(KnownFacts { outer, inner })
}

/// Nothing is known.
pub fn unknown(alloc: Global) -> KnownFacts
    ensures { facts_by result ≡ unknown }
{
    KnownFacts {
        outer: Vec::new(alloc),
        inner: Vec::new(alloc),
    }
}

/// What is known behind an action.
pub fn facts_behind(
    memory: u32,
    known: KnownFacts,
    action: &Action,
) -> Result<KnownFacts, AllocError>
    ensures { IfOk result (λ new. facts_by new
        ≡ facts_behind memory action.now (facts_by known)) }
{
    match action {
        Action::Set(variable, value) => {
            let affine = affine_of(&known, *value);
            let bounds = value_bounds(&known, *value, affine);
            let next = with_bounds(known, *variable, bounds)?;
            with_affine(next, *variable, affine)
        }
        Action::Own(variable, _, _) | Action::Receive(variable) | Action::Accept(variable) => {
            with_bounds(known, *variable, any())
        }
        Action::Probe(Check::Place(width, Operand::Variable(variable))) => {
            let bounds = passed_bounds(memory, *width, bounds_in(&known, *variable));
            refine(known, *variable, bounds)
        }
        Action::Call(None, _, _) => Ok(known),
        Action::Call(Some(variable), _, _) => { with_bounds(known, *variable, any()) }
        _ => Ok(known),
    }
}
