// What a branch tells of the variables that it compares.

ghost use Rattle.std.specs.Prelude.{◌≡◌, ◌-◌, ◌^◌, ◌&&◌, [], nat_lt, if◌then◌else◌};
ghost use Rattle.dae_select_walks.specs.Edges.{is_then};
ghost use Rattle.dae_select_walks.specs.Facts.{is_bounded, at_most, test_facts, branch_facts};
ghost use Rattle.dae_select_facts.specs.Knowns.{facts_by, listed};

use crate::known::{KnownFacts, operand_bounds};
use dae_ir::{Branch, Operand, Test};
use dae_meaning::Comparison;
use dae_select_bounds::is_bounded;
use dae_select_walks::{Bounds, Edge, Fact};

/// Words below it are the same as signed ones.
pub const HALF: u32 = 1 << 31;

/// The operand is at most this.
fn at_most(operand: Operand, bounds: Bounds, most: u32) -> Option<Fact>
    ensures { listed result ≡ at_most operand bounds most }
{
    match operand {
        Operand::Variable(variable) => Some(Fact::Within(
            variable,
            Bounds {
                low: bounds.low,
                high: if bounds.high < most {
                    bounds.high
                } else {
                    most
                },
                aligned: bounds.aligned,
            },
        )),
        Operand::Number(_) => None,
    }
}

/// The one operand is less than the other.
fn less_unsigned(operand: Operand, one: Bounds, other: Bounds) -> Option<Fact>
    ensures { listed result ≡ (if is_bounded other && nat_lt 0 other.high
        then at_most operand one (other.high - 1) else []) }
{
    if is_bounded(other) && 0 < other.high {
        at_most(operand, one, other.high - 1)
    } else {
        None
    }
}

/// The one operand is at most the other.
fn most_unsigned(operand: Operand, one: Bounds, other: Bounds) -> Option<Fact>
    ensures { listed result
        ≡ (if is_bounded other then at_most operand one other.high else []) }
{
    if is_bounded(other) {
        at_most(operand, one, other.high)
    } else {
        None
    }
}

/// Whether the words of both are below HALF.
fn are_small(one: Bounds, other: Bounds) -> bool
    ensures { result ≡ (nat_lt one.high (2 ^ 31) && nat_lt other.high (2 ^ 31)) }
{
    one.high < HALF && other.high < HALF
}

/// The one operand is less than the other, as signed words.
fn less_signed(operand: Operand, one: Bounds, other: Bounds) -> Option<Fact>
    ensures { listed result
        ≡ (if (nat_lt one.high (2 ^ 31) && nat_lt other.high (2 ^ 31)) && nat_lt 0 other.high
        then at_most operand one (other.high - 1) else []) }
{
    if are_small(one, other) && 0 < other.high {
        at_most(operand, one, other.high - 1)
    } else {
        None
    }
}

/// The one operand is at most the other, as signed words.
fn most_signed(operand: Operand, one: Bounds, other: Bounds) -> Option<Fact>
    ensures { listed result ≡ (if nat_lt other.high (2 ^ 31) && nat_lt one.high (2 ^ 31)
        then at_most operand one other.high else []) }
{
    if are_small(other, one) {
        at_most(operand, one, other.high)
    } else {
        None
    }
}

/// What a test tells along an edge.
fn test_fact(test: Test, edge: Edge, known: &KnownFacts) -> Option<Fact>
    ensures { listed result ≡ test_facts test (is_then edge) (facts_by known.now) }
{
    let left = operand_bounds(known, test.left);
    let right = operand_bounds(known, test.right);
    match (test.comparison, edge) {
        (Comparison::LessUnsigned, Edge::Then) => less_unsigned(test.left, left, right),
        (Comparison::LessUnsigned, Edge::Else) => most_unsigned(test.right, right, left),
        (Comparison::AtLeastUnsigned, Edge::Then) => most_unsigned(test.right, right, left),
        (Comparison::AtLeastUnsigned, Edge::Else) => less_unsigned(test.left, left, right),
        (Comparison::LessSigned, Edge::Then) => less_signed(test.left, left, right),
        (Comparison::LessSigned, Edge::Else) => most_signed(test.right, right, left),
        (Comparison::AtLeastSigned, Edge::Then) => most_signed(test.right, right, left),
        (Comparison::AtLeastSigned, Edge::Else) => less_signed(test.left, left, right),
        (Comparison::Equal, _) | (Comparison::NotEqual, _) => None,
    }
}

/// What a branch tells along an edge.
pub fn branch_fact(branch: Branch, edge: Edge, known: &KnownFacts) -> Option<Fact>
    ensures { listed result ≡ branch_facts branch (is_then edge) (facts_by known.now) }
{
    match branch {
        Branch::Silent(test) => test_fact(test, edge, known),
        Branch::Tells(test) => test_fact(test, edge, known),
        Branch::Hears => None,
    }
}
