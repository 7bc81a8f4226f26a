// Affine words: which are the same, and those of sums, differences and products.

ghost use Rattle.std.specs.Prelude.{◌≡◌, ◌-◌, ◌^◌};
ghost use Rattle.dae_meaning.specs.declared.Operator.TheVariants.{Add, Multiply};
ghost use Rattle.dae_select_walks.specs.Facts.{same_affine, shifted_by, scaled_by, combined_affine};
ghost use Rattle.dae_select_walks.specs.Facts.{difference_affine};

use dae_ir::Operand;
use dae_meaning::Operator;
use dae_select_walks::Affine;

/// Whether two affine words are of the same scale, base and offset.
pub fn same_affine(one: Affine, other: Affine) -> bool
    ensures { result ≡ same_affine one other }
{
    one.scale == other.scale && one.base == other.base && one.offset == other.offset
}

/// A number more than an affine word.
fn shifted_by(number: u32, affine: Affine) -> Affine
    ensures { result ≡ shifted_by number affine }
{
    Affine {
        scale: affine.scale,
        base: affine.base,
        offset: affine.offset.wrapping_add(number),
    }
}

/// A number times an affine word.
fn scaled_by(number: u32, affine: Affine) -> Affine
    ensures { result ≡ scaled_by number affine }
{
    Affine {
        scale: affine.scale.wrapping_mul(number),
        base: affine.base,
        offset: affine.offset.wrapping_mul(number),
    }
}

fn sum_affine(one: Affine, other: Affine) -> Option<Affine>
    ensures { result ≡ combined_affine Add one other }
{
    if one.scale == 0 {
        Some(shifted_by(one.offset, other))
    } else if other.scale == 0 {
        Some(shifted_by(other.offset, one))
    } else {
        None
    }
}

fn product_affine(one: Affine, other: Affine) -> Option<Affine>
    ensures { result ≡ combined_affine Multiply one other }
{
    if one.scale == 0 {
        Some(scaled_by(one.offset, other))
    } else if other.scale == 0 {
        Some(scaled_by(other.offset, one))
    } else {
        None
    }
}

/// A number less than an affine word.
fn less_by(number: u32, affine: Affine) -> Affine
    ensures { result ≡ shifted_by (2 ^ 32 - number) affine }
{
    Affine {
        scale: affine.scale,
        base: affine.base,
        offset: affine.offset.wrapping_sub(number),
    }
}

/// The affine word of a difference, where a number is taken away.
pub fn difference_affine(affine: Affine, operand: Operand) -> Option<Affine>
    ensures { result ≡ difference_affine affine operand }
{
    match operand {
        Operand::Variable(_) => None,
        Operand::Number(number) => Some(less_by(number, affine)),
    }
}

/// The affine word of a sum with a number, or of a product with one.
pub fn combined_affine(operator: Operator, one: Affine, other: Affine) -> Option<Affine>
    ensures { result ≡ combined_affine operator one other }
{
    match operator {
        Operator::Add => sum_affine(one, other),
        Operator::Multiply => product_affine(one, other),
        _ => None,
    }
}
