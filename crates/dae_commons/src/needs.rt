// Which variables the processors need alike.

ghost use Rattle.std.specs.Prelude.{◌≡◌};
ghost use Rattle.dae_ir.specs.Classes.{classes_in};
ghost use Rattle.dae_commons.specs.Copies.{are_alike};

use dae_ir::Class;

/// The class of a variable: neither processor needs one that the row doesn't have.
pub fn class_of(row: &[Class], variable: u32) -> Class
    ensures a { result.a ≡ (classes_in row.now).s variable }
    ensures e { result.e ≡ (classes_in row.now).needs variable }
{
    match row.get(variable as usize) {
        Some(class) => *class,
        None => Class { a: false, e: false },
    }
}

/// Whether just those processors need the one variable that need the other.
pub fn are_alike(row: &[Class], one: u32, other: u32) -> bool
    ensures { result ≡ are_alike (classes_in row.now) one other }
{
    let first = class_of(row, one);
    let second = class_of(row, other);
    first.a == second.a && first.e == second.e
}
