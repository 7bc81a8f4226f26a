// What a variable's class says of loads and of conditions.

ghost use Rattle.std.specs.Prelude.{◌≡◌};
ghost use Rattle.dae_ir.specs.Classes.{classes_in, has, is_by_a};

use dae_ir::{Class, Operand, Test};

/// The class of a variable: neither processor needs one that the row doesn't have.
pub fn class_of(row: &[Class], variable: u32) -> Class
    ensures a { result.a ≡ (classes_in row.now).s variable }
    ensures e { result.e ≡ (classes_in row.now).needs variable }
{
    match row.get(variable as usize) {
        Some(class) => *class,
        None => Class { a: false, e: false },
    }
}

fn has(row: &[Class], operand: Operand) -> bool
    ensures { result ≡ has (classes_in row.now).s operand }
{
    match operand {
        Operand::Variable(variable) => class_of(row, variable).a,
        Operand::Number(_) => true,
    }
}

/// Whether A has all variables of a condition, and so decides it.
pub fn is_by_a(row: &[Class], test: Test) -> bool
    ensures { result ≡ is_by_a (classes_in row.now).s test }
{
    has(row, test.left) && has(row, test.right)
}
