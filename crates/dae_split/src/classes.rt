// Which processors need a variable, an operand, a condition or a check.

ghost use Rattle.std.specs.Prelude.{◌≡◌, ◌&&◌, not};
ghost use Rattle.dae_ir.specs.Classes.{classes_in, classes_of, has, has_test, has_check};
ghost use Rattle.dae_ir.specs.Streams.{set_of};
ghost use Rattle.dae_split.specs.Making.{is_a};

use dae_base::{Items, Side};
use dae_ir::{Check, Class, Operand, Test};

/// The class of a variable of a function: neither processor needs one that the tables don't have.
pub fn class(tables: &[Items<Class>], function: usize, v: u32) -> Class
    ensures a { result.a ≡ (classes_of tables.now function).s v }
    ensures e { result.e ≡ (classes_of tables.now function).needs v }
{
    match tables.get(function) {
        Some(table) => row_class(table, v),
        None => Class { a: false, e: false },
    }
}

fn row_class(table: &Items<Class>, v: u32) -> Class
    ensures a { result.a ≡ (classes_in table.now).s v }
    ensures e { result.e ≡ (classes_in table.now).needs v }
{
    match table.as_slice().get(v as usize) {
        Some(class) => *class,
        None => Class { a: false, e: false },
    }
}

/// Whether a side needs a variable.
pub fn needs(tables: &[Items<Class>], function: usize, side: Side, v: u32) -> bool
    ensures { result ≡ set_of (is_a side) (classes_of tables.now function) v }
{
    let class = class(tables, function, v);
    match side {
        Side::A => class.a,
        Side::E => class.e,
    }
}

/// Whether A sends a copy of what is put into the variable.
pub fn is_shared(tables: &[Items<Class>], function: usize, v: u32) -> bool
    ensures { result
        ≡ ((classes_of tables.now function).s v && (classes_of tables.now function).needs v) }
{
    let class = class(tables, function, v);
    class.a && class.e
}

/// Whether E alone needs the variable.
pub fn is_for_e_alone(tables: &[Items<Class>], function: usize, v: u32) -> bool
    ensures { result
        ≡ (not ((classes_of tables.now function).s v) && (classes_of tables.now function).needs v) }
{
    let class = class(tables, function, v);
    !class.a && class.e
}

fn has(tables: &[Items<Class>], function: usize, operand: Operand) -> bool
    ensures { result ≡ has (classes_of tables.now function).s operand }
{
    match operand {
        Operand::Variable(v) => class(tables, function, v).a,
        Operand::Number(_) => true,
    }
}

/// Whether A has all variables of a condition, and so decides it.
pub fn has_test(tables: &[Items<Class>], function: usize, test: Test) -> bool
    ensures { result ≡ has_test (classes_of tables.now function).s test }
{
    has(tables, function, test.left) && has(tables, function, test.right)
}

/// Whether A has all variables of a check, and so decides it.
pub fn has_check(tables: &[Items<Class>], function: usize, check: Check) -> bool
    ensures { result ≡ has_check (classes_of tables.now function).s check }
{
    match check {
        Check::Place(_, operand) => has(tables, function, operand),
        Check::InBounds(operand, _) => has(tables, function, operand),
        Check::Zero(operand) => has(tables, function, operand),
        Check::Room(_) => true,
        Check::Frame => true,
        Check::Abort => true,
    }
}
