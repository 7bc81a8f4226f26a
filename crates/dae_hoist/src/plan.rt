// What hoisting goes by: which variables hold which values.

ghost use Rattle.std.specs.Prelude.{◌≡◌};
ghost use Rattle.dae_ir.specs.Classes.{classes_in};
ghost use Rattle.dae_hoist.specs.Hoisted.{holding_in};
ghost use Rattle.dae_hoist.specs.Kept.{is_kept};
ghost use Rattle.dae_hoist.specs.Planned.{hoisting_of};

use dae_ir::{Class, Value};

/// A function's parameters and variables; by its number, the value that a variable is to hold; and the classes of the variables before
/// and behind.
#[derive(Drop)]
pub struct HoistPlan {
    pub parameters: u32,
    pub variables: u32,
    pub values: Vec<Option<Value>>,
    pub row: Vec<Class>,
    pub new_row: Vec<Class>,
}

fn found_at(values: &[Option<Value>], variable: u32) -> Option<Value>
    ensures { result ≡ holding_in values.now variable }
{
    match values.get(variable as usize) {
        Some(found) => *found,
        None => None,
    }
}

/// The value that a variable is to hold.
pub fn value_for(plan: &HoistPlan, variable: u32) -> Option<Value>
    ensures { result ≡ (hoisting_of plan.now).holding variable }
{
    found_at(&plan.values, variable)
}

fn is_addressed_in(row: &[Class], variable: u32) -> bool
    ensures { result ≡ (classes_in row.now).s variable }
{
    match row.get(variable as usize) {
        Some(class) => class.a,
        None => false,
    }
}

/// Whether a variable leads to addresses in the form before.
pub fn led_to_addresses(plan: &HoistPlan, variable: u32) -> bool
    ensures { result ≡ (hoisting_of plan.now).sets variable }
{
    is_addressed_in(&plan.row, variable)
}

/// Whether a variable leads to addresses where values are held.
pub fn leads_to_addresses(plan: &HoistPlan, variable: u32) -> bool
    ensures { result ≡ (hoisting_of plan.now).new_sets variable }
{
    is_addressed_in(&plan.new_row, variable)
}

/// Whether a variable holds no value for a loop, and leads to addresses as before.
pub fn is_kept(plan: &HoistPlan, variable: u32) -> bool
    ensures { result ≡ is_kept (hoisting_of plan.now) variable }
{
    match value_for(plan, variable) {
        Some(_) => false,
        None => led_to_addresses(plan, variable) == leads_to_addresses(plan, variable),
    }
}
