// Flags of the variables that are set.

ghost use Rattle.std.specs.Prelude.{◌≡◌, IfOk, Some};
ghost use Rattle.dae_types_ready.specs.Reads.{Sets, all_flags, meet, read_variable, set_variable};

use crate::doubts::Doubt;
use std::alloc::Global;

/// A variable is read that is set.
pub fn read_variable(set: Vec<bool>, variable: u32) -> Result<Vec<bool>, Doubt>
    ensures { IfOk result (Sets (read_variable variable) set.items) }
{
    match set.get(variable as usize) {
        Some(true) => Ok(set),
        _ => Err(Doubt::Unsound),
    }
}

/// A variable that is there is set.
pub fn set_variable(mut set: Vec<bool>, variable: u32) -> Result<Vec<bool>, Doubt>
    ensures { IfOk result (Sets (set_variable variable) set.items) }
{
    let variable = variable as usize;
    if variable >= set.len() {
        return Err(Doubt::Unsound);
    }
    set[variable] = true;
    Ok(set)
}

/// The same flags once more.
pub fn copy_of(set: &Vec<bool>) -> Result<Vec<bool>, Doubt>
    ensures { IfOk result (λ copy. copy.items ≡ set.now.items) }
{
    Ok(set.clone()?)
}

/// All variables count as set, since nothing comes behind.
pub fn set_all(mut set: Vec<bool>) -> Vec<bool>
    ensures { result.items ≡ all_flags set.items }
{
    set.fill(true);
    set
}

/// The variables that both ways set.
pub fn meet(alloc: Global, one: &[bool], other: &[bool]) -> Result<Vec<bool>, Doubt>
    ensures { IfOk result (λ both. both.items ≡ meet one.now other.now) }
{
    let mut both = Vec::new(alloc);
    for (index, flag) in one.iter().enumerate() {
        match other.get(index) {
            Some(other) => both.push(*flag && *other)?,
            None => return Ok(both),
        }
    }
    Ok(both)
}
