// Variables for the loads that are repeated.

ghost use Rattle.std.specs.Prelude.{◌≡◌, ◌+◌, ◌^◌, ◌<◌, length, IfOk};
ghost use Rattle.dae_alias.specs.Tables.{IsTable};

use std::alloc::{AllocError, Global};

/// By a load's number, its own variable or none; and how many variables the function has with those.
#[derive(Drop)]
pub struct Table {
    pub holders: Vec<Option<u32>>,
    pub variables: u32,
}

/// A variable for each load that is marked, from this one on.
pub fn number_marked(alloc: Global, marks: &[bool], first: u32) -> Result<Table, AllocError>
    requires { first + length marks.now < 2 ^ 32 }
    ensures { IfOk result (IsTable marks.now first) }
{
    let mut holders = Vec::new(alloc);
    let mut variables = first;
    for mark in marks {
        if *mark {
            holders.push(Some(variables))?;
            variables += 1;
        } else {
            holders.push(None)?;
        }
    }
    Ok(Table { holders, variables })
}
