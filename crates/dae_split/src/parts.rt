// Parts of groups: loads for E, copies, and when a group is full.

ghost use Rattle.std.specs.Prelude.{◌≡◌};
ghost use Rattle.dae_ir.specs.Classes.{classes_of};
ghost use Rattle.dae_ir.specs.Rounds.{is_for_e, is_copied, how_many, is_full};

use crate::classes::{is_for_e_alone, is_shared};
use dae_base::Items;
use dae_ir::{Class, Part};

fn is_for_e(tables: &[Items<Class>], function: usize, part: &Part) -> bool
    ensures { result ≡ is_for_e (classes_of tables.now function) part.now }
{
    match part {
        Part::Sets(..) => false,
        Part::Loads(_, v, _, _) => is_for_e_alone(tables, function, *v),
        Part::Tests(..) => false,
    }
}

fn is_copied(tables: &[Items<Class>], function: usize, part: &Part) -> bool
    ensures { result ≡ is_copied (classes_of tables.now function) part.now }
{
    match part {
        Part::Sets(_, v, _) => is_shared(tables, function, *v),
        Part::Loads(_, v, _, _) => is_shared(tables, function, *v),
        Part::Tests(..) => false,
    }
}

fn loads_for_e(tables: &[Items<Class>], function: usize, group: &[Part]) -> usize
    ensures { result ≡ how_many (is_for_e (classes_of tables.now function)) group.now }
{
    let mut count = 0;
    for part in group {
        if is_for_e(tables, function, part) {
            count += 1;
        }
    }
    count
}

fn copies(tables: &[Items<Class>], function: usize, group: &[Part]) -> usize
    ensures { result ≡ how_many (is_copied (classes_of tables.now function)) group.now }
{
    let mut count = 0;
    for part in group {
        if is_copied(tables, function, part) {
            count += 1;
        }
    }
    count
}

/// Whether the group must be closed before the part, since it has as many loads for E, or copies, as it may.
pub fn is_full(
    tables: &[Items<Class>],
    function: usize,
    cap: u8,
    group: &[Part],
    part: &Part,
) -> bool
    ensures { result ≡ is_full (classes_of tables.now function) cap group.now part.now }
{
    let cap = usize::from(cap);
    (is_for_e(tables, function, part) && loads_for_e(tables, function, group) == cap)
        || (is_copied(tables, function, part) && copies(tables, function, group) == cap)
}
