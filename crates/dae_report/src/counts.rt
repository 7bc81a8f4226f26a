// Five numbers, as they grow by an item or a condition.

ghost use Rattle.dae_ir.specs.Classes.{classes_in};
ghost use Rattle.dae_report.specs.Counting.{AddsItem, AddsLoad, AddsTest, CanGrowBy};

use crate::classes::{class_of, is_by_a};
use dae_ir::{Class, Item, Test};

/// The loads that A needs and those that E alone needs, the stores, and the conditions that A and that E decides.
#[derive(Clone, Copy)]
pub struct Counts {
    pub loads_a: u32,
    pub loads_e: u32,
    pub stores: u32,
    pub conditions_a: u32,
    pub conditions_e: u32,
}

/// None of any.
pub const NOTHING: Counts = Counts {
    loads_a: 0,
    loads_e: 0,
    stores: 0,
    conditions_a: 0,
    conditions_e: 0,
};

fn count_load(counts: &mut Counts, class: Class)
    requires { CanGrowBy 1 counts.old }
    ensures { AddsLoad class counts.old counts.new }
{
    if class.a {
        counts.loads_a += 1;
    } else if class.e {
        counts.loads_e += 1;
    }
}

/// An item is counted.
pub fn count_item(counts: &mut Counts, row: &[Class], item: &Item)
    requires { CanGrowBy 1 counts.old }
    ensures { AddsItem (classes_in row.now) item.now counts.old counts.new }
{
    match item {
        Item::Load(variable, _, _) => count_load(counts, class_of(row, *variable)),
        Item::Store(..) => counts.stores += 1,
        _ => {}
    }
}

/// A condition is counted.
pub fn count_test(counts: &mut Counts, row: &[Class], test: Test)
    requires { CanGrowBy 1 counts.old }
    ensures { AddsTest (classes_in row.now) test counts.old counts.new }
{
    if is_by_a(row, test) {
        counts.conditions_a += 1;
    } else {
        counts.conditions_e += 1;
    }
}
