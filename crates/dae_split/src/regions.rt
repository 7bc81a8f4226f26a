// Whose region an If or a Loop is. The tests walk over the statement, and they are made at each If and Loop outside of
// regions: where such statements stand inside one another d deep, a statement is looked at up to 2 d times. A source
// text nests some hundreds deep at most.

ghost use Rattle.std.specs.Prelude.{◌≡◌, ◌&&◌, ◌||◌, true, false, not};
ghost use Rattle.dae_ir.specs.Code.{Done};
ghost use Rattle.dae_ir.specs.Form.{Form, before, form_of};
ghost use Rattle.dae_ir.specs.Classes.{classes_of};
ghost use Rattle.dae_ir.specs.Rounds.{region, is_jump};
ghost use Rattle.dae_ir.specs.Streams.{has_loop};
ghost use Rattle.dae_split.specs.Making.{is_a, item_of, test_of, fits, by_side, lies_outside, stands_in, is_outside, tells_in};

use crate::classes::{class, has_test};
use crate::work::{Task, Zone};
use dae_base::{Items, Side};
use dae_ir::{Class, Item, Statement, Test};

/// Whether an item goes to another turn of its loop or behind it.
pub fn is_jump(item: &Item) -> bool
    ensures { result ≡ is_jump item.now }
{
    matches!(item, Item::Break | Item::Continue)
}

fn is_a_item(tables: &[Items<Class>], function: usize, item: &Item) -> bool
    ensures { result ≡ item_of true (classes_of tables.now function) item.now }
{
    match item {
        Item::Assign(v, _) => !class(tables, function, *v).e,
        Item::Load(v, _, _) => !class(tables, function, *v).e,
        Item::Break | Item::Continue => true,
        _ => false,
    }
}

fn is_e_item(tables: &[Items<Class>], function: usize, item: &Item) -> bool
    ensures { result ≡ item_of false (classes_of tables.now function) item.now }
{
    match item {
        Item::Assign(v, _) => !class(tables, function, *v).a,
        Item::Load(v, _, _) => {
            let class = class(tables, function, *v);
            !class.a && !class.e
        }
        Item::Print(..) | Item::Break | Item::Continue => true,
        _ => false,
    }
}

fn item_fits(
    tables: &[Items<Class>],
    function: usize,
    side: Side,
    inside: bool,
    item: &Item,
) -> bool
    ensures { result
        ≡ (item_of (is_a side) (classes_of tables.now function) item.now
        && (inside || not (is_jump item.now))) }
{
    let fits = match side {
        Side::A => is_a_item(tables, function, item),
        Side::E => is_e_item(tables, function, item),
    };
    fits && (inside || !is_jump(item))
}

fn test_fits(tables: &[Items<Class>], function: usize, side: Side, test: Test) -> bool
    ensures { result ≡ test_of (is_a side) (classes_of tables.now function) test }
{
    match side {
        Side::A => has_test(tables, function, test),
        Side::E => !has_test(tables, function, test),
    }
}

#[cycle(fits)]
fn statement_fits(
    tables: &[Items<Class>],
    function: usize,
    side: Side,
    inside: bool,
    statement: &Statement,
) -> bool
    ensures { (k : Form)
        → fits (is_a side) (classes_of tables.now function) inside (before statement.now k)
        ≡ (result && fits (is_a side) (classes_of tables.now function) inside k) }
{
    match statement {
        Statement::Simple(_, item) => item_fits(tables, function, side, inside, item),
        Statement::If(_, test, p, q) => {
            test_fits(tables, function, side, *test)
                && (list_fits(tables, function, side, inside, p)
                    && list_fits(tables, function, side, inside, q))
        }
        Statement::Loop(_, body, step) => {
            list_fits(tables, function, side, true, body)
                && list_fits(tables, function, side, true, step)
        }
    }
}

#[cycle(fits)]
fn list_fits(
    tables: &[Items<Class>],
    function: usize,
    side: Side,
    inside: bool,
    statements: &[Statement],
) -> bool
    ensures { result
        ≡ fits (is_a side) (classes_of tables.now function) inside (form_of statements.now) }
{
    for statement in statements {
        if !statement_fits(tables, function, side, inside, statement) {
            return false;
        }
    }
    true
}

#[cycle(has_loop)]
fn has_loop(statement: &Statement) -> bool
    ensures { (k : Form) → has_loop (before statement.now k) ≡ (result || has_loop k) }
{
    match statement {
        Statement::Simple(..) => false,
        Statement::If(_, _, p, q) => some_has_loop(p) || some_has_loop(q),
        Statement::Loop(..) => true,
    }
}

#[cycle(has_loop)]
fn some_has_loop(statements: &[Statement]) -> bool
    ensures { result ≡ has_loop (form_of statements.now) }
{
    for statement in statements {
        if has_loop(statement) {
            return true;
        }
    }
    false
}

fn region(
    tables: &[Items<Class>],
    function: usize,
    zone: Zone,
    statement: &Statement,
) -> Option<Side>
    ensures { by_side result
        ≡ region (lies_outside zone) (classes_of tables.now function)
        (before statement.now Done) }
{
    match zone {
        Zone::Region => None,
        Zone::Outside => {
            if statement_fits(tables, function, Side::A, false, statement) {
                return Some(Side::A);
            }
            if statement_fits(tables, function, Side::E, false, statement) {
                return Some(Side::E);
            }
            None
        }
    }
}

/// What an If or a Loop becomes in a stream: whether it stands there, where what is in it stands, and whether a message
/// follows it.
#[derive(Clone, Copy)]
pub struct RegionPlan {
    pub stands: bool,
    pub zone: Zone,
    pub tells: bool,
}

/// What a side does of an If or a Loop that stands outside of regions or inside.
pub fn plan_of(tables: &[Items<Class>], task: Task, zone: Zone, statement: &Statement) -> RegionPlan
    ensures stands { result.stands
        ≡ stands_in (is_a task.side)
        (region (lies_outside zone) (classes_of tables.now task.function)
        (before statement.now Done)) }
    ensures outside { lies_outside result.zone
        ≡ is_outside (lies_outside zone)
        (region (lies_outside zone) (classes_of tables.now task.function)
        (before statement.now Done)) }
    ensures tells { result.tells
        ≡ tells_in
        (region (lies_outside zone) (classes_of tables.now task.function)
        (before statement.now Done)) (before statement.now Done) }
{
    match region(tables, task.function, zone, statement) {
        None => RegionPlan {
            stands: true,
            zone,
            tells: false,
        },
        Some(Side::A) => RegionPlan {
            stands: matches!(task.side, Side::A),
            zone: Zone::Region,
            tells: has_loop(statement),
        },
        Some(Side::E) => RegionPlan {
            stands: matches!(task.side, Side::E),
            zone: Zone::Region,
            tells: false,
        },
    }
}
