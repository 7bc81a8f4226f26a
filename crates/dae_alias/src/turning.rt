// What a load is turned into.

ghost use Rattle.std.specs.Prelude.{◌≡◌, ◌+◌, ◌^◌, ◌<◌, OnOk, IfOk};
ghost use Rattle.dae_alias.specs.Meeting.{known_in};
ghost use Rattle.dae_alias.specs.Reuse.{copy, loads_in, number_of, turned};
ghost use Rattle.dae_alias.specs.Stretches.{IsSetOnceMore, IsSetSeldom};
ghost use Rattle.dae_alias.specs.Turning.{IsTurned, TurnsInto, Writes, holders_of};
ghost use Rattle.dae_ir.specs.declared.form.Statement.TheVariants.{Simple};
ghost use Rattle.dae_ir.specs.Code.{Do, Done};
ghost use Rattle.dae_ir.specs.Form.{before, form_of};
ghost use Rattle.dae_ir.specs.declared.form.Item.TheVariants as item;

use crate::held::Held;
use crate::walking::{Walk, begin_again, meet, pass, start};
use dae_base::{LoadKind, Place};
use dae_ir::{Item, Operand, Statement, Value};
use std::alloc::{AllocError, Global};

/// A load, as it stands in the code.
#[derive(Clone, Copy)]
pub struct FoundLoad {
    pub place: Place,
    pub variable: u32,
    pub kind: LoadKind,
    pub address: Operand,
}

/// A list of statements with its loads reused, and the number of loads up to its end.
#[derive(Drop)]
pub struct ReusedList {
    pub statements: Vec<Statement>,
    pub loads: usize,
}

/// The variable of a load of this number, if it has one.
fn holder_of(table: &[Option<u32>], number: usize) -> Option<u32>
    ensures { result ≡ holders_of table.now number }
{
    match table.get(number) {
        Some(holder) => *holder,
        None => None,
    }
}

/// The number of the load that is repeated, or else its own.
fn number_of(given: Option<Held>, own: usize) -> usize
    ensures { result ≡ number_of given own }
{
    match given {
        Some(earlier) => earlier.number,
        None => own,
    }
}

fn write_load(out: &mut Vec<Statement>, variable: u32, load: FoundLoad) -> Result<(), AllocError>
    ensures { OnOk result
        (Writes (λ k. Do load.place (item.Load variable load.kind load.address) k) out.old.items
        out.new.items) }
{
    let item = Item::Load(variable, load.kind, load.address);
    out.push(Statement::Simple(load.place, item))?;
    Ok(())
}

fn write_copy(
    out: &mut Vec<Statement>,
    place: Place,
    variable: u32,
    from: u32,
) -> Result<(), AllocError>
    ensures { OnOk result
        (Writes (λ k. Do place (copy variable from) k) out.old.items out.new.items) }
{
    let copy = Value::Same(Operand::Variable(from));
    out.push(Statement::Simple(place, Item::Assign(variable, copy)))?;
    Ok(())
}

/// A load, turned into what stands in its place.
fn write_turned(
    out: &mut Vec<Statement>,
    load: FoundLoad,
    given: Option<Held>,
    holder: Option<u32>,
) -> Result<(), AllocError>
    ensures { OnOk result
        (Writes (λ k. turned load.place load.variable load.kind load.address given holder k)
        out.old.items out.new.items) }
{
    match (given, holder) {
        (Some(_), Some(own)) => write_copy(out, load.place, load.variable, own),
        (None, Some(own)) => {
            write_load(out, own, load)?;
            write_copy(out, load.place, load.variable, own)
        }
        (_, None) => write_load(out, load.variable, load),
    }
}

fn write_item(out: &mut Vec<Statement>, place: Place, item: Item) -> Result<(), AllocError>
    ensures { OnOk result (Writes (λ k. Do place item k) out.old.items out.new.items) }
{
    out.push(Statement::Simple(place, item))?;
    Ok(())
}

fn turn_load(
    alloc: Global,
    table: &[Option<u32>],
    walk: &mut Walk,
    out: &mut Vec<Statement>,
    load: FoundLoad,
) -> Result<(), AllocError>
    requires loads { walk.old.loads + 1 < 2 ^ 64 }
    requires seldom { IsSetSeldom (known_in walk.old) }
    ensures turns { OnOk result
        (TurnsInto (holders_of table.now)
        (Simple load.place (item.Load load.variable load.kind load.address)) walk.old walk.new
        out.old.items out.new.items) }
    ensures once { OnOk result (IsSetOnceMore (known_in walk.old) (known_in walk.new)) }
{
    let own = walk.loads;
    let given = meet(alloc, walk, load.variable, load.kind, load.address)?;
    let holder = holder_of(table, number_of(given, own));
    write_turned(out, load, given, holder)
}

fn turn_item(
    alloc: Global,
    table: &[Option<u32>],
    walk: &mut Walk,
    out: &mut Vec<Statement>,
    place: Place,
    item: &Item,
) -> Result<(), AllocError>
    requires loads { walk.old.loads + loads_in (Do place item.now Done) < 2 ^ 64 }
    requires seldom { IsSetSeldom (known_in walk.old) }
    ensures turns { OnOk result
        (TurnsInto (holders_of table.now) (Simple place item.now) walk.old walk.new out.old.items
        out.new.items) }
    ensures once { OnOk result (IsSetOnceMore (known_in walk.old) (known_in walk.new)) }
{
    if let Item::Load(variable, kind, address) = item {
        let load = FoundLoad {
            place,
            variable: *variable,
            kind: *kind,
            address: *address,
        };
        return turn_load(alloc, table, walk, out, load);
    }
    let copy = item.copy(alloc)?;
    pass(alloc, walk, item)?;
    write_item(out, place, copy)
}

/// A list of statements with its loads reused, where so many loads stand before it. The table has the variables of loads.
#[cycle(turn)]
pub fn turn_statements(
    alloc: Global,
    table: &[Option<u32>],
    loads: usize,
    statements: &[Statement],
) -> Result<ReusedList, AllocError>
    requires { loads + loads_in (form_of statements.now) < 2 ^ 64 }
    ensures { IfOk result (IsTurned (holders_of table.now) statements.now loads) }
{
    let mut walk = start(alloc, loads);
    let mut out = Vec::with_capacity(alloc, statements.len())?;
    for statement in statements {
        turn_statement(alloc, table, &mut walk, statement, &mut out)?;
    }
    Ok(ReusedList {
        statements: out,
        loads: walk.loads,
    })
}

#[cycle(turn)]
fn turn_statement(
    alloc: Global,
    table: &[Option<u32>],
    walk: &mut Walk,
    statement: &Statement,
    out: &mut Vec<Statement>,
) -> Result<(), AllocError>
    requires loads { walk.old.loads + loads_in (before statement.now Done) < 2 ^ 64 }
    requires seldom { IsSetSeldom (known_in walk.old) }
    ensures turns { OnOk result
        (TurnsInto (holders_of table.now) statement.now walk.old walk.new out.old.items
        out.new.items) }
    ensures once { OnOk result (IsSetOnceMore (known_in walk.old) (known_in walk.new)) }
{
    match statement {
        Statement::Simple(place, item) => {
            turn_item(alloc, table, walk, out, *place, item)?;
            Ok(())
        }
        Statement::If(place, test, yes, no) => {
            let first = turn_statements(alloc, table, walk.loads, yes)?;
            let second = turn_statements(alloc, table, first.loads, no)?;
            begin_again(walk);
            walk.loads = second.loads;
            out.push(Statement::If(*place, *test, first.statements, second.statements))?;
            Ok(())
        }
        Statement::Loop(place, body, step) => {
            let first = turn_statements(alloc, table, walk.loads, body)?;
            let second = turn_statements(alloc, table, first.loads, step)?;
            begin_again(walk);
            walk.loads = second.loads;
            out.push(Statement::Loop(*place, first.statements, second.statements))?;
            Ok(())
        }
    }
}
