// The report of a whole form.

ghost use Rattle.std.specs.Prelude.{◌≡◌, IfOk, slice_get, true};
ghost use Rattle.std.specs.List.{list_all};
ghost use Rattle.dae_ir.specs.Classes.{classes_in, row_of};
ghost use Rattle.dae_report.specs.Counting.{is_countable};
ghost use Rattle.dae_report.specs.Reports.{function_report, report_of};

use crate::counts::NOTHING;
use crate::walk::count_statements;
use dae_base::{Items, Text};
use dae_ir::{Class, Function, Ir};
use std::alloc::{AllocError, Global};

/// What is counted of a function: the loads into variables that A needs, those into variables that E alone needs, the
/// stores, and the conditions that A and that E decides.
#[derive(Drop)]
pub struct FunctionReport {
    pub name: Text,
    pub loads_a: u32,
    pub loads_e: u32,
    pub stores: u32,
    pub conditions_a: u32,
    pub conditions_e: u32,
}

/// An entry for each function of a form, in order.
#[derive(Drop)]
pub struct Report {
    pub functions: Items<FunctionReport>,
}

fn row_of(tables: &[Items<Class>], function: usize) -> &[Class]
    ensures { result.now ≡ row_of (slice_get tables.now function) }
{
    match tables.get(function) {
        Some(row) => row.as_slice(),
        None => &[],
    }
}

fn count_in_function(
    alloc: Global,
    function: &Function,
    row: &[Class],
) -> Result<FunctionReport, AllocError>
    requires { is_countable function.now ≡ true }
    ensures { IfOk result (λ r. r ≡ function_report (classes_in row.now) function.now) }
{
    let name = Text::from_str(alloc, function.name.as_str())?;
    let mut counts = NOTHING;
    count_statements(&mut counts, row, function.body.as_slice());
    Ok(FunctionReport {
        name,
        loads_a: counts.loads_a,
        loads_e: counts.loads_e,
        stores: counts.stores,
        conditions_a: counts.conditions_a,
        conditions_e: counts.conditions_e,
    })
}

/// The report of a form, by the classes of its functions' variables, where 32 bits count what each function has.
pub fn count(alloc: Global, ir: &Ir, tables: &[Items<Class>]) -> Result<Report, AllocError>
    requires { list_all is_countable ir.now.functions ≡ true }
    ensures { IfOk result (λ report. report ≡ report_of tables.now ir.now) }
{
    let functions = ir.functions.as_slice();
    let mut reports = Items::new(alloc);
    for (number, function) in functions.iter().enumerate() {
        reports.push(count_in_function(alloc, function, row_of(tables, number))?)?;
    }
    Ok(Report { functions: reports })
}
