// The line of a report.

ghost use Rattle.std.specs.Prelude.{◌≡◌, IfOk, string_bytes};
ghost use Rattle.serde_json.specs.View.{view};
ghost use Rattle.dae_report.specs.Lines.{budget_data, function_data, report_data, report_line};

use crate::reports::{FunctionReport, Report};
use dae_base::Depths;
use serde_json::{Value, json};
use std::alloc::{AllocError, Global};

fn budget_value(alloc: Global, budget: &Depths) -> Result<Value, AllocError>
    ensures { IfOk result (λ value. view value ≡ budget_data budget.now) }
{
    json!(in alloc; {
        "ab": budget.ab,
        "al": budget.al,
        "cq": budget.cq,
        "eb": budget.eb,
        "ld": budget.ld,
        "sa": budget.sa,
        "sd": budget.sd
    })
}

fn function_value(alloc: Global, function: &FunctionReport) -> Result<Value, AllocError>
    ensures { IfOk result (λ value. view value ≡ function_data function.now) }
{
    json!(in alloc; {
        "conditions_a": function.conditions_a,
        "conditions_e": function.conditions_e,
        "loads_a": function.loads_a,
        "loads_e": function.loads_e,
        "name": function.name.as_str(),
        "stores": function.stores
    })
}

fn report_value(alloc: Global, budget: &Depths, report: &Report) -> Result<Value, AllocError>
    ensures { IfOk result (λ value. view value ≡ report_data budget.now report.now) }
{
    let mut functions = Vec::new(alloc);
    for function in report.functions.as_slice() {
        functions.push(function_value(alloc, function)?)?;
    }
    let budget = budget_value(alloc, budget)?;
    json!(in alloc; {"budget": budget, "functions": Value::Array(functions)})
}

/// The line of a report with a budget: JSON without blanks, with the keys in the order of their bytes.
///
/// # Errors
///
/// Memory is wanting.
pub fn report_line(alloc: Global, budget: &Depths, report: &Report) -> Result<String, AllocError>
    ensures { IfOk result (λ line. string_bytes line ≡ report_line budget.now report.now) }
{
    let value = report_value(alloc, budget, report)?;
    let mut line = value.to_string(alloc)?;
    line.push('\n')?;
    Ok(line)
}
