// What the statements of a function add up to.

ghost use Rattle.dae_ir.specs.Classes.{classes_in};
ghost use Rattle.dae_ir.specs.Code.{Done};
ghost use Rattle.dae_ir.specs.Form.{before, form_of};
ghost use Rattle.dae_report.specs.Counting.{AddsCode, CanGrowBy, parts_of_form};

use crate::counts::{Counts, count_item, count_test};
use dae_ir::{Class, Statement};

/// A list of statements is counted, by the classes of its function's variables.
#[cycle(count)]
pub fn count_statements(counts: &mut Counts, row: &[Class], statements: &[Statement])
    requires { CanGrowBy (parts_of_form (form_of statements.now)) counts.old }
    ensures { AddsCode (classes_in row.now) (form_of statements.now) counts.old counts.new }
{
    for statement in statements {
        count_statement(counts, row, statement);
    }
}

#[cycle(count)]
fn count_statement(counts: &mut Counts, row: &[Class], statement: &Statement)
    requires { CanGrowBy (parts_of_form (before statement.now Done)) counts.old }
    ensures { AddsCode (classes_in row.now) (before statement.now Done) counts.old counts.new }
{
    match statement {
        Statement::Simple(_, item) => count_item(counts, row, item),
        Statement::If(_, test, yes, no) => {
            count_test(counts, row, *test);
            count_statements(counts, row, yes);
            count_statements(counts, row, no);
        }
        Statement::Loop(_, body, step) => {
            count_statements(counts, row, body);
            count_statements(counts, row, step);
        }
    }
}
