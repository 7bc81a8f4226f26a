// The links of whole functions.

ghost use Rattle.std.specs.Prelude.{◌≡◌, ℕ, true, OnOk, IfOk};
ghost use Rattle.dae_ir.specs.Code.{Each, Done};
ghost use Rattle.dae_ir.specs.Form.{Form, form_of, before};
ghost use Rattle.dae_ir.specs.declared.form.Test.{Test};
ghost use Rattle.dae_slice.specs.Graphs.{exists, Adds};
ghost use Rattle.dae_slice.specs.Links.{HasTargets, CodeKept, CodeHasTargets};

use crate::graph::Graph;
use crate::items::{Sought, link_item, link_test};
use dae_ir::Statement;
use std::alloc::AllocError;

/// Adds the links of a list of statements of a function.
#[cycle(walk)]
pub fn link_statements(
    graph: &mut Graph,
    sought: Sought,
    function: usize,
    statements: &[Statement],
) -> Result<(), AllocError>
    requires { CodeHasTargets (exists graph.old) function (form_of statements.now) }
    ensures { OnOk result
        (Adds (λ c.
        CodeKept sought.entry c function (form_of statements.now)) graph.old graph.new) }
{
    for statement in statements {
        link_statement(graph, sought, function, statement)?;
    }
    Ok(())
}

#[cycle(walk)]
fn link_statement(
    graph: &mut Graph,
    sought: Sought,
    function: usize,
    statement: &Statement,
) -> Result<(), AllocError>
    requires { CodeHasTargets (exists graph.old) function (before statement.now Done) }
    ensures { OnOk result
        (Adds (λ c.
        CodeKept sought.entry c function (before statement.now Done)) graph.old graph.new) }
{
    match statement {
        Statement::Simple(_, item) => {
            link_item(graph, sought, function, item)?;
            Ok(())
        }
        Statement::If(_, test, yes, no) => {
            link_test(graph, sought, function, *test)?;
            link_statements(graph, sought, function, yes)?;
            link_statements(graph, sought, function, no)?;
            Ok(())
        }
        Statement::Loop(_, body, step) => {
            link_statements(graph, sought, function, body)?;
            link_statements(graph, sought, function, step)?;
            Ok(())
        }
    }
}
