// Statements one behind another.

ghost use Rattle.dae_program.specs.Trees.{Done};
ghost use Rattle.dae_program.specs.Views.{statement_then};
ghost use Rattle.dae_types_file_plans.specs.Statements.{behind_all};
ghost use Rattle.dae_types_bodies.specs.Written.{MakesStatements, as_statements};

use dae_program::Statement;
use dae_types_kinds::CheckError;
use std::alloc::Global;

/// One statement.
pub fn alone(alloc: Global, statement: Statement) -> Result<Vec<Statement>, CheckError>
    ensures { MakesStatements result (statement_then statement Done) }
{
    let mut statements = Vec::new(alloc);
    statements.push(statement)?;
    Ok(statements)
}

/// Puts statements behind those that are done.
#[tactic(auto, using(crate::proofs::Arms::statements_append))]
pub fn append(
    mut done: Vec<Statement>,
    mut statements: Vec<Statement>,
) -> Result<Vec<Statement>, CheckError>
    ensures { MakesStatements result (behind_all (as_statements done) (as_statements statements)) }
{
    done.append(&mut statements)?;
    Ok(done)
}
