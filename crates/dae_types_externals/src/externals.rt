// The declarations and definitions of a file, and its end.

ghost use Rattle.std.specs.Prelude.{[]};
ghost use Rattle.dae_tree.specs.FileViews.{view_external, view_externals};
ghost use Rattle.dae_types_file_plans.specs.Files.{plan_external, plan_externals, plan_file};
ghost use Rattle.dae_types_tables.specs.Seen.{Follows};
ghost use Rattle.dae_types_products.specs.Products.{GivesProducts, as_products};
ghost use Rattle.dae_types_externals.specs.Parts.{plan_end};

use crate::declarations::add_declaration;
use crate::definitions::add_definition;
use dae_tree::External;
use dae_types_kinds::{CheckError, Rule};
use dae_types_products::Product;
use dae_types_tables::{Checker, broken, objects};

/// Adds what a declaration or definition comes to.
fn add_external(
    checker: &mut Checker,
    done: Vec<Product>,
    external: &External,
) -> Result<Vec<Product>, CheckError>
    ensures { GivesProducts checker.new result
        (plan_external (as_products done) (view_external external.now)) checker.old }
{
    match external {
        External::Declaration(declaration) => { add_declaration(checker, done, declaration) }
        External::Definition(specifiers, declarator, block) => {
            add_definition(checker, done, specifiers, declarator, block)
        }
    }
}

/// What declarations and definitions come to.
fn externals(checker: &mut Checker, list: &[External]) -> Result<Vec<Product>, CheckError>
    ensures { GivesProducts checker.new result
        (plan_externals [] (view_externals list.now)) checker.old }
{
    let mut done = Vec::new(checker.alloc);
    for external in list {
        done = add_external(checker, done, external)?;
    }
    Ok(done)
}

/// Asks at the end of a file that each object that has room there has a complete type (C90 6.7.2).
#[tactic(auto, unfolding(dae_types_rules::specs::Plan::ask_all))]
fn check_end(checker: &Checker) -> Result<(), CheckError>
    ensures { Follows checker.now result plan_end checker.now }
{
    for object in objects(checker) {
        if let Some(place) = object.placed {
            if !checker.is_complete(object.type_id) {
                return Err(broken(Rule::Incomplete, place));
            }
        }
    }
    Ok(())
}

/// What a file comes to, in the order of the text.
#[tactic(auto, using(crate::proofs::Steps::file_follows, crate::proofs::Steps::file_stops, crate::proofs::Steps::file_ends))]
pub fn file_products(checker: &mut Checker, list: &[External]) -> Result<Vec<Product>, CheckError>
    ensures { GivesProducts checker.new result (plan_file (view_externals list.now)) checker.old }
{
    let products = externals(checker, list)?;
    check_end(checker)?;
    Ok(products)
}
