// The bodies of functions, which are gone through twice.

ghost use Rattle.std.specs.Prelude.{◌≡◌, Some};
ghost use Rattle.dae_tree.specs.Views.{views_parameters};
ghost use Rattle.dae_types_kinds.specs.Values.{result_of};
ghost use Rattle.dae_types_file_plans.specs.Files.{body_product, first_time, in_body, is_main_name, named_at, plan_body_of, second_time, surrounding, twice};
ghost use Rattle.dae_types_tables.specs.Seen.{tables, Follows};
ghost use Rattle.dae_types_bodies.specs.Written.{GivesStatements, as_statements};
ghost use Rattle.dae_types_products.specs.Products.{GivesProducts, MakesProducts};
ghost use Rattle.dae_types_externals.specs.Parts.{plan_body_in, plan_statements_of};

use dae_base::Place;
use dae_program::Statement;
use dae_tree::{Block, Name, Parameter};
use dae_types_file_plans::Surrounding;
use dae_types_kinds::{CheckError, Rule, result_of};
use dae_types_linkage::{is_main_name, settle_locals};
use dae_types_products::{Body, Product};
use dae_types_statements::block;
use dae_types_tables::{Checker, broken, copy_kept, set_kept, storages};
use dae_types_walk::place_of_specifiers;

/// What the declarator of a definition declares: the function's name, if there is one, with its
/// place, and its type.
#[derive(Clone, Copy)]
pub struct Signature {
    pub place: Place,
    pub name: Option<Name>,
    pub type_id: usize,
}

/// Asks that each parameter of a definition has a name (C90 6.7.1). The place is that of the declared name.
#[tactic(auto, unfolding(dae_types_rules::specs::Plan::ask_all))]
fn check_names(checker: &Checker, place: Place, parameters: &[Parameter]) -> Result<(), CheckError>
    ensures { Follows checker.now result
        (named_at place (views_parameters parameters.now)) checker.now }
{
    for parameter in parameters {
        if parameter.declarator.name().is_none() {
            let place = place_of_specifiers(&parameter.specifiers, place);
            return Err(broken(Rule::ParameterName, place));
        }
    }
    Ok(())
}

/// What stands round the statements of a function.
fn surrounding(checker: &Checker, signature: Signature) -> Surrounding
    ensures { result
        ≡ surrounding (tables checker.now) (is_main_name (tables checker.now) signature.name)
        (Some signature.type_id) }
{
    Surrounding {
        result: Some(result_of(checker.shape_of(signature.type_id))),
        is_main: is_main_name(checker, signature.name),
        inside_loop: false,
        inside_switch: false,
    }
}

/// The statements of a body, in the scope of its parameters.
fn body_statements(
    checker: &mut Checker,
    around: Surrounding,
    body: &Block,
) -> Result<Vec<Statement>, CheckError>
    ensures { GivesStatements checker.new result
        (in_body (plan_statements_of around body.now)) checker.old }
{
    let outer = checker.reopen()?;
    let statements = block(checker, around, &body.declarations, &body.statements)?;
    checker.close(outer)?;
    Ok(statements)
}

/// Goes through a body for the first time, to see whose address is taken.
fn look_at_body(
    checker: &mut Checker,
    parameters: usize,
    around: Surrounding,
    body: &Block,
) -> Result<(), CheckError>
    ensures { Follows checker.new result
        (first_time parameters (plan_statements_of around body.now)) checker.old }
{
    let outer = checker.reopen()?;
    block(checker, around, &body.declarations, &body.statements)?;
    checker.close(outer)
}

/// A function with its body, by its number.
fn body_product(
    checker: &Checker,
    function: usize,
    statements: Vec<Statement>,
) -> Result<Vec<Product>, CheckError>
    ensures { MakesProducts result
        (body_product function (tables checker.now) (as_statements statements)) }
{
    let mut locals = Vec::new(checker.alloc);
    locals.extend_from_slice(checker.locals())?;
    let mut kept = Vec::new(checker.alloc);
    kept.extend_from_slice(storages(checker))?;
    let mut products = Vec::new(checker.alloc);
    products.push(Product::Body(Body {
        routine: function,
        locals,
        storages: kept,
        statements,
    }))?;
    Ok(products)
}

/// Goes through a body for the second time, with each parameter and local object in its place.
fn write_body(
    checker: &mut Checker,
    function: Option<usize>,
    around: Surrounding,
    body: &Block,
) -> Result<Vec<Product>, CheckError>
    ensures { GivesProducts checker.new result
        (second_time function (plan_statements_of around body.now)) checker.old }
{
    let statements = body_statements(checker, around, body)?;
    match function {
        Some(function) => body_product(checker, function, statements),
        None => Ok(Vec::new(checker.alloc)),
    }
}

/// Goes through a body twice. Uses are noted the second time.
fn body_twice(
    checker: &mut Checker,
    parameters: usize,
    function: Option<usize>,
    around: Surrounding,
    body: &Block,
) -> Result<Vec<Product>, CheckError>
    ensures { GivesProducts checker.new result
        (twice parameters function (plan_statements_of around body.now)) checker.old }
{
    let kept = copy_kept(checker)?;
    let uses = checker.copy_uses()?;
    look_at_body(checker, parameters, around, body)?;
    set_kept(checker, kept);
    checker.set_uses(uses);
    settle_locals(checker, parameters)?;
    write_body(checker, function, around, body)
}

/// The body of a function, by its number.
#[tactic(auto, using(crate::proofs::Parameters::parameters_counted))]
pub fn function_body(
    checker: &mut Checker,
    signature: Signature,
    parameters: &[Parameter],
    body: &Block,
    function: Option<usize>,
) -> Result<Vec<Product>, CheckError>
    ensures { GivesProducts checker.new result
        (plan_body_in signature.place signature.name (views_parameters parameters.now) body.now
        signature.type_id function) checker.old }
{
    check_names(checker, signature.place, parameters)?;
    let around = surrounding(checker, signature);
    body_twice(checker, parameters.len(), function, around, body)
}
