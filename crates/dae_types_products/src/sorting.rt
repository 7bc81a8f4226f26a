// What a file comes to, sorted: its declarations, what its objects hold, and its functions with bodies.

ghost use Rattle.dae_program.specs.Views.{view_settings};
ghost use Rattle.dae_types_file_plans.specs.Files.{Data, Declares};
ghost use Rattle.dae_types_products.specs.Functions.{SortsAll, SortsOne};
ghost use Rattle.dae_types_products.specs.Products.{view_body, view_product};

use crate::products::{Body, Product};
use dae_base::Items;
use dae_types_file_plans::FileDeclaration;
use dae_types_kinds::CheckError;
use dae_types_typed::Datum;
use std::alloc::Global;

/// A file's declarations, what its objects hold, and its functions with bodies, each in the order of the text.
#[derive(Drop)]
pub struct Sorted {
    pub declarations: Vec<FileDeclaration>,
    pub contents: Vec<Datum>,
    pub bodies: Vec<Body>,
}

/// Adds a declaration.
#[tactic(auto, using(crate::proofs::Lists::sorted_declaration))]
fn add_declaration(mut sorted: Sorted, declaration: FileDeclaration) -> Result<Sorted, CheckError>
    ensures { SortsOne sorted (Declares declaration) result }
{
    sorted.declarations.push(declaration)?;
    Ok(sorted)
}

/// Adds what an object holds.
#[tactic(auto, using(crate::proofs::Lists::sorted_content))]
fn add_content(mut sorted: Sorted, datum: Datum) -> Result<Sorted, CheckError>
    ensures { SortsOne sorted (Data datum.object (view_settings datum.settings)) result }
{
    sorted.contents.push(datum)?;
    Ok(sorted)
}

/// Adds a function with its body.
#[tactic(auto, using(crate::proofs::Lists::sorted_body))]
fn add_body(mut sorted: Sorted, body: Body) -> Result<Sorted, CheckError>
    ensures { SortsOne sorted (view_body body) result }
{
    sorted.bodies.push(body)?;
    Ok(sorted)
}

/// Adds what one part of a file comes to.
fn add(sorted: Sorted, product: Product) -> Result<Sorted, CheckError>
    ensures { SortsOne sorted (view_product product) result }
{
    match product {
        Product::Declares(declaration) => add_declaration(sorted, declaration),
        Product::Data(object, settings) => {
            let settings = Items::from_vec(settings);
            add_content(sorted, Datum { object, settings })
        }
        Product::Body(body) => add_body(sorted, body),
    }
}

/// What a file comes to, sorted.
#[tactic(auto, using(crate::proofs::Lists::sorted_further))]
pub fn sort(alloc: Global, products: Vec<Product>) -> Result<Sorted, CheckError>
    ensures { SortsAll products result }
{
    let mut sorted = Sorted {
        declarations: Vec::new(alloc),
        contents: Vec::new(alloc),
        bodies: Vec::new(alloc),
    };
    for product in products {
        sorted = add(sorted, product)?;
    }
    Ok(sorted)
}
