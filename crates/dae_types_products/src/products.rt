// What parts of a file come to, in the order of the text.

ghost use Rattle.std.specs.Prelude.{◌++◌};
ghost use Rattle.dae_types_file_plans.specs.Files.{declares_function, declares_object};
ghost use Rattle.dae_types_products.specs.Products.{MakesProducts, as_products};

use dae_base::Place;
use dae_program::{Setting, Statement};
use dae_types_file_plans::{FileDeclaration, Role};
use dae_types_kinds::{CheckError, Entity, Local, Storage};
use std::alloc::Global;

/// A function with its body, by its number: its parameters and local objects, where each is kept, and its statements.
#[derive(Drop)]
pub struct Body {
    pub routine: usize,
    pub locals: Vec<Local>,
    pub storages: Vec<Storage>,
    pub statements: Vec<Statement>,
}

/// What a part of a file comes to: a declaration of an object or a function, what an object holds that is initialised, by its
/// number, or a function with its body.
#[derive(Drop)]
pub enum Product {
    Declares(FileDeclaration),
    Data(usize, Vec<Setting>),
    Body(Body),
}

/// What two parts come to, in order.
#[tactic(auto, using(crate::proofs::Lists::products_append))]
pub fn append(mut done: Vec<Product>, mut more: Vec<Product>) -> Result<Vec<Product>, CheckError>
    ensures { MakesProducts result (as_products done ++ as_products more) }
{
    done.append(&mut more)?;
    Ok(done)
}

/// A declaration of an object, if it has a number.
pub fn declares_object(
    alloc: Global,
    place: Place,
    role: Role,
    object: Option<usize>,
) -> Result<Vec<Product>, CheckError>
    ensures { MakesProducts result (declares_object place role object) }
{
    let mut products = Vec::new(alloc);
    if let Some(object) = object {
        products.push(Product::Declares(FileDeclaration {
            entity: Entity::Object(object),
            place,
            role,
        }))?;
    }
    Ok(products)
}

/// A declaration of a function, if it has a number.
pub fn declares_function(
    alloc: Global,
    place: Place,
    role: Role,
    function: Option<usize>,
) -> Result<Vec<Product>, CheckError>
    ensures { MakesProducts result (declares_function place role function) }
{
    let mut products = Vec::new(alloc);
    if let Some(function) = function {
        products.push(Product::Declares(FileDeclaration {
            entity: Entity::Function(function),
            place,
            role,
        }))?;
    }
    Ok(products)
}
