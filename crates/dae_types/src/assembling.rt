// The parts of a typed file, from the tables and products at its end.

ghost use Rattle.std.specs.Prelude.{◌≡◌, IfOk};
ghost use Rattle.dae_types_tables.specs.Seen.{tables};
ghost use Rattle.dae_types_typed.specs.Reading.{Reads};
ghost use Rattle.dae_types_products.specs.Products.{as_products};

use crate::names::copy_all;
use dae_base::Items;
use dae_types_kinds::CheckError;
use dae_types_products::{Product, functions_in, places_of_bodies, sort};
use dae_types_tables::{Checker, file_tables};
use dae_types_typed::FileParts;

/// The parts of a typed file: what the tables hold at its end, and what it comes to, with its names.
#[tactic(auto, using(crate::proofs::Reading::functions_read, crate::proofs::Reading::places_read))]
pub fn assemble(
    checker: Checker,
    products: Vec<Product>,
    names: &[Items<u8>],
) -> Result<FileParts, CheckError>
    ensures { IfOk result (λ parts. Reads parts (tables checker) (as_products products) names.now) }
{
    let sorted = sort(checker.alloc, products)?;
    let places = places_of_bodies(checker.alloc, &sorted.declarations)?;
    let functions = functions_in(&checker, names, &places, sorted.bodies)?;
    let names = copy_all(checker.alloc, names)?;
    let rest = file_tables(checker);
    Ok(FileParts {
        shapes: Items::from_vec(rest.shapes),
        structures: Items::from_vec(rest.structures),
        components: Items::from_vec(rest.components),
        objects: Items::from_vec(rest.objects),
        routines: Items::from_vec(rest.routines),
        declarations: Items::from_vec(sorted.declarations),
        contents: Items::from_vec(sorted.contents),
        functions: Items::from_vec(functions),
        uses: Items::from_vec(rest.uses),
        names,
        literals: rest.literals,
    })
}
