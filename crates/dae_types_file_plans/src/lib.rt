// The plans of initialisers, statements, blocks and files: what is asked and what is written in going through each. Nothing
// here runs; the code of the checker stands above.
#![tactic(auto)]

pub use declarations::{FileDeclaration, Role};
pub use surroundings::Surrounding;

mod declarations;
mod surroundings;

ghost use Rattle.dae_types_file_plans.specs.Promise.{FilesAreChecked};

/// A check of a file answers a rule that is broken, at its place, or none is broken and what it gives is what the file comes
/// to.
pub fn files_are_checked()
    ensures { FilesAreChecked }
{}
