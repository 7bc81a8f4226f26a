// Several typed files joined to one program that is lawful: where their objects and literals stand, what the numbers of each
// file mean, and what the memory holds (C90 5.1.1.1, 6.1.2.2 and 6.7).
#![tactic(auto)]

pub use joining::join;

mod contents;
mod joining;
mod meanings;
mod parts;
mod placing;

ghost use Rattle.dae_unit_join.specs.Promise.{JoinedHaveParameters, JoinedIsLawful};

/// What files without a broken rule join to is lawful.
pub fn joined_is_lawful()
    ensures { JoinedIsLawful }
{}

/// In files without a broken rule that join, each function has the parameters of its type.
pub fn joined_have_parameters()
    ensures { JoinedHaveParameters }
{}
