// What declarations say of names beside their types.

use dae_base::Place;
use dae_tree::Name;

/// What a declaration introduces: where its name stands, the name, unless a part of the text has none, and whether an
/// initialiser is given.
#[derive(Clone, Copy)]
pub struct Introduction {
    pub place: Place,
    pub name: Option<Name>,
    pub given: bool,
}
