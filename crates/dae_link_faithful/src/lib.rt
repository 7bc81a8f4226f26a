// An image is faithful to a form: where its two codes are made of the form's two streams, every run of it does what the form
// does. The theorem is the contract of a function that does nothing.
#![tactic(auto)]

ghost use Rattle.dae_link_faithful.specs.Made.{MadeDoesForm};

pub use laws::{code_uses, pair_uses};

mod laws;

/// An image that is made of the two streams of a form does the form, in every order of steps.
pub fn made_does_form()
    ensures { MadeDoesForm }
{}
