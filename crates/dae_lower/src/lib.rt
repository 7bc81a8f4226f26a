// From typed programs to the structured form, which keeps their meaning: in specs/ the form of a program as a function.
#![tactic(auto)]

pub use theorems::{form_keeps, forms_close, forms_never_stray, meaning_kept, programs_kept};

mod theorems;
