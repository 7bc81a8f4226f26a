// What is true of the form of every lawful program: it is well made, it sets each variable before it reads it, and it is no
// larger than its program allows. The laws are the contracts of functions that do nothing but call others like them.
#![tactic(auto)]

pub use theorems::{
    code_within, forms_do_programs, forms_name, forms_scoped, forms_set_first, forms_small,
    lowered_do_programs, made_set_first, variables_within,
};

mod theorems;
