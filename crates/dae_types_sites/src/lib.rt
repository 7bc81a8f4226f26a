// The rules and the tables at each step through specifiers and declarators: what a word, a tag, a member, an enumerator or a
// part of a declarator breaks, and else what it adds to the tables.
#![tactic(auto)]

pub use declarators::{
    Adjustment, add_named_local, add_parameter, element_count, is_taken, make_array, make_function,
    make_pointer, make_unsized_array,
};
pub use enumerations::{add_enumerator, constant_value, declare_enumeration, enumeration_by_tag};
pub use structures::{TagScope, add_member, begin_structure, end_structure, structure_by_tag};
pub use words::{base_type, check_word, type_of_name};

mod declarators;
mod enumerations;
mod structures;
mod words;
