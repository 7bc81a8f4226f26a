// Going through expressions, and the type names, specifiers and declarators that they hold, up to the first rule that is
// broken. They are one cycle, since the size of an array is an expression, `sizeof` holds type names, and a type name may
// declare structures. Statements and declarations stand above.
#![tactic(auto)]

pub use cycle::{
    base, components, declarator, enumerators, expression, members, operand, parameters,
    specifiers, type_name,
};
pub use parts::{
    called_function, constant_value, declared_place, element_count, is_last, name_in,
    place_of_specifiers,
};

mod cycle;
mod parts;
