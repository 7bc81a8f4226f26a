// The steps of the parser's machine in declarations (C90 6.5 and 6.7): specifiers with the bodies of structures and
// enumerations, declarators and their parameters, items, initialisers and definitions. Each is a step of the grammar's machine
// (`Steps`). A definition is counted, and the place of the first with too many tokens is kept.
#![tactic(auto)]

pub use behind::{behind_star, in_enumerator, in_group, in_size, of_cast, of_member, of_sizeof};
pub use bodies::{
    read_behind_comma, read_behind_enumerator, read_body, read_enumerator, read_enumerator_value,
    read_member, read_tag,
};
pub use declarations::{
    for_declaration, in_block, in_file, of_item, of_value, read_behind_item, read_external,
};
pub use declarators::{read_declarator, read_parameters, read_qualifier, read_size, read_suffix};
pub use definitions::in_definition;
pub use initialisers::{in_list, in_value, read_initialiser, read_list};
pub use parameters::of_parameter;
pub use specifiers::{for_cast, for_member, for_parameter, for_sizeof, read_specifier};

mod behind;
mod bodies;
mod declarations;
mod declarators;
mod definitions;
mod initialisers;
mod parameters;
mod specifiers;
