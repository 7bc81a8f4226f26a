// What a parser builds: the parts that it keeps, and one function for each node over them, but for statements, whose nodes
// stand beside the steps that make them. A part is a tree with the places of its first nodes at each depth. It takes the
// parts of a node, each with what it shows of the grammar's trees. It gives the part that shows the node over them. It
// promises the places of the first nodes down to the greatest depth, and the tree exactly where no node in it is too deep.
// Nothing fails but for want of memory.
#![tactic(auto)]

pub use declarations::{
    declaration, declared_external, definition, initialiser_list, value, with_declaration,
    with_external, with_initialiser, with_plain_item, with_valued_item,
};
pub use declarators::{
    absent, empty_function, function, grouped, named, no_parameters, pointer, sized_array,
    unsized_array, with_parameter,
};
pub use expressions::{
    assignment, binary, call, cast, comma, conditional, constant, identifier, index, literal,
    member, parenthesised, postfix, prefix, sizeof_expression, sizeof_type, with_argument,
};
pub use lists::{
    has_items, has_members, no_arguments, no_declarations, no_declarators, no_enumerators,
    no_externals, no_initialisers, no_items, no_members, no_statements,
};
pub use specifiers::{
    no_specifiers, with_declarator, with_enumeration, with_enumeration_body, with_member,
    with_plain_enumerator, with_structure, with_structure_body, with_type_name,
    with_valued_enumerator, with_word,
};
pub use values::{Declared, DoParts, Loop, ParameterList, ReadOperand, Specified, TypeBody};

mod declarations;
mod declarators;
mod expressions;
mod lists;
mod specifiers;
mod values;
