// What a C file declares, as the checker of types keeps it: the shapes of types, structures, tags and names, and what is
// known of a value before the program runs. The rules and the code of the checker stand above.
#![tactic(auto)]

pub use numbers::{
    CHAR_ID, INT_ID, NO_PARAMETERS_ID, SHORT_ID, SIGNED_CHAR_ID, UNSIGNED_CHAR_ID, UNSIGNED_ID,
    UNSIGNED_SHORT_ID, VOID_ID,
};
pub use routines::{is_printf, library_of, parameters_of, result_of, routine_type};
pub use rules::{Breach, CheckError, Rule};
pub use tables::{
    Component, Context, Designation, Entity, EntityUse, Innermost, LibraryFunction, Local,
    NamedType, Routine, StaticObject, Storage, Tag, Tagged,
};
pub use types::{Layout, Shape, Structure, layout_with};
pub use values::{Addressing, Category, Known, is_indirect};
pub use words::{word_behind, word_for};

mod numbers;
mod routines;
mod rules;
mod tables;
mod types;
mod values;
mod words;
