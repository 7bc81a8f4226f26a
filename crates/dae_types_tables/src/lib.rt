// What a C file declares, in memory: the tables that the rules of types ask, and how they grow and go back at the ends of
// scopes. A look-up of a name takes the same time however many there are; one of a tag goes through its table
// from the latest row.
#![tactic(auto)]

pub use checker::Checker;
pub use kept::{FileTables, Kept, copy_kept, file_tables, objects, set_kept, storages};
pub use layouts::{MOST_BYTES, finish_layout, place_member, round_up};
pub use shapes::{
    broken, is_array, is_character, is_function, is_integer, is_pointer, is_scalar, is_structure,
    is_unsigned, is_void,
};

mod basic;
mod checker;
mod entries;
mod kept;
mod layouts;
mod lookups;
mod names;
mod sameness;
mod scopes;
mod shapes;
