// What declarations of names break, and else what they add to the tables: types and objects of blocks, functions and objects
// of a file with their linkage (C90 6.1.2.2 and 6.7), the library's functions, and where parameters and local objects are kept.
#![tactic(auto)]

pub use blocks::{declare_local, declare_type, own_entity};
pub use frames::settle_locals;
pub use functions::{declare_function, define_function, is_main_name};
pub use headers::{LibraryNames, begin_file, declare_stdio, declare_stdlib};
pub use introductions::Introduction;
pub use objects::{declare_object, is_extern, is_static, set_object_type, type_of_object};

mod blocks;
mod frames;
mod functions;
mod headers;
mod introductions;
mod objects;
