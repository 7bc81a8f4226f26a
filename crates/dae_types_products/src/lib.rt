// What a file comes to in memory, part by part: what it declares, what its objects hold, and its functions with their bodies;
// and the functions of a typed file, with their variables and frames.
#![tactic(auto)]

pub use frames::{count_variables, frame_size, next_storage, slots_of};
pub use functions::{functions_in, places_of_bodies};
pub use products::{Body, Product, append, declares_function, declares_object};
pub use sorting::{Sorted, sort};

mod frames;
mod functions;
mod products;
mod sorting;
