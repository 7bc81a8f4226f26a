// Going through a file's declarations and definitions at file scope, up to the first rule that is broken (C90 6.7). The body of
// a function is gone through twice: first to see whose address is taken, and then with each parameter and local object in its
// place.
#![tactic(auto)]

pub use externals::file_products;

mod bodies;
mod declarations;
mod definitions;
mod externals;
