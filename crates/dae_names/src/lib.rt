// Names in scope by their numbers, and where the latest of each stands, so that a look-up doesn't walk back over the names
// behind it. A name that goes out of scope shows again the one that it hid (C90 6.1.2.1).
#![tactic(auto)]

pub use index::NameIndex;

mod index;
