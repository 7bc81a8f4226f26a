// Going through initialisers and the declarations of a block, up to the first rule that is broken (C90 6.5 and 6.5.7): what an
// object of a file holds, and the statements that a block begins with. An expression stands below, a statement above.
#![tactic(auto)]

pub use blocks::{declarations, has_typedef, tag_scope};
pub use initialisers::{content, look_through};

mod blocks;
mod initialisers;
mod locals;
