// A test that a typed file is sound: what a joiner may rely on, wherever it puts the objects of the file. It goes once through
// the file, and looks up what is used among the uses, what is declared among the declarations, and the members of a structure
// among all members.
#![tactic(auto)]

pub use sound::is_sound;

mod declarations;
mod expressions;
mod extents;
mod functions;
mod names;
mod shapes;
mod sound;
mod statements;
mod tables;
mod used;
