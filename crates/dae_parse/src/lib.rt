// The tree of a file's tokens. It takes the tokens. It gives the file: its tree, names, literals and headers. It promises that
// the tree is the one that the grammar has for the tokens, or says why there is none within the limits: no tree, a node deeper
// than the greatest depth, or a definition with too many tokens. It is a machine with a stack (dae_parse_states); its steps stand in
// a crate for declarations and one for statements. Here are what a part that was read is given to (`given`), the machine's step
// and its run.
#![tactic(auto)]

pub use error::ParseError;
pub use laws::one_answer_is_due;
pub use reading::parse;

mod error;
mod given;
mod laws;
mod reading;
mod run;
mod step;
