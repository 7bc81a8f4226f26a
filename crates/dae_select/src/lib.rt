// The code of a side's functions, from what is settled of the side before: the homes of variables, the frames, and the
// words at which functions are entered. Each clause is the block's definition. Nothing fails but for want of memory.
#![tactic(auto)]

pub use counting::is_leaf;
pub use functions::{FunctionCode, function_code};
pub use growing::{PlacedWord, add_places};

mod counting;
mod functions;
mod growing;
mod making;
mod pairing;
mod walking;
