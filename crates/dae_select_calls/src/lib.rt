// The code of checks, of calls, of what a function begins with, and of what a side begins and ends with, from what is settled
// of the side before. Each clause is the block's definition. Nothing fails but for want of memory.
#![tactic(auto)]

pub use calling::{Callee, call_code, leave_code, prologue_code};
pub use checking::{check_code, placed_code};
pub use layouts::{FunctionLayout, Layouts};
pub use making::Making;
pub use opening::{finish_code, residents_code, start_code};

mod calling;
mod checking;
mod layouts;
mod making;
mod opening;
mod passing;
