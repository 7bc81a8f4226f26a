// A typed C program, as the type checker writes it and the joiner completes it, and in specs/ what it means (C90 6.3 and
// 6.6). Sizes, conversions, scalings and offsets are written in, and objects are resolved: to variables, to places in the
// frame, or to numbered objects with static storage, whose addresses the joiner gives.
#![tactic(auto)]

pub use expressions::{Expression, Fixity, Target};
pub use program::{FrameSlot, Function, Links, Program};
pub use rules::{lawful_keep_rules, named_never_stray, never_strays};
pub use statements::{Arm, FormatPiece, Setting, Statement};
pub use turns::{ends_stay, going_before, one_end, output_grows, turns_in_order};

mod expressions;
mod program;
mod rules;
mod statements;
mod turns;
