// What is known of the words that variables hold along lists of steps, in the lists of an If and a Loop, and behind them; and
// how much of the tests of places is needed where that is known. Nothing fails but for want of memory.
#![tactic(auto)]

pub use along::{Before, all_before};
pub use bounds::{is_aligned, is_good};
pub use known::{KnownFacts, bounds_in, facts_behind, unknown};
pub use through::{
    facts_at_turn, facts_behind_turn, facts_in_list, facts_past_if, facts_past_loop,
};

mod affine;
mod along;
mod bounds;
mod known;
mod sets;
mod tested;
mod through;
