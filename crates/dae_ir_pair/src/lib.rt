// What is proved of the pair of streams that a form is split into: in canonical order it does what the form does. The
// theorems are the contracts of functions that do nothing, and stand in proofs/Laws.antt for proofs.
#![tactic(auto)]

pub use theorems::{
    budget_covers, budget_is_within_cap, pair_keeps, program_kept, streams_are_small,
    streams_set_first, words_are_bounded,
};

mod theorems;
