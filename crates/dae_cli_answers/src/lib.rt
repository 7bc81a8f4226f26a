// Laws of what is due for words: at most one answer, never that a compiled program is stuck, and what a run and a timed run tell
// of their program. They are functions without parameters, whose contracts are the laws. The program doesn't stand on them.
#![tactic(auto)]

pub use laws::{
    never_stuck, one_answer_for_words, runs_keep_meaning, timed_runs_keep_meaning,
    words_keep_meaning,
};

mod laws;
