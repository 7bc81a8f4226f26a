// The instructions on values, on what is accessed, and of jumps and branches, over the homes of variables. Each clause is the
// block's definition. Nothing fails but for want of memory.
#![tactic(auto)]

pub use accessing::{
    address_at_sum, address_code, call_number, hear_code, issue_at_sum, issue_code, own_at_sum,
    stop_code, system_code, take_code,
};
pub use assigning::{as_immediate, compare, extend, operation, set_code, value_code};
pub use fetching::{
    fetch, is_immediate, keep, load_code, lower, move_code, number_code, register_or, source,
    store_code,
};
pub use jumping::{
    CallForm, JumpForm, back_branch, branch_code, enter_code, jump_back, jump_over, jump_words,
};
pub use numbers::{compare_number, exchanged, immediate, less_code, more_code, takes_number};
pub use tables::{HomeTable, home_of};

mod accessing;
mod assigning;
mod fetching;
mod jumping;
mod numbers;
mod tables;
