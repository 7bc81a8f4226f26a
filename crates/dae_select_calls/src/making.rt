// What the code of a function is made from.

use crate::layouts::Layouts;
use dae_select_live::Turns;
use dae_select_values::{HomeTable, JumpForm};
use std::alloc::Global;

/// What the code of a function is made from: what is settled of its side, its number, the homes of its variables and the numbers
/// that stay in registers, the form of the jumps in it, and what is told of its loops.
#[derive(Drop)]
pub struct Making<'l> {
    pub alloc: Global,
    pub layouts: &'l Layouts,
    pub function: u32,
    pub homes: HomeTable<'l>,
    pub jumps: JumpForm,
    pub turns: &'l Turns,
}
