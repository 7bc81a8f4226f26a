// What the code of a step is made from besides: where it leads, how things stand around it, and tests with their places.

use dae_base::Place;
use dae_ir::Branch;
use dae_select_facts::KnownFacts;
use dae_select_live::LiveSet;
use dae_select_walks::{Need, VariableStanding};

/// Where a Break goes and a Continue: what is live there, and how many words lie between the end of the code and there.
#[derive(Drop)]
pub struct Exits {
    pub leaves_live: LiveSet,
    pub skips_live: LiveSet,
    pub leaves: u64,
    pub skips: u64,
}

/// Where code goes on: what is live behind it, and its exits.
#[derive(Drop)]
pub struct Onward<'s> {
    pub next: &'s LiveSet,
    pub exits: &'s Exits,
}

/// How things stand around a step: what is needed of its block, what is known before it if it has lists, and how things stand
/// before it and behind it.
#[derive(Drop)]
pub struct Around<'k> {
    pub need: Need,
    pub known: &'k KnownFacts,
    pub before: VariableStanding,
    pub after: VariableStanding,
}

/// A branch that stands at a place.
#[derive(Clone, Copy)]
pub struct PlacedBranch {
    pub place: Place,
    pub branch: Branch,
}
