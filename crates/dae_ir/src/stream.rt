// Classes of variables, groups, and the two streams of actions.

use crate::form::{Check, Operand, Test, Value};
use dae_base::{Items, LoadKind, Place, Side, Text, Width};
use dae_meaning::Spelling;

/// Which processors need a variable: A, since it leads to an address, and E, since it leads to what is stored, printed
/// or decided there.
#[derive(Clone, Copy, PartialEq, Eq)]
pub struct Class {
    pub a: bool,
    pub e: bool,
}

/// How a check fails: at an address that is outside of the memory (trap 2), or where a call or a frame has no room
/// (trap 4).
#[derive(Clone, Copy)]
pub enum Failure {
    OutOfBounds,
    OutOfRoom,
}

/// What a group is made of: an assignment, a load, or a check that A decides.
#[derive(Clone, Copy)]
pub enum Part {
    Sets(Place, u32, Value),
    Loads(Place, u32, LoadKind, Operand),
    Tests(Place, Check),
}

/// What closes a group and belongs to it: nothing, a store, a print, or a check that E decides.
#[derive(Clone, Copy)]
pub enum Last {
    Nothing,
    Stores(Place, Width, Operand, Operand),
    Prints(Place, Spelling, Operand),
    Decides(Place, Check),
}

/// The place that an action comes from, and a number. Where the action belongs to a group, it is the number of groups
/// before that group in its list, and else the number of groups before the action.
#[derive(Clone, Copy)]
pub struct Mark {
    pub place: Place,
    pub group: u64,
}

/// An argument for a parameter, which is the variable of that number in the function that is called.
#[derive(Clone, Copy)]
pub struct Argument {
    pub parameter: u32,
    pub operand: Operand,
}

/// What one processor does at once.
#[derive(Drop)]
pub enum Action {
    /// Both: computes a variable.
    Set(u32, Value),
    /// A: reserves a slot of the loads for E.
    Issue(LoadKind, Operand),
    /// A: reserves a slot of its own loads, and takes it into the variable.
    Own(u32, LoadKind, Operand),
    /// E: takes a load into the variable.
    Receive(u32),
    /// A: gives the address of a store.
    Address(Width, Operand),
    /// E: gives the datum of a store.
    Datum(Operand),
    /// A: pushes a copy of the variable's value.
    Offer(u32),
    /// E: takes a copy into the variable.
    Accept(u32),
    /// E: prints.
    Emit(Spelling, Operand),
    /// Both: where the check fails, pushes its code as a message and halts, E with that trap.
    Probe(Check),
    /// Both: pushes a message.
    Tell(Operand),
    /// Both: takes a message, and for a code other than 0 halts, E with that trap. Where the checks of which it is told can
    /// fail in one way alone, this says in which.
    Hear(Option<Failure>),
    /// Both: halts, E with a status.
    Stop(Option<Operand>),
    /// Both: goes behind the loop.
    Break,
    /// Both: goes to the loop's step.
    Continue,
    /// Both: calls the function with the arguments of the side's class, and gets the result where the side needs it.
    Call(Option<u32>, u32, Items<Argument>),
    /// Both: returns, with a result where the side needs it.
    Return(Option<Operand>),
}

/// How a branch is decided: by a condition that the other processor doesn't hear of, by one of which it is sent 1 where
/// it holds and else 0, or by the message that the other one sends.
#[derive(Clone, Copy)]
pub enum Branch {
    Silent(Test),
    Tells(Test),
    Hears,
}

/// An action that holds no others, or a branch or a loop of actions.
#[derive(Drop)]
pub enum Step {
    Act(Mark, Action),
    If(Mark, Branch, Vec<Step>, Vec<Step>),
    Loop(Mark, Vec<Step>, Vec<Step>),
}

/// A function of a stream, with the actions of its own side.
#[derive(Drop)]
pub struct StreamFunction {
    pub name: Text,
    pub parameters: u32,
    pub variables: u32,
    pub frame: u64,
    pub body: Items<Step>,
}

/// What one processor does: its side, what the form says of memory, frames, calls and main, and the functions in the
/// form's order.
#[derive(Drop)]
pub struct Stream {
    pub side: Side,
    pub memory: u32,
    pub frames: u32,
    pub calls: u16,
    pub main: u32,
    pub functions: Items<StreamFunction>,
}

/// The two streams of a form.
#[derive(Drop)]
pub struct Pair {
    pub a: Stream,
    pub e: Stream,
}
