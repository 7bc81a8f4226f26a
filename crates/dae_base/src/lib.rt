// Words, widths, places, queues and their depths, and printed pieces: plain data, with the arithmetic and the texts
// that all layers share. Nothing here takes memory but the two small containers, and nothing fails without memory.
#![tactic(auto)]

ghost use Rattle.std.specs.Prelude.{◌≡◌, ◌↔◌, ◌<◌, ◌≤◌, ◌^◌, [], ◌∷◌, None};
ghost use Rattle.std.specs.List.{find};
ghost use Rattle.dae_base.specs.Budgets.{Reaches, first_below, is_below};
ghost use Rattle.dae_base.specs.Words.{extended, sign_extend, size, width_of};

pub use items::{Items, Text};
pub use pieces::{Piece, ShortText, byte_piece, decimal_piece, hex_piece};

mod items;
mod pieces;

/// A place in the files of a job: the number of the file from 0, and the line and column of a byte, both from 1.
/// Columns count bytes.
#[derive(Clone, Copy, PartialEq, Eq, Debug)]
pub struct Place {
    pub file: u16,
    pub line: u32,
    pub col: u32,
}

/// The two processors of the decoupled machine: A accesses memory, E executes (Smith, "Decoupled Access/Execute
/// Computer Architectures").
#[derive(Clone, Copy, PartialEq, Eq, Debug)]
pub enum Side {
    A,
    E,
}

/// The seven queues: loads for E, loads for A, store addresses, store data, messages from A to E, messages from E to
/// A, and copies from A to E.
#[derive(Clone, Copy, PartialEq, Eq, Debug)]
pub enum Queue {
    Ld,
    Al,
    Sa,
    Sd,
    Ab,
    Eb,
    Cq,
}

/// How many bytes an access moves: 1, 2 or 4.
#[derive(Clone, Copy, PartialEq, Eq, Debug)]
pub enum Width {
    B1,
    B2,
    B4,
}

/// What a load reads, and how it extends that to a word: signed or unsigned, of 8, 16 or 32 bits.
#[derive(Clone, Copy, PartialEq, Eq, Debug)]
pub enum LoadKind {
    I8,
    U8,
    I16,
    U16,
    I32,
}

/// Whether a word stands for a signed number or for an unsigned one.
#[derive(Clone, Copy, PartialEq, Eq)]
pub enum Signedness {
    Signed,
    Unsigned,
}

/// How many items each queue can hold, or how many a program needs it to hold.
#[derive(Clone, Copy, PartialEq, Eq)]
pub struct Depths {
    pub ld: u16,
    pub al: u16,
    pub sa: u16,
    pub sd: u16,
    pub ab: u16,
    pub eb: u16,
    pub cq: u16,
}

impl Width {
    /// The number of bytes.
    pub fn bytes(self) -> u8
        ensures { result ≡ size self }
    {
        match self {
            Width::B1 => 1,
            Width::B2 => 2,
            Width::B4 => 4,
        }
    }
}

impl LoadKind {
    /// The width of what is read.
    pub fn width(self) -> Width
        ensures { result ≡ width_of self }
    {
        match self {
            LoadKind::I8 | LoadKind::U8 => Width::B1,
            LoadKind::I16 | LoadKind::U16 => Width::B2,
            LoadKind::I32 => Width::B4,
        }
    }
}

/// The word that a load of this kind makes of the low bits of a word.
pub fn extend(kind: LoadKind, word: u32) -> u32
    ensures { result ≡ extended kind word }
{
    match kind {
        LoadKind::I8 => sign_extend(8, word % 256),
        LoadKind::U8 => word % 256,
        LoadKind::I16 => sign_extend(16, word % 65_536),
        LoadKind::U16 => word % 65_536,
        LoadKind::I32 => word,
    }
}

/// Two to a power.
pub fn power_of_two(exponent: u32) -> u32
    requires { exponent < 32 }
    ensures is { result ≡ 2 ^ exponent }
    ensures some { 0 < result }
{
    1 << exponent
}

fn sign_extend(bits: u32, low: u32) -> u32
    requires width { bits ≤ 16 }
    requires some { 0 < bits }
    requires fits { low < 2 ^ bits }
    ensures { result ≡ sign_extend bits low }
{
    if low < 1 << (bits - 1) {
        low
    } else {
        u32::MAX - ((1 << bits) - 1) + low
    }
}

impl Depths {
    /// The first queue, in the order of the fields, whose depth is below the budget, or None exactly where no depth is.
    pub fn first_below(&self, budget: &Depths) -> Option<Queue>
        ensures first { result ≡ first_below self.now budget.now }
        ensures none { (result ≡ None) ↔ Reaches self.now budget.now }
    {
        self.below(budget)
    }

    fn below(&self, budget: &Depths) -> Option<Queue>
        ensures { result ≡ first_below self.now budget.now }
    {
        if self.ld < budget.ld {
            Some(Queue::Ld)
        } else if self.al < budget.al {
            Some(Queue::Al)
        } else if self.sa < budget.sa {
            Some(Queue::Sa)
        } else if self.sd < budget.sd {
            Some(Queue::Sd)
        } else {
            self.last_below(budget)
        }
    }

    fn last_below(&self, budget: &Depths) -> Option<Queue>
        ensures { result
            ≡ find (is_below self.now budget.now) (Queue.Ab ∷ Queue.Eb ∷ Queue.Cq ∷ []) }
    {
        if self.ab < budget.ab {
            Some(Queue::Ab)
        } else if self.eb < budget.eb {
            Some(Queue::Eb)
        } else if self.cq < budget.cq {
            Some(Queue::Cq)
        } else {
            None
        }
    }
}
