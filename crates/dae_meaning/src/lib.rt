// What a meaning is made of, whether of typed programs or of their structured form: the operations of C on words,
// comparisons and spellings here, and in specs/ the worlds that a program runs in, how a stretch of it ends, and when two
// stretches end alike.
#![tactic(auto)]

pub use memory::{loads_are_words, memory_keeps_bytes, memory_keeps_length};

mod memory;

/// An operation of C on two words (C90 6.3.5 to 6.3.12). Sums, differences and products wrap. A shift counts by the low
/// five bits of its amount, and the right shift of a signed word copies the sign. By 0 a division gives the word of all
/// ones, and a remainder what was to be divided, as the processors do (RISC-V unprivileged manual, "M").
#[derive(Clone, Copy, PartialEq, Eq)]
pub enum Operator {
    Add,
    Subtract,
    Multiply,
    DivideSigned,
    DivideUnsigned,
    RemainderSigned,
    RemainderUnsigned,
    And,
    Or,
    Xor,
    ShiftLeft,
    ShiftRightSigned,
    ShiftRightUnsigned,
}

/// A comparison of two words (C90 6.3.8, 6.3.9).
#[derive(Clone, Copy, PartialEq, Eq)]
pub enum Comparison {
    Equal,
    NotEqual,
    LessSigned,
    AtLeastSigned,
    LessUnsigned,
    AtLeastUnsigned,
}

/// How a printed word is spelled: its low byte, in decimal as a signed or an unsigned number, or in hexadecimal
/// (C90 7.9.6.1).
#[derive(Clone, Copy, PartialEq, Eq)]
pub enum Spelling {
    Byte,
    Signed,
    Unsigned,
    Hexadecimal,
}
