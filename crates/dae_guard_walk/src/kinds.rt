// What an instruction is for the walk: a test of its sources, a jump to a register, or any other.
ghost use Rattle.std.specs.Prelude.{◌≡◌, Some, None};
ghost use Rattle.dae_base.specs.Words.{word};
ghost use Rattle.dae_guard_walk.specs.Kinds.{IsKind};
ghost use Rattle.dae_guard_walk.specs.declared.kinds.InstructionKind.TheVariants as kinds;

use dae_encode::Inst;

/// How a test compares two words: as they are, as numbers, or as signed words.
#[derive(Clone, Copy, PartialEq, Eq)]
pub enum TestKind {
    Equal,
    Unequal,
    Below,
    NotBelow,
    SignedBelow,
    NotSignedBelow,
}

/// A branch or a comparison.
#[derive(Clone, Copy, PartialEq, Eq)]
pub struct TestInstruction {
    pub test: TestKind,
    /// The word that stands for that of the second source, where one does.
    pub immediate: Option<u32>,
    /// How far a branch goes where the test holds; a comparison gives 0 or 1.
    pub offset: Option<u32>,
}

/// What kind of instruction one is.
#[derive(Clone, Copy, PartialEq, Eq)]
pub enum InstructionKind {
    /// A branch or a comparison.
    Tests(TestInstruction),
    /// A jump to a register.
    Jumps,
    /// Any other.
    Plain,
}

/// What kind an instruction is.
pub fn kind_of(inst: &Inst) -> InstructionKind
    ensures { IsKind inst.now result }
{
    match *inst {
        Inst::Beq(_, _, imm) => branch_by(TestKind::Equal, imm),
        Inst::Bne(_, _, imm) => branch_by(TestKind::Unequal, imm),
        Inst::Blt(_, _, imm) => branch_by(TestKind::SignedBelow, imm),
        Inst::Bge(_, _, imm) => branch_by(TestKind::NotSignedBelow, imm),
        Inst::Bltu(_, _, imm) => branch_by(TestKind::Below, imm),
        Inst::Bgeu(_, _, imm) => branch_by(TestKind::NotBelow, imm),
        Inst::Slti(_, _, imm) => compare_with(TestKind::SignedBelow, Some(imm.cast_unsigned())),
        Inst::Sltiu(_, _, imm) => compare_with(TestKind::Below, Some(imm.cast_unsigned())),
        Inst::Slt(_, _, _) => compare_with(TestKind::SignedBelow, None),
        Inst::Sltu(_, _, _) => compare_with(TestKind::Below, None),
        Inst::Jalr(_, _, _) => InstructionKind::Jumps,
        _ => InstructionKind::Plain,
    }
}

/// A branch that goes so far.
fn branch_by(test: TestKind, imm: i32) -> InstructionKind
    ensures { result ≡ kinds.Tests
        (record { test = test; immediate = None; offset = Some (word imm) }) }
{
    InstructionKind::Tests(TestInstruction {
        test,
        immediate: None,
        offset: Some(imm.cast_unsigned()),
    })
}

/// A comparison with a source, or with an immediate.
fn compare_with(test: TestKind, immediate: Option<u32>) -> InstructionKind
    ensures { result ≡ kinds.Tests
        (record { test = test; immediate = immediate; offset = None }) }
{
    InstructionKind::Tests(TestInstruction {
        test,
        immediate,
        offset: None,
    })
}
