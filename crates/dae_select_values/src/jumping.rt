// Transfers: jumps over instructions and back, the way into a function, and branches.

ghost use Rattle.std.specs.Prelude.{◌≡◌, ◌+◌, ◌*◌, ◌++◌, ◌∷◌, [], ◌<◌, ◌≤◌, ◌^◌, true, OnOk, IfOk};
ghost use Rattle.dae_encode.specs.declared.Inst.TheVariants.{Jal};
ghost use Rattle.dae_select_blocks.specs.Blocks.{near_offset, jump_by, jump_words, jump_over, jump_back, enter_code};
ghost use Rattle.dae_select_blocks.specs.Blocks.{source, against_zero, immediate_of, branch_inst, opposite, one_way, goes_code, back_offset};
ghost use Rattle.dae_select_blocks.specs.Code.{told_by, branch_by, branch_code, back_branch};
ghost use Rattle.dae_select_values.specs.Fronts.{IsFront};
ghost use Rattle.dae_select_values.specs.Jumps.{is_jal, is_jalr};
ghost use Rattle.dae_select_walks.specs.Edges.{is_then};
ghost use Rattle.dae_select_values.specs.Tables.{AreNear, home_by};

use crate::assigning::{as_immediate, test_code};
use crate::fetching::{fetch, lower, source, upper};
use crate::numbers::tell_number;
use crate::tables::HomeTable;
use dae_encode::Inst;
use dae_ir::{Branch, Operand, Test};
use dae_meaning::Comparison;
use dae_select_walks::Edge;
use std::alloc::{AllocError, Global};

/// As many words as the bytes of all addresses are.
const WORDS: u64 = 1_073_741_824;

fn jump_by(code: &mut Vec<Inst>, bytes: u32) -> Result<(), AllocError>
    ensures { OnOk result (code.new.items ≡ code.old.items ++ jump_by bytes) }
{
    code.extend_from_slice(&[Inst::Auipc(5, upper(bytes)), Inst::Jalr(0, 5, lower(bytes))])
}

/// The offset of a jump as JAL has it: the low 21 bits as a signed number.
#[tactic(auto, unfolding(dae_select_blocks::specs::Blocks::near_offset))]
fn near_offset(bytes: u32) -> i32
    ensures { result ≡ near_offset bytes }
{
    let low = (bytes % 2_097_152) as i32;
    if low < 1_048_576 {
        low
    } else {
        low - 2_097_152
    }
}

fn jump_near(code: &mut Vec<Inst>, bytes: u32) -> Result<(), AllocError>
    ensures { OnOk result (code.new.items ≡ code.old.items ++ Jal 0 (near_offset bytes) ∷ []) }
{
    code.extend_from_slice(&[Inst::Jal(0, near_offset(bytes))])
}

/// The form of the jumps within a function: JAL alone, which reaches 2 ^ 18 words either way, or AUIPC and JALR, which reach all.
#[derive(Clone, Copy)]
pub enum JumpForm {
    Near,
    Far,
}

/// The words of a jump within a function.
pub fn jump_words(form: JumpForm) -> u8
    ensures words { result ≡ jump_words (is_jal form) }
    ensures few { result ≤ 2 }
{
    match form {
        JumpForm::Near => 1,
        JumpForm::Far => 2,
    }
}

/// A jump over so many words and so many more.
#[tactic(auto, using(crate::proofs::Distances::jump_of, crate::proofs::Distances::near_of))]
pub fn jump_over(
    code: &mut Vec<Inst>,
    form: JumpForm,
    words: u64,
    more: u64,
) -> Result<(), AllocError>
    ensures { OnOk result (code.new.items ≡ code.old.items
        ++ jump_over (is_jal form) (words + more)) }
{
    let distance = words % WORDS + more % WORDS;
    match form {
        JumpForm::Near => jump_near(code, 4 * ((distance + 1) % WORDS) as u32),
        JumpForm::Far => jump_by(code, 4 * ((distance + 2) % WORDS) as u32),
    }
}

/// A jump back by so many words and so many more.
#[tactic(auto, using(crate::proofs::Distances::jump_of, crate::proofs::Distances::near_of))]
pub fn jump_back(
    code: &mut Vec<Inst>,
    form: JumpForm,
    words: u64,
    more: u64,
) -> Result<(), AllocError>
    ensures { OnOk result (code.new.items ≡ code.old.items
        ++ jump_back (is_jal form) (words + more)) }
{
    let distance = (words % WORDS + more % WORDS) % WORDS;
    let bytes = 4 * ((WORDS - distance) % WORDS) as u32;
    match form {
        JumpForm::Near => jump_near(code, bytes),
        JumpForm::Far => jump_by(code, bytes),
    }
}

/// The form of the ways into functions: JALR alone, whose immediate reaches the words below 512, or LUI and JALR, which reach
/// all.
#[derive(Clone, Copy)]
pub enum CallForm {
    Low,
    Anywhere,
}

/// The way into a function that is entered at this word.
pub fn enter_code(code: &mut Vec<Inst>, form: CallForm, word: u32) -> Result<(), AllocError>
    requires { word < 2 ^ 30 }
    ensures { OnOk result (code.new.items ≡ code.old.items ++ enter_code (is_jalr form) word) }
{
    match form {
        CallForm::Low => code.extend_from_slice(&[Inst::Jalr(1, 0, lower(4 * word))]),
        CallForm::Anywhere => code.extend_from_slice(&[
            Inst::Lui(5, upper(4 * word)),
            Inst::Jalr(1, 5, lower(4 * word)),
        ]),
    }
}

fn branch_inst(relation: Comparison, first: u8, second: u8, offset: i32) -> Inst
    ensures { result ≡ branch_inst relation first second offset }
{
    match relation {
        Comparison::Equal => Inst::Beq(first, second, offset),
        Comparison::NotEqual => Inst::Bne(first, second, offset),
        Comparison::LessSigned => Inst::Blt(first, second, offset),
        Comparison::AtLeastSigned => Inst::Bge(first, second, offset),
        Comparison::LessUnsigned => Inst::Bltu(first, second, offset),
        Comparison::AtLeastUnsigned => Inst::Bgeu(first, second, offset),
    }
}

/// What holds just where the comparison doesn't.
fn opposite(relation: Comparison) -> Comparison
    ensures { result ≡ opposite relation }
{
    match relation {
        Comparison::Equal => Comparison::NotEqual,
        Comparison::NotEqual => Comparison::Equal,
        Comparison::LessSigned => Comparison::AtLeastSigned,
        Comparison::AtLeastSigned => Comparison::LessSigned,
        Comparison::LessUnsigned => Comparison::AtLeastUnsigned,
        Comparison::AtLeastUnsigned => Comparison::LessUnsigned,
    }
}

/// What holds along an edge of a test of this comparison.
fn one_way(edge: Edge, relation: Comparison) -> Comparison
    ensures { result ≡ one_way (is_then edge) relation }
{
    match edge {
        Edge::Then => relation,
        Edge::Else => opposite(relation),
    }
}

/// Where two registers compare so, on to what stands so many words ahead: by a branch where one reaches it, and else by a
/// jump that the opposite branch leads over.
fn goes_code(
    code: &mut Vec<Inst>,
    form: JumpForm,
    relation: Comparison,
    first: u8,
    second: u8,
    words: u64,
) -> Result<(), AllocError>
    ensures { OnOk result (code.new.items ≡ code.old.items
        ++ goes_code (is_jal form) relation first second words) }
{
    if words < 1000 {
        let offset = 4 * (words as i32 + 1);
        code.extend_from_slice(&[branch_inst(relation, first, second, offset)])
    } else {
        let offset = 4 * (i32::from(jump_words(form)) + 1);
        code.push(branch_inst(opposite(relation), first, second, offset))?;
        jump_over(code, form, words, 0)
    }
}

/// How two registers are to compare.
#[derive(Clone, Copy)]
struct ComparedRegisters {
    relation: Comparison,
    first: u8,
    second: u8,
}

/// The operands of a test, which are in their registers, as they compare along an edge.
fn compared_operands(homes: HomeTable, test: Test, edge: Edge) -> ComparedRegisters
    ensures relation { result.relation ≡ one_way (is_then edge) test.comparison }
    ensures first { result.first ≡ source (home_by homes.entry) 5 test.left }
    ensures second { result.second ≡ source (home_by homes.entry) 6 test.right }
{
    ComparedRegisters {
        relation: one_way(edge, test.comparison),
        first: source(homes, 5, test.left),
        second: source(homes, 6, test.right),
    }
}

/// How x7 compares with 0 where a comparison with a number holds that was told.
fn against_zero(relation: Comparison) -> Comparison
    ensures { result ≡ against_zero relation }
{
    match relation {
        Comparison::Equal => Comparison::Equal,
        Comparison::NotEqual => Comparison::NotEqual,
        Comparison::LessSigned => Comparison::NotEqual,
        Comparison::AtLeastSigned => Comparison::Equal,
        Comparison::LessUnsigned => Comparison::NotEqual,
        Comparison::AtLeastUnsigned => Comparison::Equal,
    }
}

/// A right operand that is in no register behind a test: an immediate other than 0.
fn immediate_of(homes: HomeTable, comparison: Comparison, operand: Operand) -> Option<u32>
    ensures { result ≡ immediate_of (home_by homes.entry) comparison operand }
{
    match operand {
        Operand::Variable(_) => None,
        Operand::Number(number) => {
            if as_immediate(homes, comparison, number) && number != 0 {
                Some(number)
            } else {
                None
            }
        }
    }
}

/// What comes before the branch where a test is told: along the edge it goes on elsewhere where its operands compare so, which
/// are still in their registers, or else x7 with 0.
fn told_front(
    code: &mut Vec<Inst>,
    homes: HomeTable,
    test: Test,
    edge: Edge,
) -> Result<ComparedRegisters, AllocError>
    requires { AreNear homes }
    ensures { IfOk result (λ c. IsFront (told_by
        (immediate_of (home_by homes.entry) test.comparison test.right) (home_by homes.entry)) test
        (is_then edge) code.old.items code.new.items c.relation c.first c.second) }
{
    match immediate_of(homes, test.comparison, test.right) {
        None => {
            test_code(code, homes, 29, test)?;
            Ok(compared_operands(homes, test, edge))
        }
        Some(number) => {
            fetch(code, homes, 5, test.left)?;
            tell_number(code, test.comparison, source(homes, 5, test.left), number)?;
            Ok(ComparedRegisters {
                relation: one_way(edge, against_zero(test.comparison)),
                first: 7,
                second: 0,
            })
        }
    }
}

/// What comes before the branch itself: along the edge it goes on elsewhere where two registers compare so.
fn branch_front(
    code: &mut Vec<Inst>,
    homes: HomeTable,
    branch: Branch,
    edge: Edge,
) -> Result<ComparedRegisters, AllocError>
    requires { AreNear homes }
    ensures { IfOk result (λ c. IsFront (branch_by (home_by homes.entry)) branch
        (is_then edge) code.old.items code.new.items c.relation c.first c.second) }
{
    match branch {
        Branch::Silent(test) => {
            fetch(code, homes, 5, test.left)?;
            fetch(code, homes, 6, test.right)?;
            Ok(compared_operands(homes, test, edge))
        }
        Branch::Tells(test) => told_front(code, homes, test, edge),
        Branch::Hears => {
            Ok(ComparedRegisters {
                relation: one_way(edge, Comparison::NotEqual),
                first: 29,
                second: 0,
            })
        }
    }
}

/// The block of a branch: along the edge it goes on to what stands so many words ahead of its end.
pub fn branch_code(
    code: &mut Vec<Inst>,
    homes: HomeTable,
    form: JumpForm,
    branch: Branch,
    edge: Edge,
    words: u64,
) -> Result<(), AllocError>
    requires { AreNear homes }
    ensures { OnOk result (code.new.items ≡ code.old.items
        ++ branch_code (home_by homes.entry) (is_jal form) branch (is_then edge) words) }
{
    let compared = branch_front(code, homes, branch, edge)?;
    let ComparedRegisters {
        relation,
        first,
        second,
    } = compared;
    goes_code(code, form, relation, first, second, words)
}

/// The offset of a branch back by so many words.
fn back_offset(words: u64) -> i32
    requires { words ≤ 1000 }
    ensures { result ≡ back_offset words }
{
    -4 * words as i32
}

/// The block of a branch that goes back where its test holds, to what stands so many words before it.
pub fn back_branch(
    alloc: Global,
    homes: HomeTable,
    branch: Branch,
    words: u64,
) -> Result<Vec<Inst>, AllocError>
    requires near { AreNear homes }
    requires words { words ≤ 900 }
    ensures { IfOk result (λ block. block.items
        ≡ back_branch (home_by homes.entry) branch true words) }
{
    let mut block = Vec::new(alloc);
    let compared = branch_front(&mut block, homes, branch, Edge::Then)?;
    let distance = words + block.len() as u64;
    let ComparedRegisters {
        relation,
        first,
        second,
    } = compared;
    block.push(branch_inst(relation, first, second, back_offset(distance)))?;
    Ok(block)
}
