//! The numbers at the head of an image.

ghost use Rattle.std.specs.Prelude.{◌≡◌, ◌≢◌, ◌≤◌, IfErr, IfOk};
ghost use Rattle.dae_image.specs.declared.fault.Field.TheVariants.{Calls, DataLength};
ghost use Rattle.dae_image.specs.Ranges.{depth_range, calls_range, words_range, content_range};
ghost use Rattle.dae_image.specs.Reading.{Gives, field_at, version_at, copies_at, budget_at, header_at};

use crate::fault::{Field, ImageError};
use crate::fields::{FieldRange, field};
use dae_base::Depths;

/// The numbers of an image and the lengths of its lists.
#[derive(Clone, Copy)]
pub struct ImageHeader {
    pub budget: Depths,
    pub memory: u32,
    pub calls: u16,
    pub private_a: u32,
    pub private_e: u32,
    pub entry_a: u32,
    pub entry_e: u32,
    pub words_a: u32,
    pub words_e: u32,
    pub content: u32,
    pub lines: u32,
    pub names: u32,
}

/// The letters DAE1.
pub const MAGIC: u32 = 0x3145_4144;

const LETTERS: FieldRange = FieldRange {
    least: MAGIC,
    most: MAGIC,
    step: 1,
};

const VERSION: FieldRange = FieldRange {
    least: 1,
    most: 2,
    step: 1,
};

const DEPTH: FieldRange = FieldRange {
    least: 0,
    most: 4_096,
    step: 1,
};

const MEMORY: FieldRange = FieldRange {
    least: 64,
    most: 67_108_864,
    step: 16,
};

const CALLS: FieldRange = FieldRange {
    least: 1,
    most: 4_096,
    step: 1,
};

const PRIVATE: FieldRange = FieldRange {
    least: 0,
    most: 1_073_741_824,
    step: 4,
};

const ENTRY: FieldRange = FieldRange {
    least: 0,
    most: 134_217_724,
    step: 4,
};

const LINE_COUNT: FieldRange = FieldRange {
    least: 0,
    most: 262_144,
    step: 1,
};

const NAME_COUNT: FieldRange = FieldRange {
    least: 0,
    most: 1_024,
    step: 1,
};

#[tactic(auto, unfolding(crate::specs::Reading::version_at))]
pub fn version(whole: u32, bytes: &[u8]) -> Result<(u32, &[u8]), ImageError>
    ensures gives { Gives (λ x. (x.0, x.1.now)) result (version_at whole bytes.now) }
    ensures memory { IfErr result (λ e. e ≢ ImageError.Memory) }
{
    let (_, rest) = field(whole, Field::Magic, LETTERS, bytes)?;
    field(whole, Field::Version, VERSION, rest)
}

fn depth(whole: u32, name: Field, bytes: &[u8]) -> Result<(u16, &[u8]), ImageError>
    ensures gives { Gives (λ x. (x.0, x.1.now)) result (field_at whole name depth_range bytes.now) }
    ensures memory { IfErr result (λ e. e ≢ ImageError.Memory) }
{
    let (number, rest) = field(whole, name, DEPTH, bytes)?;
    Ok((number as u16, rest))
}

#[tactic(auto, unfolding(crate::specs::Reading::copies_at))]
fn copies(whole: u32, version: u32, bytes: &[u8]) -> Result<(u16, &[u8]), ImageError>
    ensures gives { Gives (λ x. (x.0, x.1.now)) result (copies_at whole version bytes.now) }
    ensures memory { IfErr result (λ e. e ≢ ImageError.Memory) }
{
    if version == 1 {
        return Ok((0, bytes));
    }
    depth(whole, Field::Cq, bytes)
}

#[tactic(auto, unfolding(crate::specs::Reading::budget_at))]
pub fn budget(whole: u32, version: u32, bytes: &[u8]) -> Result<(Depths, &[u8]), ImageError>
    ensures gives { Gives (λ x. (x.0, x.1.now)) result (budget_at whole version bytes.now) }
    ensures memory { IfErr result (λ e. e ≢ ImageError.Memory) }
{
    let (ld, rest) = depth(whole, Field::Ld, bytes)?;
    let (al, rest) = depth(whole, Field::Al, rest)?;
    let (sa, rest) = depth(whole, Field::Sa, rest)?;
    let (sd, rest) = depth(whole, Field::Sd, rest)?;
    let (ab, rest) = depth(whole, Field::Ab, rest)?;
    let (eb, rest) = depth(whole, Field::Eb, rest)?;
    let (cq, rest) = copies(whole, version, rest)?;
    let depths = Depths {
        ld,
        al,
        sa,
        sd,
        ab,
        eb,
        cq,
    };
    Ok((depths, rest))
}

/// How many words a code has, which holds the word at its entry.
fn words(whole: u32, name: Field, entry: u32, bytes: &[u8]) -> Result<(u32, &[u8]), ImageError>
    requires { entry ≤ 134217724 }
    ensures gives { Gives (λ x. (x.0, x.1.now)) result
        (field_at whole name (words_range entry) bytes.now) }
    ensures memory { IfErr result (λ e. e ≢ ImageError.Memory) }
{
    let range = FieldRange {
        least: entry / 4 + 1,
        most: 33_554_432,
        step: 1,
    };
    field(whole, name, range, bytes)
}

/// How many bytes of data there are, which begin at address 16 of the memory.
fn content(whole: u32, memory: u32, bytes: &[u8]) -> Result<(u32, &[u8]), ImageError>
    requires { 16 ≤ memory }
    ensures gives { Gives (λ x. (x.0, x.1.now)) result
        (field_at whole DataLength (content_range memory) bytes.now) }
    ensures memory { IfErr result (λ e. e ≢ ImageError.Memory) }
{
    let range = FieldRange {
        least: 0,
        most: memory - 16,
        step: 1,
    };
    field(whole, Field::DataLength, range, bytes)
}

/// The numbers at the head of the bytes. They take no memory.
#[tactic(auto, unfolding(crate::specs::Reading::header_at))]
pub fn header_of(whole: u32, bytes: &[u8]) -> Result<(ImageHeader, &[u8]), ImageError>
    ensures gives { Gives (λ x. (x.0, x.1.now)) result (header_at whole bytes.now) }
    ensures memory { IfErr result (λ e. e ≢ ImageError.Memory) }
{
    let (version, rest) = version(whole, bytes)?;
    let (budget, rest) = budget(whole, version, rest)?;
    let (memory, rest) = field(whole, Field::Memory, MEMORY, rest)?;
    let (calls, rest) = calls(whole, rest)?;
    let (private_a, rest) = field(whole, Field::PrivateA, PRIVATE, rest)?;
    let (private_e, rest) = field(whole, Field::PrivateE, PRIVATE, rest)?;
    let (entry_a, rest) = field(whole, Field::EntryA, ENTRY, rest)?;
    let (entry_e, rest) = field(whole, Field::EntryE, ENTRY, rest)?;
    let (words_a, rest) = words(whole, Field::WordsA, entry_a, rest)?;
    let (words_e, rest) = words(whole, Field::WordsE, entry_e, rest)?;
    let (content, rest) = content(whole, memory, rest)?;
    let (lines, rest) = field(whole, Field::LineCount, LINE_COUNT, rest)?;
    let (names, rest) = field(whole, Field::NameCount, NAME_COUNT, rest)?;
    let header = ImageHeader {
        budget,
        memory,
        calls,
        private_a,
        private_e,
        entry_a,
        entry_e,
        words_a,
        words_e,
        content,
        lines,
        names,
    };
    Ok((header, rest))
}

fn calls(whole: u32, bytes: &[u8]) -> Result<(u16, &[u8]), ImageError>
    ensures gives { Gives (λ x. (x.0, x.1.now)) result
        (field_at whole Calls calls_range bytes.now) }
    ensures memory { IfErr result (λ e. e ≢ ImageError.Memory) }
{
    let (number, rest) = field(whole, Field::Calls, CALLS, bytes)?;
    Ok((number as u16, rest))
}
