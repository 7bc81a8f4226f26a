// One line of a certificate: what its words say.
ghost use Rattle.dae_base.specs.Ones.{IsTheOne};
ghost use Rattle.dae_certificate.specs.Lines.{SpellsLine, SpellsCounters, SpellsRange, SpellsEnds};

use crate::words::{counter, cut, number};
use dae_base::Side;
use dae_ranges::Range;

/// The words that a register of a side of the last node may hold.
#[derive(Clone, Copy)]
pub struct NamedRange {
    pub side: Side,
    pub register: u8,
    pub range: Range,
}

/// A line.
#[derive(Clone, Copy)]
pub enum CertificateLine {
    /// A node begins: the counters of A and of E, None where that side has halted.
    Node(Option<u32>, Option<u32>),
    /// A register of the last node.
    Register(NamedRange),
}

/// The line that the bytes spell, without its line feed, or None where they spell none.
#[tactic(auto, using(crate::proofs::Spellings::nothing_behind, crate::proofs::Spellings::no_named))]
pub fn line_of(bytes: &[u8]) -> Option<CertificateLine>
    ensures { IsTheOne (SpellsLine bytes.now) result }
{
    let (first, rest) = cut(bytes, b' ');
    if first == b"node".as_slice() {
        let (a, e) = counters(rest?)?;
        Some(CertificateLine::Node(a, e))
    } else if first == b"a".as_slice() {
        Some(CertificateLine::Register(named_range(Side::A, rest?)?))
    } else if first == b"e".as_slice() {
        Some(CertificateLine::Register(named_range(Side::E, rest?)?))
    } else {
        None
    }
}

/// The counters of a node.
fn counters(words: &[u8]) -> Option<(Option<u32>, Option<u32>)>
    ensures { IsTheOne (SpellsCounters words.now) result }
{
    let (a, rest) = cut(words, b' ');
    let a = counter(a)?;
    let e = counter(rest?)?;
    Some((a, e))
}

/// The range of a register, of four numbers: the register, the least word, the greatest and the step.
fn named_range(side: Side, words: &[u8]) -> Option<NamedRange>
    ensures { IsTheOne (SpellsRange side words.now) result }
{
    let (register, rest) = cut(words, b' ');
    let register = number(register)?;
    let range = range_of(rest?)?;
    if register < 1 || register > 27 {
        return None;
    }
    Some(NamedRange {
        side,
        register: register as u8,
        range,
    })
}

/// The range of three numbers: the least word, the greatest and the step.
fn range_of(words: &[u8]) -> Option<Range>
    ensures { IsTheOne (SpellsEnds words.now) result }
{
    let (lo, rest) = cut(words, b' ');
    let (hi, step) = cut(rest?, b' ');
    let lo = number(lo)?;
    let hi = number(hi)?;
    let step = number(step?)?;
    if lo > hi || step == 0 || (hi - lo) % step != 0 {
        return None;
    }
    Some(Range {
        lo,
        step,
        count: (hi - lo) / step,
    })
}
