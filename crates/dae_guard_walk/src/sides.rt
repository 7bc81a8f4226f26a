// A side of a node as the walk keeps it, and what an instruction that computes leaves of it.
ghost use Rattle.std.specs.Prelude.{◌≡◌, ◌<◌, ℕ, Bool, Some, None, IfSome, option_map, if◌then◌else◌, ◌∷◌, [], true, false, nat_eq};
ghost use Rattle.dae_encode.specs.Instructions.{next};
ghost use Rattle.dae_ranges.specs.Ranges.{decided, each};
ghost use Rattle.dae_guard.specs.Nodes.{source, with_range, is_plain};
ghost use Rattle.dae_guard.specs.Moves.{Jumps, narrowed, on, shape};
ghost use Rattle.dae_guard_walk.specs.Kinds.{order_of, compares};
ghost use Rattle.dae_guard.specs.Kept.{AreProper, IsProper};
ghost use Rattle.dae_guard_walk.specs.Spots.{ShiftsOne, side_of};
ghost use Rattle.dae_guard_walk.specs.Steps.{AreFine, IsFine, computed, listed, left_of, tested_by, told_by_test};

use crate::kinds::{InstructionKind, TestInstruction, TestKind, kind_of};
use crate::results::{decide, first_kept, result, second_kept, second_word};
use dae_encode::{Inst, next};
use dae_ranges::Range;

/// The registers that hold values of their own, and x0, whose range is never read.
const KEPT: usize = 28;

/// A side of a node: its counter, or None where it has halted, and what its registers may hold.
#[derive(Clone, Copy)]
pub struct SideSpot {
    pub counter: Option<u32>,
    pub ranges: [Range; 28],
}

/// What an instruction leaves of its side, and what goes into its queue.
#[derive(Clone, Copy)]
pub struct SideOutcome {
    pub side: SideSpot,
    pub pushed: Range,
}

/// What comes of an instruction: one outcome, or two of a test that is not decided, that for false first.
#[derive(Clone, Copy)]
pub struct Outcomes {
    pub first: SideOutcome,
    pub second: Option<SideOutcome>,
}

/// Whether a register holds a value of its own.
fn is_plain(register: u8) -> bool
    ensures { result ≡ is_plain register }
{
    register > 0 && usize::from(register) < KEPT
}

impl SideSpot {
    /// What a source reads, where the access gives this.
    pub fn source(&self, given: Range, register: u8) -> Range
        requires ranges { AreProper self.now.ranges }
        requires given { IsProper given }
        ensures is { result ≡ source self.now.ranges given register }
        ensures proper { IsProper result }
    {
        if register == 0 {
            Range::single(0)
        } else if usize::from(register) < KEPT {
            self.ranges[usize::from(register)]
        } else {
            given
        }
    }

    /// The same side, where a register that holds a value of its own has this range; x0 and the queues keep theirs.
    fn with_range(&self, register: u8, range: Range) -> SideSpot
        requires ranges { AreProper self.now.ranges }
        requires range { IsProper range }
        ensures counter { result.counter ≡ self.now.counter }
        ensures is { result.ranges ≡ with_range register range self.now.ranges }
        ensures proper { AreProper result.ranges }
    {
        let mut ranges = self.ranges;
        if is_plain(register) {
            ranges[usize::from(register)] = range;
        }
        SideSpot {
            counter: self.counter,
            ranges,
        }
    }

    /// What is left where the side goes on at a counter, with a result for a register.
    pub fn go_on(&self, counter: u32, register: u8, range: Range) -> SideOutcome
        requires ranges { AreProper self.now.ranges }
        requires range { IsProper range }
        ensures is { left_of result
            ≡ (on counter (with_range register range self.now.ranges), range) }
        ensures fine { IsFine result }
    {
        let SideSpot { ranges, .. } = self.with_range(register, range);
        SideOutcome {
            side: SideSpot {
                counter: Some(counter),
                ranges,
            },
            pushed: range,
        }
    }
}

/// The fields of an instruction that computes: its target and its sources.
#[derive(Clone, Copy)]
pub struct ComputeFields {
    pub target: u8,
    pub first: u8,
    pub second: u8,
}

/// What an instruction at a counter that computes leaves, where it is sure: by a test, by a jump to a single target, or
/// else. The access gives this.
pub fn compute(
    from: &SideSpot,
    counter: u32,
    given: Range,
    inst: &Inst,
    fields: ComputeFields,
) -> Option<Outcomes>
    requires ranges { AreProper from.now.ranges }
    requires given { IsProper given }
    requires shifts { ShiftsOne inst.now (source from.now.ranges given fields.second) }
    ensures is { option_map listed result
        ≡ computed inst.now counter fields given from.now.ranges }
    ensures fine { IfSome result AreFine }
{
    let x = from.source(given, fields.first);
    let y = from.source(given, fields.second);
    match kind_of(inst) {
        InstructionKind::Tests(comparison) => {
            let place = InstructionPlace { counter, fields };
            Some(test_outcomes(
                from,
                place,
                comparison,
                x,
                second_word(comparison.immediate, y),
            ))
        }
        InstructionKind::Jumps => {
            if !has_one_target(inst, counter, x) {
                return None;
            }
            Some(one(from.go_on(
                next(inst, counter, x.lo, 0),
                fields.target,
                result(inst, counter, x, y),
            )))
        }
        InstructionKind::Plain => {
            Some(one(from.go_on(
                next(inst, counter, 0, 0),
                fields.target,
                result(inst, counter, x, y),
            )))
        }
    }
}

/// One outcome.
pub fn one(outcome: SideOutcome) -> Outcomes
    requires { IsFine outcome }
    ensures is { listed result ≡ left_of outcome ∷ [] }
    ensures fine { AreFine result }
{
    Outcomes {
        first: outcome,
        second: None,
    }
}

/// Whether each word of the base leads to one target: as two words of a range that are next to each other may.
fn has_one_target(inst: &Inst, counter: u32, base: Range) -> bool
    requires jumps { shape inst.now ≡ Jumps }
    requires proper { IsProper base }
    ensures { result ≡ each (λ v. nat_eq (next inst.now counter v 0)
        (next inst.now counter base.lo 0)) base }
{
    base.count == 0
        || (base.count == 1
            && next(inst, counter, base.lo, 0) == next(inst, counter, base.lo + base.step, 0))
}

/// Where an instruction stands, and its fields.
#[derive(Clone, Copy)]
struct InstructionPlace {
    counter: u32,
    fields: ComputeFields,
}

/// A branch or a comparison: one outcome where its test is decided, else that for false and that for true.
fn test_outcomes(
    from: &SideSpot,
    place: InstructionPlace,
    comparison: TestInstruction,
    x: Range,
    y: Range,
) -> Outcomes
    requires ranges { AreProper from.now.ranges }
    requires x { IsProper x }
    requires y { IsProper y }
    ensures is { listed result
        ≡ tested_by comparison place.counter place.fields from.now.ranges x y }
    ensures fine { AreFine result }
{
    match decide(comparison.test, x, y) {
        Some(holds) => one(test_outcome(from, place, comparison, holds)),
        None => {
            let no = narrow(from, place.fields, comparison.test, x, y, false);
            let yes = narrow(from, place.fields, comparison.test, x, y, true);
            Outcomes {
                first: test_outcome(&no, place, comparison, false),
                second: Some(test_outcome(&yes, place, comparison, true)),
            }
        }
    }
}

/// What is left after a test that came out so: a branch has its counter, a comparison 0 or 1.
fn test_outcome(
    from: &SideSpot,
    place: InstructionPlace,
    comparison: TestInstruction,
    holds: bool,
) -> SideOutcome
    requires { AreProper from.now.ranges }
    ensures is { left_of result
        ≡ told_by_test comparison place.counter place.fields.target from.now.ranges holds }
    ensures fine { IsFine result }
{
    let (goes, tells) = match comparison.offset {
        None => (4, u32::from(holds)),
        Some(offset) => (if holds { offset } else { 4 }, 0),
    };
    from.go_on(
        place.counter.wrapping_add(goes),
        place.fields.target,
        Range::single(tells),
    )
}

/// A side of whose registers one keeps but what agrees with how the test came out beside a single word.
fn narrow(
    from: &SideSpot,
    fields: ComputeFields,
    test: TestKind,
    x: Range,
    y: Range,
    holds: bool,
) -> SideSpot
    requires ranges { AreProper from.now.ranges }
    requires x { IsProper x }
    requires y { IsProper y }
    requires open { decided (compares test) x y ≡ None }
    ensures is { result.ranges
        ≡ narrowed (order_of test) holds fields.first fields.second x y from.now.ranges }
    ensures proper { AreProper result.ranges }
{
    if is_plain(fields.first) && y.is_single() {
        from.with_range(fields.first, first_kept(test, holds, y.lo, x))
    } else if is_plain(fields.second) && x.is_single() {
        from.with_range(fields.second, second_kept(test, holds, x.lo, y))
    } else {
        *from
    }
}
