// What an instruction makes of the ranges of its sources: whether its test is decided, what one that is not tells of a
// register, and its result.
ghost use Rattle.std.specs.Prelude.{◌≡◌, ◌+◌, ◌<◌, ◌^◌, true, false, not, ◌&&◌, nat_lt, None, option_map, unwrap_or, if◌then◌else◌, ◌≤◌};
ghost use Rattle.dae_base.specs.Words.{word};
ghost use Rattle.dae_ranges.specs.Ranges.{any_word, decided, is_single, raised, single, below, from, highest};
ghost use Rattle.dae_guard.specs.Moves.{first_kept, result as result_of, second_kept, spread};
ghost use Rattle.dae_guard_walk.specs.Kinds.{compares, order_of, second_word};
ghost use Rattle.dae_guard.specs.Kept.{IsProper};
ghost use Rattle.dae_guard_walk.specs.Spots.{ShiftsOne};

use crate::kinds::TestKind;
use dae_base::power_of_two;
use dae_encode::{Inst, value};
use dae_ranges::{Range, is_below, is_equal, is_signed_below};

/// The second range of a test, which may be an immediate.
pub fn second_word(immediate: Option<u32>, range: Range) -> Range
    requires { IsProper range }
    ensures is { result ≡ second_word immediate range }
    ensures proper { IsProper result }
{
    match immediate {
        None => range,
        Some(word) => Range::single(word),
    }
}

/// Whether the test holds for all words of two ranges, for none, or else None.
pub fn decide(test: TestKind, x: Range, y: Range) -> Option<bool>
    requires x { IsProper x }
    requires y { IsProper y }
    ensures { result ≡ decided (compares test) x y }
{
    match test {
        TestKind::Equal => is_equal(x, y),
        TestKind::Unequal => turned(is_equal(x, y)),
        TestKind::Below => is_below(x, y),
        TestKind::NotBelow => turned(is_below(x, y)),
        TestKind::SignedBelow => is_signed_below(x, y),
        TestKind::NotSignedBelow => turned(is_signed_below(x, y)),
    }
}

/// What is decided of a test turned round.
fn turned(decision: Option<bool>) -> Option<bool>
    ensures { result ≡ option_map not decision }
{
    match decision {
        None => None,
        Some(holds) => Some(!holds),
    }
}

/// Of the first range what agrees with how a test that is not decided came out beside a number.
pub fn first_kept(test: TestKind, holds: bool, number: u32, range: Range) -> Range
    requires proper { IsProper range }
    requires open { decided (compares test) range (single number) ≡ None }
    ensures is { result ≡ first_kept (order_of test) holds number range }
    ensures proper { IsProper result }
{
    match test {
        TestKind::Below => cut(holds, u64::from(number), range),
        TestKind::NotBelow => cut(!holds, u64::from(number), range),
        TestKind::Equal => equal_part(holds, number, range),
        TestKind::Unequal => equal_part(!holds, number, range),
        TestKind::SignedBelow | TestKind::NotSignedBelow => range,
    }
}

/// Of the second range what agrees with how a test that is not decided came out behind a number.
pub fn second_kept(test: TestKind, holds: bool, number: u32, range: Range) -> Range
    requires proper { IsProper range }
    requires open { decided (compares test) (single number) range ≡ None }
    ensures is { result ≡ second_kept (order_of test) holds number range }
    ensures proper { IsProper result }
{
    match test {
        TestKind::Below => cut(!holds, u64::from(number) + 1, range),
        TestKind::NotBelow => cut(holds, u64::from(number) + 1, range),
        TestKind::Equal => equal_part(holds, number, range),
        TestKind::Unequal => equal_part(!holds, number, range),
        TestKind::SignedBelow | TestKind::NotSignedBelow => range,
    }
}

/// The words below a number, or those from it on, where there are both.
fn cut(is_below: bool, number: u64, range: Range) -> Range
    requires proper { IsProper range }
    requires least { range.lo < number }
    requires greatest { number ≤ highest range }
    ensures is { result ≡ (if is_below then below number range else from number range) }
    ensures proper { IsProper result }
{
    if is_below {
        range.below(number)
    } else {
        range.from(number)
    }
}

/// One word where the ranges are equal, or else the whole range.
fn equal_part(is_equal: bool, number: u32, range: Range) -> Range
    requires { IsProper range }
    ensures is { result ≡ (if is_equal then single number else range) }
    ensures proper { IsProper result }
{
    if is_equal {
        Range::single(number)
    } else {
        range
    }
}

/// What the instruction computes for its target.
pub fn result(inst: &Inst, counter: u32, x: Range, y: Range) -> Range
    requires x { IsProper x }
    requires y { IsProper y }
    requires shifts { ShiftsOne inst.now y }
    ensures is { result ≡ result_of inst.now counter x y }
    ensures proper { IsProper result }
{
    if x.is_single() && y.is_single() {
        Range::single(value(inst, counter, x.lo, y.lo))
    } else {
        spread(inst, counter, x, y)
    }
}

/// What it computes where not both sources are single words.
fn spread(inst: &Inst, counter: u32, x: Range, y: Range) -> Range
    requires x { IsProper x }
    requires y { IsProper y }
    requires shifts { ShiftsOne inst.now y }
    requires many { (is_single x && is_single y) ≡ false }
    ensures is { result ≡ spread inst.now counter x y }
    ensures proper { IsProper result }
{
    match *inst {
        Inst::Addi(_, _, imm) => x.shift(imm.cast_unsigned()).unwrap_or(Range::any()),
        Inst::Add(_, _, _) => sum(x, y),
        Inst::Slli(_, _, imm) => x
            .scale(power_of_two(imm.cast_unsigned() % 32))
            .unwrap_or(Range::any()),
        Inst::Andi(_, _, imm) => masked(imm.cast_unsigned()),
        Inst::Jalr(_, _, _) => Range::single(counter.wrapping_add(4)),
        _ => Range::any(),
    }
}

/// The sums of the words of two ranges, where one of them is a single word.
fn sum(x: Range, y: Range) -> Range
    requires x { IsProper x }
    requires y { IsProper y }
    ensures is { result ≡ (if is_single y then unwrap_or (raised y.lo x) any_word
        else (if is_single x then unwrap_or (raised x.lo y) any_word else any_word)) }
    ensures proper { IsProper result }
{
    if y.is_single() {
        x.raise(y.lo).unwrap_or(Range::any())
    } else if x.is_single() {
        y.raise(x.lo).unwrap_or(Range::any())
    } else {
        Range::any()
    }
}

/// The words that keep no bit but those of a mask.
fn masked(mask: u32) -> Range
    ensures is { result ≡ (if nat_lt mask (2 ^ 31)
        then record { lo = 0; step = 1; count = mask } else any_word) }
    ensures proper { IsProper result }
{
    if mask < 0x8000_0000 {
        Range {
            lo: 0,
            step: 1,
            count: mask,
        }
    } else {
        Range::any()
    }
}
