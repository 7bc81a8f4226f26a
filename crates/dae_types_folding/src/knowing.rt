// What is known of a word before the program runs: integer constant expressions and address constants (C90 6.4).

ghost use Rattle.std.specs.Prelude.{◌≡◌};
ghost use Rattle.dae_base.specs.Words.{plus, minus};
ghost use Rattle.dae_types_kinds.specs.Values.{is_zero, is_number, is_known, known_as, moved, scaled_known, based, folded, address_by, known_by, known_not, truth, known_and, known_or, known_branch, known_further};
ghost use Rattle.dae_types_folding.specs.Views.{view_deed};

use crate::operators::{WordOperation, apply, compare, divides};
use crate::shapes::load_kind;
use dae_base::{LoadKind, extend};
use dae_meaning::Operator;
use dae_types_kinds::{Known, Shape};
use dae_types_tables::{is_integer, is_pointer, is_void};

/// Whether this is an integer constant expression with the value 0.
pub fn is_zero(known: Known) -> bool
    ensures { result ≡ is_zero known }
{
    match known {
        Known::Number(word) => word == 0,
        _ => false,
    }
}

/// Whether this is an integer constant expression, also one that divides by zero.
fn is_known(known: Known) -> bool
    ensures { result ≡ is_known known }
{
    match known {
        Known::Number(_) | Known::Division => true,
        _ => false,
    }
}

/// What is known after a conversion from one type to another.
pub fn known_as(from: Shape, to: Shape, known: Known) -> Known
    ensures { result ≡ known_as from to known }
{
    match known {
        Known::Number(word) if is_integer(to) => Known::Number(extend(load_kind(to), word)),
        Known::Number(word) if is_pointer(to) => Known::Address(None, word),
        Known::Division if is_integer(to) => Known::Division,
        Known::Address(_, _) if is_wide(load_kind(to)) && !is_void(to) => known,
        Known::NullPointer if is_wide(load_kind(to)) && !is_void(to) => Known::Address(None, 0),
        _ => Known::Nothing,
    }
}

ghost use Rattle.dae_types_kinds.specs.Values.{is_wide};

/// Whether a kind takes a whole word.
fn is_wide(kind: LoadKind) -> bool
    ensures { result ≡ is_wide kind }
{
    match kind {
        LoadKind::I32 => true,
        _ => false,
    }
}

/// What is known of an index in bytes.
pub fn scaled_known(known: Known, size: u32) -> Known
    ensures { result ≡ scaled_known known size }
{
    match known {
        Known::Number(word) => Known::Number(word.wrapping_mul(size)),
        _ => Known::Nothing,
    }
}

/// What is known of an address so many bytes further.
pub fn moved_on(address: Known, bytes: Known) -> Known
    ensures { result ≡ moved plus address bytes }
{
    match (address, bytes) {
        (Known::Address(object, offset), Known::Number(word)) => Known::Address(
            object,
            offset.wrapping_add(word),
        ),
        _ => Known::Nothing,
    }
}

/// What is known of an address so many bytes back.
pub fn moved_back(address: Known, bytes: Known) -> Known
    ensures { result ≡ moved minus address bytes }
{
    match (address, bytes) {
        (Known::Address(object, offset), Known::Number(word)) => Known::Address(
            object,
            offset.wrapping_sub(word),
        ),
        _ => Known::Nothing,
    }
}

/// What is known of the address of an object: only that of an object of the file is constant.
pub fn based(known: Known) -> Known
    ensures { result ≡ based known }
{
    match known {
        Known::Address(Some(_), _) => known,
        _ => Known::Nothing,
    }
}

/// What is known of a member's address.
pub fn known_further(known: Known, offset: u32) -> Known
    ensures { result ≡ known_further known offset }
{
    match known {
        Known::Address(object, bytes) => Known::Address(object, bytes.wrapping_add(offset)),
        _ => Known::Nothing,
    }
}

/// What is known of an operation on two numbers.
fn folded(deed: WordOperation, x: u32, y: u32) -> Known
    ensures { result ≡ folded (view_deed deed) x y }
{
    match deed {
        WordOperation::Operates(operator) if divides(operator) && y == 0 => Known::Division,
        WordOperation::Operates(operator) => Known::Number(apply(operator, x, y)),
        WordOperation::Compares(comparison, true) => Known::Number(u32::from(compare(
            comparison, y, x,
        ))),
        WordOperation::Compares(comparison, false) => Known::Number(u32::from(compare(
            comparison, x, y,
        ))),
    }
}

/// What is known of a constant address and a number, added or subtracted.
fn address_by(deed: WordOperation, x: Known, y: Known) -> Known
    ensures { result ≡ address_by (view_deed deed) x y }
{
    let WordOperation::Operates(operator) = deed else {
        return Known::Nothing;
    };
    match (operator, x, y) {
        (Operator::Add, Known::Address(_, _), Known::Number(_)) => moved_on(x, y),
        (Operator::Add, Known::Number(word), Known::Address(object, offset)) => Known::Address(
            object,
            word.wrapping_add(offset),
        ),
        (Operator::Subtract, Known::Address(_, _), Known::Number(_)) => moved_back(x, y),
        _ => Known::Nothing,
    }
}

/// What is known of an operation on two values.
pub fn known_by(deed: WordOperation, x: Known, y: Known) -> Known
    ensures { result ≡ known_by (view_deed deed) x y }
{
    match (x, y) {
        (Known::Number(x), Known::Number(y)) => folded(deed, x, y),
        (Known::Number(_) | Known::Division, Known::Division) => Known::Division,
        (Known::Division, Known::Number(_)) => Known::Division,
        _ => address_by(deed, x, y),
    }
}

/// What is known behind `!`.
pub fn known_not(known: Known) -> Known
    ensures { result ≡ known_not known }
{
    match known {
        Known::Number(word) => Known::Number(u32::from(word == 0)),
        Known::Division => Known::Division,
        _ => Known::Nothing,
    }
}

/// What is known of the truth of a value.
fn truth(known: Known) -> Known
    ensures { result ≡ truth known }
{
    match known {
        Known::Number(word) => Known::Number(u32::from(word != 0)),
        _ => known,
    }
}

/// What is known of `&&`: a left side of 0 hides a division by 0 behind it.
pub fn known_and(x: Known, y: Known) -> Known
    ensures { result ≡ known_and x y }
{
    match x {
        _ if !is_known(y) => Known::Nothing,
        Known::Number(0) => Known::Number(0),
        Known::Number(_) => truth(y),
        Known::Division => Known::Division,
        _ => Known::Nothing,
    }
}

/// What is known of `||`: a left side that isn't 0 hides a division by 0 behind it.
pub fn known_or(x: Known, y: Known) -> Known
    ensures { result ≡ known_or x y }
{
    match x {
        _ if !is_known(y) => Known::Nothing,
        Known::Number(0) => truth(y),
        Known::Number(_) => Known::Number(1),
        Known::Division => Known::Division,
        _ => Known::Nothing,
    }
}

/// What is known of `?:`, of its test and its two branches.
pub fn known_branch(test: Known, y: Known, z: Known) -> Known
    ensures { result ≡ known_branch test y z }
{
    match test {
        _ if !(is_known(y) && is_known(z)) => Known::Nothing,
        Known::Number(0) => z,
        Known::Number(_) => y,
        Known::Division => Known::Division,
        _ => Known::Nothing,
    }
}
