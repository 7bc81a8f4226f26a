// How values of types are read, and the types of promotions and of the usual conversions (C90 6.2.1).

ghost use Rattle.std.specs.Prelude.{◌≡◌};
ghost use Rattle.dae_types_kinds.specs.Types.{pointee};
ghost use Rattle.dae_types_kinds.specs.Values.{load_kind, promoted, common};

use dae_base::LoadKind;
use dae_types_kinds::{INT_ID, Shape, UNSIGNED_ID};
use dae_types_tables::is_unsigned;

/// The type that a pointer points to.
pub fn pointee(shape: Shape) -> Option<usize>
    ensures { result ≡ pointee shape }
{
    match shape {
        Shape::Pointer(to) => Some(to),
        _ => None,
    }
}

/// How a value of a type is read.
pub fn load_kind(shape: Shape) -> LoadKind
    ensures { result ≡ load_kind shape }
{
    match shape {
        Shape::Char | Shape::UnsignedChar => LoadKind::U8,
        Shape::SignedChar => LoadKind::I8,
        Shape::Short => LoadKind::I16,
        Shape::UnsignedShort => LoadKind::U16,
        _ => LoadKind::I32,
    }
}

/// The type that the integral promotion gives.
pub fn promoted(shape: Shape) -> usize
    ensures { result ≡ promoted shape }
{
    if is_unsigned(shape) {
        UNSIGNED_ID
    } else {
        INT_ID
    }
}

/// The type that the usual arithmetic conversions give.
pub fn common(first: Shape, second: Shape) -> usize
    ensures { result ≡ common first second }
{
    if is_unsigned(first) || is_unsigned(second) {
        UNSIGNED_ID
    } else {
        INT_ID
    }
}
