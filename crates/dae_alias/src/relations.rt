// What two accesses have in common.

ghost use Rattle.std.specs.Prelude.{◌≡◌, ◌&&◌, ◌||◌, nat_lt};
ghost use Rattle.dae_base.specs.Words.{size};
ghost use Rattle.dae_alias.specs.Addresses as spec;

use crate::addresses::{Base, Relation, SymAddr};
use dae_base::{LoadKind, Width};

fn same_base(x: Base, y: Base) -> bool
    ensures { result ≡ spec.same_base x y }
{
    match (x, y) {
        (Base::Number, Base::Number) => true,
        (Base::Frame, Base::Frame) => true,
        (Base::Variable(v, j), Base::Variable(w, k)) => v == w && j == k,
        _ => false,
    }
}

fn size(width: Width) -> u32
    ensures { result ≡ size width }
{
    match width {
        Width::B1 => 1,
        Width::B2 => 2,
        Width::B4 => 4,
    }
}

fn same_width(x: Width, y: Width) -> bool
    ensures { result ≡ spec.same_width x y }
{
    match (x, y) {
        (Width::B1, Width::B1) => true,
        (Width::B2, Width::B2) => true,
        (Width::B4, Width::B4) => true,
        _ => false,
    }
}

fn ranges_meet(x: u32, wx: Width, y: u32, wy: Width) -> bool
    ensures { result ≡ spec.ranges_meet x wx y wy }
{
    y.wrapping_sub(x) < size(wx) || x.wrapping_sub(y) < size(wy)
}

/// Whether two accesses move the same bytes or share none, by their symbolic addresses and widths. They are the same
/// exactly where base, offset and width agree, and apart exactly where the bases agree and their bytes, modulo 2^32, are
/// all different.
pub fn relation(x: &SymAddr, wx: Width, y: &SymAddr, wy: Width) -> Relation
    ensures { result ≡ spec.relation x.now wx y.now wy }
{
    if !same_base(x.base, y.base) {
        return Relation::Unknown;
    }
    if x.offset == y.offset && same_width(wx, wy) {
        return Relation::Same;
    }
    if ranges_meet(x.offset, wx, y.offset, wy) {
        Relation::Unknown
    } else {
        Relation::Apart
    }
}

/// Whether base and offset agree.
pub fn same_place(x: SymAddr, y: SymAddr) -> bool
    ensures { result ≡ spec.same_place x y }
{
    same_base(x.base, y.base) && x.offset == y.offset
}

/// Whether two loads read and extend alike.
pub fn same_kind(x: LoadKind, y: LoadKind) -> bool
    ensures { result ≡ spec.same_kind x y }
{
    match (x, y) {
        (LoadKind::I8, LoadKind::I8) => true,
        (LoadKind::U8, LoadKind::U8) => true,
        (LoadKind::I16, LoadKind::I16) => true,
        (LoadKind::U16, LoadKind::U16) => true,
        (LoadKind::I32, LoadKind::I32) => true,
        _ => false,
    }
}

/// Whether two accesses share no byte, by their symbolic addresses.
pub fn are_apart(x: SymAddr, wx: Width, y: SymAddr, wy: Width) -> bool
    ensures { result ≡ spec.are_apart x wx y wy }
{
    same_base(x.base, y.base)
        && !(x.offset == y.offset && same_width(wx, wy))
        && !ranges_meet(x.offset, wx, y.offset, wy)
}
