// Types, as places in a list of shapes.

ghost use Rattle.std.specs.Prelude.{◌≡◌};
ghost use Rattle.dae_types_kinds.specs.Types.{layout};

/// The shape of a type (C90 6.1.2.5). A number is the place of another type, or of a structure. The types of parameters are
/// a list of shapes, each behind those before it. An array without a size has no count.
#[derive(Clone, Copy)]
pub enum Shape {
    Void,
    Char,
    SignedChar,
    UnsignedChar,
    Short,
    UnsignedShort,
    Int,
    Unsigned,
    Pointer(usize),
    Array(usize, Option<u32>),
    Struct(usize),
    Function(usize, usize),
    NoParameters,
    Parameter(usize, usize),
}

/// Bytes and alignment.
#[derive(Clone, Copy)]
pub struct Layout {
    pub size: u32,
    pub align: u32,
}

/// The layout of so many bytes with this alignment.
pub fn layout_with(size: u32, align: u32) -> Layout
    ensures { result ≡ layout size align }
{
    Layout { size, align }
}

/// A structure: its tag, whether its members have begun, and its layout once it is complete (C90 6.5.2.1).
#[derive(Clone, Copy)]
pub struct Structure {
    pub tag: Option<u32>,
    pub begun: bool,
    pub layout: Option<Layout>,
}
