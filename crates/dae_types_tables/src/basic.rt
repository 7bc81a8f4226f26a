// The shapes of the types that are there from the start (C90 6.1.2.5).

use dae_types_kinds::Shape;

/// Their shapes, in the order of their numbers.
pub const FIRST_SHAPES: [Shape; 9] = [
    Shape::Void,
    Shape::Char,
    Shape::SignedChar,
    Shape::UnsignedChar,
    Shape::Short,
    Shape::UnsignedShort,
    Shape::Int,
    Shape::Unsigned,
    Shape::NoParameters,
];
