// Classes of types by their shapes (C90 6.1.2.5), and the error of a broken rule.

ghost use Rattle.std.specs.Prelude.{◌≡◌};
ghost use Rattle.dae_types_kinds.specs.declared.rules.CheckError.TheVariants as errors;
ghost use Rattle.dae_types_kinds.specs.Types.{is_array, is_character, is_function, is_integer, is_pointer, is_scalar, is_structure, is_unsigned, is_void};

use dae_base::Place;
use dae_types_kinds::{Breach, CheckError, Rule, Shape};

/// The error of a rule that is broken at a place.
pub fn broken(rule: Rule, place: Place) -> CheckError
    ensures { result ≡ errors.Rule (record { rule = rule; place = place }) }
{
    CheckError::Rule(Breach { rule, place })
}

/// Whether a type is an integer.
pub fn is_integer(shape: Shape) -> bool
    ensures { result ≡ is_integer shape }
{
    match shape {
        Shape::Char | Shape::SignedChar | Shape::UnsignedChar => true,
        Shape::Short | Shape::UnsignedShort | Shape::Int | Shape::Unsigned => true,
        _ => false,
    }
}

/// Whether a type is a character.
pub fn is_character(shape: Shape) -> bool
    ensures { result ≡ is_character shape }
{
    match shape {
        Shape::Char | Shape::SignedChar | Shape::UnsignedChar => true,
        _ => false,
    }
}

/// Whether a type is `unsigned`, whose words are read without a sign.
pub fn is_unsigned(shape: Shape) -> bool
    ensures { result ≡ is_unsigned shape }
{
    match shape {
        Shape::Unsigned => true,
        _ => false,
    }
}

/// Whether a type is a pointer.
pub fn is_pointer(shape: Shape) -> bool
    ensures { result ≡ is_pointer shape }
{
    match shape {
        Shape::Pointer(_) => true,
        _ => false,
    }
}

/// Whether a type is void.
pub fn is_void(shape: Shape) -> bool
    ensures { result ≡ is_void shape }
{
    match shape {
        Shape::Void => true,
        _ => false,
    }
}

/// Whether a type is a function.
pub fn is_function(shape: Shape) -> bool
    ensures { result ≡ is_function shape }
{
    match shape {
        Shape::Function(_, _) => true,
        _ => false,
    }
}

/// Whether a type is an array.
pub fn is_array(shape: Shape) -> bool
    ensures { result ≡ is_array shape }
{
    match shape {
        Shape::Array(_, _) => true,
        _ => false,
    }
}

/// Whether a type is a structure.
pub fn is_structure(shape: Shape) -> bool
    ensures { result ≡ is_structure shape }
{
    match shape {
        Shape::Struct(_) => true,
        _ => false,
    }
}

/// Whether a type is an integer or a pointer.
pub fn is_scalar(shape: Shape) -> bool
    ensures { result ≡ is_scalar shape }
{
    is_integer(shape) || is_pointer(shape)
}
