// What a typed expression is beside its tree.

ghost use Rattle.std.specs.Prelude.{◌≡◌};
ghost use Rattle.dae_types_kinds.specs.Values.{is_indirect};

/// How an address is come by: by a name, or through `*`, `->` or a subscript, so that it is checked where it is used.
#[derive(Clone, Copy)]
pub enum Addressing {
    Direct,
    Indirect,
}

/// What a typed tree gives: a value; the address of an object; a variable, by its number; or the address of a structure, or
/// an array in one, that is no object but the value of an expression.
#[derive(Clone, Copy)]
pub enum Category {
    Plain,
    At(Addressing),
    InVariable(u32),
    Aggregate(Addressing),
}

/// Whether an address is come by through `*`, `->` or a subscript.
pub fn is_indirect(addressing: Addressing) -> bool
    ensures { result ≡ is_indirect addressing }
{
    match addressing {
        Addressing::Direct => false,
        Addressing::Indirect => true,
    }
}

/// What is known of a word before the program runs (C90 6.4): nothing; the value of an integer constant expression; that an
/// integer constant expression divides by zero; a constant address, so many bytes behind an object with static storage or
/// behind 0; or that it is such a number that is 0, cast to `void *`, which is a null pointer constant (C90 6.2.2.3).
#[derive(Clone, Copy)]
pub enum Known {
    Nothing,
    Number(u32),
    Division,
    Address(Option<u32>, u32),
    NullPointer,
}
