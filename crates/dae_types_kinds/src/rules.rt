// The rules of types by their names, and what a check answers.

ghost use Rattle.std.specs.Prelude.{◌≡◌};
ghost use Rattle.dae_types_kinds.specs.declared.rules.CheckError.TheVariants.{Memory};

use dae_base::Place;
use std::alloc::{AllocError, AllocFailed};

/// A rule of types.
#[derive(Clone, Copy)]
pub enum Rule {
    Undeclared,
    Redeclared,
    Redefined,
    TagKind,
    Incomplete,
    VoidObject,
    BadFunctionType,
    FunctionPointer,
    FunctionValue,
    BadSize,
    ObjectTooLarge,
    NotLvalue,
    NotModifiable,
    NotScalar,
    NotInteger,
    BadOperands,
    BadAssign,
    BadCast,
    BadIndex,
    BadDeref,
    NotStructure,
    BadMember,
    StructureValue,
    BadCall,
    ArgumentCount,
    BadArgument,
    BadReturn,
    NotConstant,
    ConstantDivision,
    BadInitialiser,
    TooManyInitialisers,
    LoopOutside,
    StorageClass,
    BlockStorage,
    BlockFunction,
    TypedefMisuse,
    ParameterName,
    BadFormat,
    PrintfPlace,
    BadMain,
    MainCalled,
    CaseOutside,
    CaseDuplicate,
    DefaultTwice,
    SwitchBody,
}

/// A broken rule and where it is broken.
#[derive(Clone, Copy)]
pub struct Breach {
    pub rule: Rule,
    pub place: Place,
}

/// Why a check has no typed tree: a broken rule; an allocation that was refused; or that what a file comes to isn't known to be
/// sound.
#[derive(Drop)]
pub enum CheckError {
    Rule(Breach),
    Memory,
    Unsound,
}

impl From<AllocError> for CheckError {
    ghost from_gives = { λ _ e. e ≡ Memory };

    fn from(_e: AllocError) -> CheckError {
        CheckError::Memory
    }
}

impl<T: Drop> From<AllocFailed<T>> for CheckError {
    ghost from_gives = { λ _ e. e ≡ Memory };

    fn from(_e: AllocFailed<T>) -> CheckError {
        CheckError::Memory
    }
}
