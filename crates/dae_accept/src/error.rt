// Why texts are refused.

ghost use Rattle.std.specs.Prelude.{◌≡◌};
ghost use Rattle.dae_accept.specs.declared.error.CompileError.TheVariants.{Memory};
ghost use Rattle.dae_accept.specs.Refusals.{from_checking, from_joining, from_reading};

use crate::FileError;
use dae_lex::LexError;
use dae_parse::ParseError;
use dae_types_kinds::{Breach, CheckError};
use dae_unit::JoinError;
use std::alloc::{AllocError, AllocFailed};

/// Why texts have no program, in the order in which causes are told: the first cause why one has no tokens; why the
/// tokens of one have no tree within the limits; a rule of types that is broken in one, with the place; why the
/// files don't join; or memory is wanting, which alone is free. No other variant carries a want of memory. A count past 2^32 and
/// a file that isn't known to be sound are told as a want of memory too.
#[derive(Drop)]
pub enum CompileError {
    Lex(LexError),
    Tree(ParseError),
    Rule(Breach),
    Join(JoinError),
    Memory,
}

impl From<AllocError> for CompileError {
    ghost from_gives = { λ _ e. e ≡ Memory };

    fn from(_e: AllocError) -> CompileError {
        CompileError::Memory
    }
}

impl<T: Drop> From<AllocFailed<T>> for CompileError {
    ghost from_gives = { λ _ e. e ≡ Memory };

    fn from(_e: AllocFailed<T>) -> CompileError {
        CompileError::Memory
    }
}

impl From<FileError> for CompileError {
    ghost from_gives = { λ e f. f ≡ from_reading e };

    fn from(e: FileError) -> CompileError {
        match e {
            FileError::Lex(e) => CompileError::Lex(e),
            FileError::Tree(e) => CompileError::Tree(e),
            FileError::Memory => CompileError::Memory,
        }
    }
}

impl From<CheckError> for CompileError {
    ghost from_gives = { λ e f. f ≡ from_checking e };

    fn from(e: CheckError) -> CompileError {
        match e {
            CheckError::Rule(breach) => CompileError::Rule(breach),
            CheckError::Memory => CompileError::Memory,
            CheckError::Unsound => CompileError::Memory,
        }
    }
}

impl From<JoinError> for CompileError {
    ghost from_gives = { λ e f. f ≡ from_joining e };

    fn from(e: JoinError) -> CompileError {
        match e {
            JoinError::Memory => CompileError::Memory,
            e => CompileError::Join(e),
        }
    }
}
