//! The rules of types: which one a text breaks, and how a structure is laid out.

use dae_lex::tokens;
use dae_parse::parse;
use dae_rows::{source_of, word_in};
use dae_tree::{File, Room};
use dae_types::{align_of, check, member, size_of};
use dae_types_kinds::{Breach, CheckError};
use dae_types_typed::TypedFile;
use std::alloc::{AllocError, Global};

/// The rules, in the order of their numbers.
const RULES: &str = "\
    Undeclared Redeclared Redefined TagKind Incomplete VoidObject BadFunctionType \
    FunctionPointer FunctionValue BadSize ObjectTooLarge NotLvalue NotModifiable NotScalar \
    NotInteger BadOperands BadAssign BadCast BadIndex BadDeref NotStructure BadMember \
    StructureValue BadCall ArgumentCount BadArgument BadReturn NotConstant ConstantDivision \
    BadInitialiser TooManyInitialisers LoopOutside StorageClass BlockStorage BlockFunction \
    TypedefMisuse ParameterName BadFormat PrintfPlace BadMain MainCalled CaseOutside \
    CaseDuplicate DefaultTwice SwitchBody";

fn whole_room() -> Room {
    Room {
        tokens: 65_536,
        replacements: 65_536,
        literal_bytes: 65_536,
    }
}

/// The value in a box, so that a function that holds it lets it go by one call.
fn boxed<T: Drop>(alloc: Global, value: T) -> Result<Box<T>, AllocError> {
    Ok(Box::new(alloc, value)?)
}

/// The tree of a text, if it has one.
fn tree_of(alloc: Global, text: &[u8]) -> Option<Box<File>> {
    if text.len() > 1_048_576 {
        return None;
    }
    let Ok(tokens) = tokens(alloc, 0, text, &mut whole_room()) else {
        return None;
    };
    match parse(alloc, &tokens) {
        Ok(file) => boxed(alloc, file).ok(),
        Err(_) => None,
    }
}

/// What the check of a text's types answers; none where it has no tokens, or they have no tree.
fn check_text(alloc: Global, text: &[u8]) -> Option<Result<Box<TypedFile>, CheckError>> {
    let file = tree_of(alloc, text)?;
    match check(alloc, &file) {
        Ok(typed) => match boxed(alloc, typed) {
            Ok(typed) => Some(Ok(typed)),
            Err(_) => None,
        },
        Err(error) => Some(Err(error)),
    }
}

/// A broken rule, with its line and its column.
fn breach_text(alloc: Global, breach: &Breach) -> Result<String, AllocError> {
    let rule = word_in(RULES, usize::from(breach.rule as u8));
    let (line, col) = (breach.place.line, breach.place.col);
    format!(in alloc; "{rule} {line} {col}")
}

/// The rule that a text breaks, or that it breaks none.
pub fn rule_told(alloc: Global, text: &str) -> Result<String, AllocError> {
    let text = source_of(alloc, text)?;
    match check_text(alloc, text.as_slice()) {
        Some(Err(CheckError::Rule(breach))) => breach_text(alloc, &breach),
        Some(Ok(_)) => String::from_str(alloc, "none"),
        _ => Ok(String::new(alloc)),
    }
}

/// The offset of a member of a type, by the number of its name.
fn offset_of(file: &TypedFile, type_id: usize, name: u32) -> Option<u32> {
    match member(file, type_id, name) {
        Some((offset, _)) => Some(offset),
        None => None,
    }
}

/// The size of a type, its alignment, and the offsets of members of four names.
fn layout_text(alloc: Global, file: &TypedFile, type_id: usize) -> Result<String, AllocError> {
    let (size, align) = (size_of(file, type_id), align_of(file, type_id));
    let (first, second) = (offset_of(file, type_id, 1), offset_of(file, type_id, 2));
    let (third, fourth) = (offset_of(file, type_id, 3), offset_of(file, type_id, 4));
    format!(in alloc; "{size:?} {align:?} {first:?} {second:?} {third:?} {fourth:?}")
}

/// The layout of the type of a text's only object.
pub fn layout_told(alloc: Global, text: &str) -> Result<String, AllocError> {
    let text = source_of(alloc, text)?;
    match check_text(alloc, text.as_slice()) {
        Some(Ok(file)) => match file.parts().objects.as_slice() {
            [object] => layout_text(alloc, &file, object.type_id),
            _ => Ok(String::new(alloc)),
        },
        _ => Ok(String::new(alloc)),
    }
}
