// Words and names of types among specifiers (C90 6.5.1, 6.5.2 and 6.5.6).

ghost use Rattle.std.specs.Prelude.{◌≡◌};
ghost use Rattle.dae_types_plans.specs.Steps.{arithmetic_id, base_of, type_name_at, word_at};
ghost use Rattle.dae_types_rules.specs.Table.{is_block_storage, is_storage, is_stray_typedef};
ghost use Rattle.dae_types_tables.specs.Seen.{Follows};

use dae_base::Place;
use dae_tree::{Arithmetic, Keyword, Name, Seen};
use dae_types_kinds::{
    CHAR_ID, CheckError, Context, Entity, INT_ID, Rule, SHORT_ID, SIGNED_CHAR_ID, UNSIGNED_CHAR_ID,
    UNSIGNED_ID, UNSIGNED_SHORT_ID, VOID_ID,
};
use dae_types_tables::{Checker, broken};

/// A word of specifiers. It leaves the type that stands alone among them, if there is one so far.
#[tactic(auto, unfolding(dae_types_rules::specs::Plan::ask_all))]
pub fn check_word(
    checker: &Checker,
    place: Place,
    context: Context,
    alone: Option<usize>,
    word: Keyword,
) -> Result<Option<usize>, CheckError>
    ensures { Follows checker.now result (word_at place context alone word) checker.now }
{
    if is_storage(context, word) {
        return Err(broken(Rule::StorageClass, place));
    }
    if is_block_storage(context, word) {
        return Err(broken(Rule::BlockStorage, place));
    }
    if is_stray_typedef(context, word) {
        return Err(broken(Rule::TypedefMisuse, place));
    }
    Ok(alone)
}

/// Whether a word is a storage class where there is none.
fn is_storage(context: Context, word: Keyword) -> bool
    ensures { result ≡ is_storage context word }
{
    match (context, word) {
        (Context::File | Context::Block, _) => false,
        (_, Keyword::Auto | Keyword::Static | Keyword::Extern) => true,
        (Context::Member | Context::TypeName, Keyword::Register) => true,
        _ => false,
    }
}

/// Whether a word gives a local object static storage, or the file's.
fn is_block_storage(context: Context, word: Keyword) -> bool
    ensures { result ≡ is_block_storage context word }
{
    match (context, word) {
        (Context::Block, Keyword::Static | Keyword::Extern) => true,
        _ => false,
    }
}

/// Whether a word is typedef where no type can be named.
fn is_stray_typedef(context: Context, word: Keyword) -> bool
    ensures { result ≡ is_stray_typedef context word }
{
    match (context, word) {
        (Context::Member | Context::Parameter | Context::TypeName, Keyword::Typedef) => true,
        _ => false,
    }
}

/// The type that a typedef's name stands for.
#[tactic(auto, unfolding(dae_types_rules::specs::Plan::ask_all))]
pub fn type_of_name(checker: &Checker, name: Name) -> Result<Option<usize>, CheckError>
    ensures { Follows checker.now result (type_name_at name) checker.now }
{
    match checker.found_name(name.number) {
        Some(Entity::Type(id)) => Ok(Some(id)),
        _ => Err(broken(Rule::Undeclared, name.place)),
    }
}

/// The type of specifiers: the one that stands alone among them, else the one that their words name.
pub fn base_type(seen: Seen, alone: Option<usize>) -> usize
    ensures { result ≡ base_of seen alone }
{
    match alone {
        Some(id) => id,
        None if seen.whole => VOID_ID,
        None => arithmetic_type(seen.arithmetic()),
    }
}

/// The number of an arithmetic type.
fn arithmetic_type(arithmetic: Arithmetic) -> usize
    ensures { result ≡ arithmetic_id arithmetic }
{
    match arithmetic {
        Arithmetic::Char => CHAR_ID,
        Arithmetic::SignedChar => SIGNED_CHAR_ID,
        Arithmetic::UnsignedChar => UNSIGNED_CHAR_ID,
        Arithmetic::Short => SHORT_ID,
        Arithmetic::UnsignedShort => UNSIGNED_SHORT_ID,
        Arithmetic::Int | Arithmetic::Long => INT_ID,
        Arithmetic::Unsigned | Arithmetic::UnsignedLong => UNSIGNED_ID,
    }
}
