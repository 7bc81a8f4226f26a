// The lines for texts that are refused.
ghost use Rattle.std.specs.Prelude.{◌≡◌, [], IfOk, map, slice_get, string_bytes, unwrap_or};
ghost use Rattle.dae_cli_source_jobs.specs.Refusals.{construct_name, join_line, lex_line, place_text, refusal_line, refused_line, refused_twice_line, rule_name, too_long_line, tree_line};

use dae_accept::CompileError;
use dae_base::Place;
use dae_parse::ParseError;
use dae_tree::{Construct, LexError};
use dae_types_kinds::Rule;
use dae_unit::JoinError;
use std::alloc::{AllocError, Global};

/// The line that tells why files with these names are refused, and where.
pub fn refusal_line(
    alloc: Global,
    names: &[String],
    error: &CompileError,
) -> Result<String, AllocError>
    ensures { IfOk result (λ line.
        string_bytes line ≡ refusal_line (map string_bytes names.now) error.now) }
{
    match error {
        CompileError::Lex(error) => lex_line(alloc, names, *error),
        CompileError::Tree(error) => tree_line(alloc, names, *error),
        CompileError::Rule(breach) => {
            refused_line(alloc, rule_name(breach.rule), names, breach.place)
        }
        CompileError::Join(error) => join_line(alloc, names, *error),
        CompileError::Memory => String::from_str(alloc, "memory\n"),
    }
}

/// The line for a file with more bytes than the sources of a job may have.
pub fn too_long_line(alloc: Global, name: &str) -> Result<String, AllocError>
    ensures { IfOk result (λ line. string_bytes line ≡ too_long_line name.now) }
{
    format!(in alloc; "refused source-too-long {name}\n")
}

// Why a text has no tokens.
fn lex_line(alloc: Global, names: &[String], error: LexError) -> Result<String, AllocError>
    ensures { IfOk result (λ line.
        string_bytes line ≡ lex_line (map string_bytes names.now) error) }
{
    match error {
        LexError::BadByte(place) => refused_line(alloc, "bad-byte", names, place),
        LexError::TooManyTokens(place) => refused_line(alloc, "too-many-tokens", names, place),
        LexError::Refused(construct, place) => {
            refused_line(alloc, construct_name(construct), names, place)
        }
        LexError::Memory => String::from_str(alloc, "memory\n"),
    }
}

// Why tokens have no tree within the limits.
fn tree_line(alloc: Global, names: &[String], error: ParseError) -> Result<String, AllocError>
    ensures { IfOk result (λ line.
        string_bytes line ≡ tree_line (map string_bytes names.now) error) }
{
    match error {
        ParseError::Syntax(place) => refused_line(alloc, "syntax", names, place),
        ParseError::TooDeep(place) => refused_line(alloc, "too-deep", names, place),
        ParseError::FunctionTooLong(place) => {
            refused_line(alloc, "function-too-long", names, place)
        }
        ParseError::Memory => String::from_str(alloc, "memory\n"),
    }
}

// Why files don't join.
fn join_line(alloc: Global, names: &[String], error: JoinError) -> Result<String, AllocError>
    ensures { IfOk result (λ line.
        string_bytes line ≡ join_line (map string_bytes names.now) error) }
{
    match error {
        JoinError::DefinedTwice(first, second) => {
            refused_twice_line(alloc, "defined-twice", names, (first, second))
        }
        JoinError::TypesDiffer(first, second) => {
            refused_twice_line(alloc, "types-differ", names, (first, second))
        }
        JoinError::NotDefined(place) => refused_line(alloc, "not-defined", names, place),
        JoinError::NoMain => String::from_str(alloc, "refused no-main\n"),
        JoinError::DataTooLarge(end) => format!(in alloc; "refused data-too-large {end}\n"),
        JoinError::Memory => String::from_str(alloc, "memory\n"),
    }
}

// The line that tells what files are refused for, and where.
fn refused_line(
    alloc: Global,
    what: &str,
    names: &[String],
    place: Place,
) -> Result<String, AllocError>
    ensures { IfOk result (λ line.
        string_bytes line ≡ refused_line what.now (map string_bytes names.now) place) }
{
    let place = place_text(alloc, names, place)?;
    format!(in alloc; "refused {what} {place}\n")
}

// The same with two places.
fn refused_twice_line(
    alloc: Global,
    what: &str,
    names: &[String],
    places: (Place, Place),
) -> Result<String, AllocError>
    ensures { IfOk result (λ line. string_bytes line
        ≡ refused_twice_line what.now (map string_bytes names.now) places.0 places.1) }
{
    let first = place_text(alloc, names, places.0)?;
    let second = place_text(alloc, names, places.1)?;
    format!(in alloc; "refused {what} {first} {second}\n")
}

// A place, in the file with its number.
fn place_text(alloc: Global, names: &[String], place: Place) -> Result<String, AllocError>
    ensures { IfOk result (λ text.
        string_bytes text ≡ place_text (map string_bytes names.now) place) }
{
    let name = name_at(names, place.file as usize);
    format!(in alloc; "{name}:{}:{}", place.line, place.col)
}

// The name with this number, or the empty text.
fn name_at(names: &[String], number: usize) -> &str
    ensures { result.now ≡ unwrap_or (slice_get (map string_bytes names.now) number) [] }
{
    match names.get(number) {
        Some(name) => name.as_str(),
        None => "",
    }
}

fn rule_name(rule: Rule) -> &'static str
    ensures { result.now ≡ rule_name rule }
{
    match rule {
        Rule::Undeclared => "undeclared",
        Rule::Redeclared => "redeclared",
        Rule::Redefined => "redefined",
        Rule::TagKind => "tag-kind",
        Rule::Incomplete => "incomplete",
        Rule::VoidObject => "void-object",
        Rule::BadFunctionType => "bad-function-type",
        Rule::FunctionPointer => "function-pointer",
        Rule::FunctionValue => "function-value",
        Rule::BadSize => "bad-size",
        Rule::ObjectTooLarge => "object-too-large",
        Rule::NotLvalue => "not-lvalue",
        Rule::NotModifiable => "not-modifiable",
        Rule::NotScalar => "not-scalar",
        Rule::NotInteger => "not-integer",
        Rule::BadOperands => "bad-operands",
        Rule::BadAssign => "bad-assign",
        Rule::BadCast => "bad-cast",
        Rule::BadIndex => "bad-index",
        Rule::BadDeref => "bad-deref",
        Rule::NotStructure => "not-structure",
        Rule::BadMember => "bad-member",
        Rule::StructureValue => "structure-value",
        Rule::BadCall => "bad-call",
        Rule::ArgumentCount => "argument-count",
        Rule::BadArgument => "bad-argument",
        Rule::BadReturn => "bad-return",
        Rule::NotConstant => "not-constant",
        Rule::ConstantDivision => "constant-division",
        Rule::BadInitialiser => "bad-initialiser",
        Rule::TooManyInitialisers => "too-many-initialisers",
        Rule::LoopOutside => "loop-outside",
        Rule::StorageClass => "storage-class",
        Rule::BlockStorage => "block-storage",
        Rule::BlockFunction => "block-function",
        Rule::TypedefMisuse => "typedef-misuse",
        Rule::ParameterName => "parameter-name",
        Rule::BadFormat => "bad-format",
        Rule::PrintfPlace => "printf-place",
        Rule::BadMain => "bad-main",
        Rule::MainCalled => "main-called",
        Rule::CaseOutside => "case-outside",
        Rule::CaseDuplicate => "case-duplicate",
        Rule::DefaultTwice => "default-twice",
        Rule::SwitchBody => "switch-body",
    }
}

fn construct_name(construct: Construct) -> &'static str
    ensures { result.now ≡ construct_name construct }
{
    match construct {
        Construct::Goto => "goto",
        Construct::Union => "union",
        Construct::Volatile => "volatile",
        Construct::FloatType => "float-type",
        Construct::FloatConstant => "float-constant",
        Construct::Ellipsis => "ellipsis",
        Construct::Directive => "directive",
        Construct::FunctionMacro => "function-macro",
        Construct::HashInMacro => "hash-in-macro",
        Construct::MacroRedefined => "macro-redefined",
        Construct::Trigraph => "trigraph",
        Construct::WideLiteral => "wide-literal",
        Construct::LongCharacter => "long-character",
        Construct::BadEscape => "bad-escape",
        Construct::BadConstant => "bad-constant",
        Construct::NumberTooLarge => "number-too-large",
        Construct::Unterminated => "unterminated",
        Construct::TooManyReplacements => "too-many-replacements",
        Construct::LiteralsTooLong => "literals-too-long",
    }
}
