//! Lines: the macros that each of them defines, and what it puts out.

ghost use Rattle.std.specs.Prelude.{◌≡◌, ◌≤◌, ◌<◌, ◌+◌, ◌++◌, ◌||◌, ℕ, [], ◌∷◌, None, nat_eq, map, IfOk, OnOk, IfErr, All};
ghost use Rattle.std.specs.Map.{lookup};
ghost use Rattle.dae_tree.specs.Directives.{marks_of, number_piece, line_of, lines_of, same_spellings, known_as, conflict_items, definition_items, with_definition, with_definitions, number_macro, header_definitions, replaced_text, line_items, macros_after, replaced_lines, inclusion_of, is_of, includes};
ghost use Rattle.dae_tree.specs.Directives.{include as Include, define as Define};
ghost use Rattle.dae_tree.specs.Replacing.{expand};
ghost use Rattle.dae_tree.specs.declared.headers.Header.TheVariants.{Stdio, Stdlib};
ghost use Rattle.dae_tree.specs.declared.faults.LexError.TheVariants.{Memory};
ghost use Rattle.dae_lex_scan.specs.Cuts.{cut_of};
ghost use Rattle.dae_lex.specs.Numbers.{IsName, IsNumbered, Keeps, AreDefined, cuts_of, definition_of, definitions_of};
ghost use Rattle.dae_lex.specs.Settling.{LexState, Settles, AreRead, state_of, settle};
ghost use Rattle.dae_lex.specs.declared.numbers.WordNumbers.{WordNumbers as Numbers_};
ghost use Rattle.dae_lex.specs.Rows.{rows_of};

use crate::macros::{Macro, Macros};
use crate::numbers::{NumberedPiece, WordNumbers};
use crate::output::{Output, fixed_meaning};
use crate::replace::replace_piece;
use dae_base::Place;
use dae_lex_scan::{ReadLine, SourcePiece, blank_kind, line_length, number_kind, read_line};
use dae_tree::{Construct, Header, Includes, LexError, STDIO_MACROS, STDLIB_MACROS};
use std::alloc::Global;

/// Appends a piece, with its number.
fn push_numbered<'j>(
    alloc: Global,
    numbers: &mut WordNumbers<'j>,
    body: &mut Vec<NumberedPiece<'j>>,
    piece: SourcePiece<'j>,
) -> Result<(), LexError>
    requires { All (IsNumbered numbers.old) body.old.items }
    ensures pieces { OnOk result
        (cuts_of body.new.items ≡ cuts_of body.old.items ++ cut_of piece.entry ∷ []) }
    ensures numbered { OnOk result (All (IsNumbered numbers.new) body.new.items) }
    ensures keeps { OnOk result (Keeps numbers.old numbers.new) }
    ensures err { IfErr result (λ e. e ≡ Memory) }
{
    let numbered = numbers.piece(alloc, piece)?;
    match body.push(numbered) {
        Ok(()) => Ok(()),
        Err(_) => Err(LexError::Memory),
    }
}

/// The pieces that are no blanks, with their numbers. Only memory can be wanting.
fn marks<'j>(
    alloc: Global,
    numbers: &mut WordNumbers<'j>,
    pieces: &[SourcePiece<'j>],
) -> Result<Vec<NumberedPiece<'j>>, LexError>
    ensures ok { IfOk result (λ v. cuts_of v.items ≡ marks_of (map cut_of pieces.now)) }
    ensures numbered { IfOk result (λ v. All (IsNumbered numbers.new) v.items) }
    ensures keeps { OnOk result (Keeps numbers.old numbers.new) }
    ensures err { IfErr result (λ e. e ≡ Memory) }
{
    let mut all = Vec::new(alloc);
    for piece in pieces {
        if !blank_kind(piece.kind) {
            push_numbered(alloc, numbers, &mut all, *piece)?;
        }
    }
    Ok(all)
}

/// Whether two replacements are spelled alike.
fn same_body(a: &[NumberedPiece<'_>], b: &[NumberedPiece<'_>]) -> bool
    ensures { result ≡ same_spellings (cuts_of a.now) (cuts_of b.now) }
{
    if a.len() != b.len() {
        return false;
    }
    for i in 0..a.len() {
        if a[i].piece.spelling != b[i].piece.spelling {
            return false;
        }
    }
    true
}

/// For a name that has a definition, whether it is another than this.
fn redefined<'j>(macros: &Macros<'j>, number: usize, new: &Macro<'j>) -> Option<bool>
    ensures known { (w : Numbers_) → AreDefined w macros.now → IsName w number new.now.name.now →
        result ≡ known_as (definitions_of macros.now) (definition_of new.now) }
    ensures unknown { result ≡ None → lookup (nat_eq number) macros.now.bodies.entries ≡ None }
{
    match macros.find(number) {
        Some(old) => Some(!same_body(old, &new.body)),
        None => None,
    }
}

/// Takes a definition.
fn define<'j>(
    numbers: &mut WordNumbers<'j>,
    macros: &mut Macros<'j>,
    hash: Place,
    new: Macro<'j>,
) -> Result<(), LexError>
    requires defined { AreDefined numbers.old macros.old }
    requires numbered { All (IsNumbered numbers.old) new.body.items }
    ensures settles { (s : LexState) → Settles s result
        (settle s (conflict_items
        (known_as (definitions_of macros.old) (definition_of new.entry)) hash)) }
    ensures macros { OnOk result
        (definitions_of macros.new
        ≡ with_definition (definitions_of macros.old) (definition_of new.entry)) }
    ensures defined { OnOk result (AreDefined numbers.new macros.new) }
    ensures keeps { OnOk result (Keeps numbers.old numbers.new) }
{
    let number = numbers.word(new.name)?;
    match redefined(macros, number, &new) {
        Some(true) => Err(LexError::Refused(Construct::MacroRedefined, hash)),
        Some(false) => Ok(()),
        None => macros.define(number, new),
    }
}

/// A number as the whole replacement of a macro.
fn number_body<'j>(
    alloc: Global,
    numbers: &mut WordNumbers<'j>,
    hash: Place,
    digits: &'j [u8],
) -> Result<Vec<NumberedPiece<'j>>, LexError>
    ensures ok { IfOk result
        (λ body. cuts_of body.items ≡ number_piece hash digits.entry.now ∷ []) }
    ensures numbered { IfOk result (λ body. All (IsNumbered numbers.new) body.items) }
    ensures keeps { OnOk result (Keeps numbers.old numbers.new) }
    ensures err { IfErr result (λ e. e ≡ Memory) }
{
    let mut body = Vec::new(alloc);
    let piece = SourcePiece {
        kind: number_kind(digits),
        spelling: digits,
        start: 0,
        end: 0,
        place: hash,
    };
    push_numbered(alloc, numbers, &mut body, piece)?;
    Ok(body)
}

/// Takes the macros of a header.
fn define_numbers<'j>(
    alloc: Global,
    numbers: &mut WordNumbers<'j>,
    macros: &mut Macros<'j>,
    hash: Place,
    rows: &[(&'static [u8], &'static [u8])],
) -> Result<(), LexError>
    requires { AreDefined numbers.old macros.old }
    ensures settles { (s : LexState) → Settles s result
        (settle s (definition_items hash (definitions_of macros.old)
        (map (number_macro hash) (rows_of rows.now)))) }
    ensures macros { OnOk result
        (definitions_of macros.new
        ≡ with_definitions (definitions_of macros.old)
        (map (number_macro hash) (rows_of rows.now))) }
    ensures defined { OnOk result (AreDefined numbers.new macros.new) }
    ensures keeps { OnOk result (Keeps numbers.old numbers.new) }
{
    for (name, digits) in rows {
        let body = number_body(alloc, numbers, hash, digits)?;
        match define(numbers, macros, hash, Macro { name, body }) {
            Ok(()) => {}
            Err(e) => return Err(e),
        }
    }
    Ok(())
}

/// Takes an include of a header.
fn include<'j>(
    alloc: Global,
    numbers: &mut WordNumbers<'j>,
    macros: &mut Macros<'j>,
    hash: Place,
    header: Header,
) -> Result<(), LexError>
    requires { AreDefined numbers.old macros.old }
    ensures settles { (s : LexState) → Settles s result
        (settle s (definition_items hash (definitions_of macros.old)
        (header_definitions hash header))) }
    ensures macros { OnOk result
        (definitions_of macros.new
        ≡ with_definitions (definitions_of macros.old) (header_definitions hash header)) }
    ensures defined { OnOk result (AreDefined numbers.new macros.new) }
    ensures keeps { OnOk result (Keeps numbers.old numbers.new) }
{
    match header {
        Header::Stdio => define_numbers(alloc, numbers, macros, hash, &STDIO_MACROS),
        Header::Stdlib => define_numbers(alloc, numbers, macros, hash, &STDLIB_MACROS),
    }
}

/// Takes a define whose replacement has no fault.
fn define_pieces<'j>(
    alloc: Global,
    numbers: &mut WordNumbers<'j>,
    macros: &mut Macros<'j>,
    hash: Place,
    name: SourcePiece<'j>,
    rest: &[SourcePiece<'j>],
) -> Result<(), LexError>
    requires { AreDefined numbers.old macros.old }
    ensures settles { (s : LexState) → Settles s result
        (settle s (definition_items hash (definitions_of macros.old)
        (record { name = name.entry.spelling.now; body = marks_of (map cut_of rest.now) }
        ∷ []))) }
    ensures macros { OnOk result
        (definitions_of macros.new
        ≡ with_definition (definitions_of macros.old)
        (record { name = name.entry.spelling.now; body = marks_of (map cut_of rest.now) })) }
    ensures defined { OnOk result (AreDefined numbers.new macros.new) }
    ensures keeps { OnOk result (Keeps numbers.old numbers.new) }
{
    let body = marks(alloc, numbers, rest)?;
    let new = Macro {
        name: name.spelling,
        body,
    };
    define(numbers, macros, hash, new)
}

/// Puts out what a piece of the text becomes, with its number where it is a word or a literal.
fn take_numbered<'j>(
    alloc: Global,
    numbers: &mut WordNumbers<'j>,
    macros: &Macros<'j>,
    piece: &SourcePiece<'j>,
    out: &mut Output<'j>,
) -> Result<(), LexError>
    requires defined { AreDefined numbers.old macros.now }
    requires read { AreRead numbers.old out.old }
    ensures settles { (n : ℕ) → out.old.room.replacements ≤ n →
        Settles (state_of out.new) result
        (settle (state_of out.old)
        (expand n (definitions_of macros.now) [] (cut_of piece.now) (cut_of piece.now))) }
    ensures left { OnOk result (out.new.room.replacements ≤ out.old.room.replacements) }
    ensures keeps { OnOk result (Keeps numbers.old numbers.new) }
    ensures read { OnOk result (AreRead numbers.new out.new) }
{
    let first = numbers.piece(alloc, *piece)?;
    replace_piece(alloc, numbers, macros, first, out)
}

/// Puts out what a piece of the text becomes. Most pieces are blanks, signs and constants, which need no look-up.
fn take_piece<'j>(
    alloc: Global,
    numbers: &mut WordNumbers<'j>,
    macros: &Macros<'j>,
    piece: &SourcePiece<'j>,
    out: &mut Output<'j>,
) -> Result<(), LexError>
    requires defined { AreDefined numbers.old macros.now }
    requires read { AreRead numbers.old out.old }
    ensures settles { (n : ℕ) → out.old.room.replacements ≤ n →
        Settles (state_of out.new) result
        (settle (state_of out.old)
        (expand n (definitions_of macros.now) [] (cut_of piece.now) (cut_of piece.now))) }
    ensures left { OnOk result (out.new.room.replacements ≤ out.old.room.replacements) }
    ensures keeps { OnOk result (Keeps numbers.old numbers.new) }
    ensures read { OnOk result (AreRead numbers.new out.new) }
{
    if blank_kind(piece.kind) {
        return Ok(());
    }
    match fixed_meaning(piece.kind) {
        Some(meaning) => out.put(numbers, Ok(meaning), *piece),
        None => take_numbered(alloc, numbers, macros, piece, out),
    }
}

/// Puts out what a line of text becomes.
fn take_text<'j>(
    alloc: Global,
    numbers: &mut WordNumbers<'j>,
    macros: &Macros<'j>,
    pieces: &[SourcePiece<'j>],
    out: &mut Output<'j>,
) -> Result<(), LexError>
    requires defined { AreDefined numbers.old macros.now }
    requires read { AreRead numbers.old out.old }
    ensures settles { (n : ℕ) → out.old.room.replacements ≤ n →
        Settles (state_of out.new) result
        (settle (state_of out.old)
        (replaced_text n (definitions_of macros.now) (map cut_of pieces.now))) }
    ensures left { OnOk result (out.new.room.replacements ≤ out.old.room.replacements) }
    ensures keeps { OnOk result (Keeps numbers.old numbers.new) }
    ensures read { OnOk result (AreRead numbers.new out.new) }
{
    for piece in pieces {
        match take_piece(alloc, numbers, macros, piece, out) {
            Ok(()) => {}
            Err(e) => return Err(e),
        }
    }
    Ok(())
}

/// Takes one line, and says which header it includes.
fn take_line<'j>(
    alloc: Global,
    numbers: &mut WordNumbers<'j>,
    macros: &mut Macros<'j>,
    pieces: &[SourcePiece<'j>],
    out: &mut Output<'j>,
) -> Result<Option<Header>, LexError>
    requires defined { AreDefined numbers.old macros.old }
    requires read { AreRead numbers.old out.old }
    ensures settles { (n : ℕ) → out.old.room.replacements ≤ n →
        Settles (state_of out.new) result
        (settle (state_of out.old)
        (line_items n (definitions_of macros.old) (line_of (map cut_of pieces.now)))) }
    ensures macros { OnOk result
        (definitions_of macros.new
        ≡ macros_after (definitions_of macros.old) (line_of (map cut_of pieces.now))) }
    ensures left { OnOk result (out.new.room.replacements ≤ out.old.room.replacements) }
    ensures header { IfOk result
        (λ header. header ≡ inclusion_of (line_of (map cut_of pieces.now))) }
    ensures defined { OnOk result (AreDefined numbers.new macros.new) }
    ensures read { OnOk result (AreRead numbers.new out.new) }
{
    match read_line(pieces) {
        ReadLine::Text => {
            take_text(alloc, numbers, macros, pieces, out)?;
            Ok(None)
        }
        ReadLine::Nothing => Ok(None),
        ReadLine::Include(hash, header) => {
            include(alloc, numbers, macros, hash, header)?;
            Ok(Some(header))
        }
        ReadLine::Define(hash, name, rest) => {
            define_pieces(alloc, numbers, macros, hash, name, rest)?;
            Ok(None)
        }
        ReadLine::Refuse(error) => Err(error),
    }
}

/// The headers that are included once a line is read.
fn with_header(seen: Includes, found: Option<Header>) -> Includes
    ensures { result
        ≡ record {
          stdio = seen.stdio || is_of Stdio found;
          stdlib = seen.stdlib
              || is_of Stdlib found;
        } }
{
    match found {
        Some(Header::Stdio) => Includes {
            stdio: true,
            stdlib: seen.stdlib,
        },
        Some(Header::Stdlib) => Includes {
            stdio: seen.stdio,
            stdlib: true,
        },
        None => seen,
    }
}

/// Puts out what the lines become, and says which headers they include.
pub fn take_lines<'j>(
    alloc: Global,
    numbers: &mut WordNumbers<'j>,
    pieces: &[SourcePiece<'j>],
    out: &mut Output<'j>,
) -> Result<Includes, LexError>
    requires { AreRead numbers.old out.old }
    ensures settles { Settles (state_of out.new) result
        (settle (state_of out.old)
        (replaced_lines out.old.room.replacements [] (lines_of (map cut_of pieces.now)))) }
    ensures headers { IfOk result
        (λ seen. (seen.stdio ≡ includes Stdio (lines_of (map cut_of pieces.now)))
        × (seen.stdlib ≡ includes Stdlib (lines_of (map cut_of pieces.now)))) }
    ensures read { OnOk result (AreRead numbers.new out.new) }
{
    let mut macros = Macros::new(alloc);
    let mut seen = Includes {
        stdio: false,
        stdlib: false,
    };
    let mut at = 0;
    while at < pieces.len() {
        let n = line_length(&pieces[at..]);
        match take_line(alloc, numbers, &mut macros, &pieces[at..at + n], out) {
            Ok(found) => seen = with_header(seen, found),
            Err(e) => return Err(e),
        }
        at += n + 1;
    }
    Ok(seen)
}
