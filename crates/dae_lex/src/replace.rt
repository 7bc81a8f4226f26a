//! Names of macros replaced, with a stack of the replacements that are not over.

ghost use Rattle.std.specs.Prelude.{◌≡◌, ◌≤◌, ◌<◌, ◌+◌, ◌^◌, ◌++◌, ℕ, [], ◌∷◌, None, nat_eq, length, option_map, is_some, OnOk, IfErr, IfSome, MatchOption, All};
ghost use Rattle.std.specs.Map.{lookup};
ghost use Rattle.dae_tree.specs.Replacing.{expand, replaced};
ghost use Rattle.dae_lex_scan.specs.Cuts.{cut_of};
ghost use Rattle.dae_lex.specs.Numbers.{IsName, IsNumbered, AreDefined, cuts_of, definitions_of};
ghost use Rattle.dae_lex.specs.Settling.{Settles, AreRead, state_of, settle};
ghost use Rattle.dae_lex.specs.Pending.{AreOpen, frames_of, replacement_in, settling, work_of, Follows};
ghost use Rattle.dae_lex.specs.declared.numbers.WordNumbers.{WordNumbers as Numbers_};
ghost use Rattle.dae_tree.specs.declared.faults.LexError.TheVariants.{Memory};

use crate::macros::Macros;
use crate::numbers::{NumberedPiece, WordNumbers};
use crate::output::Output;
use dae_lex_scan::SourcePiece;
use dae_tree::{LexError, PieceKind};
use indexmap::IndexMap;
use std::alloc::Global;

/// A replacement that isn't over: the name of its macro, and the rest of its body.
#[derive(Clone, Copy)]
pub struct OpenReplacement<'m, 'j> {
    pub name: &'j [u8],
    pub rest: &'m [NumberedPiece<'j>],
}

/// The replacements that aren't over, the outermost first, by the numbers of their macros' names.
#[derive(Drop)]
pub struct Stack<'m, 'j> {
    pub frames: IndexMap<usize, OpenReplacement<'m, 'j>>,
}

impl<'m, 'j> Stack<'m, 'j> {
    /// No replacements.
    pub fn new(alloc: Global) -> Stack<'m, 'j>
        ensures { result.frames.entries ≡ [] }
    {
        Stack {
            frames: IndexMap::new(alloc),
        }
    }

    /// Whether there are none.
    pub fn is_empty(&self) -> bool
        ensures { result ≡ nat_eq (length self.now.frames.entries) 0 }
    {
        self.frames.is_empty()
    }

    /// Whether a replacement of the name with this number isn't over.
    pub fn holds(&self, number: usize) -> bool
        ensures { result ≡ is_some (lookup (nat_eq number) self.now.frames.entries) }
    {
        self.frames.contains_key(&number)
    }

    /// Begins a replacement of a name that none is open of.
    pub fn push(
        &mut self,
        number: usize,
        name: &'j [u8],
        rest: &'m [NumberedPiece<'j>],
    ) -> Result<(), LexError>
        requires { lookup (nat_eq number) self.old.frames.entries ≡ None }
        ensures ok { OnOk result
            (self.new.frames.entries ≡ self.old.frames.entries
            ++ (number, record { name = name.entry; rest = rest.entry }) ∷ []) }
        ensures err { IfErr result (λ e. e ≡ Memory) }
    {
        match self.frames.insert(number, OpenReplacement { name, rest }) {
            Ok(_) => Ok(()),
            Err(_) => Err(LexError::Memory),
        }
    }

    /// Takes the innermost replacement out, after which none of its name is open.
    pub fn pop(&mut self) -> Option<(usize, OpenReplacement<'m, 'j>)>
        ensures taken { MatchOption result (self.old.frames.entries ≡ [])
            (λ f. self.old.frames.entries ≡ self.new.frames.entries ++ f ∷ []) }
        ensures over { IfSome result (λ f. lookup (nat_eq f.0) self.new.frames.entries ≡ None) }
    {
        self.frames.pop()
    }
}

/// The first of these pieces, and the others.
fn next_of<'m, 'j>(
    pieces: &'m [NumberedPiece<'j>],
) -> Option<(NumberedPiece<'j>, &'m [NumberedPiece<'j>])>
    ensures { MatchOption result (pieces.now ≡ []) (λ next. pieces.now ≡ next.0 ∷ next.1.now) }
{
    match pieces {
        [] => None,
        [first, rest @ ..] => Some((*first, rest)),
    }
}

/// What a piece is replaced by, where these replacements aren't over.
fn replacement_of<'m, 'j>(
    macros: &'m Macros<'j>,
    stack: &Stack<'m, 'j>,
    next: NumberedPiece<'j>,
) -> Option<&'m [NumberedPiece<'j>]>
    ensures body { (w : Numbers_) → AreDefined w macros.now → AreOpen w stack.now →
        IsNumbered w next.entry → option_map (λ body. cuts_of body.now) result
        ≡ replacement_in macros.now stack.now (cut_of next.entry.piece) }
    ensures numbered { (w : Numbers_) → AreDefined w macros.now →
        IfSome result (λ body. All (IsNumbered w) body.now) }
    ensures small { IfSome result (λ body. length body.now < 2 ^ 64) }
    ensures fresh { IfSome result
        (λ body. lookup (nat_eq next.entry.number) stack.now.frames.entries ≡ None) }
    ensures named { (w : Numbers_) → IsNumbered w next.entry →
        IfSome result (λ body. IsName w next.entry.number next.entry.piece.spelling.now) }
{
    match next.piece.kind {
        PieceKind::Word => {
            if stack.holds(next.number) {
                return None;
            }
            macros.find(next.number)
        }
        _ => None,
    }
}

/// Begins the replacement of a piece by a body.
fn begin<'m, 'j>(
    stack: &mut Stack<'m, 'j>,
    next: NumberedPiece<'j>,
    body: &'m [NumberedPiece<'j>],
    origin: SourcePiece<'j>,
    out: &mut Output<'j>,
) -> Result<(), LexError>
    requires { lookup (nat_eq next.number) stack.old.frames.entries ≡ None }
    ensures settles { Settles (state_of out.new) result
        (settle (state_of out.old) (replaced (cut_of origin.entry) ∷ [])) }
    ensures left { OnOk result (out.new.room.replacements + 1 ≡ out.old.room.replacements) }
    ensures frames { OnOk result
        (stack.new.frames.entries ≡ stack.old.frames.entries
        ++ (next.entry.number, record { name = next.entry.piece.spelling; rest = body.entry })
        ∷ []) }
    ensures tokens { out.new.tokens ≡ out.old.tokens }
{
    match out.count_replacement(origin) {
        Ok(()) => stack.push(next.number, next.piece.spelling, body),
        Err(e) => Err(e),
    }
}

/// One turn: what stands next in the innermost replacement is replaced, taken or refused.
fn turn<'m, 'j>(
    numbers: &WordNumbers<'j>,
    macros: &'m Macros<'j>,
    stack: &mut Stack<'m, 'j>,
    origin: SourcePiece<'j>,
    out: &mut Output<'j>,
) -> Result<(), LexError>
    requires some { 0 < length stack.old.frames.entries }
    requires defined { AreDefined numbers.now macros.now }
    requires numbered { AreOpen numbers.now stack.old }
    requires read { AreRead numbers.now out.old }
    ensures settles { (n : ℕ) → out.old.room.replacements + length stack.old.frames.entries ≤ n →
        Follows result (settling n macros.now origin.entry out.old stack.old)
        (settling n macros.now origin.entry out.new stack.new) }
    ensures depth { OnOk result
        (out.new.room.replacements + length stack.new.frames.entries
        ≤ out.old.room.replacements + length stack.old.frames.entries) }
    ensures less { OnOk result
        (work_of out.new.room.replacements (frames_of stack.new)
        < work_of out.old.room.replacements (frames_of stack.old)) }
    ensures numbered { OnOk result (AreOpen numbers.now stack.new) }
    ensures read { OnOk result (AreRead numbers.now out.new) }
{
    let Some((number, top)) = stack.pop() else {
        return Ok(())
    };
    let Some((next, others)) = next_of(top.rest) else {
        return Ok(())
    };
    stack.push(number, top.name, others)?;
    match replacement_of(macros, stack, next) {
        Some(body) => begin(stack, next, body, origin, out),
        None => out.take(numbers, next, origin),
    }
}

/// Puts out what a piece of the text becomes.
pub fn replace_piece<'m, 'j>(
    alloc: Global,
    numbers: &WordNumbers<'j>,
    macros: &'m Macros<'j>,
    first: NumberedPiece<'j>,
    out: &mut Output<'j>,
) -> Result<(), LexError>
    requires defined { AreDefined numbers.now macros.now }
    requires numbered { IsNumbered numbers.now first }
    requires read { AreRead numbers.now out.old }
    ensures left { OnOk result (out.new.room.replacements ≤ out.old.room.replacements) }
    ensures settles { (n : ℕ) → out.old.room.replacements ≤ n →
        Settles (state_of out.new) result
        (settle (state_of out.old)
        (expand n (definitions_of macros.now) []
        (cut_of first.entry.piece) (cut_of first.entry.piece))) }
    ensures read { OnOk result (AreRead numbers.now out.new) }
{
    let mut stack = Stack::new(alloc);
    let Some(body) = replacement_of(macros, &stack, first) else {
        return out.take(numbers, first, first.piece);
    };
    match begin(&mut stack, first, body, first.piece, out) {
        Ok(()) => {}
        Err(e) => return Err(e),
    }
    while !stack.is_empty() {
        turn(numbers, macros, &mut stack, first.piece, out)?;
    }
    Ok(())
}
