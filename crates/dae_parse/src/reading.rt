// The file of tokens: the tree that a run came to, within the limits.

ghost use Rattle.std.specs.Prelude.{◌≡◌, List, [], IfErr, IfOk};
ghost use Rattle.dae_tree.specs.Trees.{External};
ghost use Rattle.dae_tree.specs.Reading.{IsReading};
ghost use Rattle.dae_parse.specs.Reached.{Comes};
ghost use Rattle.dae_parse.specs.declared.run.ParseOutcome.TheVariants as outcomes;
ghost use Rattle.dae_parse.specs.Parsed.{Answers, IsRefused, IsWithinLimits, place_from};
ghost use Rattle.dae_parse.specs.declared.error.ParseError.TheVariants as errors;

use crate::error::ParseError;
use crate::run::{ParseOutcome, run};
use dae_base::{Items, Place};
use dae_parse_parts::tree_or_depth;
use dae_parse_states::FileSoFar;
use dae_tree::{File, Tokens};
use std::alloc::{AllocError, Global};

/// The file of these tokens. A tree of the grammar within the limits is found, unless memory runs out.
///
/// # Errors
///
/// `Syntax` where the tokens have no tree, `TooDeep` for the first node deeper than 200, `FunctionTooLong` for the first
/// definition with more than 8,192 tokens, and `Memory`.
pub fn parse(alloc: Global, tokens: &Tokens<'_>) -> Result<File, ParseError>
    ensures answer { Answers tokens.now result }
    ensures found { (file : List External) → IsWithinLimits tokens.now.tokens file
        → IfErr result (λ e. e ≡ errors.Memory) }
{
    match run(alloc, tokens.tokens()) {
        Ok(ParseOutcome::Whole(before)) => whole(alloc, tokens, before),
        Ok(ParseOutcome::Stopped(at)) => Err(refusal_at(tokens, at)),
        Err(_) => Err(ParseError::Memory),
    }
}

/// The refusal of tokens that go no further at the one with this number.
fn refusal_at(tokens: &Tokens<'_>, at: usize) -> ParseError
    requires { Comes tokens.now.tokens (outcomes.Stopped at) }
    ensures { IsRefused tokens.now result }
{
    ParseError::Syntax(place_at(tokens, at))
}

/// The place of the token with this number, or the end of the text.
fn place_at(tokens: &Tokens<'_>, at: usize) -> Place
    ensures { result ≡ place_from tokens.now at }
{
    match tokens.tokens().get(at) {
        Some(token) => token.place,
        None => tokens.end(),
    }
}

/// The file of a tree that was read, where it is within the limits.
fn whole(alloc: Global, tokens: &Tokens<'_>, before: FileSoFar) -> Result<File, ParseError>
    requires reading { IsReading tokens.now }
    requires tree { Comes tokens.now.tokens (outcomes.Whole before) }
    ensures { Answers tokens.now result }
{
    let FileSoFar {
        read,
        taken: _,
        too_long,
    } = before;
    let externals = match tree_or_depth(read) {
        Ok(externals) => externals,
        Err(place) => return Err(ParseError::TooDeep(place)),
    };
    if let Some(place) = too_long {
        return Err(ParseError::FunctionTooLong(place));
    }
    let names = copied(alloc, tokens.names())?;
    let literals = copied(alloc, tokens.literals())?;
    Ok(File::new(
        Items::from_vec(externals),
        names,
        literals,
        tokens.headers(),
    ))
}

/// A copy of lists of bytes.
fn copied(alloc: Global, lists: &[Items<u8>]) -> Result<Items<Items<u8>>, AllocError>
    ensures { IfOk result (λ c. c ≡ lists.now) }
{
    let mut copy = Items::new(alloc);
    for list in lists {
        let bytes = Vec::from_slice(alloc, list.as_slice())?;
        copy.push(Items::from_vec(bytes))?;
    }
    Ok(copy)
}
