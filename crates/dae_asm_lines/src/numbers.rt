//! Tokens of one kind at the front of a line.

ghost use Rattle.std.specs.Prelude.{◌≡◌, ◌<◌, min, length};
ghost use Rattle.std.specs.Option.{option_map};
ghost use Rattle.dae_asm_lines.specs.Targets.{target_seen};
ghost use Rattle.dae_asm_lines.specs.Tokens.{tokens_of};
ghost use Rattle.dae_asm_lines.specs.Scanning.{Gives};
ghost use Rattle.dae_asm_lines.specs.Reading.{first, number, name, sign, register, register_of, target, end, all_numbers};

use crate::JumpTarget;
use crate::tokens::{Scanned, is_label, next_token, size_of};

/// A number, and what follows it.
#[tactic(auto, unfolding(crate::specs::Reading::first))]
pub fn number(line: &[u8]) -> Option<(i64, &[u8])>
    ensures { Gives (λ x. (x.0, tokens_of x.1.now)) result (first number (tokens_of line.now)) }
{
    match next_token(line) {
        Some((Scanned::Number(number), rest)) => Some((number, rest)),
        _ => None,
    }
}

/// A name, and what follows it.
#[tactic(auto, unfolding(crate::specs::Reading::first))]
pub fn name(line: &[u8]) -> Option<(&[u8], &[u8])>
    ensures { Gives (λ x. (x.0.now, tokens_of x.1.now)) result (first name (tokens_of line.now)) }
{
    match next_token(line) {
        Some((Scanned::Word(name), rest)) => Some((name, rest)),
        _ => None,
    }
}

/// This sign, and what follows it.
#[tactic(auto, unfolding(crate::specs::Reading::first))]
pub fn sign(line: &[u8], wanted: u8) -> Option<((), &[u8])>
    ensures { Gives (λ x. (x.0, tokens_of x.1.now)) result
        (first (sign wanted) (tokens_of line.now)) }
{
    match next_token(line) {
        Some((Scanned::Sign(sign), rest)) if sign == wanted => Some(((), rest)),
        _ => None,
    }
}

/// Nothing, where there are no tokens.
#[tactic(auto, unfolding(crate::specs::Reading::end))]
pub fn end(line: &[u8]) -> Option<()>
    ensures { Gives (λ x. x) result (end (tokens_of line.now)) }
{
    match next_token(line) {
        Some(_) => None,
        None => Some(()),
    }
}

fn register_of(name: &[u8]) -> Option<i64>
    ensures { result ≡ register_of name.now }
{
    match name {
        [b'x', digits @ ..] => {
            let number = size_of(digits)?;
            Some(number as i64)
        }
        _ => None,
    }
}

/// The number of a register, and what follows it.
#[tactic(auto, unfolding(crate::specs::Reading::first))]
pub fn register(line: &[u8]) -> Option<(i64, &[u8])>
    ensures { Gives (λ x. (x.0, tokens_of x.1.now)) result (first register (tokens_of line.now)) }
{
    match next_token(line) {
        Some((Scanned::Word(name), rest)) => {
            let number = register_of(name)?;
            Some((number, rest))
        }
        _ => None,
    }
}

/// A number or a label, and what follows it.
#[tactic(auto, unfolding(crate::specs::Reading::first))]
pub fn target(line: &[u8]) -> Option<(JumpTarget<'_>, &[u8])>
    ensures { Gives (λ x. (target_seen x.0, tokens_of x.1.now)) result
        (first target (tokens_of line.now)) }
{
    match next_token(line) {
        Some((Scanned::Number(number), rest)) => Some((JumpTarget::Number(number), rest)),
        Some((Scanned::Word(name), rest)) if is_label(name) => Some((
            JumpTarget::Label(name),
            rest,
        )),
        _ => None,
    }
}

/// How many numbers a line has, where more than 16 count as 17, or None where another token stands
/// in it.
pub fn count_numbers(line: &[u8]) -> Option<u32>
    ensures { Gives (λ n. n) result
        (option_map (λ zs. min (length zs) 17) (all_numbers (tokens_of line.now))) }
{
    let mut count: u32 = 0;
    let mut rest = line;
    while let Some((_, after)) = number(rest) {
        count = (count + 1).min(17);
        rest = after;
    }
    match end(rest) {
        Some(_) => Some(count),
        None => None,
    }
}
