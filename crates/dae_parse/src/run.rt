// A run of the machine, and the token at which it stops.

ghost use Rattle.std.specs.Prelude.{◌≡◌, List, length, IfOk};
ghost use Rattle.dae_tree.specs.Marks.{TokenMark};
ghost use Rattle.dae_tree.specs.Names.{Names};
ghost use Rattle.dae_parse_grammar.specs.Frames as plain;
ghost use Rattle.dae_parse_grammar.specs.Frames.{Frame as PlainFrame, state};
ghost use Rattle.dae_parse_grammar.specs.Stuck.{stuck};
ghost use Rattle.dae_parse_states.specs.Frames.{ShowsDoing};
ghost use Rattle.dae_parse.specs.Reached.{Comes};

use crate::step::step;
use dae_parse_nodes::no_externals;
use dae_parse_parts::Scope;
use dae_parse_states::{Doing, FileSoFar, Parser, TokensLeft};
use dae_tree::Token;
use std::alloc::{AllocError, Global};

/// What a run comes to: a whole file, or the number of the token at which nothing goes on.
#[derive(Drop)]
pub enum ParseOutcome {
    Whole(FileSoFar),
    Stopped(usize),
}

/// How many tokens are left, from the first on at which nothing goes on, where so many are left and the machine makes no step:
/// behind an operand that is the token behind the sign of a member.
#[tactic(auto, using(crate::proofs::Stuck::left_behind_operand, crate::proofs::Stuck::left_elsewhere))]
fn left_where_stuck(doing: &Doing, left: usize) -> usize
    ensures { (d : plain.Doing) (s : List PlainFrame) (names : Names) (ts : List TokenMark)
        → ShowsDoing doing.now d → left ≡ length ts → result ≡ length (stuck (state d s names ts)) }
{
    match doing {
        Doing::Operated(_, _) => left.saturating_sub(1),
        _ => left,
    }
}

/// Reads the tree of tokens: the file is whole where they end between two externals. The machine stops within twelve turns a token
/// and nine.
pub fn run(alloc: Global, tokens: &[Token]) -> Result<ParseOutcome, AllocError>
    ensures { IfOk result (λ o. Comes tokens.now o) }
{
    let total = tokens.len();
    let read = no_externals(alloc);
    let mut machine = Parser {
        alloc,
        rest: TokensLeft::new(tokens),
        scope: Scope::new(alloc),
        stack: Vec::new(alloc),
    };
    let mut doing = Doing::Externals(FileSoFar {
        read,
        taken: 0,
        too_long: None,
    });
    for _turn in 0..12 * (total as u128) + 10 {
        let left = left_where_stuck(&doing, machine.rest.len());
        if machine.rest.len() == 0 {
            let at_end = doing;
            match at_end {
                Doing::Externals(before) => return Ok(ParseOutcome::Whole(before)),
                other => doing = other,
            }
        }
        match step(&mut machine, doing, total)? {
            Some(next) => doing = next,
            None => return Ok(ParseOutcome::Stopped(total.saturating_sub(left))),
        }
    }
    unreachable!()
}
