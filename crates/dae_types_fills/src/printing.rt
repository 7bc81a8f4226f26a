// The format and the arguments of printf, as a statement (C90 7.9.6.1).

ghost use Rattle.std.specs.Prelude.{◌≡◌, List, Ok, length};
ghost use Rattle.dae_program.specs.declared.statements.FormatPiece.{FormatPiece as PlainPiece};
ghost use Rattle.dae_types_rules.specs.Plan.{Gives, pure};
ghost use Rattle.dae_types_rules.specs.Table.{is_text};
ghost use Rattle.dae_tree.specs.Views.{view};
ghost use Rattle.dae_types_file_plans.specs.Initialisers.{literal_in};
ghost use Rattle.dae_types_file_plans.specs.Statements.{format_at, format_of, printed_at};
ghost use Rattle.dae_types_tables.specs.Seen.{tables, FollowsBy};
ghost use Rattle.dae_types_folding.specs.Views.{view_value};
ghost use Rattle.dae_types_values.specs.Results.{one, views};
ghost use Rattle.dae_types_fills.specs.Filled.{seen};

use crate::formats::{format_pieces, kinds_of_arguments};
use dae_base::Place;
use dae_program::{Expression, FormatPiece};
use dae_tree::Expression as Tree;
use dae_types_folding::{TypedValue, pointee};
use dae_types_kinds::{CheckError, Rule};
use dae_types_tables::{Checker, broken, is_character, is_integer};

/// The literal that an expression is, by its number.
#[tactic(auto, using(dae_tree::proofs::Laws::view_call, dae_tree::proofs::Laws::view_sizeof_type, dae_tree::proofs::Laws::view_cast))]
pub fn literal_in(e: &Tree) -> Option<u32>
    ensures { result ≡ literal_in (view e.now) }
{
    match e {
        Tree::Literal(_, number) => Some(*number),
        Tree::Identifier(_) => None,
        Tree::Parenthesised(_, _) => None,
        Tree::Constant(_, _) => None,
        Tree::Index(_, _, _) => None,
        Tree::Call(_, _, _) => None,
        Tree::Member(_, _, _, _) => None,
        Tree::Postfix(_, _, _) => None,
        Tree::Prefix(_, _, _) => None,
        Tree::SizeofExpression(_, _) => None,
        Tree::SizeofType(_, _, _) => None,
        Tree::Cast(_, _, _) => None,
        Tree::Binary(_, _, _, _) => None,
        Tree::Conditional(_, _, _, _) => None,
        Tree::Assignment(_, _, _, _) => None,
        Tree::Comma(_, _) => None,
    }
}

/// The pieces of a format that is a literal of this number; none where it is no literal or has none.
fn format_of(
    checker: &Checker,
    literal: Option<u32>,
) -> Result<Option<Vec<FormatPiece>>, CheckError>
    ensures { Gives (seen (λ v. v.items)) result (Ok (format_of (tables checker.now) literal)) }
{
    match literal {
        Some(number) => format_pieces(checker.alloc, checker.literal(number as usize)),
        None => Ok(None),
    }
}

/// The pieces of a format, which is a literal of this number or no literal, with so many arguments behind it.
#[tactic(auto, unfolding(dae_types_rules::specs::Plan::ask_all))]
pub fn read_format(
    checker: &Checker,
    place: Place,
    literal: Option<u32>,
    given: usize,
) -> Result<Vec<FormatPiece>, CheckError>
    ensures { FollowsBy (λ v. v.items) checker.now result
        (format_at place literal given) checker.now }
{
    let Some(pieces) = format_of(checker, literal)? else {
        return Err(broken(Rule::BadFormat, place));
    };
    let wanted = kinds_of_arguments(checker.alloc, &pieces)?.len();
    if wanted != given {
        return Err(broken(Rule::BadFormat, place));
    }
    Ok(pieces)
}

/// Whether a type is that of a string's bytes.
fn is_text(checker: &Checker, type_id: Option<usize>) -> bool
    ensures { result ≡ is_text (tables checker.now) type_id }
{
    match type_id {
        Some(type_id) => is_character(checker.shape_of(type_id)),
        None => false,
    }
}

/// An argument of a format behind those that are done: text or a number, or one that no conversion asks for.
#[tactic(auto, unfolding(dae_types_rules::specs::Plan::ask_all))]
pub fn add_printed(
    checker: &Checker,
    place: Place,
    text: Option<bool>,
    mut done: Vec<Expression>,
    x: TypedValue,
) -> Result<Vec<Expression>, CheckError>
    ensures { FollowsBy views checker.now result
        (printed_at place text (views done) (one x)) checker.now }
{
    let shape = checker.shape_of(x.type_id);
    if text == Some(true) && !is_text(checker, pointee(shape)) {
        return Err(broken(Rule::BadFormat, place));
    }
    if text == Some(false) && !is_integer(shape) {
        return Err(broken(Rule::BadFormat, place));
    }
    done.push(Box::into_inner(x.tree))?;
    Ok(done)
}
