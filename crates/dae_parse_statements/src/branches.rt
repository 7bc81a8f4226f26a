// Behind a statement that is a part of another: a branch, the body of a loop or a switch, one of a block.

ghost use Rattle.std.specs.Prelude.{◌∷◌, List, Option, IfOk};
ghost use Rattle.dae_tree.specs.Trees.{Expression, Statement as StatementTree};
ghost use Rattle.dae_parse_grammar.specs.Frames as plain;
ghost use Rattle.dae_parse_grammar.specs.Frames.{Frame as PlainFrame};
ghost use Rattle.dae_parse_grammar.specs.Machine.{statement_given};
ghost use Rattle.dae_parse_nodes.specs.Parts.{ShowsOperand, ShowsOptional, ShowsLoop, ShowsStatement, ShowsStatements};
ghost use Rattle.dae_parse_states.specs.Frames.{ShowsInside};
ghost use Rattle.dae_parse_states.specs.States.{Stands, Follows, outside_stack, Steps};

use crate::nodes::{
    case_statement, default_statement, for_statement, if_else_statement, if_statement,
    switch_statement, while_statement, with_statement,
};
use dae_base::Place;
use dae_parse_nodes::{Loop, ReadOperand};
use dae_parse_parts::Read;
use dae_parse_states::{Doing, Inside, Parser, StatementFrame, StatementHead, StatementKind};
use dae_tree::{Keyword, Statement};
use std::alloc::AllocError;

/// Behind the first branch of an `if` (C90 6.6.4.1).
#[tactic(auto, using(crate::proofs::OtherwiseStatements::branched_otherwise))]
pub fn then_branch(
    machine: &mut Parser<'_>,
    found: Read<Box<Statement>>,
    place: Place,
    paren: Place,
    test: ReadOperand,
) -> Result<Option<Doing>, AllocError>
    ensures { (b : StatementTree) (e : Expression) → ShowsStatement found b → ShowsOperand test e →
        Steps machine.old result machine.new (statement_given b (plain.then_branch place paren e)) }
{
    if machine.rest.take_word(Keyword::Else).is_some() {
        machine.push_statement(StatementFrame::ElseBranch {
            place,
            paren,
            test,
            branch: found,
        })?;
        return Ok(Some(Doing::AtStatement));
    }
    let whole = if_statement(machine.alloc, place, paren, test, found)?;
    Ok(Some(Doing::GaveStatement(whole, StatementKind::Other)))
}

/// Behind the second branch of an `if` (C90 6.6.4.1).
pub fn else_branch(
    machine: &mut Parser<'_>,
    found: Read<Box<Statement>>,
    place: Place,
    paren: Place,
    test: ReadOperand,
    then: Read<Box<Statement>>,
) -> Result<Option<Doing>, AllocError>
    ensures { (b : StatementTree) (e : Expression) (a : StatementTree) → ShowsStatement found b
        → ShowsOperand test e → ShowsStatement then a
        → Steps machine.old result machine.new
        (statement_given b (plain.else_branch place paren e a)) }
{
    let whole = if_else_statement(machine.alloc, place, paren, test, then, found)?;
    Ok(Some(Doing::GaveStatement(whole, StatementKind::Other)))
}

/// Behind the body of a `while` (C90 6.6.5.1).
#[inline(never)]
pub fn while_body(
    machine: &mut Parser<'_>,
    found: Read<Box<Statement>>,
    place: Place,
    paren: Place,
    test: ReadOperand,
) -> Result<Option<Doing>, AllocError>
    ensures { (b : StatementTree) (e : Expression) → ShowsStatement found b → ShowsOperand test e →
        Steps machine.old result machine.new (statement_given b (plain.while_body place paren e)) }
{
    let whole = while_statement(machine.alloc, place, paren, test, found)?;
    Ok(Some(Doing::GaveStatement(whole, StatementKind::Other)))
}

/// Behind the body of a `switch` (C90 6.6.4.2).
#[inline(never)]
pub fn switch_body(
    machine: &mut Parser<'_>,
    found: Read<Box<Statement>>,
    place: Place,
    paren: Place,
    test: ReadOperand,
) -> Result<Option<Doing>, AllocError>
    ensures { (b : StatementTree) (e : Expression) → ShowsStatement found b → ShowsOperand test e →
        Steps machine.old result machine.new (statement_given b (plain.switch_body place paren e)) }
{
    let whole = switch_statement(machine.alloc, place, paren, test, found)?;
    Ok(Some(Doing::GaveStatement(whole, StatementKind::Other)))
}

/// Behind the body of a `do` (C90 6.6.5.2).
#[inline(never)]
#[tactic(auto, using(crate::proofs::OtherwiseStatements::done_or_none))]
pub fn do_body(
    machine: &mut Parser<'_>,
    found: Read<Box<Statement>>,
    place: Place,
) -> Result<Option<Doing>, AllocError>
    ensures { (b : StatementTree) → ShowsStatement found b →
        Steps machine.old result machine.new (statement_given b (plain.do_body place)) }
{
    let Some(word) = machine.rest.take_word(Keyword::While) else {
        return Ok(None);
    };
    Ok(Some(Doing::Opening(StatementHead::Do {
        place,
        body: found,
        word,
    })))
}

/// Behind the body of a `for` (C90 6.6.5.3).
#[inline(never)]
pub fn for_body(
    machine: &mut Parser<'_>,
    found: Read<Box<Statement>>,
    parts: Box<Loop>,
    step: Option<ReadOperand>,
) -> Result<Option<Doing>, AllocError>
    ensures { (b : StatementTree) (l : plain.Loop) (e : Option Expression) → ShowsStatement found b
        → ShowsLoop parts.value l → ShowsOptional step e
        → Steps machine.old result machine.new (statement_given b (plain.for_body l e)) }
{
    let whole = for_statement(machine.alloc, Box::into_inner(parts), step, found)?;
    Ok(Some(Doing::GaveStatement(whole, StatementKind::Other)))
}

/// Behind the statement of a `case` (C90 6.6.1).
pub fn case_body(
    machine: &mut Parser<'_>,
    found: Read<Box<Statement>>,
    place: Place,
    value: ReadOperand,
) -> Result<Option<Doing>, AllocError>
    ensures { (b : StatementTree) (e : Expression) → ShowsStatement found b → ShowsOperand value e →
        Steps machine.old result machine.new (statement_given b (plain.case_body place e)) }
{
    let whole = case_statement(machine.alloc, place, value, found)?;
    Ok(Some(Doing::GaveStatement(whole, StatementKind::Other)))
}

/// Behind the statement of a `default` (C90 6.6.1).
#[inline(never)]
pub fn default_body(
    machine: &mut Parser<'_>,
    found: Read<Box<Statement>>,
    place: Place,
) -> Result<Option<Doing>, AllocError>
    ensures { (b : StatementTree) → ShowsStatement found b →
        Steps machine.old result machine.new (statement_given b (plain.default_body place)) }
{
    let whole = default_statement(machine.alloc, place, found)?;
    Ok(Some(Doing::GaveStatement(whole, StatementKind::Other)))
}

/// Behind a statement of a block (C90 6.6.2).
pub fn in_statements(
    machine: &mut Parser<'_>,
    found: Read<Box<Statement>>,
    inside: Inside,
    before: Read<Vec<Statement>>,
) -> Result<Option<Doing>, AllocError>
    ensures { (b : StatementTree) (i : plain.Inside) (ss : List StatementTree) (s : List PlainFrame)
        → ShowsStatement found b → ShowsInside inside i → ShowsStatements before ss
        → Stands machine.old s
        (outside_stack (plain.awaits_statement (plain.in_statements i ss) ∷ s))
        → IfOk result (λ r. Follows r machine.new (statement_given b
        (plain.in_statements i ss) s machine.old.scope.names machine.old.rest)) }
{
    let list = with_statement(before, found)?;
    Ok(Some(Doing::Statements(inside, list)))
}
