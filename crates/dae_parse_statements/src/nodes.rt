// Nodes of statements.

ghost use Rattle.std.specs.Prelude.{List, [], ◌∷◌, Option, Some, None, IfOk};
ghost use Rattle.dae_tree.specs.Trees as tree;
ghost use Rattle.dae_tree.specs.Views.{view_optional};
ghost use Rattle.dae_parse_grammar.specs.Frames as frames;
ghost use Rattle.dae_parse_grammar.specs.Machine.{for_of, onto, statements_onto};
ghost use Rattle.dae_parse_grammar.specs.FirstPlaces.{firsts_optional};
ghost use Rattle.dae_parse_parts.specs.Shown.{Shows};
ghost use Rattle.dae_parse_nodes.specs.Parts.{ShowsOperand, ShowsOptional, ShowsDeclarations, ShowsStatement, ShowsStatements, ShowsLoop};

use dae_base::Place;
use dae_parse_nodes::{DoParts, Loop, ReadOperand};
use dae_parse_parts::{Read, beside, flat, longer, node, over, unbox};
use dae_tree::{Block, Declaration, Expression, Heading, Statement, StatementTest};
use std::alloc::{AllocError, Global};

/// A statement more.
pub fn with_statement(
    before: Read<Vec<Statement>>,
    statement: Read<Box<Statement>>,
) -> Result<Read<Vec<Statement>>, AllocError>
    ensures { (ss : List tree.Statement) (s : tree.Statement) → ShowsStatements before ss
        → ShowsStatement statement s → IfOk result (λ r. ShowsStatements r (s ∷ ss)) }
{
    longer(before, unbox(statement))
}

/// A block (C90 6.6.2).
pub fn block(
    alloc: Global,
    place: Place,
    declarations: Read<Vec<Declaration>>,
    statements: Read<Vec<Statement>>,
) -> Result<Read<Box<Statement>>, AllocError>
    ensures { (ds : List tree.Declaration) (ss : List tree.Statement)
        → ShowsDeclarations declarations ds → ShowsStatements statements ss
        → IfOk result
        (λ r. ShowsStatement r
        (tree.Block place (onto ds []) (statements_onto ss tree.no_statements))) }
{
    let parts = beside(declarations, statements)?;
    node(
        alloc,
        place,
        parts,
        |(declarations, statements)| Statement::Block(Block {
            place,
            declarations,
            statements,
        }),
    )
}

/// A semicolon alone (C90 6.6.3).
pub fn empty_statement(alloc: Global, place: Place) -> Result<Read<Box<Statement>>, AllocError>
    ensures { IfOk result (λ r. ShowsStatement r (tree.Nothing place)) }
{
    over(
        place,
        flat(alloc, Box::new(alloc, Statement::Empty(place))?),
    )
}

/// An expression, with the semicolon behind it (C90 6.6.3).
pub fn evaluation(
    alloc: Global,
    operand: ReadOperand,
    end: Place,
) -> Result<Read<Box<Statement>>, AllocError>
    ensures { (e : tree.Expression) → ShowsOperand operand e
        → IfOk result (λ r. ShowsStatement r (tree.Evaluate e end)) }
{
    node(alloc, operand.place, operand.read, |expression| {
        Statement::Evaluate(expression, end)
    })
}

/// `if` without `else` (C90 6.6.4.1).
pub fn if_statement(
    alloc: Global,
    place: Place,
    paren: Place,
    test: ReadOperand,
    body: Read<Box<Statement>>,
) -> Result<Read<Box<Statement>>, AllocError>
    ensures { (e : tree.Expression) (s : tree.Statement) → ShowsOperand test e
        → ShowsStatement body s → IfOk result (λ r. ShowsStatement r (tree.If place paren e s)) }
{
    let parts = beside(test.read, body)?;
    node(alloc, place, parts, |(expression, body)| {
        let test = StatementTest {
            place: paren,
            expression,
        };
        Statement::If(place, test, body)
    })
}

/// `if` with `else` (C90 6.6.4.1).
pub fn if_else_statement(
    alloc: Global,
    place: Place,
    paren: Place,
    test: ReadOperand,
    then: Read<Box<Statement>>,
    other: Read<Box<Statement>>,
) -> Result<Read<Box<Statement>>, AllocError>
    ensures { (e : tree.Expression) (s u : tree.Statement) → ShowsOperand test e
        → ShowsStatement then s → ShowsStatement other u
        → IfOk result (λ r. ShowsStatement r (tree.IfElse place paren e s u)) }
{
    let rest = beside(then, other)?;
    let parts = beside(test.read, rest)?;
    node(alloc, place, parts, |(expression, (then, other))| {
        let test = StatementTest {
            place: paren,
            expression,
        };
        Statement::IfElse(place, test, then, other)
    })
}

/// `switch` (C90 6.6.4.2).
pub fn switch_statement(
    alloc: Global,
    place: Place,
    paren: Place,
    test: ReadOperand,
    body: Read<Box<Statement>>,
) -> Result<Read<Box<Statement>>, AllocError>
    ensures { (e : tree.Expression) (s : tree.Statement) → ShowsOperand test e
        → ShowsStatement body s
        → IfOk result (λ r. ShowsStatement r (tree.Switch place paren e s)) }
{
    let parts = beside(test.read, body)?;
    node(alloc, place, parts, |(expression, body)| {
        let test = StatementTest {
            place: paren,
            expression,
        };
        Statement::Switch(place, test, body)
    })
}

/// `while` before its body (C90 6.6.5.1).
pub fn while_statement(
    alloc: Global,
    place: Place,
    paren: Place,
    test: ReadOperand,
    body: Read<Box<Statement>>,
) -> Result<Read<Box<Statement>>, AllocError>
    ensures { (e : tree.Expression) (s : tree.Statement) → ShowsOperand test e
        → ShowsStatement body s → IfOk result (λ r. ShowsStatement r (tree.While place paren e s)) }
{
    let parts = beside(test.read, body)?;
    node(alloc, place, parts, |(expression, body)| {
        let test = StatementTest {
            place: paren,
            expression,
        };
        Statement::While(place, test, body)
    })
}

/// `do` with `while` behind its body, at the places of the two words, the parenthesis and the semicolon (C90 6.6.5.2).
pub fn do_statement(
    alloc: Global,
    parts: DoParts,
    end: Place,
) -> Result<Read<Box<Statement>>, AllocError>
    ensures { (s : tree.Statement) (e : tree.Expression) → ShowsStatement parts.body s
        → ShowsOperand parts.test e
        → IfOk result
        (λ r. ShowsStatement r (tree.Do parts.place s parts.word parts.paren e end)) }
{
    let DoParts {
        place,
        body,
        word,
        paren,
        test,
    } = parts;
    let parts = beside(body, test.read)?;
    node(alloc, place, parts, |(body, expression)| {
        let test = StatementTest {
            place: paren,
            expression,
        };
        Statement::Do(place, body, word, test, end)
    })
}

/// An operand that may be lacking, as a part.
fn optional(alloc: Global, operand: Option<ReadOperand>) -> Read<Option<Box<Expression>>>
    ensures { (e : Option tree.Expression) → ShowsOptional operand e
        → Shows view_optional firsts_optional result e }
{
    match operand {
        Some(operand) => {
            let Read { tree, depths } = operand.read;
            let tree = match tree {
                Some(expression) => Some(Some(expression)),
                None => None,
            };
            Read { tree, depths }
        }
        None => flat(alloc, None),
    }
}

/// `for` (C90 6.6.5.3).
pub fn for_statement(
    alloc: Global,
    parts: Loop,
    step: Option<ReadOperand>,
    body: Read<Box<Statement>>,
) -> Result<Read<Box<Statement>>, AllocError>
    ensures { (l : frames.Loop) (e : Option tree.Expression) (s : tree.Statement)
        → ShowsLoop parts l → ShowsOptional step e → ShowsStatement body s
        → IfOk result (λ r. ShowsStatement r (for_of l e s)) }
{
    let Loop {
        word,
        paren,
        start,
        first,
        test,
        second,
    } = parts;
    let start = optional(alloc, start);
    let test = optional(alloc, test);
    let step = optional(alloc, step);
    let last = beside(step, body)?;
    let rest = beside(test, last)?;
    let parts = beside(start, rest)?;
    node(alloc, word, parts, |(start, (test, (step, body)))| {
        let heading = Heading {
            start,
            after_start: first,
            test,
            after_test: second,
            step,
        };
        Statement::For(word, paren, heading, body)
    })
}

/// `break` (C90 6.6.6.3).
pub fn break_statement(
    alloc: Global,
    place: Place,
    end: Place,
) -> Result<Read<Box<Statement>>, AllocError>
    ensures { IfOk result (λ r. ShowsStatement r (tree.Break place end)) }
{
    over(
        place,
        flat(alloc, Box::new(alloc, Statement::Break(place, end))?),
    )
}

/// `continue` (C90 6.6.6.2).
pub fn continue_statement(
    alloc: Global,
    place: Place,
    end: Place,
) -> Result<Read<Box<Statement>>, AllocError>
    ensures { IfOk result (λ r. ShowsStatement r (tree.Continue place end)) }
{
    over(
        place,
        flat(alloc, Box::new(alloc, Statement::Continue(place, end))?),
    )
}

/// `return`, with a value or without (C90 6.6.6.4).
pub fn return_statement(
    alloc: Global,
    place: Place,
    value: Option<ReadOperand>,
    end: Place,
) -> Result<Read<Box<Statement>>, AllocError>
    ensures { (e : Option tree.Expression) → ShowsOptional value e
        → IfOk result (λ r. ShowsStatement r (tree.Return place e end)) }
{
    node(alloc, place, optional(alloc, value), |value| {
        Statement::Return(place, value, end)
    })
}

/// `case` and its statement (C90 6.6.1).
pub fn case_statement(
    alloc: Global,
    place: Place,
    value: ReadOperand,
    body: Read<Box<Statement>>,
) -> Result<Read<Box<Statement>>, AllocError>
    ensures { (e : tree.Expression) (s : tree.Statement) → ShowsOperand value e
        → ShowsStatement body s → IfOk result (λ r. ShowsStatement r (tree.Case place e s)) }
{
    let parts = beside(value.read, body)?;
    node(alloc, place, parts, |(value, body)| {
        Statement::Case(place, value, body)
    })
}

/// `default` and its statement (C90 6.6.1).
pub fn default_statement(
    alloc: Global,
    place: Place,
    body: Read<Box<Statement>>,
) -> Result<Read<Box<Statement>>, AllocError>
    ensures { (s : tree.Statement) → ShowsStatement body s
        → IfOk result (λ r. ShowsStatement r (tree.Default place s)) }
{
    node(alloc, place, body, |body| Statement::Default(place, body))
}
