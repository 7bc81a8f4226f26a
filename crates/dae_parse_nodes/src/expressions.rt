// Nodes of expressions.

ghost use Rattle.std.specs.Prelude.{◌≡◌, List, [], ◌∷◌, Option, Some, None, IfOk};
ghost use Rattle.dae_tree.specs.Trees as tree;
ghost use Rattle.dae_parse_grammar.specs.FirstPlaces.{Places, over};
ghost use Rattle.dae_parse_parts.specs.Shown.{Holds, IsMade, box_value};
ghost use Rattle.dae_parse_grammar.specs.Machine.{arguments_onto};
ghost use Rattle.dae_parse_nodes.specs.Parts.{ShowsOperand, ShowsArguments, ShowsSpecified, ShowsDeclared};

use crate::values::{Declared, ReadOperand, Specified};
use dae_base::Place;
use dae_parse_parts::{
    ASSIGNMENT, CAST, COMMA, CONDITIONAL, POSTFIX, PRIMARY, Read, UNARY, beside, flat, longer,
    node, over, strength, unbox,
};
use dae_tree::{
    AssignmentOperator, BinaryOperator, Constant, Expression, MemberOperator, Name,
    PostfixOperator, PrefixOperator, TypeName,
};
use std::alloc::{AllocError, Global};

/// A name (C90 6.3.1).
pub fn identifier(alloc: Global, name: Name) -> Result<ReadOperand, AllocError>
    ensures { IfOk result (λ r. ShowsOperand r (tree.Identifier name)) }
{
    let place = name.place;
    let read = over(
        place,
        flat(alloc, Box::new(alloc, Expression::Identifier(name))?),
    )?;
    Ok(ReadOperand {
        read,
        level: PRIMARY,
        place,
    })
}

/// A constant (C90 6.1.3).
pub fn constant(alloc: Global, place: Place, constant: Constant) -> Result<ReadOperand, AllocError>
    ensures { IfOk result (λ r. ShowsOperand r (tree.Number place constant)) }
{
    let read = over(
        place,
        flat(
            alloc,
            Box::new(alloc, Expression::Constant(place, constant))?,
        ),
    )?;
    Ok(ReadOperand {
        read,
        level: PRIMARY,
        place,
    })
}

/// A string literal, by its number (C90 6.1.4).
pub fn literal(alloc: Global, place: Place, number: u32) -> Result<ReadOperand, AllocError>
    ensures { IfOk result (λ r. ShowsOperand r (tree.Literal place number)) }
{
    let read = over(
        place,
        flat(alloc, Box::new(alloc, Expression::Literal(place, number))?),
    )?;
    Ok(ReadOperand {
        read,
        level: PRIMARY,
        place,
    })
}

/// An operand at this level and place: a node over a part, made of the part's tree.
fn operand_over<T: Drop, F: FnOnce(T) -> Expression + Drop>(
    alloc: Global,
    place: Place,
    level: u8,
    part: Read<T>,
    make: F,
) -> Result<ReadOperand, AllocError>
    requires { F.IsAlwaysCallable make }
    ensures read { (f : Places) → Holds part f
        → IfOk result
        (λ r. Holds r.read (over place f)
        × IsMade (F.post make) part.tree (box_value r.read.tree)) }
    ensures beside { IfOk result (λ r. (r.level ≡ level) × (r.place ≡ place)) }
{
    let read = node(alloc, place, part, make)?;
    Ok(ReadOperand { read, level, place })
}

/// An expression in parentheses.
pub fn parenthesised(
    alloc: Global,
    place: Place,
    inner: ReadOperand,
) -> Result<ReadOperand, AllocError>
    ensures { (e : tree.Expression) → ShowsOperand inner e
        → IfOk result (λ r. ShowsOperand r (tree.Parenthesised place e)) }
{
    operand_over(alloc, place, PRIMARY, inner.read, |inner| {
        Expression::Parenthesised(place, inner)
    })
}

/// A subscript (C90 6.3.2.1).
pub fn index(
    alloc: Global,
    base: ReadOperand,
    place: Place,
    subscript: ReadOperand,
) -> Result<ReadOperand, AllocError>
    ensures { (a b : tree.Expression) → ShowsOperand base a → ShowsOperand subscript b
        → IfOk result (λ r. ShowsOperand r (tree.Index a place b)) }
{
    let first = base.place;
    let parts = beside(base.read, subscript.read)?;
    operand_over(alloc, first, POSTFIX, parts, |(a, b)| {
        Expression::Index(a, place, b)
    })
}

/// An argument more.
pub fn with_argument(
    before: Read<Vec<Expression>>,
    argument: ReadOperand,
) -> Result<Read<Vec<Expression>>, AllocError>
    ensures { (es : List tree.Expression) (e : tree.Expression) → ShowsArguments before es
        → ShowsOperand argument e → IfOk result (λ r. ShowsArguments r (e ∷ es)) }
{
    longer(before, unbox(argument.read))
}

/// A call (C90 6.3.2.2).
pub fn call(
    alloc: Global,
    callee: ReadOperand,
    place: Place,
    arguments: Read<Vec<Expression>>,
) -> Result<ReadOperand, AllocError>
    ensures { (f : tree.Expression) (es : List tree.Expression) → ShowsOperand callee f
        → ShowsArguments arguments es
        → IfOk result
        (λ r. ShowsOperand r (tree.Call f place (arguments_onto es tree.no_expressions))) }
{
    let first = callee.place;
    let parts = beside(callee.read, arguments)?;
    operand_over(alloc, first, POSTFIX, parts, |(callee, arguments)| {
        Expression::Call(callee, place, arguments)
    })
}

/// A member (C90 6.3.2.3).
pub fn member(
    alloc: Global,
    base: ReadOperand,
    place: Place,
    operator: MemberOperator,
    name: Name,
) -> Result<ReadOperand, AllocError>
    ensures { (a : tree.Expression) → ShowsOperand base a
        → IfOk result (λ r. ShowsOperand r (tree.Member a place operator name)) }
{
    let first = base.place;
    operand_over(alloc, first, POSTFIX, base.read, |a| {
        Expression::Member(a, place, operator, name)
    })
}

/// An operand with an operator behind it (C90 6.3.2.4).
pub fn postfix(
    alloc: Global,
    base: ReadOperand,
    place: Place,
    operator: PostfixOperator,
) -> Result<ReadOperand, AllocError>
    ensures { (a : tree.Expression) → ShowsOperand base a
        → IfOk result (λ r. ShowsOperand r (tree.Postfix a place operator)) }
{
    let first = base.place;
    operand_over(alloc, first, POSTFIX, base.read, |a| {
        Expression::Postfix(a, place, operator)
    })
}

/// An operand with an operator before it (C90 6.3.3).
pub fn prefix(
    alloc: Global,
    place: Place,
    operator: PrefixOperator,
    operand: ReadOperand,
) -> Result<ReadOperand, AllocError>
    ensures { (a : tree.Expression) → ShowsOperand operand a
        → IfOk result (λ r. ShowsOperand r (tree.Prefix place operator a)) }
{
    operand_over(alloc, place, UNARY, operand.read, |a| {
        Expression::Prefix(place, operator, a)
    })
}

/// `sizeof` before an expression (C90 6.3.3.4).
pub fn sizeof_expression(
    alloc: Global,
    place: Place,
    operand: ReadOperand,
) -> Result<ReadOperand, AllocError>
    ensures { (a : tree.Expression) → ShowsOperand operand a
        → IfOk result (λ r. ShowsOperand r (tree.SizeofExpression place a)) }
{
    operand_over(alloc, place, UNARY, operand.read, |a| {
        Expression::SizeofExpression(place, a)
    })
}

/// `sizeof` before a type name in parentheses (C90 6.3.3.4).
pub fn sizeof_type(
    alloc: Global,
    place: Place,
    paren: Place,
    specified: Specified,
    declared: Declared,
) -> Result<ReadOperand, AllocError>
    ensures { (ws : tree.Specifiers) (d : tree.Declarator) → ShowsSpecified specified ws
        → ShowsDeclared declared d
        → IfOk result (λ r. ShowsOperand r (tree.SizeofType place paren ws d)) }
{
    let parts = beside(specified.read, declared.read)?;
    let Read { tree, depths } = over(place, parts)?;
    let tree = match tree {
        Some((specifiers, declarator)) => {
            let name = TypeName {
                specifiers,
                declarator: Box::into_inner(declarator),
            };
            let name = Box::new(alloc, name)?;
            Some(Box::new(alloc, Expression::SizeofType(place, paren, name))?)
        }
        None => None,
    };
    Ok(ReadOperand {
        read: Read { tree, depths },
        level: UNARY,
        place,
    })
}

/// A cast (C90 6.3.4).
pub fn cast(
    alloc: Global,
    place: Place,
    specified: Specified,
    declared: Declared,
    operand: ReadOperand,
) -> Result<ReadOperand, AllocError>
    ensures { (ws : tree.Specifiers) (d : tree.Declarator) (e : tree.Expression)
        → ShowsSpecified specified ws → ShowsDeclared declared d → ShowsOperand operand e
        → IfOk result (λ r. ShowsOperand r (tree.Cast place ws d e)) }
{
    let rest = beside(declared.read, operand.read)?;
    let parts = beside(specified.read, rest)?;
    let Read { tree, depths } = over(place, parts)?;
    let tree = match tree {
        Some((specifiers, rest)) => {
            let (declarator, operand) = rest;
            let name = TypeName {
                specifiers,
                declarator: Box::into_inner(declarator),
            };
            let name = Box::new(alloc, name)?;
            Some(Box::new(alloc, Expression::Cast(place, name, operand))?)
        }
        None => None,
    };
    Ok(ReadOperand {
        read: Read { tree, depths },
        level: CAST,
        place,
    })
}

/// A binary operator between two operands (C90 6.3.5 to 6.3.14).
pub fn binary(
    alloc: Global,
    left: ReadOperand,
    place: Place,
    operator: BinaryOperator,
    right: ReadOperand,
) -> Result<ReadOperand, AllocError>
    ensures { (a b : tree.Expression) → ShowsOperand left a → ShowsOperand right b
        → IfOk result (λ r. ShowsOperand r (tree.Binary a place operator b)) }
{
    let first = left.place;
    let parts = beside(left.read, right.read)?;
    operand_over(alloc, first, strength(operator), parts, |(a, b)| {
        Expression::Binary(a, place, operator, b)
    })
}

/// A conditional expression (C90 6.3.15).
pub fn conditional(
    alloc: Global,
    test: ReadOperand,
    place: Place,
    then: ReadOperand,
    other: ReadOperand,
) -> Result<ReadOperand, AllocError>
    ensures { (a b c : tree.Expression) → ShowsOperand test a → ShowsOperand then b
        → ShowsOperand other c → IfOk result (λ r. ShowsOperand r (tree.Conditional a place b c)) }
{
    let first = test.place;
    let rest = beside(then.read, other.read)?;
    let parts = beside(test.read, rest)?;
    operand_over(alloc, first, CONDITIONAL, parts, |(a, (b, c))| {
        Expression::Conditional(a, place, b, c)
    })
}

/// An assignment (C90 6.3.16).
pub fn assignment(
    alloc: Global,
    left: ReadOperand,
    place: Place,
    operator: AssignmentOperator,
    right: ReadOperand,
) -> Result<ReadOperand, AllocError>
    ensures { (a b : tree.Expression) → ShowsOperand left a → ShowsOperand right b
        → IfOk result (λ r. ShowsOperand r (tree.Assignment a place operator b)) }
{
    let first = left.place;
    let parts = beside(left.read, right.read)?;
    operand_over(alloc, first, ASSIGNMENT, parts, |(a, b)| {
        Expression::Assignment(a, place, operator, b)
    })
}

/// Two expressions with a comma between them (C90 6.3.17).
pub fn comma(
    alloc: Global,
    left: ReadOperand,
    right: ReadOperand,
) -> Result<ReadOperand, AllocError>
    ensures { (a b : tree.Expression) → ShowsOperand left a → ShowsOperand right b
        → IfOk result (λ r. ShowsOperand r (tree.Comma a b)) }
{
    let first = left.place;
    let parts = beside(left.read, right.read)?;
    operand_over(alloc, first, COMMA, parts, |(a, b)| Expression::Comma(a, b))
}
