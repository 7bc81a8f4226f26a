// Small parts of a parser: trees at the greatest depth, and what parts over others keep of them.

use dae_base::Place;
use dae_parse_nodes::{
    Declared, ParameterList, ReadOperand, Specified, TypeBody, binary, function, identifier, named,
    no_declarators, no_members, no_parameters, no_specifiers, parenthesised, pointer,
    with_declarator, with_member, with_parameter, with_structure_body, with_word,
};
use dae_parse_parts::{Binding, GREATEST_DEPTH};
use dae_tree::{BinaryOperator, Keyword, Name, Seen};
use std::alloc::{AllocError, Global};
use std::test::Fail;

fn at(col: u32) -> Place {
    Place {
        file: 0,
        line: 1,
        col,
    }
}

fn name(col: u32, number: u32) -> Name {
    Name {
        place: at(col),
        number,
    }
}

/// A name in so many parentheses.
fn nested(alloc: Global, count: usize) -> Result<ReadOperand, AllocError> {
    let mut operand = identifier(alloc, name(7, 0))?;
    for _ in 0..count {
        operand = parenthesised(alloc, at(1), operand)?;
    }
    Ok(operand)
}

#[test]
fn trees_stop_at_the_greatest_depth(rt: HostRuntime) -> Result<(), Fail> {
    let operand = nested(rt.alloc(), GREATEST_DEPTH - 1)?;
    assert!(rt; operand.read.tree.is_some());
    let deeper = nested(rt.alloc(), GREATEST_DEPTH)?;
    assert!(rt; deeper.read.tree.is_none());
    Ok(())
}

fn word(alloc: Global, col: u32, word: Keyword) -> Result<Specified, AllocError> {
    with_word(alloc, no_specifiers(alloc), at(col), word)
}

fn parameters(alloc: Global) -> Result<ParameterList, AllocError> {
    let specified = word(alloc, 7, Keyword::Int)?;
    with_parameter(no_parameters(alloc), specified, named(alloc, name(11, 1))?)
}

fn bindings(alloc: Global) -> Result<Vec<Binding<bool>>, AllocError> {
    let binding = Binding {
        name: 1,
        bound: false,
    };
    let mut bindings = Vec::new(alloc);
    bindings.push(binding)?;
    Ok(bindings)
}

// f(int a), of int f(int a)
fn function_of_one(alloc: Global) -> Result<Declared, AllocError> {
    let inner = bindings(alloc)?;
    let list = parameters(alloc)?;
    function(alloc, named(alloc, name(5, 0))?, at(6), list, inner)
}

// a + b
fn sum(alloc: Global) -> Result<ReadOperand, AllocError> {
    let left = identifier(alloc, name(23, 1))?;
    let right = identifier(alloc, name(27, 2))?;
    binary(alloc, left, at(25), BinaryOperator::Add, right)
}

#[test]
fn functions_have_their_parameters(rt: HostRuntime) -> Result<(), Fail> {
    let declared = function_of_one(rt.alloc())?;
    assert!(rt; declared.name == Some(0));
    assert!(rt; declared.parameters.len() == 1);
    assert!(rt; declared.read.depths.first() == Some(at(5)));
    let sum = sum(rt.alloc())?;
    assert!(rt; sum.level == 5);
    assert!(rt; sum.place == at(23));
    Ok(())
}

// *a, of struct { int *a; }
fn pointer_to_named(alloc: Global) -> Result<Declared, AllocError> {
    let inner = named(alloc, name(15, 0))?;
    pointer(alloc, at(14), Vec::new(alloc), inner)
}

// struct { int *a; } const
fn structure(alloc: Global) -> Result<Specified, AllocError> {
    let declarators = with_declarator(no_declarators(alloc), pointer_to_named(alloc)?)?;
    let specified = word(alloc, 10, Keyword::Int)?;
    let members = with_member(no_members(alloc), specified, declarators, at(16))?;
    let body = TypeBody {
        place: at(1),
        tag: None,
        brace: at(8),
        seen: Seen::nothing(),
        before: no_specifiers(alloc),
    };
    let specified = with_structure_body(body, members)?;
    with_word(alloc, specified, at(20), Keyword::Const)
}

#[test]
fn structures_have_the_place_of_their_word(rt: HostRuntime) -> Result<(), Fail> {
    let specified = structure(rt.alloc())?;
    assert!(rt; specified.place == Some(at(1)));
    assert!(rt; specified.void.is_none());
    assert!(rt; specified.read.depths.first() == Some(at(1)));
    assert!(rt; specified.read.tree.is_some());
    Ok(())
}
