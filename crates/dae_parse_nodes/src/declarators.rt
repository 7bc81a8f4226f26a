// Nodes of declarators and parameters.

ghost use Rattle.std.specs.Prelude.{◌≡◌, true, List, [], ◌∷◌, Option, Some, None, IfOk, ◌||◌, if◌then◌else◌};
ghost use Rattle.dae_tree.specs.Trees as tree;
ghost use Rattle.dae_tree.specs.Names.{Names, is_bare, after_parameters};
ghost use Rattle.dae_tree.specs.Grammar.{void_alone};
ghost use Rattle.dae_tree.specs.Lists as lists;
ghost use Rattle.dae_parse_grammar.specs.Frames as frames;
ghost use Rattle.dae_parse_grammar.specs.Machine.{closed_by, parameters_onto};
ghost use Rattle.dae_parse_parts.specs.ShownNames.{bound_all};
ghost use Rattle.dae_parse_nodes.specs.Parts.{ShowsOperand, ShowsSpecified, ShowsDeclared, ShowsParameterList, ShowsParameters};

use crate::values::{Declared, ParameterList, ReadOperand, Specified};
use dae_base::Place;
use dae_parse_parts::{Binding, Read, beside, flat, longer, node, over};
use dae_tree::{Declarator, Name, Parameter};
use std::alloc::{AllocError, Global};

/// No part of a declarator.
pub fn absent(alloc: Global) -> Result<Declared, AllocError>
    ensures { IfOk result (λ r. ShowsDeclared r tree.Absent) }
{
    let tree = Box::new(alloc, Declarator::Absent)?;
    let parameters = Vec::new(alloc);
    Ok(Declared {
        read: flat(alloc, tree),
        name: None,
        present: false,
        bare: false,
        parameters,
    })
}

/// A declared name.
pub fn named(alloc: Global, name: Name) -> Result<Declared, AllocError>
    ensures { IfOk result (λ r. ShowsDeclared r (tree.Named name)) }
{
    let tree = Box::new(alloc, Declarator::Named(name))?;
    let read = over(name.place, flat(alloc, tree))?;
    let parameters = Vec::new(alloc);
    Ok(Declared {
        read,
        name: Some(name.number),
        present: true,
        bare: true,
        parameters,
    })
}

/// A pointer, with the places of `const` in their order (C90 6.5.4.1).
pub fn pointer(
    alloc: Global,
    place: Place,
    qualifiers: Vec<Place>,
    declared: Declared,
) -> Result<Declared, AllocError>
    ensures { (d : tree.Declarator) → ShowsDeclared declared d
        → IfOk result (λ r. ShowsDeclared r (tree.Pointer place qualifiers.items d)) }
{
    let Declared {
        read,
        name,
        present: _,
        bare: _,
        parameters,
    } = declared;
    let Read { tree, depths } = over(place, read)?;
    let tree = match tree {
        Some(d) => {
            let whole = Declarator::Pointer(place, qualifiers, d);
            Some(Box::new(alloc, whole)?)
        }
        None => None,
    };
    Ok(Declared {
        read: Read { tree, depths },
        name,
        present: true,
        bare: false,
        parameters,
    })
}

/// A declarator in parentheses.
pub fn grouped(alloc: Global, place: Place, declared: Declared) -> Result<Declared, AllocError>
    ensures { (d : tree.Declarator) → ShowsDeclared declared d
        → IfOk result (λ r. ShowsDeclared r (tree.Grouped place d)) }
{
    let Declared {
        read,
        name,
        present: _,
        bare,
        parameters,
    } = declared;
    let read = node(alloc, place, read, |d| Declarator::Grouped(place, d))?;
    Ok(Declared {
        read,
        name,
        present: true,
        bare,
        parameters,
    })
}

/// An array without a size (C90 6.5.4.2).
pub fn unsized_array(
    alloc: Global,
    declared: Declared,
    place: Place,
) -> Result<Declared, AllocError>
    ensures { (d : tree.Declarator) → ShowsDeclared declared d
        → IfOk result (λ r. ShowsDeclared r (tree.Unsized d place)) }
{
    let Declared {
        read,
        name,
        present: _,
        bare: _,
        parameters,
    } = declared;
    let first = read.depths.first_or(place);
    let read = node(alloc, first, read, |d| Declarator::Unsized(d, place))?;
    Ok(Declared {
        read,
        name,
        present: true,
        bare: false,
        parameters,
    })
}

/// An array with a size (C90 6.5.4.2).
pub fn sized_array(
    alloc: Global,
    declared: Declared,
    place: Place,
    size: ReadOperand,
) -> Result<Declared, AllocError>
    ensures { (d : tree.Declarator) (e : tree.Expression) → ShowsDeclared declared d
        → ShowsOperand size e → IfOk result (λ r. ShowsDeclared r (tree.Sized d place e)) }
{
    let Declared {
        read,
        name,
        present: _,
        bare: _,
        parameters,
    } = declared;
    let first = read.depths.first_or(place);
    let parts = beside(read, size.read)?;
    let read = node(alloc, first, parts, |(d, size)| {
        Declarator::Sized(d, place, size)
    })?;
    Ok(Declared {
        read,
        name,
        present: true,
        bare: false,
        parameters,
    })
}

/// A function about whose parameters nothing is said (C90 6.5.4.3).
pub fn empty_function(
    alloc: Global,
    declared: Declared,
    place: Place,
) -> Result<Declared, AllocError>
    ensures { (d : tree.Declarator) → ShowsDeclared declared d
        → IfOk result (λ r. ShowsDeclared r (tree.Empty d place)) }
{
    let Declared {
        read,
        name,
        present: _,
        bare: _,
        parameters,
    } = declared;
    let first = read.depths.first_or(place);
    let read = node(alloc, first, read, |d| Declarator::Empty(d, place))?;
    Ok(Declared {
        read,
        name,
        present: true,
        bare: false,
        parameters,
    })
}

/// A function without parameters, at the place of `void`.
fn void_function(
    alloc: Global,
    declared: Declared,
    place: Place,
    void: Place,
) -> Result<Declared, AllocError>
    ensures { (d : tree.Declarator) → ShowsDeclared declared d
        → IfOk result (λ r. ShowsDeclared r (tree.Void d place void)) }
{
    let Declared {
        read,
        name,
        present: _,
        bare: _,
        parameters,
    } = declared;
    let first = read.depths.first_or(place);
    let read = node(alloc, first, read, |d| Declarator::Void(d, place, void))?;
    Ok(Declared {
        read,
        name,
        present: true,
        bare: false,
        parameters,
    })
}

/// A function with parameters, and the names that they are in a body.
fn parameter_function(
    alloc: Global,
    declared: Declared,
    place: Place,
    list: Read<Vec<Parameter>>,
    inner: Vec<Binding<bool>>,
) -> Result<Declared, AllocError>
    ensures { (d : tree.Declarator) (ps : List lists.Parameter) → ShowsDeclared declared d
        → ShowsParameterList list ps
        → (is_bare d ≡ true → (names : Names)
        → after_parameters (parameters_onto ps tree.no_parameters) names
        ≡ bound_all inner.items names)
        → IfOk result
        (λ r. ShowsDeclared r (tree.Function d place (parameters_onto ps tree.no_parameters))) }
{
    let Declared {
        read,
        name,
        present: _,
        bare,
        parameters,
    } = declared;
    let first = read.depths.first_or(place);
    let parts = beside(read, list)?;
    let read = node(alloc, first, parts, |(d, list)| {
        Declarator::Function(d, place, list)
    })?;
    let parameters = if bare { inner } else { parameters };
    Ok(Declared {
        read,
        name,
        present: true,
        bare: false,
        parameters,
    })
}

/// A function with the parameters that were read, of which `void` alone is none (C90 6.5.4.3). What they bind in a body is
/// needed where the declarator is a name with nothing but parentheses round it.
pub fn function(
    alloc: Global,
    declared: Declared,
    place: Place,
    list: ParameterList,
    inner: Vec<Binding<bool>>,
) -> Result<Declared, AllocError>
    ensures { (d : tree.Declarator) (ps : List lists.Parameter) → ShowsDeclared declared d
        → ShowsParameters list ps
        → (is_bare d ≡ true → (names : Names)
        → after_parameters (parameters_onto ps tree.no_parameters) names
        ≡ bound_all inner.items names)
        → IfOk result
        (λ r. ShowsDeclared r
        (closed_by (void_alone (parameters_onto ps tree.no_parameters)) d place
        (parameters_onto ps tree.no_parameters))) }
{
    let ParameterList { read, any: _, void } = list;
    match void {
        Some(void) => void_function(alloc, declared, place, void),
        None => parameter_function(alloc, declared, place, read, inner),
    }
}

/// No parameters.
pub fn no_parameters(alloc: Global) -> ParameterList
    ensures { ShowsParameters result [] }
{
    ParameterList {
        read: flat(alloc, Vec::new(alloc)),
        any: false,
        void: None,
    }
}

/// A place, unless one of two things holds.
fn unless(first: bool, second: bool, place: Option<Place>) -> Option<Place>
    ensures { result ≡ (if first || second then None else place) }
{
    if first || second { None } else { place }
}

/// A parameter more.
pub fn with_parameter(
    before: ParameterList,
    specified: Specified,
    declared: Declared,
) -> Result<ParameterList, AllocError>
    ensures { (ps : List lists.Parameter) (ws : tree.Specifiers) (d : tree.Declarator)
        → ShowsParameters before ps → ShowsSpecified specified ws → ShowsDeclared declared d
        → IfOk result (λ r. ShowsParameters r (record { specifiers = ws; declarator = d } ∷ ps)) }
{
    let void = unless(before.any, declared.present, specified.void);
    let Read { tree, depths } = beside(specified.read, declared.read)?;
    let tree = match tree {
        Some((specifiers, declarator)) => Some(Parameter {
            specifiers,
            declarator: Box::into_inner(declarator),
        }),
        None => None,
    };
    let read = longer(before.read, Read { tree, depths })?;
    Ok(ParameterList {
        read,
        any: true,
        void,
    })
}
