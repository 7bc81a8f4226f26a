// Lists of nodes with nothing in them yet.

ghost use Rattle.std.specs.Prelude.{◌≡◌, List, [], Option, Some, None};
ghost use Rattle.dae_tree.specs.Trees as tree;
ghost use Rattle.dae_tree.specs.Lists as lists;
ghost use Rattle.dae_parse_grammar.specs.Frames as frames;
ghost use Rattle.dae_parse_nodes.specs.Parts.{is_some_list, ShowsArguments, ShowsMembers, ShowsEnumerators, ShowsDeclarators, ShowsInitialisers, ShowsItems, ShowsDeclarations, ShowsStatements, ShowsExternals};

use dae_parse_parts::{Read, flat};
use dae_tree::{
    Declaration, Declarator, Enumerator, Expression, External, InitDeclarator, Initialiser, Member,
    Statement,
};
use std::alloc::Global;

/// No arguments.
pub fn no_arguments(alloc: Global) -> Read<Vec<Expression>>
    ensures { ShowsArguments result [] }
{
    flat(alloc, Vec::new(alloc))
}

/// No declarations of members.
pub fn no_members(alloc: Global) -> Read<Vec<Member>>
    ensures { ShowsMembers result [] }
{
    flat(alloc, Vec::new(alloc))
}

/// No enumerators.
pub fn no_enumerators(alloc: Global) -> Read<Vec<Enumerator>>
    ensures { ShowsEnumerators result [] }
{
    flat(alloc, Vec::new(alloc))
}

/// No declarators of members.
pub fn no_declarators(alloc: Global) -> Read<Vec<Declarator>>
    ensures { ShowsDeclarators result [] }
{
    flat(alloc, Vec::new(alloc))
}

/// No initialisers.
pub fn no_initialisers(alloc: Global) -> Read<Vec<Initialiser>>
    ensures { ShowsInitialisers result [] }
{
    flat(alloc, Vec::new(alloc))
}

/// No declarators of a declaration.
pub fn no_items(alloc: Global) -> Read<Vec<InitDeclarator>>
    ensures { ShowsItems result [] }
{
    flat(alloc, Vec::new(alloc))
}

/// No declarations.
pub fn no_declarations(alloc: Global) -> Read<Vec<Declaration>>
    ensures { ShowsDeclarations result [] }
{
    flat(alloc, Vec::new(alloc))
}

/// No statements.
pub fn no_statements(alloc: Global) -> Read<Vec<Statement>>
    ensures { ShowsStatements result [] }
{
    flat(alloc, Vec::new(alloc))
}

/// Nothing at file scope.
pub fn no_externals(alloc: Global) -> Read<Vec<External>>
    ensures { ShowsExternals result [] }
{
    flat(alloc, Vec::new(alloc))
}

/// Whether there are declarations of members.
pub fn has_members(list: &Read<Vec<Member>>) -> bool
    ensures { (ms : List lists.MemberLine) → ShowsMembers list.now ms → result ≡ is_some_list ms }
{
    match &list.tree {
        Some(list) => !list.is_empty(),
        None => true,
    }
}

/// Whether there are declarators of a declaration.
pub fn has_items(list: &Read<Vec<InitDeclarator>>) -> bool
    ensures { (items : List tree.InitDeclarator) → ShowsItems list.now items
        → result ≡ is_some_list items }
{
    match &list.tree {
        Some(list) => !list.is_empty(),
        None => true,
    }
}
