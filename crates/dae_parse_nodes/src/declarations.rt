// Nodes of initialisers, declarations and externals.

ghost use Rattle.std.specs.Prelude.{◌≡◌, ◌≢◌, List, [], ◌∷◌, Option, Some, None, IfOk};
ghost use Rattle.dae_base.specs.declared.Place.{Place};
ghost use Rattle.dae_tree.specs.Trees as tree;
ghost use Rattle.dae_tree.specs.Views.{has_comma};
ghost use Rattle.dae_tree.specs.FileViews.{view_statement};
ghost use Rattle.dae_tree.specs.declared.statements.Block.{Block};
ghost use Rattle.dae_tree.specs.declared.statements.Statement.TheVariants as statements;
ghost use Rattle.dae_tree.specs.Depth.{place_of_specifiers};
ghost use Rattle.dae_parse_grammar.specs.Machine.{initialisers_onto, onto};
ghost use Rattle.dae_parse_nodes.specs.Parts.{ShowsOperand, ShowsSpecified, ShowsDeclared, ShowsInitialiser, ShowsInitialisers, ShowsItems, ShowsDeclaration, ShowsDeclarations, ShowsStatement, ShowsExternal, ShowsExternals};

use crate::values::{Declared, ReadOperand, Specified};
use dae_base::Place;
use dae_parse_parts::{Read, TreeDepths, beside, longer, over};
use dae_tree::{
    Block, Declaration, External, InitDeclarator, Initialiser, Statement, TrailingComma,
};
use std::alloc::{AllocError, Global};

/// An expression as an initialiser.
pub fn value(operand: ReadOperand) -> Read<Initialiser>
    ensures { (e : tree.Expression) → ShowsOperand operand e
        → ShowsInitialiser result (tree.Value e) }
{
    let Read { tree, depths } = operand.read;
    let tree = match tree {
        Some(value) => Some(Initialiser::Value(value)),
        None => None,
    };
    Read { tree, depths }
}

/// An initialiser more.
pub fn with_initialiser(
    before: Read<Vec<Initialiser>>,
    initialiser: Read<Initialiser>,
) -> Result<Read<Vec<Initialiser>>, AllocError>
    ensures { (xs : List tree.Initialiser) (x : tree.Initialiser) → ShowsInitialisers before xs
        → ShowsInitialiser initialiser x → IfOk result (λ r. ShowsInitialisers r (x ∷ xs)) }
{
    longer(before, initialiser)
}

/// Initialisers in braces, and whether a comma stands behind the last (C90 6.5.7).
pub fn initialiser_list(
    place: Place,
    list: Read<Vec<Initialiser>>,
    comma: TrailingComma,
) -> Result<Read<Initialiser>, AllocError>
    ensures { (xs : List tree.Initialiser) → ShowsInitialisers list xs
        → IfOk result
        (λ r. ShowsInitialiser r
        (tree.Listed place (initialisers_onto xs tree.no_initialisers) (has_comma comma))) }
{
    let Read { tree, depths } = over(place, list)?;
    let tree = match tree {
        Some(list) => Some(Initialiser::List(place, list, comma)),
        None => None,
    };
    Ok(Read { tree, depths })
}

/// A declarator without a value more.
pub fn with_plain_item(
    before: Read<Vec<InitDeclarator>>,
    declared: Declared,
) -> Result<Read<Vec<InitDeclarator>>, AllocError>
    ensures { (items : List tree.InitDeclarator) (d : tree.Declarator) → ShowsItems before items
        → ShowsDeclared declared d
        → IfOk result (λ r. ShowsItems r (record { declarator = d; initialiser = None } ∷ items)) }
{
    let Read { tree, depths } = declared.read;
    let tree = match tree {
        Some(declarator) => Some(InitDeclarator {
            declarator,
            initialiser: None,
        }),
        None => None,
    };
    longer(before, Read { tree, depths })
}

/// A declarator with its initialiser more.
pub fn with_valued_item(
    before: Read<Vec<InitDeclarator>>,
    declared: Declared,
    place: Place,
    value: Read<Initialiser>,
) -> Result<Read<Vec<InitDeclarator>>, AllocError>
    ensures { (items : List tree.InitDeclarator) (d : tree.Declarator) (x : tree.Initialiser)
        → ShowsItems before items → ShowsDeclared declared d → ShowsInitialiser value x
        → IfOk result
        (λ r. ShowsItems r (record { declarator = d; initialiser = Some (place, x) } ∷ items)) }
{
    let Read { tree, depths } = beside(declared.read, value)?;
    let tree = match tree {
        Some((declarator, value)) => Some(InitDeclarator {
            declarator,
            initialiser: Some((place, value)),
        }),
        None => None,
    };
    longer(before, Read { tree, depths })
}

/// A declaration, at its semicolon (C90 6.5).
pub fn declaration(
    specified: Specified,
    items: Read<Vec<InitDeclarator>>,
    end: Place,
) -> Result<Read<Declaration>, AllocError>
    ensures { (ws : tree.Specifiers) (is : List tree.InitDeclarator) → ShowsSpecified specified ws
        → ShowsItems items is
        → IfOk result
        (λ r. ShowsDeclaration r (record { specifiers = ws; items = onto is []; end = end })) }
{
    let first = specified.place.unwrap_or(end);
    let parts = beside(specified.read, items)?;
    let Read { tree, depths } = over(first, parts)?;
    let tree = match tree {
        Some((specifiers, items)) => Some(Declaration {
            specifiers,
            items,
            end,
        }),
        None => None,
    };
    Ok(Read { tree, depths })
}

/// A declaration more.
pub fn with_declaration(
    before: Read<Vec<Declaration>>,
    declaration: Read<Declaration>,
) -> Result<Read<Vec<Declaration>>, AllocError>
    ensures { (ds : List tree.Declaration) (d : tree.Declaration) → ShowsDeclarations before ds
        → ShowsDeclaration declaration d → IfOk result (λ r. ShowsDeclarations r (d ∷ ds)) }
{
    longer(before, declaration)
}

/// A declaration at file scope.
pub fn declared_external(declaration: Read<Declaration>) -> Read<External>
    ensures { (d : tree.Declaration) → ShowsDeclaration declaration d
        → ShowsExternal result (tree.Declared d) }
{
    let Read { tree, depths } = declaration;
    let tree = match tree {
        Some(declaration) => Some(External::Declaration(declaration)),
        None => None,
    };
    Read { tree, depths }
}

/// A declaration or definition at file scope more.
pub fn with_external(
    before: Read<Vec<External>>,
    external: Read<External>,
) -> Result<Read<Vec<External>>, AllocError>
    ensures { (xs : List tree.External) (x : tree.External) → ShowsExternals before xs
        → ShowsExternal external x → IfOk result (λ r. ShowsExternals r (x ∷ xs)) }
{
    longer(before, external)
}

/// The block that a statement is.
fn block_of(statement: Statement) -> Option<Block>
    ensures some { (b : Block) → result ≡ Some b → statement ≡ statements.Block b }
    ensures none { (p : Place) (ds : List tree.Declaration) (ss : tree.Statements)
        → view_statement statement ≡ tree.Block p ds ss → result ≢ None }
{
    match statement {
        Statement::Block(block) => Some(block),
        other => {
            drop(other);
            None
        }
    }
}

/// The definition of a function that begins at a place.
fn definition_at(
    place: Place,
    specified: Specified,
    declared: Declared,
    body: Read<Box<Statement>>,
) -> Result<Read<External>, AllocError>
    ensures { (ws : tree.Specifiers) (d : tree.Declarator) (p : Place) (ds : List tree.Declaration)
        (ss : tree.Statements) → ShowsSpecified specified ws → ShowsDeclared declared d
        → ShowsStatement body (tree.Block p ds ss) → place ≡ place_of_specifiers ws p
        → IfOk result (λ r. ShowsExternal r (tree.Defined ws d p ds ss)) }
{
    let rest = beside(declared.read, body)?;
    let parts = beside(specified.read, rest)?;
    let Read { tree, depths } = over(place, parts)?;
    let tree = match tree {
        Some((specifiers, rest)) => {
            let (declarator, body) = rest;
            match block_of(Box::into_inner(body)) {
                Some(block) => Some(External::Definition(specifiers, declarator, block)),
                None => None,
            }
        }
        None => None,
    };
    Ok(Read { tree, depths })
}

/// The definition of a function, whose body is a block (C90 6.7.1).
pub fn definition(
    alloc: Global,
    specified: Specified,
    declared: Declared,
    body: Read<Box<Statement>>,
) -> Result<Read<External>, AllocError>
    ensures { (ws : tree.Specifiers) (d : tree.Declarator) (p : Place) (ds : List tree.Declaration)
        (ss : tree.Statements) → ShowsSpecified specified ws → ShowsDeclared declared d
        → ShowsStatement body (tree.Block p ds ss)
        → IfOk result (λ r. ShowsExternal r (tree.Defined ws d p ds ss)) }
{
    match specified.place {
        Some(place) => definition_at(place, specified, declared, body),
        None => match body.depths.first() {
            Some(place) => definition_at(place, specified, declared, body),
            None => Ok(Read {
                tree: None,
                depths: TreeDepths::none(alloc),
            }),
        },
    }
}
