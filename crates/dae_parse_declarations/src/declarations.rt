// Declarations in a file, a block or the head of a function: their items, and where a definition begins (C90 6.5 and 6.7).

ghost use Rattle.std.specs.Prelude.{◌≡◌, ◌∷◌, Bool, true, false, List, [], length, Option, Some, None, IfOk};
ghost use Rattle.dae_tree.specs.Trees.{Specifiers, Declarator as DeclaratorTree, Initialiser as InitialiserTree, InitDeclarator as ItemTree, Declaration as DeclarationTree, External as ExternalTree};
ghost use Rattle.dae_parse_grammar.specs.Frames as plain;
ghost use Rattle.dae_parse_grammar.specs.Frames.{Frame as PlainFrame};
ghost use Rattle.dae_parse_grammar.specs.Machine.{specifiers_given, declarator_given, item_given, initialiser_taken, item_followed, declaration_taken, external_begun, definition_begun};
ghost use Rattle.dae_parse_grammar.specs.Taken.{tokens_of};
ghost use Rattle.dae_parse_nodes.specs.Parts.{is_some_list, ShowsSpecified, ShowsDeclared, ShowsInitialiser, ShowsItems, ShowsDeclaration};
ghost use Rattle.dae_parse_states.specs.Fronts.{sign_at};
ghost use Rattle.dae_tree.specs.declared.signs.Sign.TheVariants as signs;
ghost use Rattle.dae_parse_states.specs.Bottom.{IsBottom};
ghost use Rattle.dae_parse_states.specs.Frames.{is_allowed, ShowsInside, ShowsFile};
ghost use Rattle.dae_parse_states.specs.States.{Stands, Follows, outside_stack, Steps};

use dae_base::Place;
use dae_parse_nodes::{
    Declared, Specified, declaration, declared_external, has_items, no_declarations, no_items,
    no_specifiers, with_declaration, with_external, with_plain_item, with_valued_item,
};
use dae_parse_parts::Read;
use dae_parse_states::{
    DeclarationFrame, DeclaratorFrame, Doing, FileSoFar, FunctionBody, InitialiserFrame, Inside,
    Manner, Parser, Presence, SpecifiersFrame, StatementFrame,
};
use dae_tree::{Declaration, InitDeclarator, Initialiser, Seen, Sign};
use std::alloc::AllocError;

/// Behind the specifiers of a declaration, at file scope or inside (C90 6.5). At file scope it may be a definition.
#[tactic(auto, using(crate::proofs::OtherwiseDeclarations::declaration_otherwise))]
pub fn for_declaration(
    machine: &mut Parser<'_>,
    specified: Specified,
    function_body: FunctionBody,
) -> Result<Option<Doing>, AllocError>
    ensures { (ws : Specifiers) → ShowsSpecified specified ws
        → Steps machine.old result machine.new
        (specifiers_given ws (plain.for_declaration (is_allowed function_body))) }
{
    let none = no_items(machine.alloc);
    if let Some(end) = machine.rest.take_sign(Sign::Semicolon) {
        let whole = declaration(specified, none, end)?;
        return Ok(Some(Doing::GaveDeclaration(whole)));
    }
    machine.push_declarator(DeclaratorFrame::OfItem(function_body, specified, none))?;
    Ok(Some(Doing::Declaring(Manner::ByName, Presence::Optional)))
}

/// Behind a declarator of a declaration. The first at file scope may begin the definition of a function (C90 6.5.4 and 6.7.1).
pub fn of_item(
    machine: &mut Parser<'_>,
    declared: Declared,
    function_body: FunctionBody,
    specified: Specified,
    items: Read<Vec<InitDeclarator>>,
) -> Result<Option<Doing>, AllocError>
    ensures { (d : DeclaratorTree) (ws : Specifiers) (is : List ItemTree) → ShowsDeclared declared d
        → ShowsSpecified specified ws → ShowsItems items is
        → Steps machine.old result machine.new
        (declarator_given d (plain.of_item (is_allowed function_body) ws is)) }
{
    machine.bind(&declared, &specified)?;
    read_behind_declarator(machine, declared, function_body, specified, items)
}

/// Behind a declarator whose name is bound.
fn read_behind_declarator(
    machine: &mut Parser<'_>,
    declared: Declared,
    function_body: FunctionBody,
    specified: Specified,
    items: Read<Vec<InitDeclarator>>,
) -> Result<Option<Doing>, AllocError>
    ensures { (d : DeclaratorTree) (ws : Specifiers) (is : List ItemTree) → ShowsDeclared declared d
        → ShowsSpecified specified ws → ShowsItems items is
        → Steps machine.old result machine.new (item_given (is_allowed function_body) d ws is) }
{
    if let Some(place) = machine.rest.take_sign(Sign::Assign) {
        machine.push_initialiser(InitialiserFrame::OfValue(specified, items, declared, place))?;
        return Ok(Some(Doing::Initialising));
    }
    match function_body {
        FunctionBody::Excluded => read_behind_inner(machine, declared, specified, items),
        FunctionBody::Allowed => {
            if has_items(&items) {
                return read_behind_later(machine, declared, specified, items);
            }
            read_behind_first(machine, declared, specified, items)
        }
    }
}

/// Behind a declarator inside, where no value is given.
#[tactic(auto, using(crate::proofs::OtherwiseDeclarations::inner_otherwise))]
fn read_behind_inner(
    machine: &mut Parser<'_>,
    declared: Declared,
    specified: Specified,
    items: Read<Vec<InitDeclarator>>,
) -> Result<Option<Doing>, AllocError>
    ensures { (d : DeclaratorTree) (ws : Specifiers) (is : List ItemTree)
        → ¬ (sign_at machine.old.rest ≡ Some signs.Assign) → ShowsDeclared declared d
        → ShowsSpecified specified ws → ShowsItems items is
        → Steps machine.old result machine.new (item_given false d ws is) }
{
    let items = with_plain_item(items, declared)?;
    Ok(Some(Doing::AfterItem(specified, items)))
}

/// Behind a declarator that is not the first, where no value is given.
fn read_behind_later(
    machine: &mut Parser<'_>,
    declared: Declared,
    specified: Specified,
    items: Read<Vec<InitDeclarator>>,
) -> Result<Option<Doing>, AllocError>
    ensures { (outer : Bool) (d : DeclaratorTree) (ws : Specifiers) (is : List ItemTree)
        → ¬ (sign_at machine.old.rest ≡ Some signs.Assign) → true ≡ is_some_list is
        → ShowsDeclared declared d → ShowsSpecified specified ws → ShowsItems items is
        → Steps machine.old result machine.new (item_given outer d ws is) }
{
    let items = with_plain_item(items, declared)?;
    Ok(Some(Doing::AfterItem(specified, items)))
}

/// Behind the first declarator at file scope, where no value is given.
#[tactic(auto, using(crate::proofs::OtherwiseDeclarations::first_otherwise, crate::proofs::OtherwiseDeclarations::begun_by_brace))]
fn read_behind_first(
    machine: &mut Parser<'_>,
    declared: Declared,
    specified: Specified,
    items: Read<Vec<InitDeclarator>>,
) -> Result<Option<Doing>, AllocError>
    ensures { (d : DeclaratorTree) (ws : Specifiers) (is : List ItemTree)
        → ¬ (sign_at machine.old.rest ≡ Some signs.Assign) → false ≡ is_some_list is
        → ShowsDeclared declared d → ShowsSpecified specified ws → ShowsItems items is
        → Steps machine.old result machine.new (item_given true d ws is) }
{
    if let Some(brace) = machine.rest.take_sign(Sign::LeftBrace) {
        return begin_definition(machine, declared, specified, brace);
    }
    let items = with_plain_item(items, declared)?;
    Ok(Some(Doing::AfterItem(specified, items)))
}

/// Behind the brace of a function's body: its parameters are names there, in a scope round that of the body (C90 6.7.1 and 6.1.2.1).
fn begin_definition(
    machine: &mut Parser<'_>,
    declared: Declared,
    specified: Specified,
    brace: Place,
) -> Result<Option<Doing>, AllocError>
    ensures { (d : DeclaratorTree) (ws : Specifiers) (s : List PlainFrame)
        → ShowsDeclared declared d → ShowsSpecified specified ws
        → Stands machine.old s (outside_stack s)
        → IfOk result (λ r. Follows r machine.new
        (Some (definition_begun d ws brace s machine.old.scope.names machine.old.rest))) }
{
    machine.scope.open()?;
    machine.scope.bind_all(declared.parameters.as_slice())?;
    machine.scope.open()?;
    machine.push_statement(StatementFrame::InDefinition(specified, declared))?;
    let place = brace;
    let declarations = no_declarations(machine.alloc);
    Ok(Some(Doing::Declarations(Inside {
        place,
        declarations,
    })))
}

/// Behind an initialiser of a declaration (C90 6.5.7).
pub fn of_value(
    machine: &mut Parser<'_>,
    initialiser: Read<Initialiser>,
    specified: Specified,
    items: Read<Vec<InitDeclarator>>,
    declared: Declared,
    place: Place,
) -> Result<Option<Doing>, AllocError>
    ensures { (x : InitialiserTree) (ws : Specifiers) (is : List ItemTree) (d : DeclaratorTree)
        (s : List PlainFrame)
        → ShowsInitialiser initialiser x → ShowsSpecified specified ws → ShowsItems items is
        → ShowsDeclared declared d → Stands machine.old s (outside_stack s)
        → IfOk result (λ r. Follows r machine.new (initialiser_taken x
        (plain.awaits_initialiser (plain.of_value ws is d place) ∷ s)
        machine.old.scope.names machine.old.rest)) }
{
    let items = with_valued_item(items, declared, place, initialiser)?;
    Ok(Some(Doing::AfterItem(specified, items)))
}

/// Behind an item of a declaration.
#[tactic(auto, using(crate::proofs::OtherwiseDeclarations::item_or_none))]
pub fn read_behind_item(
    machine: &mut Parser<'_>,
    specified: Specified,
    items: Read<Vec<InitDeclarator>>,
) -> Result<Option<Doing>, AllocError>
    ensures { (ws : Specifiers) (i : ItemTree) (is : List ItemTree) → ShowsSpecified specified ws
        → ShowsItems items (i ∷ is) → Steps machine.old result machine.new (item_followed ws i is) }
{
    if machine.rest.take_sign(Sign::Comma).is_some() {
        machine.push_declarator(DeclaratorFrame::OfItem(FunctionBody::Excluded, specified, items))?;
        return Ok(Some(Doing::Declaring(Manner::ByName, Presence::Optional)));
    }
    let Some(end) = machine.rest.take_sign(Sign::Semicolon) else {
        return Ok(None);
    };
    let whole = declaration(specified, items, end)?;
    Ok(Some(Doing::GaveDeclaration(whole)))
}

/// Behind a declaration at file scope, in a file of so many tokens.
pub fn in_file(
    machine: &mut Parser<'_>,
    found: Read<Declaration>,
    before: FileSoFar,
    total: usize,
) -> Result<Option<Doing>, AllocError>
    ensures { (d : DeclarationTree) (xs : List ExternalTree) (s : List PlainFrame)
        → ShowsDeclaration found d → ShowsFile before xs
        → IsBottom (plain.awaits_declaration (plain.in_file xs) ∷ s)
        → length (tokens_of (plain.state (plain.gave_declaration d)
        (plain.awaits_declaration (plain.in_file xs) ∷ s)
        machine.old.scope.names machine.old.rest)) ≡ total
        → Stands machine.old s (outside_stack s)
        → IfOk result (λ r. Follows r machine.new
        (declaration_taken d (plain.awaits_declaration (plain.in_file xs) ∷ s)
        machine.old.scope.names machine.old.rest)) }
{
    let FileSoFar {
        read,
        taken: _,
        too_long,
    } = before;
    let read = with_external(read, declared_external(found))?;
    let taken = total.saturating_sub(machine.rest.len());
    Ok(Some(Doing::Externals(FileSoFar {
        read,
        taken,
        too_long,
    })))
}

/// Behind a declaration in a block.
pub fn in_block(
    machine: &mut Parser<'_>,
    found: Read<Declaration>,
    inside: Inside,
) -> Result<Option<Doing>, AllocError>
    ensures { (d : DeclarationTree) (i : plain.Inside) (s : List PlainFrame)
        → ShowsDeclaration found d → ShowsInside inside i
        → Stands machine.old s (outside_stack (plain.awaits_declaration (plain.in_block i) ∷ s))
        → IfOk result (λ r. Follows r machine.new
        (declaration_taken d (plain.awaits_declaration (plain.in_block i) ∷ s)
        machine.old.scope.names machine.old.rest)) }
{
    let Inside {
        place,
        declarations,
    } = inside;
    let declarations = with_declaration(declarations, found)?;
    Ok(Some(Doing::Declarations(Inside {
        place,
        declarations,
    })))
}

/// At file scope, before a declaration or definition (C90 6.7).
#[tactic(auto, using(crate::proofs::OtherwiseDeclarations::ended_file, crate::proofs::OtherwiseDeclarations::file_goes_on))]
pub fn read_external(
    machine: &mut Parser<'_>,
    before: FileSoFar,
) -> Result<Option<Doing>, AllocError>
    ensures { (xs : List ExternalTree) → ShowsFile before xs →
        Steps machine.old result machine.new (external_begun xs) }
{
    if machine.rest.len() == 0 {
        return Ok(None);
    }
    machine.push_declaration(DeclarationFrame::InFile(before))?;
    machine.push_specifiers(SpecifiersFrame::ForDeclaration(FunctionBody::Allowed))?;
    let before = no_specifiers(machine.alloc);
    Ok(Some(Doing::Specifying(Seen::nothing(), before)))
}
