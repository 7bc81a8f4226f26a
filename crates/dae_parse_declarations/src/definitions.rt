// The end of a definition of a function (C90 6.7.1): it is counted, and the first that is too long is kept.

ghost use Rattle.std.specs.Prelude.{◌≡◌, ◌≢◌, ◌∷◌, List, [], length, ltb, if◌then◌else◌, Option, Some, None, IfOk};
ghost use Rattle.dae_tree.specs.Trees.{Specifiers, Declarator, Declaration, Statements, External, Statement as StatementTree, Block, Defined};
ghost use Rattle.dae_tree.specs.Names.{Names};
ghost use Rattle.dae_parse_grammar.specs.Frames as plain;
ghost use Rattle.dae_parse_grammar.specs.Frames.{Frame as PlainFrame};
ghost use Rattle.dae_parse_grammar.specs.Machine.{statement_given};
ghost use Rattle.dae_parse_grammar.specs.Taken.{tokens_of, externals_before};
ghost use Rattle.dae_parse_nodes.specs.Parts.{ShowsSpecified, ShowsDeclared, ShowsStatement};
ghost use Rattle.dae_parse_states.specs.Bottom.{IsBottom};
ghost use Rattle.dae_base.specs.declared.Place.{Place};
ghost use Rattle.dae_parse_states.specs.declared.frames.FileSoFar.{FileSoFar as BeforeValue};
ghost use Rattle.dae_parse_states.specs.declared.frames.DeclarationFrame.TheVariants as frames;
ghost use Rattle.dae_parse_states.specs.Frames.{kind_of_statement, ShowsFile};
ghost use Rattle.dae_parse_states.specs.States.{Stands, Follows, outside_stack};

use dae_base::Place;
use dae_parse_nodes::{Declared, Specified, definition, with_external};
use dae_parse_parts::Read;
use dae_parse_states::{DeclarationFrame, Doing, FileSoFar, Parser, StatementKind};
use dae_tree::Statement;
use std::alloc::AllocError;

/// A definition may have at most so many tokens.
const GREATEST_LENGTH: usize = 8192;

/// Behind the body of a function, in a file of so many tokens (C90 6.7.1).
#[inline(never)]
pub fn in_definition(
    machine: &mut Parser<'_>,
    found: Read<Box<Statement>>,
    kind: StatementKind,
    specified: Specified,
    declared: Declared,
    total: usize,
) -> Result<Option<Doing>, AllocError>
    ensures { (b : StatementTree) (ws : Specifiers) (d : Declarator) (outside : Names)
        (s : List PlainFrame)
        → ShowsStatement found b → kind ≡ kind_of_statement b → ShowsSpecified specified ws
        → ShowsDeclared declared d → IsBottom s
        → length (tokens_of (plain.state (plain.gave_statement b)
        (plain.awaits_statement (plain.in_definition ws d outside) ∷ s)
        machine.old.scope.names machine.old.rest))
        ≡ total
        → Stands machine.old s
        (outside_stack (plain.awaits_statement (plain.in_definition ws d outside) ∷ s))
        → IfOk result (λ r. Follows r machine.new (statement_given b
        (plain.in_definition ws d outside) s machine.old.scope.names machine.old.rest)) }
{
    let StatementKind::Block = kind else {
        return Ok(None);
    };
    let Some(frame) = machine.pop_declaration() else {
        return Ok(None);
    };
    let Some(before) = file_of(frame) else {
        return Ok(None);
    };
    add_definition(machine, found, specified, declared, before, total)
}

/// What stands before a definition, by the frame below it.
fn file_of(frame: DeclarationFrame) -> Option<FileSoFar>
    ensures some { (b : BeforeValue) → result ≡ Some b → frame ≡ frames.InFile b }
    ensures none { (b : BeforeValue) → frame ≡ frames.InFile b → result ≢ None }
{
    match frame {
        DeclarationFrame::InFile(before) => Some(before),
        DeclarationFrame::InBlock(_) => None,
    }
}

/// Behind the body of a function, at file scope, with what stands before the definition.
fn add_definition(
    machine: &mut Parser<'_>,
    found: Read<Box<Statement>>,
    specified: Specified,
    declared: Declared,
    before: FileSoFar,
    total: usize,
) -> Result<Option<Doing>, AllocError>
    ensures { (p : Place) (ds : List Declaration) (ss : Statements) (ws : Specifiers)
        (d : Declarator) (outside : Names) (xs : List External)
        → ShowsStatement found (Block p ds ss) → ShowsSpecified specified ws
        → ShowsDeclared declared d → ShowsFile before xs
        → length (externals_before (Defined ws d p ds ss ∷ xs) machine.old.rest) ≡ total
        → Stands machine.old [] (outside ∷ [])
        → IfOk result (λ r. Follows r machine.new (Some (plain.state
        (plain.externals (Defined ws d p ds ss ∷ xs)) [] outside machine.old.rest))) }
{
    machine.scope.close();
    let whole = definition(machine.alloc, specified, declared, found)?;
    let FileSoFar {
        read,
        taken,
        too_long,
    } = before;
    let end = total.saturating_sub(machine.rest.len());
    let too_long = too_long_by(too_long, end.saturating_sub(taken), whole.depths.first());
    let read = with_external(read, whole)?;
    Ok(Some(Doing::Externals(FileSoFar {
        read,
        taken: end,
        too_long,
    })))
}

/// The place of the first definition with too many tokens, where another of so many tokens stands at a place.
fn too_long_by(before: Option<Place>, length: usize, place: Option<Place>) -> Option<Place>
    ensures { result ≡ elim before
        [ None ↦ (if ltb 8192 length then place else None) | Some p ↦ Some p ] }
{
    if before.is_none() && length > GREATEST_LENGTH {
        return place;
    }
    before
}
