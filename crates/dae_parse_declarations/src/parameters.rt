// Parameters (C90 6.5.4.3) and the end of their scope.

ghost use Rattle.std.specs.Prelude.{◌≡◌, ◌∷◌, List, Some, IfOk};
ghost use Rattle.dae_tree.specs.Names.{after_parameters};
ghost use Rattle.dae_tree.specs.Trees.{Specifiers, Declarator, no_parameters};
ghost use Rattle.dae_tree.specs.Lists as lists;
ghost use Rattle.dae_parse_grammar.specs.Frames as plain;
ghost use Rattle.dae_parse_grammar.specs.Frames.{Frame as PlainFrame};
ghost use Rattle.dae_parse_grammar.specs.Machine.{declarator_given, parameters_onto, closed};
ghost use Rattle.dae_parse_grammar.specs.Standing.{Holds};
ghost use Rattle.dae_parse_nodes.specs.Parts.{ShowsSpecified, ShowsDeclared, ShowsParameters};
ghost use Rattle.dae_parse_states.specs.Frames.{ShowsOpen};
ghost use Rattle.dae_parse_states.specs.States.{Stands, Follows, outside_stack};

use dae_parse_grammar::parameters_add_names;
use dae_parse_nodes::{
    Declared, ParameterList, Specified, function, no_specifiers, with_parameter,
};
use dae_parse_states::{Doing, OpenParameters, Parser, SpecifiersFrame};
use dae_tree::{Seen, Sign};
use std::alloc::AllocError;

/// Behind the declarator of a parameter, whose name is one of the scope of the parameters (C90 6.5.4.3 and 6.1.2.1).
#[inline(never)]
#[tactic(auto, using(crate::proofs::OtherwiseDeclarators::parameter_or_none))]
pub fn of_parameter(
    machine: &mut Parser<'_>,
    declared: Declared,
    opened: OpenParameters,
    list: ParameterList,
    specified: Specified,
) -> Result<Option<Doing>, AllocError>
    ensures { (d : Declarator) (o : plain.OpenParameters) (ps : List lists.Parameter)
        (ws : Specifiers)
        (s : List PlainFrame)
        → ShowsDeclared declared d → ShowsOpen opened o → ShowsParameters list ps
        → ShowsSpecified specified ws
        → Holds (plain.state (plain.gave_declarator d)
        (plain.awaits_declarator (plain.of_parameter o ps ws) ∷ s)
        machine.old.scope.names machine.old.rest)
        → Stands machine.old s
        (outside_stack (plain.awaits_declarator (plain.of_parameter o ps ws) ∷ s))
        → IfOk result (λ r. Follows r machine.new (declarator_given d
        (plain.of_parameter o ps ws) s machine.old.scope.names machine.old.rest)) }
{
    machine.bind(&declared, &specified)?;
    let list = with_parameter(list, specified, declared)?;
    if machine.rest.take_sign(Sign::Comma).is_some() {
        machine.push_specifiers(SpecifiersFrame::ForParameter(opened, list))?;
        let before = no_specifiers(machine.alloc);
        return Ok(Some(Doing::Specifying(Seen::nothing(), before)));
    }
    match machine.rest.take_sign(Sign::RightParen) {
        Some(_) => close_parameters(machine, opened, list),
        None => Ok(None),
    }
}

/// Behind the parenthesis that closes parameters: their scope ends.
fn close_parameters(
    machine: &mut Parser<'_>,
    opened: OpenParameters,
    list: ParameterList,
) -> Result<Option<Doing>, AllocError>
    ensures { (o : plain.OpenParameters) (ps : List lists.Parameter) (s : List PlainFrame)
        → ShowsOpen opened o → ShowsParameters list ps
        → machine.old.scope.names ≡ after_parameters (parameters_onto ps no_parameters) o.outside
        → Stands machine.old s (o.outside ∷ outside_stack s)
        → IfOk result (λ r. Follows r machine.new (Some (plain.state (plain.suffixing o.manner
        (closed o (parameters_onto ps no_parameters))) s o.outside machine.old.rest))) }
{
    parameters_add_names();
    let inner = machine.scope.inner(machine.alloc)?;
    machine.scope.close();
    let OpenParameters {
        declared,
        place,
        manner,
    } = opened;
    let whole = function(machine.alloc, declared, place, list, inner)?;
    Ok(Some(Doing::Suffixing(manner, whole)))
}
