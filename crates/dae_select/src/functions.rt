// The code of a whole function.

ghost use Rattle.std.specs.Prelude.{◌≡◌, length, IfOk, OnOk};
ghost use Rattle.dae_select_walks.specs.Live.{nowhere};
ghost use Rattle.dae_select_walks.specs.Facts.{unknown};
ghost use Rattle.dae_select_live.specs.Turns.{turns_told, TellsTurns};
ghost use Rattle.dae_select_walks.specs.declared.VariableStanding.TheVariants.{Settled as IsSettled};
ghost use Rattle.dae_ir.specs.Streams.{actions_of};
ghost use Rattle.dae_select_blocks.specs.Code.{entry_code, function_code};
ghost use Rattle.dae_select.specs.Grown.{no_code, StandWithin};
ghost use Rattle.dae_select.specs.Growing.{marked_code, function_places};
ghost use Rattle.dae_select_calls.specs.Layouts.{plan_of, variables_of, AreSmall};
ghost use Rattle.dae_select_calls.specs.Makings.{plan_by, variables_by, by_jal, IsSound};

use crate::counting::jumps_in;
use crate::growing::{GrowingCode, PlacedWord};
use crate::making::Exits;
use crate::walking::list_code;
use dae_encode::Inst;
use dae_ir::Step;
use dae_select_calls::{Layouts, Making, prologue_code};
use dae_select_facts::unknown;
use dae_select_live::{LiveSet, tell_turns};
use std::alloc::{AllocError, Global};

/// The code of a function's actions.
fn body_code(code: &mut GrowingCode, making: &Making, body: &[Step]) -> Result<(), AllocError>
    requires sound { IsSound making.now }
    requires empty { code.old ≡ no_code }
    requires told { TellsTurns (turns_told making.now.turns.now) (actions_of body.now) }
    ensures { OnOk result (code.new
        ≡ marked_code (by_jal making.now) (plan_by making.now) (variables_by making.now)
        making.now.function IsSettled unknown (actions_of body.now) nowhere 0 0) }
{
    let leaves = LiveSet::new(making.alloc);
    let skips = LiveSet::new(making.alloc);
    let exits = Exits {
        leaves_live: leaves,
        skips_live: skips,
        leaves: 0,
        skips: 0,
    };
    let next = LiveSet::new(making.alloc);
    list_code(code, making, unknown(making.alloc), body, next, &exits)?;
    Ok(())
}

/// The code of a function, how many of its words come before its actions, and the words at which actions begin.
#[derive(Drop)]
pub struct FunctionCode {
    pub code: Vec<Inst>,
    pub entry: usize,
    pub places: Vec<PlacedWord>,
}

/// The code of a function of a side: what it begins with, and its actions.
pub fn function_code(
    alloc: Global,
    layouts: &Layouts,
    function: u32,
    body: &[Step],
) -> Result<FunctionCode, AllocError>
    requires { AreSmall layouts.now }
    ensures code { IfOk result (λ made. made.code.items
        ≡ function_code (plan_of layouts.now) (variables_of layouts.now) function
        (actions_of body.now)) }
    ensures entry { IfOk result (λ made. made.entry
        ≡ length (entry_code (plan_of layouts.now) function)) }
    ensures places { IfOk result (λ made. made.places.items
        ≡ function_places (plan_of layouts.now) (variables_of layouts.now) function
        (actions_of body.now)) }
    ensures within { IfOk result (λ made.
        StandWithin (length made.code.items) made.places.items) }
{
    let homes = layouts.homes(function);
    let turns = tell_turns(alloc, body)?;
    let making = Making {
        alloc,
        layouts,
        function,
        homes,
        jumps: jumps_in(body),
        turns: &turns,
    };
    let mut actions = GrowingCode::new(alloc);
    body_code(&mut actions, &making, body)?;
    let mut code = Vec::new(alloc);
    prologue_code(&mut code, &making)?;
    let entry = code.len();
    let places = actions.places(alloc, entry)?;
    code.extend_from_slice(actions.into_vec().as_slice())?;
    Ok(FunctionCode {
        code,
        entry,
        places,
    })
}
