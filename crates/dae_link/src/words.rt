// The words of a side's code.

ghost use Rattle.std.specs.Prelude.{◌≡◌, ℕ, ◌≤◌, ◌<◌, ◌^◌, ◌++◌, length, map, IfOk, OnOk};
ghost use Rattle.std.specs.List.{All, AllByRecursion};
ghost use Rattle.dae_encode.specs.Spelling.{InRange, encoded};
ghost use Rattle.dae_select_calls.specs.Layouts.{plan_of, AreSmall};
ghost use Rattle.dae_link.specs.LeafCodes.{AreLeafCodes};
ghost use Rattle.dae_link.specs.Placed.{opening_code};
ghost use Rattle.dae_link.specs.Sides.{functions_by, whole_by, begins_by, places_by};

use crate::leaf_codes::code_of_function;
use dae_encode::{Inst, encode};
use dae_ir::{Stream, StreamFunction};
use dae_select::{FunctionCode, PlacedWord, add_places};
use dae_select_calls::{Layouts, finish_code, start_code};
use std::alloc::{AllocError, Global};

/// The code of a side's functions stands behind other code.
fn add_functions(
    alloc: Global,
    code: &mut Vec<Inst>,
    places: &mut Vec<PlacedWord>,
    layouts: &Layouts,
    leaf_codes: &[Option<FunctionCode>],
    functions: &[StreamFunction],
) -> Result<(), AllocError>
    requires small { AreSmall layouts.now }
    requires few { length functions.now ≤ 2 ^ 25 }
    requires codes { length leaf_codes.now ≡ length functions.now }
    requires kept { AreLeafCodes layouts.now functions.now leaf_codes.now }
    ensures code { OnOk result (code.new.items
        ≡ code.old.items ++ functions_by layouts.now functions.now) }
    ensures places { OnOk result (places.new.items
        ≡ places.old.items ++ begins_by layouts.now (length code.old.items) functions.now) }
{
    for index in 0..functions.len() {
        let body = functions[index].body.as_slice();
        let made = code_of_function(alloc, layouts, &leaf_codes[index], index as u32, body)?;
        add_places(places, code.len(), made.places.as_slice())?;
        code.extend_from_slice(made.code.as_slice())?;
    }
    Ok(())
}

/// What stands before the functions: what begins, and what main returns to.
pub fn opening_code(
    alloc: Global,
    layouts: &Layouts,
    main: u32,
    frames: u32,
) -> Result<Vec<Inst>, AllocError>
    requires { AreSmall layouts.now }
    ensures { IfOk result (λ code. code.items ≡ opening_code (plan_of layouts.now) main frames) }
{
    let mut code = start_code(alloc, layouts, main, frames)?;
    finish_code(&mut code, layouts.side)?;
    Ok(code)
}

/// The whole code of a side; and the words at which actions begin, in their order, behind those that are there.
pub fn whole_code(
    alloc: Global,
    layouts: &Layouts,
    leaf_codes: &[Option<FunctionCode>],
    stream: &Stream,
    places: &mut Vec<PlacedWord>,
) -> Result<Vec<Inst>, AllocError>
    requires small { AreSmall layouts.now }
    requires few { length stream.now.functions ≤ 2 ^ 25 }
    requires codes { length leaf_codes.now ≡ length stream.now.functions }
    requires kept { AreLeafCodes layouts.now stream.now.functions leaf_codes.now }
    ensures code { IfOk result (λ code. code.items ≡ whole_by layouts.now stream.now) }
    ensures places { OnOk result (places.new.items
        ≡ places.old.items ++ places_by layouts.now stream.now) }
{
    let mut code = opening_code(alloc, layouts, stream.main, stream.frames)?;
    add_functions(
        alloc,
        &mut code,
        places,
        layouts,
        leaf_codes,
        stream.functions.as_slice(),
    )?;
    Ok(code)
}

/// The words of instructions.
pub fn encode_all(alloc: Global, code: &[Inst]) -> Result<Vec<u32>, AllocError>
    requires { AllByRecursion InRange code.now }
    ensures words { IfOk result (λ words. words.items ≡ map encoded code.now) }
    ensures fits { IfOk result (λ words. All (λ w. w < 2 ^ 32) words.items) }
{
    let mut words = Vec::new(alloc);
    for inst in code {
        words.push(encode(*inst))?;
    }
    Ok(words)
}
