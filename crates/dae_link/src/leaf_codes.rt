// The codes of functions that make no call. They are the same wherever functions stand, so they are made once.

ghost use Rattle.std.specs.Prelude.{◌≡◌, ◌≤◌, ◌^◌, length, IfOk};
ghost use Rattle.dae_ir.specs.Streams.{actions_of};
ghost use Rattle.dae_select_blocks.specs.Code.{entry_code, function_code};
ghost use Rattle.dae_select.specs.Grown.{StandWithin};
ghost use Rattle.dae_select.specs.Growing.{function_places};
ghost use Rattle.dae_select_calls.specs.Layouts.{plan_of, variables_of, AreSmall};
ghost use Rattle.dae_link.specs.LeafCodes.{IsLeafCode, AreLeafCodes};

use dae_ir::{Step, StreamFunction};
use dae_select::{FunctionCode, function_code, is_leaf};
use dae_select_calls::Layouts;
use std::alloc::{AllocError, Global};

/// The code of a function, where it makes no call.
fn leaf_code_of(
    alloc: Global,
    layouts: &Layouts,
    function: u32,
    body: &[Step],
) -> Result<Option<FunctionCode>, AllocError>
    requires { AreSmall layouts.now }
    ensures { IfOk result (λ kept. IsLeafCode (plan_of layouts.now) (variables_of layouts.now)
        function (actions_of body.now) kept) }
{
    if !is_leaf(body) {
        return Ok(None);
    }
    let made = function_code(alloc, layouts, function, body)?;
    Ok(Some(made))
}

/// The codes of a side's functions that make no call, each at the number of its function.
pub fn leaf_codes_of(
    alloc: Global,
    layouts: &Layouts,
    functions: &[StreamFunction],
) -> Result<Vec<Option<FunctionCode>>, AllocError>
    requires small { AreSmall layouts.now }
    requires few { length functions.now ≤ 2 ^ 25 }
    ensures codes { IfOk result (λ codes. length codes.items ≡ length functions.now) }
    ensures kept { IfOk result (λ codes. AreLeafCodes layouts.now functions.now codes.items) }
{
    let mut codes = Vec::new(alloc);
    for index in 0..functions.len() {
        let body = functions[index].body.as_slice();
        let kept = leaf_code_of(alloc, layouts, index as u32, body)?;
        codes.push(kept)?;
    }
    Ok(codes)
}

/// The same code once more.
fn copy_function_code(alloc: Global, made: &FunctionCode) -> Result<FunctionCode, AllocError>
    ensures code { IfOk result (λ copy. copy.code.items ≡ made.now.code.items) }
    ensures entry { IfOk result (λ copy. copy.entry ≡ made.now.entry) }
    ensures places { IfOk result (λ copy. copy.places.items ≡ made.now.places.items) }
{
    let mut code = Vec::new(alloc);
    code.extend_from_slice(made.code.as_slice())?;
    let mut places = Vec::new(alloc);
    places.extend_from_slice(made.places.as_slice())?;
    Ok(FunctionCode {
        code,
        entry: made.entry,
        places,
    })
}

/// The code of a function of a side, a copy where it is kept.
pub fn code_of_function(
    alloc: Global,
    layouts: &Layouts,
    kept: &Option<FunctionCode>,
    function: u32,
    body: &[Step],
) -> Result<FunctionCode, AllocError>
    requires small { AreSmall layouts.now }
    requires kept { IsLeafCode (plan_of layouts.now) (variables_of layouts.now) function
        (actions_of body.now) kept.now }
    ensures code { IfOk result (λ made. made.code.items
        ≡ function_code (plan_of layouts.now) (variables_of layouts.now) function
        (actions_of body.now)) }
    ensures entry { IfOk result (λ made. made.entry
        ≡ length (entry_code (plan_of layouts.now) function)) }
    ensures places { IfOk result (λ made. made.places.items
        ≡ function_places (plan_of layouts.now) (variables_of layouts.now) function
        (actions_of body.now)) }
    ensures within { IfOk result (λ made.
        StandWithin (length made.code.items) made.places.items) }
{
    match kept {
        Some(made) => {
            let copy = copy_function_code(alloc, made)?;
            Ok(copy)
        }
        None => function_code(alloc, layouts, function, body),
    }
}
