// Functions get their places in the code of a side, one behind the other.

ghost use Rattle.std.specs.Prelude.{◌≡◌, ◌≢◌, ◌+◌, ◌≤◌, ◌<◌, ◌^◌, length, IfOk, IfErr};
ghost use Rattle.dae_select_calls.specs.Layouts.{AreSmall};
ghost use Rattle.dae_link.specs.LeafCodes.{AreLeafCodes};
ghost use Rattle.dae_link.specs.Placed.{moved};
ghost use Rattle.dae_link.specs.Sides.{placed_by, word_behind};
ghost use Rattle.dae_link.specs.declared.error.CodeError.TheVariants as errors;

use crate::MOST_WORDS;
use crate::error::CodeError;
use crate::leaf_codes::code_of_function;
use dae_base::Items;
use dae_ir::StreamFunction;
use dae_select::FunctionCode;
use dae_select_calls::{FunctionLayout, Layouts};
use std::alloc::{AllocError, Global};

/// The word behind so many words of code.
fn word_after(word: u32, words: usize) -> Result<u32, CodeError>
    requires { word ≤ 2 ^ 25 }
    ensures ok { IfOk result (λ behind. (behind ≡ word + words) × (behind ≤ 2 ^ 25)) }
    ensures err { IfErr result (λ e. (e ≡ errors.Code) × (2 ^ 25 < word + words)) }
{
    if words > (MOST_WORDS - word) as usize {
        return Err(CodeError::Code);
    }
    Ok(word + words as u32)
}

/// The same layout at another place.
fn layout_at(
    alloc: Global,
    layout: &FunctionLayout,
    word: u32,
    entry: u32,
) -> Result<FunctionLayout, AllocError>
    requires { word + entry < 2 ^ 32 }
    ensures { IfOk result (λ new. new ≡ moved layout.now word entry) }
{
    let mut homes = Vec::new(alloc);
    homes.extend_from_slice(layout.homes.as_slice())?;
    Ok(FunctionLayout {
        homes: Items::from_vec(homes),
        variables: layout.variables,
        frame: layout.frame,
        leaf: layout.leaf,
        frameless: layout.frameless,
        entry: word,
        start: word + entry,
    })
}

/// The layouts of a side's functions at their places, where the first of them is entered at a word.
pub fn place(
    alloc: Global,
    layouts: &Layouts,
    leaf_codes: &[Option<FunctionCode>],
    functions: &[StreamFunction],
    first: u32,
) -> Result<Vec<FunctionLayout>, CodeError>
    requires small { AreSmall layouts.now }
    requires count { length layouts.now.functions ≡ length functions.now }
    requires codes { length leaf_codes.now ≡ length functions.now }
    requires kept { AreLeafCodes layouts.now functions.now leaf_codes.now }
    requires few { length functions.now ≤ 2 ^ 25 }
    requires low { first ≤ 2 ^ 25 }
    ensures placed { IfOk result (λ all. all.items ≡ placed_by layouts.now first functions.now) }
    ensures ends { IfOk result (λ all. word_behind layouts.now first functions.now ≤ 2 ^ 25) }
    ensures err { IfErr result (λ e. e ≡ errors.Code
        → 2 ^ 25 < word_behind layouts.now first functions.now) }
    ensures private { IfErr result (λ e. e ≢ errors.Private) }
{
    let mut all = Vec::new(alloc);
    let mut word = first;
    let unplaced = layouts.functions.as_slice();
    for index in 0..functions.len() {
        let body = functions[index].body.as_slice();
        let made = code_of_function(alloc, layouts, &leaf_codes[index], index as u32, body)?;
        let behind = word_after(word, made.code.len())?;
        all.push(layout_at(alloc, &unplaced[index], word, made.entry as u32)?)?;
        word = behind;
    }
    Ok(all)
}
