// The code of a stream.

ghost use Rattle.std.specs.Prelude.{◌≡◌, ◌≢◌, ℕ, ◌+◌, ◌*◌, ◌≤◌, ◌<◌, ◌^◌, ◌++◌, length, IfOk, IfErr, OnOk};
ghost use Rattle.std.specs.List.{All};
ghost use Rattle.dae_select_blocks.specs.Blocks.{residents_code};
ghost use Rattle.dae_select_blocks.specs.Code.{start_code};
ghost use Rattle.dae_select_calls.specs.Layouts.{plan_of, AreSmall};
ghost use Rattle.dae_link.specs.declared.error.CodeError.TheVariants as errors;
ghost use Rattle.dae_link.specs.LeafCodes.{AreLeafCodes};
ghost use Rattle.dae_link.specs.Settled.{AreUnplaced, IsPrivateWithin, IsTooDeep};
ghost use Rattle.dae_link.specs.Placed.{opening_code};
ghost use Rattle.dae_link.specs.Sizes.{most_words};
ghost use Rattle.dae_link.specs.Sides.{HasLimits, HasPlaces, HasRegisters, HasUsesOf, IsCodeOf, at_places, code_at, end_of, places_by};

use crate::MOST_WORDS;
use crate::error::CodeError;
use crate::homes::are_numberable;
use crate::leaf_codes::leaf_codes_of;
use crate::placing::place;
use crate::reaching::settled_layouts;
use crate::words::{encode_all, opening_code, whole_code};
use dae_base::Items;
use dae_encode::Inst;
use dae_ir::Stream;
use dae_select::{FunctionCode, PlacedWord};
use dae_select_calls::{Layouts, start_code};
use std::alloc::{AllocError, Global};

/// The code of one side: its words, how many words of private memory it needs, and the words at which actions begin, in
/// their order.
#[derive(Drop)]
pub struct SideCode {
    pub words: Items<u32>,
    pub private: u32,
    pub places: Vec<PlacedWord>,
}

/// The word that main returns to.
#[tactic(auto, using(crate::proofs::Sizes::start_low))]
fn finish_of(alloc: Global, layouts: &Layouts, main: u32, frames: u32) -> Result<u32, AllocError>
    requires small { AreSmall layouts.now }
    requires brief { length (residents_code 27 layouts.now.residents) ≤ 3 }
    ensures { IfOk result (λ word. word ≡ length (start_code (plan_of layouts.now) main frames)) }
{
    Ok(start_code(alloc, layouts, main, frames)?.len() as u32)
}

/// The word at which the first function is entered.
#[tactic(auto, using(crate::proofs::Sizes::opening_low))]
fn first_of(alloc: Global, layouts: &Layouts, main: u32, frames: u32) -> Result<u32, AllocError>
    requires small { AreSmall layouts.now }
    requires brief { length (residents_code 27 layouts.now.residents) ≤ 3 }
    ensures word { IfOk result (λ word.
        word ≡ length (opening_code (plan_of layouts.now) main frames)) }
    ensures low { IfOk result (λ word. word ≤ 11) }
{
    Ok(opening_code(alloc, layouts, main, frames)?.len() as u32)
}

/// The functions of a stream get their places.
fn placed_layouts(
    alloc: Global,
    layouts: &Layouts,
    leaf_codes: &[Option<FunctionCode>],
    stream: &Stream,
) -> Result<Layouts, CodeError>
    requires unplaced { AreUnplaced stream.now layouts.now }
    requires few { length stream.now.functions ≤ 2 ^ 25 }
    requires codes { length leaf_codes.now ≡ length stream.now.functions }
    requires kept { AreLeafCodes layouts.now stream.now.functions leaf_codes.now }
    ensures places { IfOk result (λ new. new ≡ at_places stream.now layouts.now) }
    ensures ends { IfOk result (λ new. end_of stream.now layouts.now ≤ 2 ^ 25) }
    ensures err { IfErr result (λ e. e ≡ errors.Code → 2 ^ 25 < end_of stream.now layouts.now) }
    ensures private { IfErr result (λ e. e ≢ errors.Private) }
{
    let finish = finish_of(alloc, layouts, stream.main, stream.frames)?;
    let first = first_of(alloc, layouts, stream.main, stream.frames)?;
    let functions = place(
        alloc,
        layouts,
        leaf_codes,
        stream.functions.as_slice(),
        first,
    )?;
    let mut residents = Vec::new(alloc);
    residents.extend_from_slice(layouts.residents.as_slice())?;
    Ok(Layouts {
        side: layouts.side,
        functions: Items::from_vec(functions),
        calls: layouts.calls,
        finish,
        largest: layouts.largest,
        private: layouts.private,
        limit: layouts.limit,
        memory: layouts.memory,
        residents: Items::from_vec(residents),
    })
}

/// The whole code of a stream, from its layouts; and the words at which actions begin.
fn placed_code(
    alloc: Global,
    layouts: &Layouts,
    stream: &Stream,
    places: &mut Vec<PlacedWord>,
) -> Result<Vec<Inst>, CodeError>
    requires unplaced { AreUnplaced stream.now layouts.now }
    requires few { length stream.now.functions ≤ 2 ^ 25 }
    ensures code { IfOk result (λ code. code.items ≡ code_at stream.now layouts.now) }
    ensures places { OnOk result (places.new.items
        ≡ places.old.items ++ places_by (at_places stream.now layouts.now) stream.now) }
    ensures ends { IfOk result (λ code. end_of stream.now layouts.now ≤ 2 ^ 25) }
    ensures err { IfErr result (λ e. e ≡ errors.Code → 2 ^ 25 < end_of stream.now layouts.now) }
    ensures private { IfErr result (λ e. e ≢ errors.Private) }
{
    let functions = stream.functions.as_slice();
    let made = leaf_codes_of(alloc, layouts, functions)?;
    let codes = made.as_slice();
    let placed = placed_layouts(alloc, layouts, codes, stream)?;
    Ok(whole_code(alloc, &placed, codes, stream, places)?)
}

/// The code of a stream. No variable is in the frame of a function that has registers for all of them. The code is too long
/// only where what bounds it is, and its private memory is too large only where frames for all variables of the functions
/// are. A frame has 19 words and one for each variable at most.
#[tactic(auto, using(crate::proofs::Sided::code_short))]
pub fn side_code(alloc: Global, stream: &Stream) -> Result<SideCode, CodeError>
    requires { HasLimits stream.now }
    ensures code { IfOk result (λ made. IsCodeOf stream.now made.words made.private) }
    ensures words { IfOk result (λ made. All (λ w. w < 2 ^ 32) made.words) }
    ensures some { IfOk result (λ made. 1 ≤ length made.words) }
    ensures few { IfOk result (λ made. length made.words ≤ 2 ^ 25) }
    ensures short { IfOk result (λ made. length made.words ≤ most_words stream.now) }
    ensures private { IfOk result (λ made. made.private ≤ 2 ^ 28) }
    ensures uses { IfOk result (λ made. HasUsesOf stream.now made.words) }
    ensures places { IfOk result (λ made. HasPlaces stream.now made.words made.places.items) }
    ensures registers { IfOk result (λ made. HasRegisters stream.now made.words) }
    ensures frames { IfOk result (λ made. IsPrivateWithin stream.now made.private) }
    ensures err { IfErr result (λ e. e ≡ errors.Code → 2 ^ 25 < most_words stream.now) }
    ensures deep { IfErr result (λ e. e ≡ errors.Private → IsTooDeep stream.now) }
{
    if stream.functions.len() > MOST_WORDS as usize {
        return Err(CodeError::Code);
    }
    if !are_numberable(stream) {
        return Err(CodeError::Code);
    }
    let layouts = settled_layouts(alloc, stream)?;
    let mut places = Vec::new(alloc);
    let code = placed_code(alloc, &layouts, stream, &mut places)?;
    Ok(SideCode {
        words: Items::from_vec(encode_all(alloc, code.as_slice())?),
        private: layouts.private,
        places,
    })
}
