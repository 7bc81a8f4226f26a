// Code as a processor keeps it: each word decoded once, with the queue that it uses.

ghost use Rattle.std.specs.Prelude.{◌≡◌, map, IfOk};
ghost use Rattle.dae_core.specs.Codes.{legal_word};

use dae_base::Side;
use dae_encode::{Inst, InstructionForm, QueueUse, decode, form_of, queue_use};
use std::alloc::{AllocError, Global};

/// An instruction that is legal on a side, with its registers and its one access.
#[derive(Clone, Copy)]
pub struct Legal {
    pub inst: Inst,
    pub form: InstructionForm,
    pub access: QueueUse,
}

/// The instruction that a word spells, or None where it spells none or one that is not legal on this side.
fn legal_word(copies: bool, side: Side, word: u32) -> Option<Legal>
    ensures { result ≡ legal_word copies side word }
{
    let inst = decode(word)?;
    let access = queue_use(side, &inst, copies)?;
    let form = form_of(&inst);
    Some(Legal { inst, form, access })
}

/// The instructions that the words of a code spell, each decoded once.
pub fn legal_words(
    alloc: Global,
    copies: bool,
    side: Side,
    words: &[u32],
) -> Result<Vec<Option<Legal>>, AllocError>
    ensures { IfOk result (λ all. all.items ≡ map (legal_word copies side) words.now) }
{
    let mut all = Vec::with_capacity(alloc, words.len())?;
    for word in words {
        all.push(legal_word(copies, side, *word))?;
    }
    Ok(all)
}
