// The image of a pair.

ghost use Rattle.std.specs.Prelude.{◌≡◌, IfOk, IfErr};
ghost use Rattle.dae_link.specs.declared.error.CodeError.TheVariants as errors;
ghost use Rattle.dae_link.specs.Linked.{CanLink, HasGiven, HasMarks, HasPrivateWithin, HasShortCode, HasTooDeep, IsCompiled, IsFaithful, IsTooLong};

use crate::marks::{MarkRoom, marks_of};
use crate::{CodeError, side_code};
use dae_base::{Depths, Items, Text};
use dae_image::Image;
use dae_ir::Pair;
use dae_link_faithful::{made_does_form, pair_uses};
use std::alloc::Global;

/// The image of a pair: its two codes and its budget with the data, the names of the files, and marks of the words at which
/// an action of another line begins. Of the form that the pair was split from it does what the form does, whatever the order
/// of steps. A code is too long only where what bounds it is, and a private memory too large only where frames for all
/// variables are.
pub fn link(
    alloc: Global,
    pair: &Pair,
    budget: Depths,
    content: Items<u8>,
    names: Items<Text>,
) -> Result<Image, CodeError>
    requires { CanLink pair.now budget content names }
    ensures given { IfOk result (λ image. HasGiven pair.now budget content names image) }
    ensures compiled { IfOk result (λ image. IsCompiled pair.now budget image) }
    ensures does { IfOk result (λ image. IsFaithful pair.now budget image) }
    ensures marks { IfOk result (λ image. HasMarks pair.now image) }
    ensures short { IfOk result (λ image. HasShortCode pair.now image) }
    ensures private { IfOk result (λ image. HasPrivateWithin pair.now image) }
    ensures err { IfErr result (λ e. e ≡ errors.Code → IsTooLong pair.now) }
    ensures deep { IfErr result (λ e. e ≡ errors.Private → HasTooDeep pair.now) }
{
    made_does_form();
    pair_uses();
    let a = side_code(alloc, &pair.a)?;
    let e = side_code(alloc, &pair.e)?;
    let room = MarkRoom {
        words_a: a.words.len(),
        words_e: e.words.len(),
        files: names.len(),
    };
    let lines = marks_of(alloc, room, a.places.as_slice(), e.places.as_slice())?;
    Ok(Image {
        budget,
        memory: pair.a.memory,
        calls: pair.a.calls,
        private_a: 4 * a.private,
        private_e: 4 * e.private,
        entry_a: 0,
        entry_e: 0,
        code_a: a.words,
        code_e: e.words,
        content,
        lines: Items::from_vec(lines),
        names,
    })
}
