//! Images from bytes.

ghost use Rattle.std.specs.Prelude.{◌≡◌, ◌≤◌, ℕ, length, IfOk};
ghost use Rattle.dae_image.specs.declared.Image.{Image};
ghost use Rattle.dae_image.specs.Contents.{ImageContents, HeaderFits};
ghost use Rattle.dae_image.specs.Spelling.{Spells};
ghost use Rattle.dae_image.specs.Reading.{Gives, body_at, image_at};
ghost use Rattle.dae_image.specs.Images.{contents, HasHeader, IsOrMemory, IsSpelledBefore};

use crate::Image;
use crate::body::{code, content, lines, names};
use crate::fault::ImageError;
use crate::fields::offset_of;
use crate::header::{ImageHeader, header_of};
use std::alloc::Global;

/// An image with this header.
#[tactic(auto, unfolding(crate::specs::Reading::body_at))]
fn body<'a>(
    alloc: Global,
    whole: u32,
    header: ImageHeader,
    bytes: &'a [u8],
) -> Result<(Image, &'a [u8]), ImageError>
    requires { HeaderFits header }
    ensures { Gives (λ x. (contents x.0, x.1.now)) result (body_at whole header bytes.now) }
{
    let (code_a, rest) = code(alloc, whole, header.words_a, bytes)?;
    let (code_e, rest) = code(alloc, whole, header.words_e, rest)?;
    let (content, rest) = content(alloc, whole, header.content, rest)?;
    let (lines, rest) = lines(alloc, whole, &header, rest)?;
    let (names, rest) = names(alloc, whole, header.names, rest)?;
    let image = Image {
        budget: header.budget,
        memory: header.memory,
        calls: header.calls,
        private_a: header.private_a,
        private_e: header.private_e,
        entry_a: header.entry_a,
        entry_e: header.entry_e,
        code_a,
        code_e,
        content,
        lines,
        names,
    };
    Ok((image, rest))
}

#[tactic(auto, unfolding(crate::specs::Reading::image_at))]
fn all(alloc: Global, bytes: &[u8]) -> Result<Image, ImageError>
    requires { length bytes.now ≤ 536870912 }
    ensures gives { Gives contents result (image_at bytes.now) }
    ensures memory { result ≡ Err ImageError.Memory → HasHeader bytes.now }
{
    let whole = bytes.len() as u32;
    let (header, rest) = header_of(whole, bytes)?;
    let (image, rest) = body(alloc, whole, header, rest)?;
    if !rest.is_empty() {
        return Err(ImageError::Trailing(offset_of(whole, rest)));
    }
    Ok(image)
}

/// The image that the bytes spell, in version 1 or 2: all of the bytes. Else the first fault from the left. The bytes
/// number at most 2 to the power of 29, which is more than the longest image has.
pub fn read(alloc: Global, bytes: &[u8]) -> Result<Image, ImageError>
    requires { length bytes.now ≤ 536870912 }

    // What is read is spelled so.
    ensures found { IfOk result (λ image. Spells bytes.now (contents image)) }

    // What is spelled so is read, unless memory runs out.
    ensures only { (image : Image) → Spells bytes.now (contents image) → IsOrMemory image result }

    // Which fault it is.
    ensures exact { Gives contents result (image_at bytes.now) }

    // Memory is taken, and may be wanting, only behind a good header.
    ensures memory { result ≡ Err ImageError.Memory → HasHeader bytes.now }

    // A fault of too few bytes tells their number, and one of too many where an image ends.
    ensures short { (n : ℕ) → result ≡ Err (ImageError.Short n) → n ≡ length bytes.now }
    ensures trailing { (n : ℕ) → result ≡ Err (ImageError.Trailing n)
        → IsSpelledBefore n bytes.now }
    ensures only_trailing { (n : ℕ) → IsSpelledBefore n bytes.now
        → Gives contents result (Err (ImageError.Trailing n)) }
{
    all(alloc, bytes)
}
