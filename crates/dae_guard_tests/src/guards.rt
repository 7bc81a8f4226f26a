//! The guard on pairs and certificates.

use dae_base::Depths;
use dae_guard_walk::{GuardAnswer, guard};
use dae_image::read;
use dae_rows::{bytes_of, part, told, word_in};
use std::alloc::{AllocError, Global};

fn depth_in(text: &str, at: usize) -> u16 {
    word_in(text, at).parse::<u16>().unwrap_or(0)
}

/// The depths of the queues that a text spells.
fn depths_in(text: &str) -> Depths {
    Depths {
        ld: depth_in(text, 0),
        al: depth_in(text, 1),
        sa: depth_in(text, 2),
        sd: depth_in(text, 3),
        ab: depth_in(text, 4),
        eb: depth_in(text, 5),
        cq: depth_in(text, 6),
    }
}

/// What the guard says of an image with queues of these depths and a certificate, or None where the bytes are no image.
fn answer(alloc: Global, image: &[u8], depths: Depths, certificate: &[u8]) -> Option<GuardAnswer> {
    if image.len() > 16_777_216 || certificate.len() > 1_048_576 {
        return None;
    }
    let image = read(alloc, image).ok()?;
    Some(guard(alloc, &image, depths, certificate))
}

/// What the guard says of a row's image, depths and certificate.
pub fn guarded(alloc: Global, row: &str) -> Result<String, AllocError> {
    let image = bytes_of(alloc, part(row, 2))?;
    let certificate = told(alloc, part(row, 4))?;
    let depths = depths_in(part(row, 3));
    let found = answer(alloc, image.as_slice(), depths, certificate.as_slice());
    format!(in alloc; "{found:?}")
}
