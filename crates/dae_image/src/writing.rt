//! Bytes from images.

ghost use Rattle.std.specs.Prelude.{◌≡◌, ◌<◌, ◌^◌, ◌++◌, length, OnOk, IfOk, IsTrue};
ghost use Rattle.std.specs.List.{flat_map, list_all};
ghost use Rattle.dae_image.specs.Contents.{header, is_name};
ghost use Rattle.dae_image.specs.Spelling.{numbers, side_number, line, name, head_2, spelling_2};
ghost use Rattle.dae_image.specs.Images.{contents};

use crate::header::MAGIC;
use crate::{Image, LineMark};
use dae_base::{Side, Text};
use std::alloc::{AllocError, Global};

fn put_numbers(out: &mut Vec<u8>, words: &[u32]) -> Result<(), AllocError>
    ensures { OnOk result (out.new.items ≡ out.old.items ++ numbers words.now) }
{
    for word in words {
        out.extend_from_slice(&word.to_le_bytes())?;
    }
    Ok(())
}

fn put_head(out: &mut Vec<u8>, image: &Image) -> Result<(), AllocError>
    ensures { OnOk result
        (out.new.items ≡ out.old.items ++ numbers (head_2 (header (contents image.now)))) }
{
    put_numbers(
        out,
        &[
            MAGIC,
            2,
            image.budget.ld as u32,
            image.budget.al as u32,
            image.budget.sa as u32,
            image.budget.sd as u32,
            image.budget.ab as u32,
            image.budget.eb as u32,
            image.budget.cq as u32,
            image.memory,
            image.calls as u32,
            image.private_a,
            image.private_e,
            image.entry_a,
            image.entry_e,
            image.code_a.len() as u32,
            image.code_e.len() as u32,
            image.content.len() as u32,
            image.lines.len() as u32,
            image.names.len() as u32,
        ],
    )
}

fn number_of(side: Side) -> u32
    ensures { result ≡ side_number side }
{
    match side {
        Side::A => 0,
        Side::E => 1,
    }
}

fn put_lines(out: &mut Vec<u8>, lines: &[LineMark]) -> Result<(), AllocError>
    ensures { OnOk result (out.new.items ≡ out.old.items ++ flat_map line lines.now) }
{
    for mark in lines {
        let side = number_of(mark.side);
        put_numbers(out, &[side, mark.word, mark.file, mark.line])?;
    }
    Ok(())
}

fn put_name(out: &mut Vec<u8>, text: &str) -> Result<(), AllocError>
    requires { length text.now < 2 ^ 32 }
    ensures { OnOk result (out.new.items ≡ out.old.items ++ name text.now) }
{
    out.extend_from_slice(&(text.len() as u32).to_le_bytes())?;
    out.extend_from_slice(text.as_bytes())
}

fn put_names(out: &mut Vec<u8>, names: &[Text]) -> Result<(), AllocError>
    requires { IsTrue (list_all is_name names.now) }
    ensures { OnOk result (out.new.items ≡ out.old.items ++ flat_map name names.now) }
{
    for text in names {
        put_name(out, text.as_str())?;
    }
    Ok(())
}

/// The spelling of an image in version 2.
pub fn write(alloc: Global, image: &Image) -> Result<Vec<u8>, AllocError>
    ensures { IfOk result (λ v. v.items ≡ spelling_2 (contents image.now)) }
{
    let mut out = Vec::new(alloc);
    put_head(&mut out, image)?;
    put_numbers(&mut out, image.code_a.as_slice())?;
    put_numbers(&mut out, image.code_e.as_slice())?;
    out.extend_from_slice(image.content.as_slice())?;
    put_lines(&mut out, image.lines.as_slice())?;
    put_names(&mut out, image.names.as_slice())?;
    Ok(out)
}
