//! Worked images, and each field just inside and just outside its range.

ghost use Rattle.std.specs.Prelude.{◌≤◌, length};

use dae_image::ImageError::Short;
use dae_image::{Image, ImageError, read, write};
use dae_rows::{bytes_of, number, part, word_in};
use std::alloc::{AllocError, Global};
use std::process::Abort;
use std::test::Fail;

/// Version 1: the access processor halts, and the execute processor has a word that is no legal instruction there.
const HALTS: &str = "\
    44414531010000000000000000000000000000000000000000000000000000004000000001000000000000000000\
    0000000000000000000001000000010000000000000000000000000000007300000093020f00";

/// Version 1: a store to address 16 of one more than the word at address 20, which is loaded beside it.
const ADDS: &str = "\
    44414531010000000100000000000000010000000100000000000000000000004000000001000000000000000000\
    0000000000000000000003000000030000000800000000000000000000002328e001032f40017300000013050f00\
    130f1500730000000000000007000000";

/// The same, but the load is of the bytes that the older store is to write, whose datum comes from that load.
const THERE: &str = "\
    44414531010000000100000000000000010000000100000000000000000000004000000001000000000000000000\
    0000000000000000000003000000030000000800000000000000000000002328e001032f00017300000013050f00\
    130f1500730000000000000007000000";

/// Version 2: a copy of 9 from the access processor is the status.
const COPIES: &str = "\
    44414531020000000000000000000000000000000000000000000000000000000100000040000000010000000000\
    00000000000000000000000000000200000002000000000000000000000000000000130e90007300000013050e00\
    73000000";

/// Version 2: three line marks, from 112 on, and two names, at 160 and 167.
const MARKED: &str = "\
    44414531020000000100000000000000010000000100000000000000000000000000000040000000010000000000\
    000000000000000000000000000003000000030000000800000003000000020000002328e001032f400173000000\
    13050f00130f15007300000000000000070000000000000000000000000000000300000000000000020000000000\
    0000040000000100000001000000010000000700000003000000612e6302000000c3a9";

/// An image by its name, in hexadecimal.
fn image_named(name: &str) -> &'static str {
    match name {
        "halts" => HALTS,
        "adds" => ADDS,
        "there" => THERE,
        "copies" => COPIES,
        "marked" => MARKED,
        _ => "",
    }
}

/// Puts a number into four bytes.
fn put_number(bytes: &mut [u8], at: usize, number: u32) {
    for (place, byte) in bytes.iter_mut().skip(at).zip(number.to_le_bytes()) {
        *place = byte;
    }
}

/// The bytes of a name, where a change is an offset and the number that is put there, or nothing.
fn bytes_in(alloc: Global, name: &str, change: &str) -> Result<Vec<u8>, AllocError> {
    let mut bytes = bytes_of(alloc, image_named(name))?;
    if !change.is_empty() {
        let at = number(word_in(change, 0)) as usize;
        put_number(bytes.as_mut_slice(), at, number(word_in(change, 1)));
    }
    Ok(bytes)
}

/// The image of a name, with its change.
pub fn image_in(
    rt: &impl Abort,
    alloc: Global,
    name: &str,
    change: &str,
) -> Result<Box<Image>, Fail> {
    let bytes = bytes_in(alloc, name, change)?;
    assert!(rt; bytes.len() <= 1000);
    let image = read(alloc, bytes.as_slice())?;
    Ok(Box::new(alloc, image)?)
}

fn fault_of(alloc: Global, bytes: &[u8]) -> Option<ImageError>
    requires { length bytes.now ≤ 1000 }
{
    read(alloc, bytes).err()
}

/// What is found of a row's bytes.
pub fn fault_told(rt: &impl Abort, alloc: Global, row: &str) -> Result<String, AllocError> {
    let bytes = bytes_in(alloc, part(row, 2), part(row, 3))?;
    assert!(rt; bytes.len() <= 1000);
    let found = fault_of(alloc, bytes.as_slice());
    format!(in alloc; "{found:?}")
}

/// How many starts of the bytes are too short at their length.
fn short_starts(alloc: Global, bytes: &[u8]) -> usize
    requires { length bytes.now ≤ 1000 }
{
    let mut count: usize = 0;
    for k in 0..bytes.len() {
        if fault_of(alloc, &bytes[..k]) == Some(Short(k as u32)) {
            count = count.saturating_add(1);
        }
    }
    count
}

/// How many starts of a row's bytes are too short.
pub fn starts_told(rt: &impl Abort, alloc: Global, row: &str) -> Result<String, AllocError> {
    let bytes = bytes_in(alloc, part(row, 2), "")?;
    assert!(rt; bytes.len() <= 1000);
    let count = short_starts(alloc, bytes.as_slice());
    format!(in alloc; "{count}")
}

/// What is found of a row's bytes with one more.
pub fn longer_told(rt: &impl Abort, alloc: Global, row: &str) -> Result<String, AllocError> {
    let mut bytes = bytes_in(alloc, part(row, 2), "")?;
    bytes.push(0)?;
    assert!(rt; bytes.len() <= 1000);
    let found = fault_of(alloc, bytes.as_slice());
    format!(in alloc; "{found:?}")
}

/// How a row's image is written.
pub fn writing_told(rt: &impl Abort, alloc: Global, row: &str) -> Result<String, Fail> {
    let image = image_in(rt, alloc, part(row, 2), part(row, 3))?;
    let written = write(alloc, &image)?;
    Ok(hex::encode(alloc, written.as_slice())?)
}

/// The parts of an image: its memory, its room for copies, how many marks and names it has, both codes and the data.
fn parts_of(alloc: Global, image: &Image) -> Result<String, AllocError> {
    let (memory, copies) = (image.memory, image.budget.cq);
    let (lines, names) = (image.lines.len(), image.names.len());
    let (a, e) = (image.code_a.as_slice(), image.code_e.as_slice());
    let content = image.content.as_slice();
    format!(in alloc; "{memory} {copies} {lines} {names} {a:?} {e:?} {content:?}")
}

/// The parts of a row's image.
pub fn parts_told(rt: &impl Abort, alloc: Global, row: &str) -> Result<String, Fail> {
    let image = image_in(rt, alloc, part(row, 2), part(row, 3))?;
    Ok(parts_of(alloc, &image)?)
}
