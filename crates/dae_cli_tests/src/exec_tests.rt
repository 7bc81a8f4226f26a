//! The run of images: worked images under every schedule, damaged ones, and random ones.

use crate::calls::{check_answer, schedules, shelf_of};
use crate::images::IMAGES;
use crate::parts::{number_in, status_in, told};
use dae_io::MemShelf;
use dae_rows::{bytes_of, part};
use std::alloc::{AllocError, Global};
use std::process::Abort;

/// The access processor halts, and the execute processor waits for a load that never comes.
const HALTS: &[u8] =
    b"DAE1\x01\0\0\0\0\0\0\0\0\0\0\0\0\0\0\0\0\0\0\0\0\0\0\0\0\0\0\0@\0\0\0\x01\0\0\0\0\0\0\0\0\0\0\0\0\0\0\0\0\0\0\0\x01\0\0\0\x01\0\0\0\0\0\0\0\0\0\0\0\0\0\0\0s\0\0\0\x93\x02\x0f\0";

/// A store to address 16, whose datum is one more than the word at address 20, which is loaded behind it.
const STORES_BESIDE: &[u8] =
    b"DAE1\x01\0\0\0\x01\0\0\0\0\0\0\0\x01\0\0\0\x01\0\0\0\0\0\0\0\0\0\0\0@\0\0\0\x01\0\0\0\0\0\0\0\0\0\0\0\0\0\0\0\0\0\0\0\x03\0\0\0\x03\0\0\0\x08\0\0\0\0\0\0\0\0\0\0\0#(\xe0\x01\x03/@\x01s\0\0\0\x13\x05\x0f\0\x13\x0f\x15\0s\0\0\0\0\0\0\0\x07\0\0\0";

/// The same, but the load is of the bytes that the store is to write.
const STORES_THERE: &[u8] =
    b"DAE1\x01\0\0\0\x01\0\0\0\0\0\0\0\x01\0\0\0\x01\0\0\0\0\0\0\0\0\0\0\0@\0\0\0\x01\0\0\0\0\0\0\0\0\0\0\0\0\0\0\0\0\0\0\0\x03\0\0\0\x03\0\0\0\x08\0\0\0\0\0\0\0\0\0\0\0#(\xe0\x01\x03/\0\x01s\0\0\0\x13\x05\x0f\0\x13\x0f\x15\0s\0\0\0\0\0\0\0\x07\0\0\0";

/// A copy of 9 from the access processor is the status.
const COPIES: &[u8] =
    b"DAE1\x02\0\0\0\0\0\0\0\0\0\0\0\0\0\0\0\0\0\0\0\0\0\0\0\0\0\0\0\x01\0\0\0@\0\0\0\x01\0\0\0\0\0\0\0\0\0\0\0\0\0\0\0\0\0\0\0\x02\0\0\0\x02\0\0\0\0\0\0\0\0\0\0\0\0\0\0\0\x13\x0e\x90\0s\0\0\0\x13\x05\x0e\0s\0\0\0";

/// The image with this name in the tables.
fn bytes_named(name: &str) -> &'static [u8] {
    match name {
        "halts" => HALTS,
        "beside" => STORES_BESIDE,
        "there" => STORES_THERE,
        _ => COPIES,
    }
}

/// What is answered for the image on the shelf under a schedule, with options behind it.
fn check_exec(
    rt: &impl Abort,
    alloc: Global,
    shelf: &mut MemShelf,
    options: (&str, &str),
    due: (u8, &[u8], &[u8]),
) -> Result<(), AllocError> {
    let (schedule, others) = options;
    let words = format!(in alloc; "exec {schedule} {others} p")?;
    check_answer(rt, alloc, words.as_str(), shelf, due)
}

/// Images with their options, the status and what is noted.
const WORKED: &str = "\
halts||9|budget ld 0 al 0 sa 0 sd 0 ab 0 eb 0 cq 0`stuck A halted, E waits ld`steps 1`\n\
beside|--show=16,8|0|budget ld 1 al 0 sa 1 sd 1 ab 0 eb 0 cq 0`ended 7`steps 8`memory 16: 08 00 00 00 07 00 00 00`\n\
beside|--steps=1000000000000 --ld=1 --al=1 --sa=1 --sd=1|0|budget ld 1 al 0 sa 1 sd 1 ab 0 eb 0 cq 0`ended 7`steps 8`\n\
there||9|budget ld 1 al 0 sa 1 sd 1 ab 0 eb 0 cq 0`stuck A halted, E waits ld`steps 3`\n\
copies||0|budget ld 0 al 0 sa 0 sd 0 ab 0 eb 0 cq 1`ended 9`steps 4`";

/// The row's answer under each schedule.
fn check_schedules(
    rt: &impl Abort,
    alloc: Global,
    shelf: &mut MemShelf,
    options: &str,
    due: (u8, &[u8], &[u8]),
) -> Result<(), AllocError> {
    for schedule in schedules() {
        check_exec(rt, alloc, shelf, (*schedule, options), due)?;
    }
    Ok(())
}

fn check_worked(rt: &impl Abort, alloc: Global, row: &str) -> Result<(), AllocError> {
    let mut shelf = shelf_of(alloc, "p", bytes_named(part(row, 0)))?;
    let note = told(alloc, part(row, 3))?;
    let due: (u8, &[u8], &[u8]) = (status_in(row, 2), b"", note.as_slice());
    check_schedules(rt, alloc, &mut shelf, part(row, 1), due)
}

fn check_all_worked(rt: &impl Abort, alloc: Global, rows: &str) -> Result<(), AllocError> {
    for row in rows.lines() {
        check_worked(rt, alloc, row)?;
    }
    Ok(())
}

#[test]
fn worked_images_answer_alike_under_every_schedule(rt: HostRuntime) -> Result<(), AllocError> {
    check_all_worked(&rt, rt.alloc(), WORKED)
}

/// The bytes of an image under the name `p` are answered by this status and note.
fn check_bytes(
    rt: &impl Abort,
    alloc: Global,
    bytes: &[u8],
    status: u8,
    note: &[u8],
) -> Result<(), AllocError> {
    let mut shelf = shelf_of(alloc, "p", bytes)?;
    check_exec(
        rt,
        alloc,
        &mut shelf,
        ("--schedule=round", ""),
        (status, b"", note),
    )
}

/// Images, a place in each, the number of four bytes that is put there, and the status and the note that are due.
const CHANGED: &str = "\
beside|0|826622208|8|image field magic 0`\n\
beside|4|3|8|image field version 4`\n\
beside|32|65|8|image field memory 32`\n\
beside|48|2|8|image field entry-a 48`\n\
beside|56|0|8|image field words-a 56`\n\
beside|68|300000|8|image field line-count 68`\n\
halts|80|4294967295|9|budget ld 0 al 0 sa 0 sd 0 ab 0 eb 0 cq 0`stuck A halted, E fault illegal`steps 1`\n\
copies|32|0|9|budget ld 0 al 0 sa 0 sd 0 ab 0 eb 0 cq 0`stuck A fault illegal, E fault illegal`steps 0`\n\
beside|8|9|4|budget ld 9 al 0 sa 1 sd 1 ab 0 eb 0 cq 0`depth ld needs 9 has 8`";

/// Puts the number into four bytes of the image.
fn put_number(bytes: &mut [u8], at: usize, number: u32) {
    for (place, byte) in bytes.iter_mut().skip(at).zip(number.to_le_bytes()) {
        *place = byte;
    }
}

/// The image of a row with its number put in its place.
fn changed(alloc: Global, row: &str) -> Result<Vec<u8>, AllocError> {
    let mut bytes = Vec::from_slice(alloc, bytes_named(part(row, 0)))?;
    let at = number_in(row, 1);
    let number = part(row, 2).parse::<u32>().unwrap_or(0);
    put_number(bytes.as_mut_slice(), at, number);
    Ok(bytes)
}

fn check_changed(rt: &impl Abort, alloc: Global, row: &str) -> Result<(), AllocError> {
    let bytes = changed(alloc, row)?;
    let note = told(alloc, part(row, 4))?;
    check_bytes(
        rt,
        alloc,
        bytes.as_slice(),
        status_in(row, 3),
        note.as_slice(),
    )
}

fn check_all_changed(rt: &impl Abort, alloc: Global, rows: &str) -> Result<(), AllocError> {
    for row in rows.lines() {
        check_changed(rt, alloc, row)?;
    }
    Ok(())
}

#[test]
fn changed_images_are_refused_or_stuck(rt: HostRuntime) -> Result<(), AllocError> {
    check_all_changed(&rt, rt.alloc(), CHANGED)
}

#[test]
fn a_run_of_three_steps_goes_on(rt: HostRuntime) -> Result<(), AllocError> {
    let mut shelf = shelf_of(rt.alloc(), "p", STORES_BESIDE)?;
    let due: (u8, &[u8], &[u8]) = (
        3,
        b"",
        b"budget ld 1 al 0 sa 1 sd 1 ab 0 eb 0 cq 0\nrunning\nsteps 3\n",
    );
    check_exec(
        &rt,
        rt.alloc(),
        &mut shelf,
        ("--schedule=a", "--steps=3"),
        due,
    )
}

/// The image is too short with this length.
fn check_length(
    rt: &impl Abort,
    alloc: Global,
    image: &[u8],
    length: usize,
) -> Result<(), AllocError> {
    let note = format!(in alloc; "image short {length}\n")?;
    let bytes = image.get(..length).unwrap_or(image);
    check_bytes(rt, alloc, bytes, 8, note.as_bytes())
}

/// Each part of the image that begins it is too short.
fn check_lengths(
    rt: &impl Abort,
    alloc: Global,
    image: &[u8],
    whole: usize,
) -> Result<(), AllocError> {
    for length in 0..whole {
        check_length(rt, alloc, image, length)?;
    }
    Ok(())
}

/// With a byte more the image, of so many bytes, is too long.
fn check_longer(
    rt: &impl Abort,
    alloc: Global,
    image: &[u8],
    whole: usize,
) -> Result<(), AllocError> {
    let note = format!(in alloc; "image trailing {whole}\n")?;
    let mut longer = Vec::from_slice(alloc, image)?;
    longer.push(0)?;
    check_bytes(rt, alloc, longer.as_slice(), 8, note.as_bytes())
}

#[test]
fn images_of_other_lengths_are_refused(rt: HostRuntime) -> Result<(), AllocError> {
    check_lengths(&rt, rt.alloc(), HALTS, 84)?;
    check_longer(&rt, rt.alloc(), HALTS, 84)?;
    check_lengths(&rt, rt.alloc(), STORES_BESIDE, 108)?;
    check_longer(&rt, rt.alloc(), STORES_BESIDE, 108)?;
    check_lengths(&rt, rt.alloc(), COPIES, 96)?;
    check_longer(&rt, rt.alloc(), COPIES, 96)
}

/// The answer of a line for this schedule, or else for all: a status, the output and the note.
fn answer_in(line: &str, at: usize) -> &str {
    match line.split(';').nth(at) {
        Some(answer) => answer,
        None => line.split(';').nth(1).unwrap_or(""),
    }
}

/// The image on the shelf is answered so under a schedule.
fn check_told(
    rt: &impl Abort,
    alloc: Global,
    shelf: &mut MemShelf,
    options: (&str, &str),
    answer: &str,
) -> Result<(), AllocError> {
    let mut parts = answer.split(' ');
    let status = parts.next().unwrap_or("").parse::<u8>().unwrap_or(255);
    let out = bytes_of(alloc, parts.next().unwrap_or(""))?;
    let note = bytes_of(alloc, parts.next().unwrap_or(""))?;
    check_exec(
        rt,
        alloc,
        shelf,
        options,
        (status, out.as_slice(), note.as_slice()),
    )
}

/// The image on the shelf, with these options, is answered as a line of the table says.
fn check_image(
    rt: &impl Abort,
    alloc: Global,
    shelf: &mut MemShelf,
    options: &str,
    line: &str,
) -> Result<(), AllocError> {
    for (schedule, at) in schedules().iter().zip(1..8) {
        check_told(rt, alloc, shelf, (*schedule, options), answer_in(line, at))?;
    }
    Ok(())
}

fn check_line(rt: &impl Abort, alloc: Global, line: &str) -> Result<(), AllocError> {
    let head = line.split(';').next().unwrap_or("");
    let (image, options) = head.split_once(' ').unwrap_or((head, ""));
    let bytes = bytes_of(alloc, image)?;
    let mut shelf = shelf_of(alloc, "p", bytes.as_slice())?;
    check_image(rt, alloc, &mut shelf, options, line)
}

fn check_all_lines(rt: &impl Abort, alloc: Global, lines: &str) -> Result<(), AllocError> {
    for line in lines.lines() {
        check_line(rt, alloc, line)?;
    }
    Ok(())
}

#[test]
fn random_images_answer_as_elsewhere(rt: HostRuntime) -> Result<(), AllocError> {
    check_all_lines(&rt, rt.alloc(), IMAGES)
}
