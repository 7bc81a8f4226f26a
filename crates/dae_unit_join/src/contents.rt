// What the memory holds when main is called.

ghost use Rattle.std.specs.Prelude.{◌≡◌, ◌<◌, ◌^◌, ◌-◌, OnOk, IfOk, drop, replicate, slice_get, slice_index, slice_set};
ghost use Rattle.dae_base.specs.Words.{stored};
ghost use Rattle.dae_unit_join.specs.Contents.{word_of, set_at, set_all, objects_set, files_set, literals_behind, all_behind, addresses_in, content_of};
ghost use Rattle.dae_unit.specs.Placing.{first_place};

use crate::meanings::behind;
use byteorder::{ByteOrder, LittleEndian};
use dae_base::{Items, Width};
use dae_program::{Expression, Links, Setting};
use dae_types_typed::{Datum, TypedFile};
use std::alloc::{AllocError, Global};

fn put(content: &mut [u8], at: usize, byte: u8)
    ensures { content.new ≡ slice_set content.old at byte }
{
    if at < content.len() {
        content[at] = byte;
    }
}

fn store(content: &mut [u8], width: Width, at: usize, word: u32)
    requires { at < 2 ^ 34 }
    ensures { content.new ≡ stored width at word content.old }
{
    let mut bytes = [0; 4];
    LittleEndian::write_u32(&mut bytes, word);
    let [first, second, third, fourth] = bytes;
    put(content, at, first);
    match width {
        Width::B1 => {}
        Width::B2 => put(content, at + 1, second),
        Width::B4 => {
            put(content, at + 1, second);
            put(content, at + 1 + 1, third);
            put(content, at + 1 + 1 + 1, fourth);
        }
    }
}

fn place_at(addresses: &[u32], number: usize) -> u32
    ensures { result ≡ slice_index addresses.now number }
{
    match addresses.get(number) {
        Some(address) => *address,
        None => 0,
    }
}

fn word_of(addresses: &[u32], value: &Expression) -> u32
    ensures { result ≡ word_of addresses.now value.now }
{
    match value {
        Expression::Number(word) => *word,
        Expression::Address(object, offset) => {
            place_at(addresses, *object as usize).wrapping_add(*offset)
        }
        _ => 0,
    }
}

fn set_at(content: &mut [u8], addresses: &[u32], start: u32, setting: &Setting)
    ensures { content.new ≡ set_at addresses.now start content.old setting.now }
{
    let place = start as usize + setting.offset as usize;
    let word = word_of(addresses, &setting.value);
    store(content, setting.width, place.saturating_sub(16), word);
}

fn set_all(content: &mut [u8], addresses: &[u32], start: u32, settings: &[Setting])
    ensures { content.new ≡ set_all addresses.now start content.old settings.now }
{
    for setting in settings {
        set_at(content, addresses, start, setting);
    }
}

fn set_objects(content: &mut [u8], addresses: &[u32], literals: usize, contents: &[Datum])
    ensures { content.new ≡ objects_set addresses.now literals content.old contents.now }
{
    let objects = behind(addresses, literals);
    for datum in contents {
        let start = place_at(objects, datum.object);
        set_all(content, addresses, start, datum.settings.as_slice());
    }
}

fn push_literals(content: &mut Vec<u8>, literals: &[Items<u8>]) -> Result<(), AllocError>
    ensures { OnOk result (content.new.items ≡ literals_behind content.old.items literals.now) }
{
    for literal in literals {
        content.extend_from_slice(literal.as_slice())?;
        content.push(0)?;
    }
    Ok(())
}

fn addresses_in(links: &[Links], file: usize) -> &[u32]
    ensures { result.now ≡ addresses_in (slice_get links.now file) }
{
    match links.get(file) {
        Some(links) => links.addresses.as_slice(),
        None => &[],
    }
}

fn set_files(content: &mut [u8], files: &[TypedFile], links: &[Links])
    ensures { content.new ≡ files_set links.now content.old 0 files.now }
{
    for (number, file) in files.iter().enumerate() {
        let parts = file.parts();
        let literals = parts.literals.len();
        set_objects(
            content,
            addresses_in(links, number),
            literals,
            parts.contents.as_slice(),
        );
    }
}

fn push_all(content: &mut Vec<u8>, files: &[TypedFile]) -> Result<(), AllocError>
    ensures { OnOk result (content.new.items ≡ all_behind content.old.items files.now) }
{
    for file in files {
        push_literals(content, file.parts().literals.as_slice())?;
    }
    Ok(())
}

/// What the memory holds from address 16 on, where the objects end at an address.
pub fn content_of(
    alloc: Global,
    files: &[TypedFile],
    links: &[Links],
    objects_end: u64,
) -> Result<Vec<u8>, AllocError>
    ensures { IfOk result (λ content. content.items ≡ content_of files.now links.now objects_end) }
{
    let mut content = vec![in alloc; 0; objects_end.saturating_sub(16) as usize]?;
    set_files(content.as_mut_slice(), files, links);
    push_all(&mut content, files)?;
    Ok(content)
}
