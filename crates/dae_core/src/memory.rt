// Loads and stores of 1, 2 and 4 bytes of a memory, little-endian.

ghost use Rattle.std.specs.Prelude.{◌≡◌, ◌<◌, ◌^◌, slice_index, slice_set};
ghost use Rattle.dae_base.specs.Words.{bytes_at, loaded, stored, written};

use byteorder::{ByteOrder, LittleEndian};
use dae_base::{LoadKind, Width, extend};

fn byte(memory: &[u8], at: usize) -> u8
    ensures { result ≡ slice_index memory.now at }
{
    memory.get(at).copied().unwrap_or(0)
}

// Four bytes from a place on, which are tested once where none of them is past the end.
fn four_bytes(memory: &[u8], at: usize) -> [u8; 4]
    requires { at < 2 ^ 32 }
    ensures { result ≡ bytes_at 4 at memory.now }
{
    if at + 1 + 1 + 1 < memory.len() {
        [
            memory[at],
            memory[at + 1],
            memory[at + 1 + 1],
            memory[at + 1 + 1 + 1],
        ]
    } else {
        [
            byte(memory, at),
            byte(memory, at + 1),
            byte(memory, at + 1 + 1),
            byte(memory, at + 1 + 1 + 1),
        ]
    }
}

/// The word that a load finds at a byte address, where bytes past the end read zero. Memory is little-endian.
pub fn load(memory: &[u8], kind: LoadKind, addr: u32) -> u32
    ensures { result ≡ loaded kind addr memory.now }
{
    let at = addr as usize;
    let first = byte(memory, at);
    let bytes = match kind.width() {
        Width::B1 => [first, 0, 0, 0],
        Width::B2 => [first, byte(memory, at + 1), 0, 0],
        Width::B4 => four_bytes(memory, at),
    };
    extend(kind, LittleEndian::read_u32(&bytes))
}

fn put(memory: &mut [u8], at: usize, byte: u8)
    ensures { memory.new ≡ slice_set memory.old at byte }
{
    if at < memory.len() {
        memory[at] = byte;
    }
}

// Writes four bytes from a place on, which are tested once where none of them is past the end.
fn put_four(memory: &mut [u8], at: usize, bytes: [u8; 4])
    requires { at < 2 ^ 32 }
    ensures { memory.new ≡ written at bytes memory.old }
{
    let [first, second, third, fourth] = bytes;
    if at + 1 + 1 + 1 < memory.len() {
        memory[at] = first;
        memory[at + 1] = second;
        memory[at + 1 + 1] = third;
        memory[at + 1 + 1 + 1] = fourth;
    } else {
        put(memory, at, first);
        put(memory, at + 1, second);
        put(memory, at + 1 + 1, third);
        put(memory, at + 1 + 1 + 1, fourth);
    }
}

/// Writes the low bytes of a word at a byte address, lowest first. Bytes past the end are dropped.
pub fn store(memory: &mut [u8], width: Width, addr: u32, word: u32)
    ensures { memory.new ≡ stored width addr word memory.old }
{
    let at = addr as usize;
    let mut bytes = [0; 4];
    LittleEndian::write_u32(&mut bytes, word);
    match width {
        Width::B1 => put(memory, at, bytes[0]),
        Width::B2 => {
            put(memory, at, bytes[0]);
            put(memory, at + 1, bytes[1]);
        }
        Width::B4 => put_four(memory, at, bytes),
    }
}
