// Images: the two codes, the data and the budget of a program, and their bytes. `write` gives the one spelling of an
// image in version 2. `read` takes the bytes of version 1 or 2 and gives the image that they spell, or the first fault
// from the left: of each value, each field is in its range, so nothing above tests it again.
#![tactic(auto)]

ghost use Rattle.dae_image.specs.Contents.{Fits};

pub use body::follows;
pub use fault::{Field, ImageError};
pub use fields::FieldRange;
pub use reading::read;
pub use writing::write;

mod body;
mod fault;
mod fields;
mod header;
mod reading;
mod writing;

use dae_base::{Depths, Items, Side, Text};

/// Where code comes from: the word of a side's code and the file and line that it stands for. Files count from 0 in
/// the image's names, lines from 1.
#[derive(Clone, Copy, PartialEq, Eq)]
pub struct LineMark {
    pub side: Side,
    pub word: u32,
    pub file: u32,
    pub line: u32,
}

/// A program for the machine: what each queue has to hold, the bytes of common memory, how deep calls may nest, the
/// bytes of the two private memories, the addresses of the first instructions, the words of the two codes, the data,
/// which begin at address 16 of common memory, and where the code comes from.
#[derive(Drop)]
pub struct Image {
    pub budget: Depths,
    pub memory: u32,
    pub calls: u16,
    pub private_a: u32,
    pub private_e: u32,
    pub entry_a: u32,
    pub entry_e: u32,
    pub code_a: Items<u32>,
    pub code_e: Items<u32>,
    pub content: Items<u8>,
    pub lines: Items<LineMark>,
    pub names: Items<Text>,
    pub ghost fits: { Fits
        (record {
          budget = budget;
          memory = memory;
          calls = calls;
          private_a = private_a;
          private_e = private_e;
          entry_a = entry_a;
          entry_e = entry_e;
          code_a = code_a;
          code_e = code_e;
          content = content;
          lines = lines;
          names = names;
        }) },
}
