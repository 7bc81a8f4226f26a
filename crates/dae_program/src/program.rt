// Functions and whole programs.

use crate::statements::Statement;
use dae_base::{Items, Place, Text, Width};

/// Where a parameter stands in the frame, in bytes, and how wide it is.
#[derive(Clone, Copy, PartialEq, Eq)]
pub struct FrameSlot {
    pub offset: u32,
    pub width: Width,
}

/// A function with a definition. Its variables are numbered from 0: variable 0 holds what it returns, the parameters
/// follow from 1 on, and then the other scalars whose address isn't taken. A parameter with a slot is stored there at the
/// entry. The frame is in bytes, and the file says which links are meant.
#[derive(Drop)]
pub struct Function {
    pub name: Text,
    pub place: Place,
    pub file: u32,
    pub parameters: Items<Option<FrameSlot>>,
    pub variables: u32,
    pub frame: u64,
    pub body: Items<Statement>,
}

/// What a file's numbers mean: the addresses of its objects with static storage, and the program's number of each function
/// that it can call.
#[derive(Drop)]
pub struct Links {
    pub addresses: Items<u32>,
    pub functions: Items<u32>,
}

ghost use Rattle.std.specs.Prelude.{◌≡◌, true};
ghost use Rattle.dae_program.specs.Lawful.{is_lawful};

/// A whole program: the size of common memory, its content from address 16 on, where frames begin, the links of each file,
/// the functions, and the number of main among them. What lowers it may rely on its ghost field: variables are below their
/// number, nobody calls main, which has no parameters, and objects and frames are well placed.
#[derive(Drop)]
pub struct Program {
    pub memory: u32,
    pub content: Items<u8>,
    pub frames: u32,
    pub links: Items<Links>,
    pub functions: Items<Function>,
    pub main: u32,
    pub ghost lawful: { is_lawful memory frames content links functions main ≡ true },
}
