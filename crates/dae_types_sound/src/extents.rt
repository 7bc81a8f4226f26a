// What a function's body may name, and which jumps may stand in it.

use dae_base::Items;
use dae_types_kinds::Layout;

/// How many variables a function has, and how many bytes its frame.
#[derive(Clone, Copy)]
pub struct FunctionExtent {
    pub variables: u32,
    pub frame: u64,
}

/// What the bodies of a file may name: how many literals come before its objects, the layout of each object that the file
/// uses, and the number of parameters of each function that it uses.
#[derive(Drop)]
pub struct FileNames {
    pub literals: usize,
    pub objects: Items<Option<Layout>>,
    pub functions: Items<Option<usize>>,
}

/// Whether a break, a continue or a return may stand where a statement stands (C90 6.6.6).
#[derive(Clone, Copy)]
pub struct Jumps {
    pub breaks: bool,
    pub continues: bool,
    pub returns: bool,
}
