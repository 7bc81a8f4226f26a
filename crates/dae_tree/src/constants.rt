/// The value of an integer constant, and whether its type is unsigned.
#[derive(Clone, Copy, PartialEq, Eq)]
pub struct Constant {
    pub value: u32,
    pub unsigned: bool,
}

/// The suffixes of integer constants, and whether each makes its constant unsigned (C90 6.1.3.2).
pub const SUFFIXES: [(&[u8], bool); 13] = [
    (b"", false),
    (b"u", true),
    (b"U", true),
    (b"l", false),
    (b"L", false),
    (b"ul", true),
    (b"uL", true),
    (b"Ul", true),
    (b"UL", true),
    (b"lu", true),
    (b"Lu", true),
    (b"lU", true),
    (b"LU", true),
];
