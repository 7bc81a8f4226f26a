/// The letters and signs that stand behind a backslash, and the byte that each escape is (C90 6.1.3.4 and 5.2.2).
pub const ESCAPES: [(u8, u8); 11] = [
    (b'\'', b'\''),
    (b'"', b'"'),
    (b'?', b'?'),
    (b'\\', b'\\'),
    (b'a', 7),
    (b'b', 8),
    (b'f', 12),
    (b'n', b'\n'),
    (b'r', b'\r'),
    (b't', b'\t'),
    (b'v', 11),
];
