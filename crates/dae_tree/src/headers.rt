/// The two headers of the standard library that a text may include.
#[derive(Clone, Copy, PartialEq, Eq)]
pub enum Header {
    Stdio,
    Stdlib,
}

/// The names of the headers, as they stand before `.h`.
pub const HEADERS: [(&[u8], Header); 2] = [(b"stdio", Header::Stdio), (b"stdlib", Header::Stdlib)];

/// The macros of `<stdio.h>` (C90 7.9.1).
pub const STDIO_MACROS: [(&[u8], &[u8]); 1] = [(b"NULL", b"0")];

/// The macros of `<stdlib.h>` (C90 7.10).
pub const STDLIB_MACROS: [(&[u8], &[u8]); 3] = [
    (b"EXIT_SUCCESS", b"0"),
    (b"EXIT_FAILURE", b"1"),
    (b"NULL", b"0"),
];
