// The types that are there from the start, by their numbers (C90 6.1.2.5).

/// void.
pub const VOID_ID: usize = 0;

/// char, which has no sign.
pub const CHAR_ID: usize = 1;

/// signed char.
pub const SIGNED_CHAR_ID: usize = 2;

/// unsigned char.
pub const UNSIGNED_CHAR_ID: usize = 3;

/// short and signed short.
pub const SHORT_ID: usize = 4;

/// unsigned short.
pub const UNSIGNED_SHORT_ID: usize = 5;

/// int and long.
pub const INT_ID: usize = 6;

/// unsigned int and unsigned long.
pub const UNSIGNED_ID: usize = 7;

/// The list of no parameters.
pub const NO_PARAMETERS_ID: usize = 8;
