//! The statuses of the calls. Those below 12 are the statuses of the program for the same causes.

// All was done.
pub(crate) const OK: u32 = 0;

// An argument has a value that it may not have.
pub(crate) const BAD_ARGUMENT: u32 = 2;

// The bytes are not UTF-8.
pub(crate) const NOT_UTF8: u32 = 4;

// The text has more than 4294967295 bytes.
pub(crate) const TOO_LONG: u32 = 5;

// There is not enough memory.
pub(crate) const OUT_OF_MEMORY: u32 = 6;

// An array has too little room.
pub(crate) const ARRAY_TOO_SMALL: u32 = 12;
