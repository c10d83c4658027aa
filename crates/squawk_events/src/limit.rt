//! The longest text.

/// The largest number of bytes of a text, so that each offset in it is a `u32`.
pub const LIMIT: u64 = 4294967295;
