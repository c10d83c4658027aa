//! The bytes of a record's form.

pub(crate) const AT_SIGN: u8 = b'@';

pub(crate) const SPACE: u8 = b' ';

pub(crate) const LINE_FEED: u8 = b'\n';

// The most digits of a number.
pub(crate) const MAX_DIGITS: usize = 10;
