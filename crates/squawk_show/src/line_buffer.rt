//! A short line in a buffer of fixed size.
ghost use Rattle.std.specs.Prelude.{◌≡◌, ◌≤◌, ◌+◌, ◌++◌, [], ◌^◌, ◌<◌, length, decimal};

use itoa::write_digits;
use std::marker::Model;

// The most bytes of a line. The longest line of a report has fewer than 110.
pub(crate) const CAPACITY: usize = 128;

// A line of at most 128 bytes, built from its end to its start, so that digits need no second copy.
// It allocates nothing.
#[derive(Drop)]
pub(crate) struct LineBuffer {
    bytes: [u8; CAPACITY],
    start: usize,
}

impl Model for LineBuffer {
    ghost use Rattle.std.specs.Prelude.{◌≤◌, ℕ, List, drop};

    ghost Value = { List ℕ };

    ghost view = { λ l. drop l.start l.bytes };

    ghost invariant = { λ l. l.start ≤ 128 };
}

impl LineBuffer {
    // An empty line.
    pub(crate) fn new() -> LineBuffer
        ensures { result ≡ [] }
    {
        LineBuffer {
            bytes: [0u8; CAPACITY],
            start: CAPACITY,
        }
    }

    pub(crate) fn as_bytes(&self) -> &[u8]
        ensures bytes { result.now ≡ self.now }
        ensures len { length result.now ≤ 128 }
    {
        &self.bytes[self.start..]
    }

    pub(crate) fn prepend(&mut self, piece: &[u8])
        requires { length piece.now + length self.old ≤ 128 }
        ensures line { self.new ≡ piece.now ++ self.old }
        ensures len { length self.new ≡ length piece.now + length self.old }
    {
        let end = self.start;
        self.start -= piece.len();
        self.bytes[self.start..end].copy_from_slice(piece);
    }

    // Prepends a number in decimal digits.
    pub(crate) fn prepend_number(&mut self, n: usize)
        requires { 20 + length self.old ≤ 128 }
        ensures line { self.new ≡ decimal n ++ self.old }
        ensures len { length self.new ≤ 20 + length self.old }
    {
        self.start = write_digits(n as u64, &mut self.bytes, self.start);
    }
}
