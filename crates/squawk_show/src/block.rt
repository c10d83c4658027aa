//! The bytes of an output that are made and not yet written.
ghost use Rattle.std.specs.Prelude.{◌≡◌, ◌≤◌, ◌<◌, ◌+◌, ◌++◌, [], length, take, drop, decimal, IfOk};
ghost use Rattle.squawk_show.specs.Output.{block_len, line_room};
ghost use Rattle.squawk_show.specs.Report.{line_with_text};

use crate::digits::{Number, put_number};
use crate::line::put_short_line;
use crate::line_buffer::CAPACITY;
use std::alloc::{AllocError, Global};
use std::marker::Model;

// The size of a block in bytes, that of a pipe of Linux.
pub(crate) const BLOCK_LEN: usize = 65536;

// The most bytes that are appended for one line.
pub(crate) const LINE_ROOM: usize = CAPACITY;

// Bytes of an output that are made and not yet written, in memory of fixed size.
#[derive(Drop)]
pub(crate) struct Block {
    bytes: Vec<u8>,
    len: usize,
}

impl Model for Block {
    ghost use Rattle.std.specs.Prelude.{List, ℕ, take};
    ghost use Rattle.squawk_show.specs.Output.{HasRoom};

    ghost Value = { List ℕ };

    ghost view = { λ b. take b.len b.bytes.items };

    ghost invariant = { λ b. HasRoom b.len b.bytes.items };
}

impl Block {
    // An empty block.
    pub(crate) fn new(alloc: Global) -> Result<Block, AllocError>
        ensures { IfOk result (λ block. block ≡ []) }
    {
        let bytes = vec![in alloc; 0u8; BLOCK_LEN]?;
        Ok(Block { bytes, len: 0 })
    }

    #[inline(always)]
    pub(crate) fn len(&self) -> usize
        ensures { result ≡ length self.now }
    {
        self.len
    }

    pub(crate) fn as_bytes(&self) -> &[u8]
        ensures { result.now ≡ self.now }
    {
        &self.bytes[..self.len]
    }

    pub(crate) fn clear(&mut self)
        ensures { self.new ≡ [] }
    {
        self.len = 0;
    }

    // Appends a text.
    pub(crate) fn push_text(&mut self, text: &[u8])
        requires { length self.old + length text.now ≤ block_len }
        ensures { self.new ≡ self.old ++ text.now }
    {
        let end = self.len + text.len();
        self.bytes[self.len..end].copy_from_slice(text);
        self.len = end;
    }

    // Appends the digits of a number.
    #[inline(always)]
    pub(crate) fn push_number(&mut self, number: Number)
        requires { length self.old + line_room ≤ block_len }
        ensures text { self.new ≡ self.old ++ decimal number.value }
        ensures len { length self.new ≤ length self.old + 10 }
    {
        self.len = put_number(&mut self.bytes, self.len, number);
    }

    // Appends a line whose printed text stands in a window from offset 4 on.
    #[inline(always)]
    pub(crate) fn push_short_line(
        &mut self,
        window: &[u8],
        depth: usize,
        letter: u8,
        len: usize,
        start: Number,
        end: Number,
    )
        requires room { length self.old + 64 ≤ block_len }
        requires window { (length window.now ≡ 64) × ((len ≤ 35) × (depth < 10)) }
        ensures { self.new ≡ self.old ++ line_with_text depth letter
            (take len (drop 4 window.now)) (start.value, end.value) }
    {
        let at = self.len;
        self.len = put_short_line(&mut self.bytes, at, window, depth, letter, len, start, end);
    }
}
