//! Sources and sinks over readers and writers of std. What the system's streams do is trusted.
ghost use Rattle.std.specs.Prelude.{◌≡◌, ◌<◌, ◌≤◌, ◌+◌, take, length, IfOk, MatchResult};
ghost use Rattle.std.specs.Io.{ReadsAtMost, WritesAtMost};
ghost use Rattle.std.specs.Io.KnownBytes.{Appends, ReadConsumes};
ghost use Rattle.squawk_cut.specs.Tells.{next_count};
ghost use Rattle.squawk_show.specs.Edge.{HasCause};
ghost use Rattle.squawk_show.specs.ReadWrite as spec;

use crate::{Failed, Sink, Source};
use std::io::{Read, Write};
use std::marker::Model;

/// A source over a reader of std. It is not observable. Each error of the reader counts as a fault.
#[derive(Drop)]
pub struct ReadSource<R> {
    reader: R,
    faults: u64,
}

impl<R> Model for ReadSource<R> {
    ghost use Rattle.squawk_show.specs.ReadWrite.{ReaderState};

    ghost Value = { ReaderState R };

    ghost view = { λ s. record { reader = s.reader; faults = s.faults } };
}

impl<R: Read> ReadSource<R> {
    /// A source over this reader, without faults so far.
    pub fn new(reader: R) -> Self
        ensures { result ≡ record { reader = reader; faults = 0 } }
    {
        ReadSource { reader, faults: 0 }
    }
}

impl<R: Read> Source for ReadSource<R> {
    ghost view = { λ s. spec.reader_view s };

    fn read(&mut self, into: &mut [u8]) -> Result<usize, Failed>
        ensures bound { ReadsAtMost result into.new }
        ensures cause { HasCause self.old.faults self.new.faults result }
        ensures count { MatchResult result (λ _. self.new.faults ≡ self.old.faults)
            (λ _. self.new.faults ≡ next_count self.old.faults) }
        // It returns what the reader returned, where the bytes of the reader are known.
        ensures reader { ReadConsumes (R.remaining self.old.reader) (R.remaining self.new.reader)
            result into.new }
    {
        match self.reader.read(into) {
            Ok(count) => Ok(count),
            Err(_) => {
                self.faults = self.faults.saturating_add(1);
                Err(Failed)
            }
        }
    }
}

/// A sink over a writer of std, which is flushed after each write. It is not observable. Each error
/// of the writer, and each write that takes nothing of a nonempty piece, counts as a fault.
#[derive(Drop)]
pub struct WriteSink<W> {
    writer: W,
    faults: u64,
}

impl<W> Model for WriteSink<W> {
    ghost use Rattle.squawk_show.specs.ReadWrite.{WriterState};

    ghost Value = { WriterState W };

    ghost view = { λ s. record { writer = s.writer; faults = s.faults } };
}

impl<W: Write> WriteSink<W> {
    /// A sink over this writer, without faults so far.
    pub fn new(writer: W) -> Self
        ensures { result ≡ record { writer = writer; faults = 0 } }
    {
        WriteSink { writer, faults: 0 }
    }
}

// Writes and flushes. It fails if the writer does, or takes nothing of a nonempty piece.
fn write_and_flush<W: Write>(writer: &mut W, piece: &[u8]) -> Result<usize, Failed>
    ensures bound { WritesAtMost result piece.now }
    ensures some { IfOk result (λ n. 0 < length piece.now → 0 < n) }
    ensures bytes { IfOk result (λ n.
        Appends (W.contents writer.old) (W.contents writer.new) (take n piece.now)) }
{
    let Ok(count) = writer.write(piece) else {
        return Err(Failed);
    };
    if count == 0 && !piece.is_empty() {
        return Err(Failed);
    }
    match writer.flush() {
        Ok(()) => Ok(count),
        Err(_) => Err(Failed),
    }
}

impl<W: Write> Sink for WriteSink<W> {
    ghost view = { λ s. spec.writer_view s };

    fn write(&mut self, piece: &[u8]) -> Result<usize, Failed>
        ensures bound { WritesAtMost result piece.now }
        ensures some { IfOk result (λ n. 0 < length piece.now → 0 < n) }
        ensures cause { HasCause self.old.faults self.new.faults result }
        ensures count { MatchResult result (λ _. self.new.faults ≡ self.old.faults)
            (λ _. self.new.faults ≡ next_count self.old.faults) }
        // It took what the writer took, where the bytes of the writer are known.
        ensures writer { IfOk result (λ n.
            Appends (W.contents self.old.writer) (W.contents self.new.writer) (take n piece.now)) }
    {
        let written = write_and_flush(&mut self.writer, piece);
        if written.is_err() {
            self.faults = self.faults.saturating_add(1);
        }
        written
    }
}
