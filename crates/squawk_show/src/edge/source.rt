//! Where bytes come from.
ghost use Rattle.std.specs.Prelude.{◌≤◌, ◌+◌};
ghost use Rattle.std.specs.Io.{ReadsAtMost};
ghost use Rattle.std.specs.Io.KnownBytes.{ReadConsumes};
ghost use Rattle.squawk_show.specs.Edge.{SourceView, HasCause};

/// The error of a read or a write that failed.
#[derive(Clone, Copy, Debug, PartialEq, Eq)]
pub struct Failed;

/// A source of bytes that counts its faults.
pub trait Source {
    /// What contracts see of it: the bytes left, where it is observable; how often it has failed,
    /// saturating at `u64::MAX`; and a count that a read raises by at most one, which bounds the
    /// number of reads.
    ghost view: { Self → SourceView };

    /// Copies the next bytes to the start of a buffer, and returns how many.
    ///
    /// `Ok(0)` for a nonempty buffer is the end of the input. `Failed` has taken nothing, where the
    /// source is observable, and comes only if the count of faults rose in this call or is at
    /// `u64::MAX`.
    fn read(&mut self, into: &mut [u8]) -> Result<usize, Failed>
        ensures bound { ReadsAtMost result into.new }
        ensures bytes { ReadConsumes (view self.old).left (view self.new).left result into.new }
        ensures cause { HasCause (view self.old).faults (view self.new).faults result }
        ensures one_read { (view self.new).reads ≤ (view self.old).reads + 1 };
}
