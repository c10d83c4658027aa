//! Where bytes go.
ghost use Rattle.std.specs.Prelude.{◌<◌, length, IfOk};
ghost use Rattle.std.specs.Io.{WritesAtMost};
ghost use Rattle.std.specs.Io.KnownBytes.{WriteAppends};
ghost use Rattle.squawk_show.specs.Edge.{SinkView, HasCause};

use crate::Failed;

/// A sink for bytes that counts its faults.
pub trait Sink {
    /// What contracts see of it: the bytes taken, where it is observable, and how often it has
    /// failed, saturating at `u64::MAX`.
    ghost view: { Self → SinkView };

    /// Takes a prefix of a piece, and returns its length: at least one byte of a nonempty piece.
    ///
    /// `Failed` has taken nothing, where the sink is observable, and comes only if the count of
    /// faults rose in this call or is at `u64::MAX`.
    fn write(&mut self, piece: &[u8]) -> Result<usize, Failed>
        ensures bound { WritesAtMost result piece.now }
        ensures some { IfOk result (λ n. 0 < length piece.now → 0 < n) }
        ensures bytes { WriteAppends (view self.old).taken (view self.new).taken result piece.now }
        ensures cause { HasCause (view self.old).faults (view self.new).faults result };
}
