//! A sink that keeps bytes in memory.
ghost use Rattle.std.specs.Prelude.{◌≡◌, ◌<◌, ◌↔◌, ◌⊎◌, Some, length, IfOk, IfErr, OnErr, IsErr, Contains};
ghost use Rattle.std.specs.Io.{WritesAtMost};
ghost use Rattle.std.specs.Io.KnownBytes.{WriteAppends};
ghost use Rattle.squawk_cut.specs.Tells.{next_count};
ghost use Rattle.squawk_events.specs.Refusals.{IsOutOfMemory};
ghost use Rattle.squawk_show.specs.Edge.{HasCause};
ghost use Rattle.squawk_show.specs.Memory as spec;

use crate::{Failed, Sink};
use squawk_events::FrontError;
use std::alloc::Global;
use std::marker::Model;

/// A sink that keeps bytes in memory, for tests: it is observable, takes bytes up to its room, and
/// fails at chosen calls.
#[derive(Drop)]
pub struct MemorySink {
    taken: Vec<u8>,
    room: usize,
    largest: usize,
    failing: Vec<u64>,
    calls: u64,
    faults: u64,
}

impl Model for MemorySink {
    ghost use Rattle.std.specs.Prelude.{◌+◌, ◌≤◌, ◌<◌, vec_len, vec_capacity};
    ghost use Rattle.squawk_show.specs.Memory.{SinkState};

    ghost Value = { SinkState };

    ghost view = { λ s. record {
      taken = s.taken.items;
      room = s.room;
      largest = s.largest;
      failing = s.failing.items;
      calls = s.calls;
      faults = s.faults;
    } };

    ghost invariant = { λ s. (vec_len s.taken + s.room ≤ vec_capacity s.taken) × (0 < s.largest) };
}

impl MemorySink {
    /// An empty sink with room for `room` bytes in all. A write takes at most `largest` bytes,
    /// which must not be 0, and fails if it finds no room left; the calls with the numbers in
    /// `failing` also fail, and the first call has the number 1. All room is allocated here, so
    /// writing allocates nothing. The only error is `OutOfMemory`.
    pub fn new(
        alloc: Global,
        room: usize,
        largest: usize,
        failing: &[u64],
    ) -> Result<MemorySink, FrontError>
        requires { 0 < largest }
        ensures made { IfOk result (λ s. s ≡ spec.new_sink room largest failing.now) }
        ensures refusals { IfErr result IsOutOfMemory }
    {
        Ok(MemorySink {
            taken: Vec::with_capacity(alloc, room)?,
            room,
            largest,
            failing: Vec::from_slice(alloc, failing)?,
            calls: 0,
            faults: 0,
        })
    }

    /// The bytes that it has taken.
    pub fn taken(&self) -> &[u8]
        ensures { result.now ≡ self.now.taken }
    {
        &self.taken
    }

    /// How often a write has failed, saturating at `u64::MAX`.
    pub fn faults(&self) -> u64
        ensures { result ≡ self.now.faults }
    {
        self.faults
    }
}

impl Sink for MemorySink {
    ghost view = { λ s. spec.sink_view s };

    fn write(&mut self, piece: &[u8]) -> Result<usize, Failed>
        ensures bound { WritesAtMost result piece.now }
        ensures some { IfOk result (λ n. 0 < length piece.now → 0 < n) }
        ensures bytes { WriteAppends (Some self.old.taken) (Some self.new.taken) result piece.now }
        ensures cause { HasCause self.old.faults self.new.faults result }
        // A nonempty piece fails where there is no room left.
        ensures fails { IsErr result ↔ (Contains self.old.failing (next_count self.old.calls)
            ⊎ ((0 < length piece.now) × (self.old.room ≡ 0))) }
        ensures count { IfOk result (λ n. n ≡ spec.write_len self.old piece.now) }
        ensures ok { IfOk result (λ n. self.new ≡ spec.after_write n piece.now self.old) }
        ensures err { OnErr result (self.new ≡ spec.after_failed_write self.old) }
    {
        self.calls = self.calls.saturating_add(1);
        if self.failing.contains(&self.calls) || (self.room == 0 && !piece.is_empty()) {
            self.faults = self.faults.saturating_add(1);
            return Err(Failed);
        }
        let n = self.largest.min(piece.len()).min(self.room);
        self.taken.extend_from_slice(&piece[..n]).unwrap();
        self.room -= n;
        Ok(n)
    }
}
