//! A source over bytes in memory.
ghost use Rattle.std.specs.Prelude.{◌≡◌, ◌<◌, ◌≤◌, ◌+◌, ◌↔◌, Some, length, take, IfOk, IfErr, OnErr, IsErr, Contains, min};
ghost use Rattle.std.specs.Io.{ReadsAtMost};
ghost use Rattle.std.specs.Io.KnownBytes.{ReadConsumes};
ghost use Rattle.squawk_cut.specs.Tells.{next_count};
ghost use Rattle.squawk_events.specs.Refusals.{IsOutOfMemory};
ghost use Rattle.squawk_show.specs.Edge.{HasCause};
ghost use Rattle.squawk_show.specs.Memory as spec;

use crate::{Failed, Source};
use squawk_events::FrontError;
use std::alloc::Global;
use std::marker::Model;

/// A source over bytes in memory, for tests: it is observable, and fails at chosen calls.
#[derive(Drop)]
pub struct MemorySource {
    bytes: Vec<u8>,
    at: usize,
    largest: usize,
    failing: Vec<u64>,
    calls: u64,
    faults: u64,
}

impl Model for MemorySource {
    ghost use Rattle.std.specs.Prelude.{◌≤◌, ◌<◌, drop, length};
    ghost use Rattle.squawk_show.specs.Memory.{SourceState};

    ghost Value = { SourceState };

    ghost view = { λ s. record {
      left = drop s.at s.bytes.items;
      largest = s.largest;
      failing = s.failing.items;
      calls = s.calls;
      faults = s.faults;
    } };

    ghost invariant = { λ s. (s.at ≤ length s.bytes.items) × (0 < s.largest) };
}

impl MemorySource {
    /// A source of these bytes. A read returns at most `largest` of them, which must not be 0, and
    /// the calls with the numbers in `failing` fail; the first call has the number 1. The only
    /// error is `OutOfMemory`.
    pub fn new(
        alloc: Global,
        bytes: &[u8],
        largest: usize,
        failing: &[u64],
    ) -> Result<MemorySource, FrontError>
        requires { 0 < largest }
        ensures made { IfOk result (λ s. s ≡ spec.new_source bytes.now largest failing.now) }
        ensures refusals { IfErr result IsOutOfMemory }
    {
        Ok(MemorySource {
            bytes: Vec::from_slice(alloc, bytes)?,
            at: 0,
            largest,
            failing: Vec::from_slice(alloc, failing)?,
            calls: 0,
            faults: 0,
        })
    }

    /// The bytes that are left.
    pub fn left(&self) -> &[u8]
        ensures { result.now ≡ self.now.left }
    {
        &self.bytes[self.at..]
    }

    /// How often a read has failed, saturating at `u64::MAX`.
    pub fn faults(&self) -> u64
        ensures { result ≡ self.now.faults }
    {
        self.faults
    }
}

// Copies at most `largest` bytes to the start of a buffer, as many as it holds. Returns how many.
fn copy_next(left: &[u8], largest: usize, into: &mut [u8]) -> usize
    ensures count { result ≡ min (min largest (length into.old)) (length left.now) }
    ensures same_length { length into.new ≡ length into.old }
    ensures bytes { take result into.new ≡ take result left.now }
{
    let n = largest.min(into.len()).min(left.len());
    into[..n].copy_from_slice(&left[..n]);
    n
}

impl Source for MemorySource {
    ghost view = { λ s. spec.source_view s };

    fn read(&mut self, into: &mut [u8]) -> Result<usize, Failed>
        ensures bound { ReadsAtMost result into.new }
        ensures bytes { ReadConsumes (Some self.old.left) (Some self.new.left) result into.new }
        ensures cause { HasCause self.old.faults self.new.faults result }
        ensures one_read { self.new.calls ≤ self.old.calls + 1 }
        ensures fails { IsErr result ↔ Contains self.old.failing (next_count self.old.calls) }
        ensures count { IfOk result (λ n. n ≡ spec.read_len self.old (length into.old)) }
        ensures ok { IfOk result (λ n. self.new ≡ spec.after_read n self.old) }
        ensures err { OnErr result (self.new ≡ spec.after_failed_read self.old) }
    {
        self.calls = self.calls.saturating_add(1);
        if self.failing.contains(&self.calls) {
            self.faults = self.faults.saturating_add(1);
            return Err(Failed);
        }
        let n = copy_next(&self.bytes[self.at..], self.largest, into);
        self.at += n;
        Ok(n)
    }
}
