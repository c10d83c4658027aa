//! Reading a source to its end.
ghost use Rattle.std.specs.Prelude.{◌≡◌, ◌≢◌, ◌≤◌, ◌<◌, ◌+◌, length, IfOk, OnOk, IfErr, Err};
ghost use Rattle.std.specs.Io.KnownBytes.{IsAtEnd};
ghost use Rattle.squawk_show.specs.Edge.{Takes, TakesAtMost};
ghost use Rattle.squawk_show.specs.ReadAll.{IsReadRefusal, ReadsAll};

use crate::{RunError, Source};
use squawk_events::FrontError;
use std::alloc::{AllocError, Global};

// The most bytes that one read asks for.
const CHUNK: usize = 65536;

/// Reads a source to its end, and returns its bytes, of which there are at most `limit`.
///
/// There is at most one read more than there are bytes taken. `ReadFault` comes only if the source
/// failed, and `Front(TooLong)` exactly if `limit + 1` bytes were taken; more are never taken. The
/// only other error is `Front(OutOfMemory)`. What was taken before an error is lost.
pub fn read_all<S: Source>(alloc: Global, source: &mut S, limit: u64) -> Result<Vec<u8>, RunError>
    requires { limit ≤ 4294967295 }
    ensures bytes { IfOk result (λ b. Takes (S.view source.old) (S.view source.new) b.items) }
    ensures end { OnOk result (IsAtEnd (S.view source.new).left) }
    ensures within { IfOk result (λ bytes. length bytes.items ≤ limit) }
    ensures refusals { IfErr result (IsReadRefusal limit (S.view source.old) (S.view source.new)) }
    ensures taken { result ≢ Err (RunError.Front FrontError.TooLong)
        → TakesAtMost (S.view source.old) (S.view source.new) limit }
    ensures later { (S.view source.old).faults ≤ (S.view source.new).faults }
{
    let mut chunk = make_buffer(alloc, CHUNK)?;
    read_by_chunks(alloc, source, &mut chunk, limit)
}

fn make_buffer(alloc: Global, size: usize) -> Result<Vec<u8>, AllocError>
    ensures { IfOk result (λ buffer. length buffer.items ≡ size) }
{
    vec![in alloc; 0u8; size]
}

// Reads a source to its end. Each read fills a part of `chunk`.
fn read_by_chunks<S: Source>(
    alloc: Global,
    source: &mut S,
    chunk: &mut [u8],
    limit: u64,
) -> Result<Vec<u8>, RunError>
    requires { (0 < length chunk.old) × (limit ≤ 4294967295) }
    ensures { ReadsAll limit (S.view source.old) (S.view source.new) result }
{
    let mut bytes = Vec::new(alloc);
    loop {
        let room = (limit as usize + 1 - bytes.len()).min(chunk.len());
        let Ok(count) = source.read(&mut chunk[..room]) else {
            return Err(RunError::ReadFault);
        };
        if count == 0 {
            return Ok(bytes);
        }
        if bytes.len() + count > limit as usize {
            return Err(RunError::Front(FrontError::TooLong));
        }
        bytes.extend_from_slice(&chunk[..count])?;
    }
}
