//! The shortest tag of a dollar-quoted string.
ghost use Rattle.std.specs.Prelude.{◌≡◌, ◌<◌, ◌≤◌, ◌+◌, ◌^◌, length, None, Some, IfOk, IfSome};
ghost use Rattle.std.specs.Str.{chars};
ghost use Rattle.squawk_quote.specs.Tags as spec;
ghost use Rattle.squawk_quote.specs.Values.{extend_tag_run, shortest_tag};

use std::alloc::{AllocError, Global};

// The number of tags that are tried in one pass. A value within `LIMIT` has fewer tags: tags of n
// different lengths take more than n * n / 2 bytes.
const TAGS_PER_PASS: usize = 131072;

// The run after one more character.
fn extend_run(run: Option<usize>, c: char) -> Option<usize>
    requires { IfSome run (λ n. n < 2 ^ 63) }
    ensures { result ≡ extend_tag_run run c }
{
    if c == '$' {
        return Some(0);
    }
    match run {
        Some(n) if c == 'q' => Some(n + 1),
        _ => None,
    }
}

// Sets the flag of the tag of `n` letters. The first flag is that of the tag of `base` letters.
fn mark_tag(seen: &mut [bool], base: usize, n: usize)
    ensures { seen.new ≡ spec.mark_run base (Some n) seen.old }
{
    if n < base {
        return;
    }
    let i = n - base;
    if i < seen.len() {
        seen[i] = true;
    }
}

// Sets the flag of the tag that the run is.
fn mark_run(seen: &mut [bool], base: usize, run: Option<usize>)
    ensures { seen.new ≡ spec.mark_run base run seen.old }
{
    match run {
        None => {}
        Some(n) => mark_tag(seen, base, n),
    }
}

// Sets the flag of the tag that ends at the character.
fn mark_at(seen: &mut [bool], base: usize, run: Option<usize>, c: char)
    ensures { seen.new ≡ spec.mark_at base run c seen.old }
{
    if c == '$' {
        mark_run(seen, base, run);
    }
}

// Sets the flags of the tags that occur in a value.
fn mark_tags(seen: &mut [bool], base: usize, value: &str)
    ensures { seen.new ≡ spec.mark_tags base None (chars value.now) seen.old }
{
    let mut run = None;
    for c in value.chars() {
        mark_at(seen, base, run, c);
        run = extend_run(run, c);
    }
    mark_run(seen, base, run);
}

// The index of the first `false`, or the length.
fn first_unseen(seen: &[bool]) -> usize
    ensures first { result ≡ spec.first_unset seen.now }
    ensures within { result ≤ length seen.now }
{
    let mut at = 0;
    while at < seen.len() && seen[at] {
        at += 1;
    }
    at
}

// The length of the shortest tag that fits, of `base` letters or more and fewer than
// `base + count`; `base + count` if none of these does.
fn first_fitting_tag(
    alloc: Global,
    value: &str,
    base: usize,
    count: usize,
) -> Result<usize, AllocError>
    requires { base + count < 2 ^ 64 }
    ensures { IfOk result (spec.IsFirstToFit (chars value.now) base (base + count)) }
{
    let mut seen = vec![in alloc; false; count]?;
    mark_tags(&mut seen, base, value);
    Ok(base + first_unseen(&seen))
}

// The length of the shortest tag with which a value can be dollar-quoted.
pub(crate) fn shortest_tag(alloc: Global, value: &str) -> Result<usize, AllocError>
    ensures { IfOk result (λ n. n ≡ shortest_tag (chars value.now)) }
{
    let count = TAGS_PER_PASS.min(value.len() + 2);
    let mut base = 0;
    while base <= value.len() {
        let tag = first_fitting_tag(alloc, value, base, count)?;
        if tag < base + count {
            return Ok(tag);
        }
        base += count;
    }
    Ok(base)
}
