//! Lengths of runs within the first sixteen bytes of a text, which are tested at once. Where a run
//! of a few bytes ends is hard for a processor to predict; here no branch depends on it.
ghost use Rattle.std.specs.Prelude.{◌≡◌, ◌+◌, ◌<◌, ◌≤◌, length, drop};
ghost use Rattle.std.specs.List.{prefix_len};
ghost use Rattle.squawk_lexer.specs.Classes.{is_ident_cont};
ghost use Rattle.squawk_lexer.specs.Stops.{is_neither, is_neither_on_line};
ghost use Rattle.squawk_lexer.specs.Bytes.{first_set};

use std::simd::prelude::*;

// The number of bytes that are tested at once.
pub(crate) const LANES: usize = 16;

// The number of lowercase letters, and of digits.
const LETTERS: u8 = 26;

const DIGITS: u8 = 10;

// Sets the bit by which ASCII letters differ in case. No other byte becomes a lowercase letter.
const CASE: u8 = 0x20;

// The number of bits before the lowest set bit of `mask`, or `LANES` if none is set.
#[inline(always)]
fn first_set(mask: u64) -> usize
    ensures { result ≡ first_set LANES mask }
{
    if mask == 0 {
        LANES
    } else {
        mask.trailing_zeros() as usize
    }
}

// The length of the run of bytes that continue an identifier, within the first `LANES` bytes.
#[inline(always)]
pub(crate) fn ident_cont_run(bytes: &[u8]) -> usize
    requires { LANES ≤ length bytes.now }
    ensures within { result ≤ LANES }
    ensures prefix { result + prefix_len is_ident_cont (drop result bytes.now)
        ≡ prefix_len is_ident_cont bytes.now }
    ensures whole { result < LANES → result ≡ prefix_len is_ident_cont bytes.now }
{
    let v = u8x16::from_slice(bytes);
    let from_a = (v | u8x16::splat(CASE)) - u8x16::splat(b'a');
    let from_0 = v - u8x16::splat(b'0');
    let no_alphanumeric = from_a.simd_ge(u8x16::splat(LETTERS))
        & from_0.simd_ge(u8x16::splat(DIGITS));
    let no_mark = v.simd_ne(u8x16::splat(b'_')) & v.simd_ne(u8x16::splat(b'$'));
    let is_ascii = v.simd_lt(u8x16::splat(0x80));
    first_set((no_alphanumeric & no_mark & is_ascii).to_bitmask())
}

// The length of the run of bytes that are neither `a` nor `b`, within the first `LANES` bytes.
#[inline(always)]
pub(crate) fn run_until2(a: u8, b: u8, bytes: &[u8]) -> usize
    requires { LANES ≤ length bytes.now }
    ensures within { result ≤ LANES }
    ensures prefix { result + prefix_len (is_neither a b) (drop result bytes.now)
        ≡ prefix_len (is_neither a b) bytes.now }
    ensures whole { result < LANES → result ≡ prefix_len (is_neither a b) bytes.now }
{
    let v = u8x16::from_slice(bytes);
    let is_stop = v.simd_eq(u8x16::splat(a)) | v.simd_eq(u8x16::splat(b));
    first_set(is_stop.to_bitmask())
}

// The length of the run of bytes that are none of `a`, `b`, LF and CR, within the first `LANES`
// bytes.
#[inline(always)]
pub(crate) fn run_until2_on_line(a: u8, b: u8, bytes: &[u8]) -> usize
    requires { LANES ≤ length bytes.now }
    ensures within { result ≤ LANES }
    ensures prefix { result + prefix_len (is_neither_on_line a b) (drop result bytes.now)
        ≡ prefix_len (is_neither_on_line a b) bytes.now }
    ensures whole { result < LANES → result ≡ prefix_len (is_neither_on_line a b) bytes.now }
{
    let v = u8x16::from_slice(bytes);
    let is_either = v.simd_eq(u8x16::splat(a)) | v.simd_eq(u8x16::splat(b));
    let is_line_end = v.simd_eq(u8x16::splat(b'\n')) | v.simd_eq(u8x16::splat(b'\r'));
    first_set((is_either | is_line_end).to_bitmask())
}
