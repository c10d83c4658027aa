//! The tokens of a text, into an array of the caller.
ghost use Rattle.std.specs.Prelude.{◌≡◌, ◌≢◌, ◌≤◌, ◌<◌, ◌^◌, ◌↔◌, ◌⊎◌, IsUtf8, IfSome, IsNone, length};
ghost use Rattle.std.specs.Str.{IsCharBoundary};
ghost use Rattle.squawk_c.specs.Options.{reading};
ghost use Rattle.squawk_c.specs.Statuses.{IsTokensStatus};
ghost use Rattle.squawk_c.specs.Tokens.{IsCut};
ghost use Rattle.squawk_events.specs.Limit.{limit};

use crate::options::reading_of;
use crate::status::{BAD_ARGUMENT, NOT_UTF8, OK, TOO_LONG};
use crate::text::LIMIT;
use crate::token::{SquawkToken, token_record};
use squawk_lexer::{Strings, cut_at_in};

// Cuts tokens from an offset on until the array is full or the text ends. Returns their number, and
// the offset after the last of them.
fn cut_into(text: &str, strings: Strings, at: usize, out: &mut [SquawkToken]) -> (usize, usize)
    requires fits { length text.now < 2 ^ 32 }
    requires boundary { IsCharBoundary text.now at }
    ensures cut { IsCut strings text.now at result.1 out.old out.new result.0 }
    ensures full { result.0 < length out.old → result.1 ≡ length text.now }
{
    let mut end = at;
    let mut count = 0;
    while count < out.len() && end < text.len() {
        let token = cut_at_in(text, end, strings);
        out[count] = token_record(end as u32, token);
        end += token.len as usize;
        count += 1;
    }
    (count, end)
}

// Cuts tokens of a text that was checked.
fn cut_checked(
    text: &str,
    options: u32,
    at: &mut usize,
    tokens: &mut [SquawkToken],
    count: &mut usize,
) -> u32
    requires fits { length text.now < 2 ^ 32 }
    ensures cut { result ≡ 0 → IfSome (reading options)
        (λ r. IsCut r.strings text.now at.old at.new tokens.old tokens.new count.new) }
    ensures full { result ≡ 0 → count.new < length tokens.old → at.new ≡ length text.now }
    ensures bad_argument { (result ≡ 2)
        ↔ (IsNone (reading options) ⊎ ¬ (IsCharBoundary text.now at.old)) }
    ensures refused { result ≢ 0 → (at.new ≡ at.old) × (tokens.new ≡ tokens.old)
        × (count.new ≡ 0) }
    ensures refusals { (result ≡ 0) ⊎ (result ≡ 2) }
{
    *count = 0;
    let Some(reading) = reading_of(options) else {
        return BAD_ARGUMENT;
    };
    if !text.is_char_boundary(*at) {
        return BAD_ARGUMENT;
    }
    let (cut, end) = cut_into(text, reading.strings, *at, tokens);
    *count = cut;
    *at = end;
    OK
}

/// Cuts tokens (`docs/GRAMMAR.md`) from the offset `at` on, in bytes, into an array, until it is
/// full or the text ends.
///
/// `count` becomes the number of tokens, and `at` the offset after the last of them: the text is
/// done when it is the length. The tokens are those of the whole text, in whatever portions they
/// are cut, if the first call begins at 0. Allocates nothing.
///
/// The status is 0. Otherwise `at` and the array stay as they were, `count` becomes 0, and the
/// status is the first that fits: 5 (too long), 4 (not UTF-8) or 2 (unknown options, or `at` is
/// past the end or inside a character).
///
/// Each call checks the whole text. For many calls on one text, call `squawk_check` once and then
/// `squawk_tokens_unchecked`.
#[unsafe(no_mangle)]
pub extern "C" fn squawk_tokens(
    text: &[u8],
    options: u32,
    at: &mut usize,
    tokens: &mut [SquawkToken],
    count: &mut usize,
) -> u32
    ensures cut { result ≡ 0 → IfSome (reading options)
        (λ r. IsCut r.strings text.now at.old at.new tokens.old tokens.new count.new) }
    ensures full { result ≡ 0 → count.new < length tokens.old → at.new ≡ length text.now }
    ensures too_long { (result ≡ 5) ↔ (limit < length text.now) }
    ensures not_utf8 { (result ≡ 4) ↔ ((length text.now ≤ limit) × ¬ (IsUtf8 text.now)) }
    ensures bad_argument { (result ≡ 2) ↔ ((length text.now ≤ limit) × IsUtf8 text.now
        × (IsNone (reading options) ⊎ ¬ (IsCharBoundary text.now at.old))) }
    ensures refused { result ≢ 0 → (at.new ≡ at.old) × (tokens.new ≡ tokens.old)
        × (count.new ≡ 0) }
    ensures refusals { IsTokensStatus result }
{
    *count = 0;
    if text.len() > LIMIT {
        return TOO_LONG;
    }
    match std::str::from_utf8(text) {
        Ok(text) => cut_checked(text, options, at, tokens, count),
        Err(_) => NOT_UTF8,
    }
}

/// Does what `squawk_tokens` does, for a text that is UTF-8, and does not check that.
///
/// The bytes must be UTF-8, as they are where `squawk_check` returned 0 for them. Otherwise nothing
/// is promised: the call may read past the end of the text.
#[unsafe(no_mangle)]
pub unsafe extern "C" fn squawk_tokens_unchecked(
    text: &[u8],
    options: u32,
    at: &mut usize,
    tokens: &mut [SquawkToken],
    count: &mut usize,
) -> u32
    requires utf8 { IsUtf8 text.now }
    ensures cut { result ≡ 0 → IfSome (reading options)
        (λ r. IsCut r.strings text.now at.old at.new tokens.old tokens.new count.new) }
    ensures full { result ≡ 0 → count.new < length tokens.old → at.new ≡ length text.now }
    ensures too_long { (result ≡ 5) ↔ (limit < length text.now) }
    ensures bad_argument { (result ≡ 2) ↔ ((length text.now ≤ limit)
        × (IsNone (reading options) ⊎ ¬ (IsCharBoundary text.now at.old))) }
    ensures refused { result ≢ 0 → (at.new ≡ at.old) × (tokens.new ≡ tokens.old)
        × (count.new ≡ 0) }
    ensures refusals { (result ≡ 0) ⊎ (result ≡ 2) ⊎ (result ≡ 5) }
{
    *count = 0;
    let text = unsafe { std::str::from_utf8_unchecked(text) };
    if text.len() > LIMIT {
        return TOO_LONG;
    }
    cut_checked(text, options, at, tokens, count)
}
