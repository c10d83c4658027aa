//! Whether bytes are a text.
ghost use Rattle.std.specs.Prelude.{◌≡◌, ◌≤◌, ◌<◌, ◌↔◌, IsUtf8, length};
ghost use Rattle.std.specs.Str.Lossy.{utf8_valid_len};
ghost use Rattle.squawk_events.specs.Limit.{limit};
ghost use Rattle.squawk_c.specs.Statuses.{IsCheckStatus};

use crate::status::{NOT_UTF8, OK, TOO_LONG};

// The largest number of bytes of a text.
pub(crate) const LIMIT: usize = squawk_events::LIMIT as usize;

/// The version of this interface: 65536 times the major number, plus the minor one.
#[unsafe(no_mangle)]
pub extern "C" fn squawk_version() -> u32
    ensures { result ≡ 65536 }
{
    65536
}

/// Returns 0 if the bytes are a text: UTF-8 of at most 4294967295 bytes. Otherwise returns 5 (too
/// long) or 4 (not UTF-8).
///
/// `valid` becomes the length of the longest prefix that is UTF-8, or 0 if the status is 5.
#[unsafe(no_mangle)]
pub extern "C" fn squawk_check(text: &[u8], valid: &mut usize) -> u32
    ensures ok { (result ≡ 0) ↔ (IsUtf8 text.now × (length text.now ≤ limit)) }
    ensures too_long { (result ≡ 5) ↔ (limit < length text.now) }
    ensures within { valid.new ≤ length text.now }
    ensures prefix { result ≡ 4 → valid.new ≡ utf8_valid_len text.now }
    ensures whole { result ≡ 0 → valid.new ≡ length text.now }
    ensures unread { result ≡ 5 → valid.new ≡ 0 }
    ensures refusals { IsCheckStatus result }
{
    *valid = 0;
    if text.len() > LIMIT {
        return TOO_LONG;
    }
    match std::str::from_utf8(text) {
        Ok(text) => {
            *valid = text.len();
            OK
        }
        Err(error) => {
            *valid = error.valid_up_to();
            NOT_UTF8
        }
    }
}
