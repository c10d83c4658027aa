//! The numbers of a record.
ghost use Rattle.std.specs.Prelude.{◌≡◌, ◌+◌, ◌<◌, ◌≤◌, IfSome, drop, length};
ghost use Rattle.std.specs.Char.{is_ascii_digit};
ghost use Rattle.std.specs.List.{prefix_len};
ghost use Rattle.std.specs.Str.{IsCharBoundary};
ghost use Rattle.squawk_script.specs.Script.{number_at};

use crate::form::MAX_DIGITS;

// A number of a record, and the offset after the byte that follows it.
#[derive(Clone, Copy)]
pub(crate) struct Number {
    pub(crate) value: usize,
    pub(crate) after: usize,
}

// The number of ASCII digits that begin at an offset.
fn digit_count(bytes: &[u8], at: usize) -> usize
    requires { at ≤ length bytes.now }
    ensures count { result ≡ prefix_len is_ascii_digit (drop at bytes.now) }
    ensures within { at + result ≤ length bytes.now }
{
    let mut end = at;
    while end < bytes.len() && bytes[end].is_ascii_digit() {
        end += 1;
    }
    end - at
}

// Reads the number that begins at an offset, and the ASCII byte that must follow it.
pub(crate) fn read_number(text: &str, at: usize, byte: u8) -> Option<Number>
    requires boundary { IsCharBoundary text.now at }
    requires ascii { (0 < byte) × (byte < 128) }
    ensures number { result ≡ number_at byte text.now at }
    ensures within { IfSome result (λ n. (at < n.after) × IsCharBoundary text.now n.after) }
{
    let bytes = text.as_bytes();
    let end = at + digit_count(bytes, at);
    if end - at > MAX_DIGITS {
        return None;
    }
    if end >= bytes.len() || bytes[end] != byte {
        return None;
    }
    match text[at..end].parse::<u32>() {
        Ok(value) => Some(Number {
            value: value as usize,
            after: end + 1,
        }),
        Err(_) => None,
    }
}
