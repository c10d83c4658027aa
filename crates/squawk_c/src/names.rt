//! The printed texts of kinds, and the messages of errors.
ghost use Rattle.std.specs.Prelude.{◌≡◌, ◌≤◌, ◌<◌, ◌↔◌, ◌⊎◌, IfSome, length, slice_get};
ghost use Rattle.squawk_c.specs.Arrays.{IsPut};
ghost use Rattle.squawk_c.specs.Statuses.{IsAnswered, IsCopyStatus};
ghost use Rattle.squawk_events.specs.Message.{message_of};
ghost use Rattle.squawk_names.specs.Texts.{texts};

use crate::status::{ARRAY_TOO_SMALL, BAD_ARGUMENT, OK};
use squawk_events::message;
use squawk_kinds::{COUNT, SyntaxKind};

// Writes a text to the first bytes of an array, if it has room for it. Returns its length.
fn put_text(text: &str, out: &mut [u8]) -> usize
    ensures { IsPut text.now out.old out.new result }
{
    let bytes = text.as_bytes();
    if bytes.len() <= out.len() {
        out[..bytes.len()].copy_from_slice(bytes);
    }
    bytes.len()
}

// The status of a call that copies a text of `count` bytes into an array with room for `room`.
fn copy_status(count: usize, room: usize) -> u32
    ensures copied { (result ≡ 0) ↔ (count ≤ room) }
    ensures too_small { (result ≡ 12) ↔ (room < count) }
    ensures answered { IsAnswered result }
{
    if count > room { ARRAY_TOO_SMALL } else { OK }
}

/// Writes the printed text of the kind with this number to the first bytes of an array. The text is
/// ASCII and at most 39 bytes long; no NUL follows it.
///
/// `count` becomes the length of the text. The status is 0 if it was written, and 12 if the array
/// has too little room; then it stays as it was. For a number that no kind has, the status is 2,
/// the array stays as it was and `count` becomes 0.
#[unsafe(no_mangle)]
pub extern "C" fn squawk_kind_name(kind: u32, name: &mut [u8], count: &mut usize) -> u32
    ensures text { IsAnswered result → IfSome (slice_get texts kind)
        (λ text. IsPut text name.old name.new count.new) }
    ensures whole { result ≡ 0 → count.new ≤ length name.old }
    ensures too_small { result ≡ 12 → length name.old < count.new }
    ensures bad_argument { (result ≡ 2) ↔ (COUNT ≤ kind) }
    ensures refused { result ≡ 2 → (name.new ≡ name.old) × (count.new ≡ 0) }
    ensures short { count.new ≤ 39 }
    ensures refusals { IsCopyStatus result }
{
    *count = 0;
    if kind >= u32::from(COUNT) {
        return BAD_ARGUMENT;
    }
    let Some(kind) = SyntaxKind::from_raw(kind as u16) else {
        unreachable!()
    };
    *count = put_text(kind.name(), name);
    copy_status(*count, name.len())
}

/// Writes the message of an error with this number, from 1 to 10, to the first bytes of an array.
/// The message is ASCII and at most 40 bytes long; no NUL follows it.
///
/// `count` becomes the length of the message. The status is 0 if it was written, and 12 if the
/// array has too little room; then it stays as it was. For a number that no error has, the status
/// is 2, the array stays as it was and `count` becomes 0.
#[unsafe(no_mangle)]
pub extern "C" fn squawk_message(number: u32, text: &mut [u8], count: &mut usize) -> u32
    ensures text { IsAnswered result
        → IsPut (message_of number) text.old text.new count.new }
    ensures whole { result ≡ 0 → count.new ≤ length text.old }
    ensures too_small { result ≡ 12 → length text.old < count.new }
    ensures bad_argument { (result ≡ 2) ↔ ((number ≡ 0) ⊎ (10 < number)) }
    ensures refused { result ≡ 2 → (text.new ≡ text.old) × (count.new ≡ 0) }
    ensures short { count.new ≤ 40 }
    ensures refusals { IsCopyStatus result }
{
    *count = 0;
    if number == 0 || number > 10 {
        return BAD_ARGUMENT;
    }
    *count = put_text(message(number as u8), text);
    copy_status(*count, text.len())
}
