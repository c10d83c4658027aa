//! The text that the command `make` parses.
ghost use Rattle.std.specs.Prelude.{◌≡◌, ◌≤◌, ◌++◌, length, string_bytes, IfOk, OnOk};
ghost use Rattle.squawk_events.specs.Limit.{limit};
ghost use Rattle.squawk_show.specs.Made.{made, most_pieces, numbered_line, piece};

use itoa::Buffer;
use std::alloc::{AllocError, Global};

// The most pieces of a made text.
pub(crate) const MAX_PIECES: u32 = 100_000;

// Appends a line with the digits of a number in it.
fn push_numbered_line(
    text: &mut String,
    before: &str,
    n: u32,
    after: &str,
) -> Result<(), AllocError>
    ensures { OnOk result (string_bytes text.new
        ≡ string_bytes text.old ++ numbered_line before.now n after.now) }
{
    text.push_str(before)?;
    text.push_str(Buffer::new().format(n))?;
    text.push_str(after)?;
    text.push_str("\n")
}

// Appends the piece with a number.
fn push_piece(text: &mut String, i: u32) -> Result<(), AllocError>
    ensures { OnOk result (string_bytes text.new ≡ string_bytes text.old ++ piece i) }
{
    match i % 4 {
        0 => push_numbered_line(text, "select ", i, ";"),
        1 => push_numbered_line(text, "insert into t values ('", i, "');"),
        2 => push_numbered_line(text, "update t set a = $1 where b = ", i, ";"),
        _ => {
            push_numbered_line(text, "-- ", i, "")?;
            push_numbered_line(text, "\\echo ", i, "")
        }
    }
}

// Makes the text of the pieces 0 to `pieces` - 1.
pub(crate) fn make_text(alloc: Global, pieces: u32) -> Result<String, AllocError>
    requires { pieces ≤ most_pieces }
    ensures text { IfOk result (λ text. string_bytes text ≡ made pieces) }
    ensures within { IfOk result (λ text. length (string_bytes text) ≤ limit) }
{
    let mut text = String::new(alloc);
    for i in 0..pieces {
        push_piece(&mut text, i)?;
    }
    Ok(text)
}
