//! The line of an edit.
ghost use Rattle.std.specs.Prelude.{◌≡◌, ◌++◌, decimal, OnOk};
ghost use Rattle.squawk_replay.specs.Replay.{counts, edit_line};

use itoa::Buffer;
use squawk_document::Edited;
use std::alloc::AllocError;

// Appends a number in decimal digits.
fn push_number(out: &mut Vec<u8>, number: usize) -> Result<(), AllocError>
    ensures { OnOk result (out.new.items ≡ out.old.items ++ decimal number) }
{
    let mut buffer = Buffer::new();
    out.extend_from_slice(buffer.format(number).as_bytes())
}

// Appends three counts, with `+` between them.
fn push_counts(
    out: &mut Vec<u8>,
    front: usize,
    middle: usize,
    back: usize,
) -> Result<(), AllocError>
    ensures { OnOk result (out.new.items ≡ out.old.items ++ counts front middle back) }
{
    push_number(out, front)?;
    out.extend_from_slice(b"+")?;
    push_number(out, middle)?;
    out.extend_from_slice(b"+")?;
    push_number(out, back)
}

// Appends the line of the edit with this number.
pub(crate) fn push_edit_line(
    out: &mut Vec<u8>,
    number: usize,
    edited: Edited,
) -> Result<(), AllocError>
    ensures { OnOk result (out.new.items ≡ out.old.items ++ edit_line number edited) }
{
    out.extend_from_slice(b"edit ")?;
    push_number(out, number)?;
    out.extend_from_slice(b": tokens ")?;
    push_counts(
        out,
        edited.front_tokens,
        edited.cut_tokens,
        edited.back_tokens,
    )?;
    out.extend_from_slice(b" children ")?;
    push_counts(
        out,
        edited.front_children,
        edited.parsed_children,
        edited.back_children,
    )?;
    out.extend_from_slice(b"\n")
}
