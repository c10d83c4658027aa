//! The line that `run` writes to `err` after an error.
ghost use Rattle.std.specs.Prelude.{◌≡◌, ◌≤◌, ◌+◌, ◌++◌, ◌∷◌, [], length};
ghost use Rattle.squawk_show.specs.Outcome.{error_line, error_number};
ghost use Rattle.squawk_show.specs.Run.{WritesErrorLine};

use crate::line_buffer::LineBuffer;
use crate::{RunError, Sink, write_whole};

// Prepends the number in the message of an error, if it has one.
fn prepend_error_number(line: &mut LineBuffer, error: RunError)
    requires { 20 + length line.old ≤ 128 }
    ensures line { line.new ≡ error_number error ++ line.old }
    ensures len { length line.new ≤ 20 + length line.old }
{
    match error {
        RunError::NotUtf8 { at } | RunError::BadScript { at } => line.prepend_number(at),
        RunError::BadWords | RunError::ReadFault | RunError::Front(_) | RunError::WriteFault => {}
    }
}

// The line for an error.
fn error_line(error: RunError) -> LineBuffer
    ensures { result ≡ error_line error }
{
    let mut line = LineBuffer::new();
    line.prepend(b"\n");
    prepend_error_number(&mut line, error);
    line.prepend(error.message().as_bytes());
    line
}

// Writes the line for an error, and allocates nothing. A fault of the sink is ignored; a prefix of
// the line was written then.
pub(crate) fn write_error_line<E: Sink>(err: &mut E, error: RunError)
    ensures { WritesErrorLine (E.view err.old) (E.view err.new) error }
{
    let _ = write_whole(err, error_line(error).as_bytes());
}
