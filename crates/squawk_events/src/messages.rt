//! The messages of errors.
ghost use Rattle.std.specs.Prelude.{◌≡◌, ◌≤◌, length};
ghost use Rattle.squawk_events.specs.Message.{message_of};

/// Returns the message with this number, from 1 to 10. It has at most 40 bytes.
///
/// The numbers 1 to 9 are faults of tokens; 10 is a statement that no row of the opening table
/// fits.
pub fn message(number: u8) -> &'static str
    requires from_one { 1 ≤ number }
    requires to_ten { number ≤ 10 }
    ensures text { result.now ≡ message_of number }
    ensures short { length result.now ≤ 40 }
{
    match number {
        1 => "unknown character",
        2 => "unterminated block comment",
        3 => "unterminated string",
        4 => "unterminated quoted identifier",
        5 => "missing digits after base prefix",
        6 => "missing digits in exponent",
        7 => "trailing junk after number",
        8 => "missing digits in parameter",
        9 => "trailing junk after parameter",
        _ => "unknown statement",
    }
}
