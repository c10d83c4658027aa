//! The parse of a text.
ghost use Rattle.std.specs.Prelude.{◌≡◌, ◌≤◌, ◌<◌, ◌↔◌, ◌⊎◌, IsUtf8, IfSome, IsNone, length};
ghost use Rattle.squawk_events.specs.Limit.{limit};
ghost use Rattle.squawk_c.specs.Arrays.{IsPut};
ghost use Rattle.squawk_c.specs.Options.{reading};
ghost use Rattle.squawk_c.specs.Parse.{step_records, error_records};
ghost use Rattle.squawk_c.specs.Statuses.{IsAnswered, IsParseStatus};

use crate::errors::{SquawkError, put_errors};
use crate::options::reading_of;
use crate::status::{ARRAY_TOO_SMALL, BAD_ARGUMENT, NOT_UTF8, OK, OUT_OF_MEMORY, TOO_LONG};
use crate::steps::{SquawkStep, put_steps};
use crate::text::LIMIT;
use squawk_events::FrontError;
use squawk_tree::parse_divided;
use std::alloc::Global;

/// Parses a text into statements (`docs/STATEMENTS.md`). Writes the steps of its tree and its
/// errors to the fronts of two arrays.
///
/// The counts become the numbers of the steps and of the errors. An array that has room for all of
/// its own is written; the other one stays as it was. The status is 0 if both were written, and 12
/// if not.
///
/// Otherwise both arrays stay as they were, the counts become 0, and the status is the first that
/// fits: 5 (too long), 4 (not UTF-8), 2 (unknown options) or 6 (out of memory).
#[unsafe(no_mangle)]
pub extern "C" fn squawk_parse(
    alloc: Global,
    text: &[u8],
    options: u32,
    steps: &mut [SquawkStep],
    step_count: &mut usize,
    errors: &mut [SquawkError],
    error_count: &mut usize,
) -> u32
    ensures steps { IsAnswered result → IfSome (reading options)
        (λ r. IsPut (step_records r text.now) steps.old steps.new step_count.new) }
    ensures errors { IsAnswered result → IfSome (reading options)
        (λ r. IsPut (error_records r text.now) errors.old errors.new error_count.new) }
    ensures whole { result ≡ 0 → (step_count.new ≤ length steps.old)
        × (error_count.new ≤ length errors.old) }
    ensures too_small { result ≡ 12 → (length steps.old < step_count.new)
        ⊎ (length errors.old < error_count.new) }
    ensures too_long { (result ≡ 5) ↔ (limit < length text.now) }
    ensures not_utf8 { (result ≡ 4) ↔ ((length text.now ≤ limit) × ¬ (IsUtf8 text.now)) }
    ensures bad_argument { (result ≡ 2) ↔ ((length text.now ≤ limit) × IsUtf8 text.now
        × IsNone (reading options)) }
    ensures refused { ¬ (IsAnswered result) → (steps.new ≡ steps.old) × (errors.new ≡ errors.old)
        × (step_count.new ≡ 0) × (error_count.new ≡ 0) }
    ensures refusals { IsParseStatus result }
{
    *step_count = 0;
    *error_count = 0;
    if text.len() > LIMIT {
        return TOO_LONG;
    }
    let Ok(text) = std::str::from_utf8(text) else {
        return NOT_UTF8;
    };
    let Some(reading) = reading_of(options) else {
        return BAD_ARGUMENT;
    };
    let parse = match parse_divided(alloc, text, reading.strings, reading.division) {
        Ok(parse) => parse,
        Err(FrontError::OutOfMemory) => return OUT_OF_MEMORY,
        Err(FrontError::TooLong | FrontError::BadRange) => unreachable!(),
    };
    *step_count = put_steps(&parse, steps);
    *error_count = put_errors(&parse, errors);
    if *step_count > steps.len() || *error_count > errors.len() {
        return ARRAY_TOO_SMALL;
    }
    OK
}
