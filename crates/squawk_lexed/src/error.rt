//! Lexical errors: the faults of tokens, with their ranges in the text.
ghost use Rattle.std.specs.Prelude.{◌≡◌, ◌^◌, ◌<◌, ◌≤◌, ◌+◌, ◌++◌, OnOk, IfSome, IfErr};
ghost use Rattle.squawk_events.specs.Message.{message_of};
ghost use Rattle.squawk_events.specs.Refusals.{IsOutOfMemory};
ghost use Rattle.squawk_lexer.specs.Flags.{IsCut};
ghost use Rattle.squawk_lexed.specs.FaultLists.{list_of, both_faults, IsFaultIn};
ghost use Rattle.squawk_lexed.specs.Faults.{faults};
ghost use Rattle.squawk_lexed.specs.Stored.{errors_at};

use crate::fault::{Fault, faults_of};
use squawk_events::{FrontError, message};
use squawk_lexer::Token;
use std::marker::Model;
use std::ops::Range;

/// A lexical error: a fault of a token, with its range in the text.
#[derive(Drop)]
pub struct LexError {
    start: u32,
    end: u32,
    number: u8,
}

impl Model for LexError {
    ghost use Rattle.std.specs.Prelude.{◌≤◌};
    ghost use Rattle.squawk_events.specs.declared.steps.ParseError.{ParseError};

    ghost Value = { ParseError };

    ghost view = { λ e. record { start = e.start; end = e.end; number = e.number } };

    ghost invariant = { λ e. (1 ≤ e.number) × (e.number ≤ 9) × (e.start ≤ e.end) };
}

impl LexError {
    /// Returns its range in bytes of the text.
    pub fn range(&self) -> Range<usize>
        ensures start { result.start ≡ self.now.start }
        ensures end { result.end ≡ self.now.end }
        ensures ordered { result.start ≤ result.end }
    {
        self.start as usize..self.end as usize
    }

    /// Returns the number of its message, from 1 to 9.
    pub fn number(&self) -> u8
        ensures number { result ≡ self.now.number }
        ensures from_one { 1 ≤ result }
        ensures to_nine { result ≤ 9 }
    {
        self.number
    }

    /// Returns its message.
    pub fn message(&self) -> &'static str
        ensures { result.now ≡ message_of self.now.number }
    {
        message(self.number)
    }
}

// The faults of a token, each of which lies in it.
// Inlined into every loop over tokens, however many there are: a call costs more than its work.
#[inline(always)]
fn fault_pair(token: Token) -> (Option<Fault>, Option<Fault>)
    requires cut { IsCut token }
    ensures pair { both_faults result.0 result.1 ≡ faults token }
    ensures first { IfSome result.0 (IsFaultIn token.len) }
    ensures second { IfSome result.1 (IsFaultIn token.len) }
{
    let faults = faults_of(token);
    (faults[0], faults[1])
}

// Appends the fault of a token that begins at byte `at`, if there is one.
fn push_fault(errors: &mut Vec<LexError>, at: u32, fault: Option<Fault>) -> Result<(), FrontError>
    requires lies { IfSome fault (λ f. (1 ≤ f.number) × (f.number ≤ 9) × (f.start ≤ f.end)
        × (at + f.end < 2 ^ 32)) }
    ensures errors_at { OnOk result (errors.new.items
        ≡ errors.old.items ++ errors_at at (list_of fault)) }
    ensures refusals { IfErr result IsOutOfMemory }
{
    if let Some(fault) = fault {
        errors.push(LexError {
            start: at + fault.start,
            end: at + fault.end,
            number: fault.number,
        })?;
    }
    Ok(())
}

// Appends the faults of a token that begins at byte `at`.
// Inlined into every loop over tokens, however many there are: a call costs more than its work.
#[inline(always)]
pub(crate) fn push_faults(
    errors: &mut Vec<LexError>,
    at: u32,
    token: Token,
) -> Result<(), FrontError>
    requires cut { IsCut token }
    requires fits { at + token.len < 2 ^ 32 }
    ensures errors_at { OnOk result (errors.new.items
        ≡ errors.old.items ++ errors_at at (faults token)) }
    ensures refusals { IfErr result IsOutOfMemory }
{
    let (first, second) = fault_pair(token);
    push_fault(errors, at, first)?;
    push_fault(errors, at, second)
}
