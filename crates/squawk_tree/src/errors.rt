//! The errors of a parse.
ghost use Rattle.std.specs.Prelude.{ℕ, List, [], ◌≡◌, ◌≤◌, ◌<◌, ◌+◌, ◌^◌, ◌++◌, All, drop, take, length, OnOk, IfOk, IfErr, IsTrue};
ghost use Rattle.squawk_events.specs.Refusals.{IsOutOfMemory};
ghost use Rattle.squawk_events.specs.declared.steps.StrStep.{StrStep as Given};
ghost use Rattle.squawk_lexed.specs.LexedText.{total_len};
ghost use Rattle.squawk_lexed.specs.Stored.{errors_of, errors_from};
ghost use Rattle.squawk_lexed.specs.Weave.{next_len};
ghost use Rattle.squawk_tree.specs.ChildSteps.{child_error};
ghost use Rattle.squawk_tree.specs.Walk as spec;
ghost use Rattle.squawk_tree.specs.Walk.{merged_from};

use squawk_events::{FrontError, ParseError, StrStep};
use squawk_kinds::SyntaxKind;
use squawk_lexed::{LexError, LexedStr};
use squawk_statements::ChildShape;
use std::alloc::Global;

// How far a walk over the steps is: the indices of the next token and of the next lexical error.
#[derive(Clone, Copy)]
pub(crate) struct Walk {
    pub(crate) token: usize,
    pub(crate) error: usize,
}

// Appends the lexical errors from index `from` up to the first that does not begin before `end`.
// Returns the index of that one.
fn push_errors_before(
    errors: &mut Vec<ParseError>,
    lexical: &[LexError],
    from: usize,
    end: usize,
) -> Result<usize, FrontError>
    requires within { from ≤ length lexical.now }
    requires small { All (spec.EndsBelow (2 ^ 32)) lexical.now }
    ensures ok { OnOk result (errors.new.items
        ≡ errors.old.items ++ spec.errors_before end (drop from lexical.now)) }
    ensures rest { IfOk result (λ next. drop next lexical.now
        ≡ errors_from end (drop from lexical.now)) }
    ensures within { IfOk result (λ next. next ≤ length lexical.now) }
    ensures refusals { IfErr result IsOutOfMemory }
{
    let mut next = from;
    while next < lexical.len() && lexical[next].range().start < end {
        let range = lexical[next].range();
        errors.push(ParseError {
            start: range.start as u32,
            end: range.end as u32,
            number: lexical[next].number(),
        })?;
        next += 1;
    }
    Ok(next)
}

// The same of the lexical errors of a text.
pub(crate) fn push_lexical_errors(
    errors: &mut Vec<ParseError>,
    lexed: &LexedStr<'_>,
    from: usize,
    end: usize,
) -> Result<usize, FrontError>
    requires { from ≤ length (errors_of 0 lexed.now.tokens) }
    ensures ok { OnOk result (errors.new.items
        ≡ errors.old.items ++ spec.errors_before end (drop from (errors_of 0 lexed.now.tokens))) }
    ensures rest { IfOk result (λ next. drop next (errors_of 0 lexed.now.tokens)
        ≡ errors_from end (drop from (errors_of 0 lexed.now.tokens))) }
    ensures within { IfOk result (λ next. next ≤ length (errors_of 0 lexed.now.tokens)) }
    ensures refusals { IfErr result IsOutOfMemory }
{
    // The length bounds the offsets of errors.
    let _ = lexed.len();
    push_errors_before(errors, lexed.errors(), from, end)
}

// The end of the token at an index, or the end of the text where there is none.
fn next_end(lexed: &LexedStr<'_>, token: usize) -> u32
    requires { token ≤ length lexed.now.tokens }
    ensures { result ≡ total_len (take token lexed.now.tokens)
        + next_len (drop token lexed.now.tokens) }
{
    if token < lexed.len() {
        lexed.text_range(token).end as u32
    } else {
        lexed.text_start(token) as u32
    }
}

// Appends the error of an `Error` step. Its range is that of the next token, and empty at the end
// of the text.
fn push_step_error(
    errors: &mut Vec<ParseError>,
    lexed: &LexedStr<'_>,
    token: usize,
    number: u8,
) -> Result<(), FrontError>
    requires { token ≤ length lexed.now.tokens }
    ensures ok { OnOk result (errors.new.items ≡ errors.old.items
        ++ spec.step_error (total_len (take token lexed.now.tokens))
        (drop token lexed.now.tokens) number) }
    ensures refusals { IfErr result IsOutOfMemory }
{
    let end = next_end(lexed, token);
    let start = lexed.text_start(token) as u32;
    errors.push(ParseError { start, end, number })?;
    Ok(())
}

// Appends the lexical errors before the next token, and then the error of an `Error` step. Returns
// the index of the lexical error after those.
fn push_errors_up_to(
    errors: &mut Vec<ParseError>,
    lexed: &LexedStr<'_>,
    walk: Walk,
    number: u8,
) -> Result<usize, FrontError>
    requires token { walk.token ≤ length lexed.now.tokens }
    requires error { walk.error ≤ length (errors_of 0 lexed.now.tokens) }
    ensures ok { OnOk result (errors.new.items ≡ errors.old.items
        ++ (spec.errors_before (total_len (take walk.token lexed.now.tokens))
        (drop walk.error (errors_of 0 lexed.now.tokens))
        ++ spec.step_error (total_len (take walk.token lexed.now.tokens))
        (drop walk.token lexed.now.tokens) number)) }
    ensures rest { IfOk result (λ next. drop next (errors_of 0 lexed.now.tokens)
        ≡ errors_from (total_len (take walk.token lexed.now.tokens))
        (drop walk.error (errors_of 0 lexed.now.tokens))) }
    ensures within { IfOk result (λ next. next ≤ length (errors_of 0 lexed.now.tokens)) }
    ensures refusals { IfErr result IsOutOfMemory }
{
    let start = lexed.text_start(walk.token);
    let next = push_lexical_errors(errors, lexed, walk.error, start)?;
    push_step_error(errors, lexed, walk.token, number)?;
    Ok(next)
}

// Appends the error of a child of the root of this shape if it is an unknown statement, and the
// lexical errors before it. Returns the index of the lexical error after those.
pub(crate) fn push_child_errors(
    errors: &mut Vec<ParseError>,
    lexed: &LexedStr<'_>,
    walk: Walk,
    shape: &ChildShape,
) -> Result<usize, FrontError>
    requires token { walk.token ≤ length lexed.now.tokens }
    requires error { walk.error ≤ length (errors_of 0 lexed.now.tokens) }
    ensures ok { IfOk result (λ next. (at : ℕ) (rest : List Given)
        → errors.new.items ++ merged_from lexed.now.tokens walk.token next rest
        ≡ errors.old.items ++ merged_from lexed.now.tokens walk.token walk.error
        (child_error at shape.now.node ++ rest)) }
    ensures within { IfOk result (λ next. next ≤ length (errors_of 0 lexed.now.tokens)) }
    ensures refusals { IfErr result IsOutOfMemory }
{
    match shape.node {
        Some(SyntaxKind::ERROR) => push_errors_up_to(errors, lexed, walk, 10),
        _ => Ok(walk.error),
    }
}

// The errors of a parse: the faults of the tokens and the `Error` steps, token by token.
pub(crate) fn errors_of_steps(
    alloc: Global,
    lexed: &LexedStr<'_>,
    steps: &[StrStep],
) -> Result<Vec<ParseError>, FrontError>
    requires { IsTrue (spec.covers 0 lexed.now.tokens steps.now) }
    ensures ok { IfOk result (λ errors.
        errors.items ≡ spec.errors_by_step 0 lexed.now.tokens steps.now) }
    ensures refusals { IfErr result IsOutOfMemory }
{
    let mut errors = Vec::new(alloc);
    let mut walk = Walk { token: 0, error: 0 };
    for step in steps {
        match *step {
            StrStep::Token { .. } => walk.token += 1,
            StrStep::Error { number, .. } => {
                walk.error = push_errors_up_to(&mut errors, lexed, walk, number)?;
            }
            StrStep::Enter { .. } | StrStep::Exit => {}
        }
    }
    let end = lexed.text_start(lexed.len());
    push_lexical_errors(&mut errors, lexed, walk.error, end)?;
    Ok(errors)
}

// The errors of a parse without `Error` steps: the faults of the tokens.
pub(crate) fn lexical_errors(
    alloc: Global,
    lexed: &LexedStr<'_>,
) -> Result<Vec<ParseError>, FrontError>
    ensures ok { IfOk result (λ errors. errors.items ≡ errors_of 0 lexed.now.tokens) }
    ensures refusals { IfErr result IsOutOfMemory }
{
    let mut errors = Vec::new(alloc);
    let end = lexed.text_start(lexed.len());
    push_lexical_errors(&mut errors, lexed, 0, end)?;
    Ok(errors)
}
