//! Parses of texts and of their tokens.
ghost use Rattle.std.specs.Prelude.{◌≡◌, ◌<◌, ◌↔◌, length, IfOk, IfErr, IsErrOf, IsTrue, List, ℕ};
ghost use Rattle.squawk_events.specs.Limit.{limit};
ghost use Rattle.squawk_events.specs.declared.steps.Step.{Step};
ghost use Rattle.squawk_events.specs.Refusals.{IsOutOfMemory, MayRefuse};
ghost use Rattle.squawk_lexed.specs.LexedText.{are_sound, lexed_text};
ghost use Rattle.squawk_lexed.specs.Weave.{kinds_without_trivia};
ghost use Rattle.squawk_lexer.specs.declared.token.Strings.TheVariants.{Standard};
ghost use Rattle.squawk_statements.specs.Plain.{plain};
ghost use Rattle.squawk_statements.specs.declared.division.Division.TheVariants.{Flat};
ghost use Rattle.squawk_tree.specs.ChildSteps.{IsWeaveOf, IsWoven};
ghost use Rattle.squawk_tree.specs.Parses.{ParsesText, ParsesTokens};
ghost use Rattle.squawk_tree.specs.Walk.{covers, errors_by_step};

use crate::child_steps::parse_statements;
use crate::errors::{errors_of_steps, lexical_errors};
use crate::laws::{children_join, parses_are_trees};
use crate::parse::TreeParts;
use crate::{Parse, TreeSink};
use squawk_events::{EntryPoint, FrontError, Grammar, ParseError};
use squawk_lexed::LexedStr;
use squawk_lexed::laws::leaves_keep_roles;
use squawk_lexer::Strings;
use squawk_statements::Division;
use std::alloc::Global;

// Weaves these tokens and the output of a grammar for them into a sink.
fn weave_into_sink<G: Grammar>(
    alloc: Global,
    lexed: &LexedStr<'_>,
    grammar: &G,
) -> Result<TreeSink, FrontError>
    ensures steps { IfOk result (λ sink. IsWeaveOf lexed.now.tokens
        (G.told grammar.now (kinds_without_trivia lexed.now.tokens)) sink.steps) }
    ensures sound { IsTrue (are_sound lexed.now.tokens) }
    ensures refusals { IfErr result IsOutOfMemory }
{
    let count = lexed.len();
    let input = lexed.to_input(alloc)?;
    let output = EntryPoint::SourceFile.parse(alloc, &input, grammar)?;
    // No more than one step for each of the grammar and one for each token.
    let mut sink = TreeSink::with_room(alloc, count.saturating_add(output.steps().len()));
    let _ = lexed.intersperse_trivia(&output, &mut sink)?;
    Ok(sink)
}

// The errors of the steps in a sink. No walk over them is needed if no `Error` is among them.
fn errors_in(
    alloc: Global,
    lexed: &LexedStr<'_>,
    sink: &TreeSink,
) -> Result<Vec<ParseError>, FrontError>
    requires sound { IsTrue (are_sound lexed.now.tokens) }
    requires covered { IsTrue (covers 0 lexed.now.tokens sink.now.steps) }
    ensures ok { IfOk result (λ errors.
        errors.items ≡ errors_by_step 0 lexed.now.tokens sink.now.steps) }
    ensures refusals { IfErr result IsOutOfMemory }
{
    if sink.has_no_errors() {
        lexical_errors(alloc, lexed)
    } else {
        errors_of_steps(alloc, lexed, sink.steps())
    }
}

// The steps, the errors and the length of the parse of these tokens. A sink has received its steps.
fn tree_parts(alloc: Global, lexed: &LexedStr<'_>, sink: TreeSink) -> Result<TreeParts, FrontError>
    requires { IsWoven lexed.now.tokens sink.steps }
    ensures parse { (told : List ℕ → List Step)
        → IsWeaveOf lexed.now.tokens (told (kinds_without_trivia lexed.now.tokens)) sink.steps
        → ParsesTokens told lexed.now result }
    ensures sound { IsTrue (are_sound lexed.now.tokens) }
    ensures refusals { IfErr result IsOutOfMemory }
{
    let len = lexed.text_start(lexed.len()) as u32;
    let errors = errors_in(alloc, lexed, &sink)?;
    let steps = sink.into_steps();
    // Each token has a step.
    let node_steps = steps.len().saturating_sub(lexed.len());
    Ok(TreeParts {
        steps,
        errors,
        len,
        node_steps,
    })
}

// The parts of the parse of these tokens by a grammar.
fn parts_by<G: Grammar>(
    alloc: Global,
    lexed: &LexedStr<'_>,
    grammar: &G,
) -> Result<TreeParts, FrontError>
    ensures parse { ParsesTokens (G.told grammar.now) lexed.now result }
    ensures sound { IsTrue (are_sound lexed.now.tokens) }
    ensures refusals { IfErr result IsOutOfMemory }
{
    let sink = weave_into_sink(alloc, lexed, grammar)?;
    tree_parts(alloc, lexed, sink)
}

/// Parses the tokens of a text by a grammar. The only error is `OutOfMemory`.
///
/// The steps of the parse are those of the grammar without `Error` steps, with the trivia between
/// them. Its errors are, at each token, first the `Error` steps at its start, with the token's
/// range in bytes, and then its faults; `Error` steps at the end of the text come last, with an
/// empty range.
pub fn parse_lexed<G: Grammar>(
    alloc: Global,
    lexed: &LexedStr<'_>,
    grammar: &G,
) -> Result<Parse, FrontError>
    ensures parse { ParsesTokens (G.told grammar.now) lexed.now result }
    ensures sound { IsTrue (are_sound lexed.now.tokens) }
    ensures refusals { IfErr result IsOutOfMemory }
{
    let parts = parts_by(alloc, lexed, grammar)?;
    Ok(Parse::new(alloc, parts)?)
}

/// Parses a text by a grammar, as `parse_lexed` does; `strings` says how plain strings are read.
///
/// The errors are `TooLong`, exactly if the text has more than 4294967295 bytes, and `OutOfMemory`.
/// `TooLong` is returned before anything is allocated.
pub fn parse_with_in<G: Grammar>(
    alloc: Global,
    text: &str,
    strings: Strings,
    grammar: &G,
) -> Result<Parse, FrontError>
    ensures parse { ParsesTokens (G.told grammar.now) (lexed_text strings text.now) result }
    ensures too_long { IsErrOf result FrontError.TooLong ↔ (limit < length text.now) }
    ensures refusals { IfErr result (MayRefuse text.now) }
{
    let lexed = LexedStr::new_in(alloc, text, strings)?;
    let parts = parts_by(alloc, &lexed, grammar)?;
    // The tokens are freed before the ranges are found.
    drop(lexed);
    Ok(Parse::new(alloc, parts)?)
}

/// Parses a text by a grammar, where a backslash in a plain string is an ordinary character.
/// The errors are those of `parse_with_in`.
pub fn parse_with<G: Grammar>(alloc: Global, text: &str, grammar: &G) -> Result<Parse, FrontError>
    ensures parse { ParsesTokens (G.told grammar.now) (lexed_text Standard text.now) result }
    ensures too_long { IsErrOf result FrontError.TooLong ↔ (limit < length text.now) }
    ensures refusals { IfErr result (MayRefuse text.now) }
{
    parse_with_in(alloc, text, Strings::Standard, grammar)
}

/// Parses a text into statements (`docs/STATEMENTS.md`). `strings` says how plain strings are read,
/// and `division` whether a semicolon between parentheses ends a statement.
///
/// Each child of the root is a statement, a lone semicolon or psql command, or a leaf: a trivia
/// token (white space, a leading byte order mark, a comment) outside of statements. The errors in
/// the text are the faults of its tokens, and one for each statement that does not begin with known
/// words.
///
/// Every UTF-8 text of at most 4294967295 bytes parses. The errors are `TooLong`, exactly if the
/// text is longer, and `OutOfMemory`. `TooLong` is returned before anything is allocated.
pub fn parse_divided(
    alloc: Global,
    text: &str,
    strings: Strings,
    division: Division,
) -> Result<Parse, FrontError>
    ensures { ParsesText strings division text.now result }
{
    leaves_keep_roles();
    children_join();
    parses_are_trees();
    let lexed = LexedStr::new_in(alloc, text, strings)?;
    parse_statements(alloc, lexed, division)
}

/// Parses a text into statements, where each semicolon ends one; `strings` says how plain
/// strings are read. The errors are those of `parse_divided`.
pub fn parse_source_in(alloc: Global, text: &str, strings: Strings) -> Result<Parse, FrontError>
    ensures { ParsesText strings Flat text.now result }
{
    parse_divided(alloc, text, strings, Division::Flat)
}

/// Parses a text into statements, where each semicolon ends one, and a backslash in a plain
/// string is an ordinary character. The errors are those of `parse_divided`.
pub fn parse_source(alloc: Global, text: &str) -> Result<Parse, FrontError>
    ensures { ParsesText Standard Flat text.now result }
{
    parse_source_in(alloc, text, Strings::Standard)
}
