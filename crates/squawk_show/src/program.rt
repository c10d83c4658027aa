//! The whole program, over a source and two sinks.
ghost use Rattle.std.specs.Prelude.{◌⊎◌, ◌≡◌, ◌≢◌, ◌≤◌, ◌↔◌, ℕ, length, IfOk, IfErr, OnOk, IsErr, IsErrOf, IsOkUnless, IsSomeAnd, Ok, Err};
ghost use Rattle.squawk_events.specs.Limit.{limit};
ghost use Rattle.squawk_show.specs.Command.{asks, command_of, request_of, IsWithinPieces};
ghost use Rattle.squawk_show.specs.Edge.{AppendsAll, AppendsPrefix, HasCause, TakesAtMost, SinkFaultRose, SourceFaultRose};
ghost use Rattle.squawk_show.specs.Made.{most_pieces};
ghost use Rattle.squawk_show.specs.Run as spec;
ghost use Rattle.squawk_show.specs.Run.{HasAddedClauses, HasLeavesOf, IsDivided, IsReadToEnd, WritesErrorLine};
ghost use Rattle.squawk_tree.specs.Tree.{IsTree};

use crate::command::parse_words;
use crate::forms::prepare_form;
use crate::made::make_text;
use crate::refusal::write_error_line;
use crate::replay::prepare_replay;
use crate::summary::make_summary;
use crate::{
    Command, Failed, Form, Reading, ReportMemory, RunError, Sink, Source, write_report, write_whole,
};
use squawk_clauses::laws::clause_parses_are_plain;
use squawk_events::FrontError;
use squawk_tree::{Parse, parse_divided};
use std::alloc::Global;

/// How a run ended: the status that the program ends with, and the tree, or the error.
#[derive(Drop)]
pub struct Shown {
    /// 0 where the whole output was written, else the status of the error.
    pub status: u8,
    /// The tree that the command made, or why no whole output was written.
    pub outcome: Result<Parse, RunError>,
}

// What a command makes before it writes: its tree, the text that it writes first, and the memory
// for the report of the tree, if the report follows.
#[derive(Drop)]
pub(crate) struct Prepared {
    pub(crate) parse: Parse,
    pub(crate) text: Vec<u8>,
    pub(crate) memory: Option<ReportMemory>,
}

// Makes a text, its tree and its summary.
fn prepare_summary(alloc: Global, reading: Reading, pieces: u32) -> Result<Prepared, RunError>
    requires { pieces ≤ most_pieces }
    ensures summarized { IfOk result (spec.IsSummarized reading pieces) }
    ensures refusals { IsOkUnless result (RunError.Front FrontError.OutOfMemory) }
{
    let text = make_text(alloc, pieces)?;
    let parse = parse_divided(alloc, text.as_str(), reading.strings, reading.division)?;
    drop(text);
    let text = make_summary(alloc, &parse)?;
    Ok(Prepared {
        parse,
        text,
        memory: None,
    })
}

// Does all that a command does before it writes.
fn prepare<S: Source>(
    alloc: Global,
    reading: Reading,
    command: Command,
    source: &mut S,
) -> Result<Prepared, RunError>
    requires { IsWithinPieces command }
    ensures prepared { IfOk result (spec.IsPrepared (asks reading command)
        (S.view source.old) (S.view source.new)) }
    ensures refusals { IfErr result
        (spec.IsPrepareRefusal command (S.view source.old) (S.view source.new)) }
    ensures unread { ¬ (spec.ReadsSource (Ok command)) → source.new ≡ source.old }
    ensures taken { result ≢ Err (RunError.Front FrontError.TooLong)
        → TakesAtMost (S.view source.old) (S.view source.new) limit }
{
    match command {
        Command::Show { form } => prepare_form(alloc, reading, form, source),
        Command::Make { pieces } => prepare_summary(alloc, reading, pieces),
        Command::Replay => prepare_replay(alloc, reading, source),
    }
}

// Writes a text, and then the report of a tree, if a `ReportMemory` is given. Allocates nothing.
fn write_output<K: Sink>(
    out: &mut K,
    text: &[u8],
    parse: &Parse,
    memory: Option<ReportMemory>,
) -> Result<(), Failed>
    ensures ok { OnOk result (AppendsAll (K.view out.old) (K.view out.new)
        (spec.prepared_output text.now memory parse.now)) }
    ensures prefix { AppendsPrefix (K.view out.old) (K.view out.new)
        (spec.prepared_output text.now memory parse.now) }
    ensures cause { HasCause (K.view out.old).faults (K.view out.new).faults result }
{
    match memory {
        Some(memory) => write_report(out, text, parse, memory),
        None => write_whole(out, text),
    }
}

// Runs the command that the words name.
fn run_command<S: Source, K: Sink>(
    alloc: Global,
    words: &[String],
    source: &mut S,
    out: &mut K,
) -> Result<Parse, RunError>
    ensures ends { spec.EndsWith (record {
      request = request_of words.now;
      source_before = S.view source.old;
      source_after = S.view source.new;
      out_before = K.view out.old;
      out_after = K.view out.new;
    }) result }
    ensures bad_words { IsErr (command_of words.now) → IsErrOf result RunError.BadWords }
    ensures unread { ¬ (spec.ReadsSource (command_of words.now)) → source.new ≡ source.old }
    ensures untouched { IfErr result (λ e. e ≢ RunError.WriteFault → out.new ≡ out.old) }
    ensures taken { result ≢ Err (RunError.Front FrontError.TooLong)
        → TakesAtMost (S.view source.old) (S.view source.new) limit }
{
    let (reading, command) = parse_words(words)?;
    let Prepared {
        parse,
        text,
        memory,
    } = prepare(alloc, reading, command, source)?;
    match write_output(out, &text, &parse, memory) {
        Ok(()) => Ok(parse),
        Err(_) => Err(RunError::WriteFault),
    }
}

/// Runs the program: makes the tree of a text, writes the output of the command, and returns how
/// that ended.
///
/// `words` are those of the command line without the program's name: the options, and then the
/// command. Without a command the text is what `source` has left, and the output is the report of
/// its tree. With `split` it is a line for each piece of that text; with `quote`, SQL that has the
/// text as its value; with `squeeze`, the text with one character for each run of white space and
/// comments; with `clauses`, the report of a tree that also has the clauses of `select` statements.
/// With `make` and a number from 1 to 100000 the text is made, the output is a summary,
/// and the source is not read. With `replay` what `source` has left is a script of edits of a text
/// that is empty at first, and the output is a line for each edit, and then the report of the last
/// tree.
///
/// With the option `--backslash` a backslash escapes the next character of a plain string. With
/// `--grouped` a semicolon in parentheses ends no statement. Either may be left out; `--backslash`
/// is the first of both.
///
/// All that the output is made from is there before its first byte is written to `out`, and writing
/// allocates nothing: no error but a fault of `out` comes after that. After an error its line is
/// written to `err`, whose faults change nothing.
pub fn run<S: Source, K: Sink, E: Sink>(
    alloc: Global,
    words: &[String],
    source: &mut S,
    out: &mut K,
    err: &mut E,
) -> Shown
    ensures status { result.status ≡ spec.status_of result.outcome }

    // With status 0 `out` took exactly the output of the command for its input and the tree.
    ensures written { IfOk result.outcome
        (spec.Writes (request_of words.now) (S.view source.old) (K.view out.old) (K.view out.new)) }
    ensures tree { IfOk result.outcome (spec.IsTreeOf (request_of words.now) (S.view source.old)) }
    ensures balanced { IfOk result.outcome IsTree }
    ensures end { OnOk result.outcome (IsReadToEnd (command_of words.now) (S.view source.new)) }
    ensures quiet { result.status ≡ 0 → err.new ≡ err.old }

    // The leaves of that tree are the tokens of the text, and the root's children those into which
    // the tokens are divided.
    ensures leaves { IfOk result.outcome (HasLeavesOf (request_of words.now) (S.view source.old)) }
    ensures children { IfOk result.outcome (IsDivided (request_of words.now) (S.view source.old)) }

    // With `clauses` that tree is the one without the command, but for the nodes of clauses.
    ensures clauses { command_of words.now ≡ Ok (Command.Show Form.Clauses)
        → IfOk result.outcome (HasAddedClauses (request_of words.now) (S.view source.old)) }

    // When each error comes.
    ensures refusals { IfErr result.outcome (spec.IsRunRefusal (record {
      request = request_of words.now;
      source_before = S.view source.old;
      source_after = S.view source.new;
      out_before = K.view out.old;
      out_after = K.view out.new;
    })) }
    ensures bad_words { IsErrOf result.outcome RunError.BadWords ↔ IsErr (command_of words.now) }

    // What an error leaves.
    ensures unread { ¬ (spec.ReadsSource (command_of words.now)) → source.new ≡ source.old }
    ensures taken { result.status ≢ 5 → TakesAtMost (S.view source.old) (S.view source.new) limit }
    ensures untouched { IfErr result.outcome (λ e. e ≢ RunError.WriteFault → out.new ≡ out.old) }
    ensures error_line { IfErr result.outcome (WritesErrorLine (E.view err.old) (E.view err.new)) }

    // Without a fault of the source, the input decides the status unless memory runs out. Each
    // clause has one case: an accepted input, where `out` has no fault either; bytes within the
    // limit that are not UTF-8; more bytes than the limit; a text that is no script; a script with
    // an unlawful range; a text that is too long to quote.
    ensures complete { spec.HasAcceptedInput (command_of words.now) (S.view source.old)
        → ¬ (spec.SourceFailed (command_of words.now) (S.view source.old) (S.view source.new))
        → ¬ (SinkFaultRose (K.view out.old) (K.view out.new))
        → (result.status ≡ 0) ⊎ (result.status ≡ 6) }
    ensures invalid { spec.Reads spec.IsInvalidText (command_of words.now) (S.view source.old)
        → ¬ (spec.SourceFailed (command_of words.now) (S.view source.old) (S.view source.new))
        → (result.status ≡ 4) ⊎ (result.status ≡ 6) }
    ensures over_limit { spec.Reads spec.IsOverLimit (command_of words.now) (S.view source.old)
        → ¬ (spec.SourceFailed (command_of words.now) (S.view source.old) (S.view source.new))
        → (result.status ≡ 5) ⊎ (result.status ≡ 6) }
    ensures bad_script { command_of words.now ≡ Ok Command.Replay
        → IsSomeAnd (S.view source.old).left spec.IsBadScript
        → ¬ (SourceFaultRose (S.view source.old) (S.view source.new))
        → (result.status ≡ 8) ⊎ (result.status ≡ 6) }
    ensures bad_range { command_of words.now ≡ Ok Command.Replay
        → IsSomeAnd (S.view source.old).left spec.HasBadRange
        → ¬ (SourceFaultRose (S.view source.old) (S.view source.new))
        → (result.status ≡ 9) ⊎ (result.status ≡ 6) }
    ensures long_quotes { command_of words.now ≡ Ok (Command.Show Form.Quotes)
        → IsSomeAnd (S.view source.old).left spec.IsTooLongToQuote
        → ¬ (SourceFaultRose (S.view source.old) (S.view source.new))
        → (result.status ≡ 5) ⊎ (result.status ≡ 6) }
{
    clause_parses_are_plain();
    match run_command(alloc, words, source, out) {
        Ok(parse) => Shown {
            status: 0,
            outcome: Ok(parse),
        },
        Err(error) => {
            write_error_line(err, error);
            Shown {
                status: error.status(),
                outcome: Err(error),
            }
        }
    }
}
