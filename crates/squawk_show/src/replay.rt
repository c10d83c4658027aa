//! The command `replay`.
ghost use Rattle.std.specs.Prelude.{◌≡◌, ◌≢◌, ◌≤◌, length, IfOk, IfErr, Err};
ghost use Rattle.squawk_cut.specs.PlainTells.{plain_tells};
ghost use Rattle.squawk_events.specs.Limit.{limit};
ghost use Rattle.squawk_events.specs.Refusals.{IsOutOfMemory};
ghost use Rattle.squawk_replay.specs.Replay.{front_tells};
ghost use Rattle.squawk_show.specs.Command.{asks};
ghost use Rattle.squawk_show.specs.Edge.{TakesAtMost};
ghost use Rattle.squawk_show.specs.Run as spec;
ghost use Rattle.squawk_tree.specs.Tree.{IsTree};

use crate::forms::with_report;
use crate::program::Prepared;
use crate::{Command, Reading, RunError, Source, read_all};
use simdutf8::compat::from_utf8;
use squawk_cut::PlainFront;
use squawk_cut::laws::plain_fronts_parse;
use squawk_document::Document;
use squawk_events::{FrontError, LIMIT};
use squawk_replay::{Replayed, replay_in};
use squawk_script::Script;
use squawk_tree::Parse;
use squawk_tree::laws::parses_have_the_tokens;
use std::alloc::Global;

// Makes the tree of the text of a document, whose front tells tokens and children by a reading.
fn parse_document(
    alloc: Global,
    document: &Document<PlainFront>,
    reading: Reading,
) -> Result<Parse, FrontError>
    requires short { length document.now.text ≤ limit }
    requires plain { front_tells document.now.front
        ≡ plain_tells reading.strings reading.division }
    ensures parsed { IfOk result (spec.IsParsed reading document.now.text) }
    ensures balanced { IfOk result IsTree }
    ensures refusals { IfErr result IsOutOfMemory }
{
    plain_fronts_parse();
    parses_have_the_tokens();
    // The text of a document is UTF-8 and within the limit: the call says so to the prover.
    let _text = document.text();
    document.parse(alloc)
}

// Applies a script to the empty text. Returns the tree of the last text and the lines of the edits.
fn replay_script(
    alloc: Global,
    reading: Reading,
    script: &Script<'_>,
) -> Result<(Parse, Vec<u8>), RunError>
    requires { spec.IsGoodScript script.now }
    ensures replayed { IfOk result (λ r. spec.IsReplayed reading script.now r.0 r.1.items) }
    ensures refusals { IfErr result (spec.IsReplayRefusal script.now) }
{
    let Replayed { document, lines } = replay_in(alloc, script, reading.strings, reading.division)?;
    let parse = parse_document(alloc, &document, reading)?;
    Ok((parse, lines))
}

// Checks that bytes are a script, and then applies it.
fn replay_bytes(alloc: Global, reading: Reading, bytes: &[u8]) -> Result<(Parse, Vec<u8>), RunError>
    requires { length bytes.now ≤ limit }
    ensures replayed { IfOk result (λ r. spec.IsReplayed reading bytes.now r.0 r.1.items) }
    ensures refusals { IfErr result (spec.IsReplayRefusal bytes.now) }
{
    match from_utf8(bytes) {
        Ok(text) => match Script::new(text) {
            Ok(script) => replay_script(alloc, reading, &script),
            Err(error) => Err(RunError::BadScript { at: error.at }),
        },
        Err(error) => Err(RunError::NotUtf8 {
            at: error.valid_up_to(),
        }),
    }
}

// Reads a script to its end, and makes the tree of its last text and the lines of its edits.
pub(crate) fn prepare_replay<S: Source>(
    alloc: Global,
    reading: Reading,
    source: &mut S,
) -> Result<Prepared, RunError>
    ensures prepared { IfOk result (spec.IsPrepared (asks reading Command.Replay)
        (S.view source.old) (S.view source.new)) }
    ensures refusals { IfErr result
        (spec.IsPrepareRefusal Command.Replay (S.view source.old) (S.view source.new)) }
    ensures taken { result ≢ Err (RunError.Front FrontError.TooLong)
        → TakesAtMost (S.view source.old) (S.view source.new) limit }
{
    let bytes = read_all(alloc, source, LIMIT)?;
    let (parse, text) = replay_bytes(alloc, reading, &bytes)?;
    Ok(with_report(alloc, parse, text)?)
}
