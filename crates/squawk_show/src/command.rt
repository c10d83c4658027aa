//! The commands of the program, and the words of its command line.
ghost use Rattle.std.specs.Prelude.{◌≡◌, IfOk, IfErr, IsErr, IsOkUnless};
ghost use Rattle.squawk_show.specs.Command.{asks, command_of, named_command, make_command, request_of, word_command, IsWithinPieces};

use crate::made::MAX_PIECES;
use crate::options::parse_options;
use crate::{Reading, RunError};

/// What the program writes of a text that it reads. Public for contracts.
#[derive(Clone, Copy, Debug, PartialEq, Eq)]
pub enum Form {
    /// The report of its tree: without a word.
    Report,
    /// A line for each of its pieces, which are statements, psql commands, COPY data and the gaps
    /// between them: `split`.
    Pieces,
    /// SQL that has the text as its value, as a string constant, as a dollar-quoted string and as a
    /// quoted identifier: `quote`.
    Quotes,
    /// The text with one character for each run of white space and comments: `squeeze`.
    Squeezed,
    /// The report of its tree with the clauses of `select` statements: `clauses`.
    Clauses,
}

/// A command of the program. Public for contracts: `run` reads it from its words.
#[derive(Clone, Copy, Debug, PartialEq, Eq)]
pub enum Command {
    /// Reads a text and writes a form of it. Its word is that of the form.
    Show { form: Form },
    /// Makes a text of `pieces` pieces, from 1 to 100000, and writes the summary of its tree. Its
    /// words are `make` and the number in decimal digits, without leading zeros.
    Make { pieces: u32 },
    /// Reads a script of edits, applies it to the empty text, and writes a line for each edit and
    /// then the report of the last tree. Its word is `replay`.
    Replay,
}

// The command `make` with this word after it.
fn parse_make(count: &str) -> Result<Command, RunError>
    ensures command { result ≡ make_command count.now }
    ensures bad_words { IsOkUnless result RunError.BadWords }
    ensures within { IfOk result IsWithinPieces }
{
    // `parse` also takes a sign and leading zeros.
    if count.is_empty() || count.as_bytes()[0] <= b'0' {
        return Err(RunError::BadWords);
    }
    match count.parse::<u32>() {
        Ok(pieces) if pieces <= MAX_PIECES => Ok(Command::Make { pieces }),
        _ => Err(RunError::BadWords),
    }
}

// The command of one word.
fn parse_word(word: &str) -> Result<Command, RunError>
    ensures command { result ≡ word_command word.now }
    ensures bad_words { IsOkUnless result RunError.BadWords }
    ensures within { IfOk result IsWithinPieces }
{
    let form = if word == "split" {
        Form::Pieces
    } else if word == "quote" {
        Form::Quotes
    } else if word == "squeeze" {
        Form::Squeezed
    } else if word == "clauses" {
        Form::Clauses
    } else if word == "replay" {
        return Ok(Command::Replay);
    } else {
        return Err(RunError::BadWords);
    };
    Ok(Command::Show { form })
}

// Parses the words of the command line after its options.
fn parse_command(words: &[String]) -> Result<Command, RunError>
    ensures command { result ≡ named_command words.now }
    ensures bad_words { IsOkUnless result RunError.BadWords }
    ensures within { IfOk result IsWithinPieces }
{
    match words.len() {
        0 => Ok(Command::Show { form: Form::Report }),
        1 => parse_word(words[0].as_str()),
        2 if words[0].as_str() == "make" => parse_make(words[1].as_str()),
        _ => Err(RunError::BadWords),
    }
}

// Parses the words of the command line, which leave out the program's name: first the options, and
// then the command.
#[tactic(auto, unfolding(crate::specs::Command::request_of))]
pub(crate) fn parse_words(words: &[String]) -> Result<(Reading, Command), RunError>
    ensures request { IfOk result (λ r. request_of words.now ≡ asks r.0 r.1) }
    ensures no_command { IfErr result (λ _. IsErr (command_of words.now)) }
    ensures bad_words { IsOkUnless result RunError.BadWords }
    ensures within { IfOk result (λ r. IsWithinPieces r.1) }
{
    let (reading, rest) = parse_options(words);
    let command = parse_command(rest)?;
    Ok((reading, command))
}
