//! The options of the program: how it reads texts.
ghost use Rattle.std.specs.Prelude.{◌≡◌};
ghost use Rattle.squawk_show.specs.Command.{has_option, without_option, reading_of, without_options};

use squawk_tree::{Division, Strings};

/// How the program reads texts. Public for contracts: `run` reads it from its words.
#[derive(Clone, Copy, Debug, PartialEq, Eq)]
pub struct Reading {
    /// How plain strings are read: `Backslash` with the option `--backslash`.
    pub strings: Strings,
    /// Which semicolons end a statement: `Grouped` with the option `--grouped`.
    pub division: Division,
}

// Whether the first of the words is this option, and the words after it.
fn split_option<'a>(words: &'a [String], option: &str) -> (bool, &'a [String])
    ensures found { result.0 ≡ has_option option.now words.now }
    ensures rest { result.1.now ≡ without_option option.now words.now }
{
    if !words.is_empty() && words[0].as_str() == option {
        (true, &words[1..])
    } else {
        (false, words)
    }
}

// The reading that the options at the beginning of the words choose, and the words after them.
pub(crate) fn parse_options(words: &[String]) -> (Reading, &[String])
    ensures reading { result.0 ≡ reading_of words.now }
    ensures rest { result.1.now ≡ without_options words.now }
{
    let (backslash, words) = split_option(words, "--backslash");
    let (grouped, words) = split_option(words, "--grouped");
    let strings = if backslash {
        Strings::Backslash
    } else {
        Strings::Standard
    };
    let division = if grouped {
        Division::Grouped
    } else {
        Division::Flat
    };
    (Reading { strings, division }, words)
}
