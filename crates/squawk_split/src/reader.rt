//! The tokens of a script: looked up in a list where they are at hand, or else cut.
ghost use Rattle.std.specs.Prelude.{◌≡◌, ◌<◌, ◌≤◌, ◌^◌, length};
ghost use Rattle.std.specs.Str.{IsCharBoundary};
ghost use Rattle.squawk_lexed.specs.LexedText.{lexed_text, token_start};
ghost use Rattle.squawk_split.specs.Reader.{IsTokenReadAt};

use squawk_kinds::SyntaxKind;
use squawk_lexed::{LexedStr, kind_of};
use squawk_lexer::laws::{tokens_progress, tokens_restart};
use squawk_lexer::{Strings, cut_at_in};
use std::marker::Model;

// The kind of a token, and the offset at which it ends.
#[derive(Clone, Copy)]
pub(crate) struct KindAndEnd {
    pub(crate) kind: SyntaxKind,
    pub(crate) end: usize,
}

// Reads the tokens of a text. Where a token of the list begins at the offset, and none after it was
// looked up before, it is looked up; else a token is cut there.
#[derive(Drop)]
pub(crate) struct TokenReader<'a> {
    text: &'a str,
    strings: Strings,
    lexed: Option<&'a LexedStr<'a>>,
    // The index from which on the list is searched.
    next: usize,
}

impl<'a> Model for TokenReader<'a> {
    ghost use Rattle.std.specs.Prelude.{◌<◌, ◌^◌, length, IfSome};
    ghost use Rattle.squawk_split.specs.Reader.{TextReading, IsListed};

    ghost Value = { TextReading };

    ghost view = { λ r. record { text = r.text.now; strings = r.strings } };

    ghost invariant = { λ r. (length r.text.now < 2 ^ 32)
        × IfSome r.lexed (λ l. IsListed r.strings r.text.now r.next l.now) };
}

// The index of the first token from `next` on that begins at byte `at` or after it, or the number
// of tokens. `at` must lie in the text.
#[inline(always)]
fn index_from(lexed: &LexedStr<'_>, next: usize, at: usize) -> usize
    requires within { next ≤ length lexed.now.tokens }
    requires inside { at < length lexed.now.text }
    ensures within { result ≤ length lexed.now.tokens }
    ensures reached { at ≤ token_start lexed.now.tokens result }
{
    // The number of tokens bounds the index.
    let _ = lexed.len();
    let mut index = next;
    while lexed.text_start(index) < at {
        index += 1;
    }
    index
}

impl<'a> TokenReader<'a> {
    // A reader that cuts every token.
    pub(crate) fn of_text(text: &'a str, strings: Strings) -> TokenReader<'a>
        requires { length text.now < 2 ^ 32 }
        ensures { result ≡ record { text = text.now; strings = strings } }
    {
        TokenReader {
            text,
            strings,
            lexed: None,
            next: 0,
        }
    }

    // A reader of a text whose tokens were cut before.
    pub(crate) fn of_lexed(lexed: &'a LexedStr<'a>, strings: Strings) -> TokenReader<'a>
        requires { lexed.now ≡ lexed_text strings lexed.now.text }
        ensures { result ≡ record { text = lexed.now.text; strings = strings } }
    {
        // The length bounds the offsets.
        let _ = lexed.len();
        TokenReader {
            text: lexed.as_str(),
            strings,
            lexed: Some(lexed),
            next: 0,
        }
    }

    // The text.
    #[inline(always)]
    pub(crate) fn text(&self) -> &'a str
        ensures text { result.now ≡ self.now.text }
        ensures fits { length self.now.text < 2 ^ 32 }
    {
        self.text
    }

    // The token that begins at byte `at`.
    pub(crate) fn token_at(&mut self, at: usize) -> KindAndEnd
        requires inside { at < length self.old.text }
        requires boundary { IsCharBoundary self.old.text at }
        ensures same { self.new ≡ self.old }
        ensures token { IsTokenReadAt self.old.strings self.old.text at result }
    {
        tokens_progress();
        tokens_restart();
        let text = self.text();
        let strings = self.strings;
        if let Some(lexed) = self.lexed {
            let index = index_from(lexed, self.next, at);
            if lexed.text_start(index) == at {
                self.next = index + 1;
                return KindAndEnd {
                    kind: lexed.kind(index),
                    end: lexed.text_start(index + 1),
                };
            }
            self.next = index;
        }
        let token = cut_at_in(text, at, strings);
        let end = at + token.len as usize;
        KindAndEnd {
            kind: kind_of(token.kind, &text[at..end]),
            end,
        }
    }
}
