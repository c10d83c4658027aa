//! Text between quotes: strings and quoted identifiers (PostgreSQL manual, 4.1.2.1 and 4.1.1).
ghost use Rattle.std.specs.Prelude.{◌≡◌, ◌<◌, if◌then◌else◌};
ghost use Rattle.squawk_lexer.specs.Classes.{backslash};
ghost use Rattle.squawk_lexer.specs.Quoted.{quoted_end, is_terminated};

use crate::cursor::Cursor;

// The second byte to search for in quoted text: the backslash if it escapes, or else `quote` again.
pub(crate) fn escape_or_quote(quote: u8, escapes: bool) -> u8
    ensures { result ≡ (if escapes then backslash else quote) }
{
    if escapes { b'\\' } else { quote }
}

impl<'a> Cursor<'a> {
    // Consumes quoted text, whose opening quote was consumed, and returns whether it is terminated.
    // Two quotes in a row stand for one and do not end it. With `escapes`, a backslash escapes the
    // next character.
    // Not inlined, so that `advance_token` stays small.
    #[inline(never)]
    #[tactic(auto, using(crate::proofs::QuotedSteps::quoted_steps))]
    pub(crate) fn quoted_text(&mut self, quote: u8, escapes: bool) -> bool
        requires { (0 < quote) × (quote < 128) }
        ensures text { self.new.text ≡ self.old.text }
        ensures at { self.new.at ≡ quoted_end escapes quote self.old.text self.old.at }
        ensures terminated { result ≡ is_terminated escapes quote self.old.text self.old.at }
    {
        let escape = escape_or_quote(quote, escapes);
        while let Some(c) = self.eat_through2(quote, escape) {
            if c != quote as char {
                // The character after a backslash closes nothing.
                self.bump();
                continue;
            }
            // In a run of quotes each two stand for one, so a run of odd length ends the text. The
            // first quote of this one was consumed.
            if self.eat_quotes(quote) % 2 == 0 {
                return true;
            }
        }
        false
    }
}
