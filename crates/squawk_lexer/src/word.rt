//! Unquoted identifiers and keywords, and the forms that begin with a letter and a quote: `N'..'`,
//! `B'..'`, `X'..'`, `E'..'`, `U&'..'` and `U&".."` (PostgreSQL manual, 4.1.1 and 4.1.2).
ghost use Rattle.std.specs.Prelude.{◌≡◌, slice_index, true};
ghost use Rattle.squawk_lexer.specs.Kind.{lexeme_until};
ghost use Rattle.squawk_lexer.specs.Position.{position_after};
ghost use Rattle.squawk_lexer.specs.Classes.{apostrophe, is_ident_start};
ghost use Rattle.squawk_lexer.specs.Quoted.{quoted_end, is_terminated};
ghost use Rattle.squawk_lexer.specs.Token.{prefix_of, ident_or_string, quoted_ident};

use crate::classes::Class;
use crate::cursor::Cursor;
use crate::forms::StringPrefix;
use crate::token::{LiteralKind, TokenKind, literal};

// The prefix of a token, by the first bytes of its first three characters.
#[tactic(auto, unfolding(crate::specs::Token::prefix_of))]
fn prefix_of(first: u8, second: u8, third: u8) -> StringPrefix
    ensures { result ≡ prefix_of first second third }
{
    // Most words have no prefix, and the second byte alone shows it.
    match second {
        b'\'' => match first {
            b'n' | b'N' => StringPrefix::National,
            b'b' | b'B' => StringPrefix::Bit,
            b'x' | b'X' => StringPrefix::Byte,
            b'e' | b'E' => StringPrefix::Escape,
            _ => StringPrefix::NoPrefix,
        },
        b'&' => match (first, third) {
            (b'u' | b'U', b'\'') => StringPrefix::UnicodeString,
            (b'u' | b'U', b'"') => StringPrefix::UnicodeIdent,
            _ => StringPrefix::NoPrefix,
        },
        _ => StringPrefix::NoPrefix,
    }
}

// Consumes the last character of a prefix and the string after it, and returns the token kind.
macro_rules! prefixed_literal {
    ($cursor:ident, $kind:ident, $escapes:literal) => {{
        let terminated = $cursor.prefixed_string($escapes);
        literal(LiteralKind::$kind { terminated })
    }};
}

impl<'a> Cursor<'a> {
    // The prefix of the token that begins here.
    // Inlined into every loop over tokens, however many there are: a call costs more than its work.
    #[inline(always)]
    fn string_prefix(&self) -> StringPrefix
        requires { self.now.at ≡ 0 }
        ensures { result ≡ prefix_of (slice_index self.now.text 0) (slice_index self.now.text 1)
            (slice_index self.now.text 2) }
    {
        prefix_of(self.peek_byte(0), self.peek_byte(1), self.peek_byte(2))
    }

    // Consumes the last character of a prefix, the quote and the string. Returns whether the string
    // is terminated.
    fn prefixed_string(&mut self, escapes: bool) -> bool
        ensures text { self.new.text ≡ self.old.text }
        ensures at { self.new.at ≡ quoted_end escapes apostrophe self.old.text
            (position_after self.old.text (position_after self.old.text self.old.at)) }
        ensures terminated { result ≡ is_terminated escapes apostrophe self.old.text
            (position_after self.old.text (position_after self.old.text self.old.at)) }
    {
        self.bump();
        self.bump();
        self.quoted_text(b'\'', escapes)
    }

    // Consumes a quoted identifier, whose opening quote was consumed. `uescape` says that it began
    // with `U&`.
    pub(crate) fn quoted_ident(&mut self, uescape: bool) -> TokenKind
        ensures text { self.new.text ≡ self.old.text }
        ensures lexeme { lexeme_until result self.new.at
            ≡ quoted_ident uescape self.old.text self.old.at }
    {
        let terminated = self.quoted_text(b'"', false);
        TokenKind::QuotedIdent {
            terminated,
            uescape,
        }
    }

    // Consumes a token that begins as an identifier does.
    // Inlined into every loop over tokens, however many there are: a call costs more than its work.
    #[inline(always)]
    #[tactic(auto, using(crate::proofs::WordSteps::word_steps))]
    pub(crate) fn ident_or_string(&mut self) -> TokenKind
        requires at { self.old.at ≡ 0 }
        requires first { is_ident_start (slice_index self.old.text 0) ≡ true }
        ensures text { self.new.text ≡ self.old.text }
        ensures lexeme { lexeme_until result self.new.at ≡ ident_or_string self.old.text }
    {
        match self.string_prefix() {
            StringPrefix::National => prefixed_literal!(self, NationalStr, false),
            StringPrefix::Bit => prefixed_literal!(self, BitStr, false),
            StringPrefix::Byte => prefixed_literal!(self, ByteStr, false),
            StringPrefix::Escape => prefixed_literal!(self, EscStr, true),
            StringPrefix::UnicodeString => {
                self.bump();
                prefixed_literal!(self, UnicodeEscStr, false)
            }
            StringPrefix::UnicodeIdent => {
                self.bump();
                self.bump();
                self.bump();
                self.quoted_ident(true)
            }
            StringPrefix::NoPrefix => {
                self.eat_while(Class::IdentCont);
                TokenKind::Ident
            }
        }
    }
}
