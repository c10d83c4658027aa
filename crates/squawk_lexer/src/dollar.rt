//! Tokens that begin with `$`: dollar-quoted strings (PostgreSQL manual, 4.1.2.4) and positional
//! parameters (4.2.2).
ghost use Rattle.std.specs.Prelude.{◌≡◌, ◌+◌, slice_index};
ghost use Rattle.squawk_lexer.specs.Kind.{lexeme_until};
ghost use Rattle.squawk_lexer.specs.Classes.{is_ident_start, dollar_sign};
ghost use Rattle.squawk_lexer.specs.Dollar.{tag_end, dollar_string, dollar};

use crate::classes::{Class, is_ident_start};
use crate::cursor::Cursor;
use crate::token::{LiteralKind, TokenKind, literal};

impl<'a> Cursor<'a> {
    // Consumes a dollar-quoted string or a parameter, whose first `$` was consumed.
    // Not inlined, so that `advance_token` stays small.
    #[inline(never)]
    #[tactic(auto, using(crate::proofs::DollarSteps::dollar_steps))]
    pub(crate) fn dollar_string_or_param(&mut self) -> TokenKind
        requires first { slice_index self.old.text 0 ≡ dollar_sign }
        requires at { self.old.at ≡ 1 }
        ensures text { self.new.text ≡ self.old.text }
        ensures lexeme { lexeme_until result self.new.at ≡ dollar self.old.text }
    {
        let has_tag = self.eat_tag();
        if self.first() == '$' {
            self.bump();
            return self.dollar_quoted_string();
        }
        if has_tag {
            // No `$` follows the tag: this is a parameter without digits, and the tag is junk.
            return TokenKind::PositionalParam {
                trailing_junk_start: 1,
            };
        }
        self.positional_param()
    }

    // Consumes the tag after the first `$`, if there is one, and returns whether there is. A tag is
    // an identifier without `$`.
    fn eat_tag(&mut self) -> bool
        requires at { self.old.at ≡ 1 }
        ensures text { self.new.text ≡ self.old.text }
        ensures at { self.new.at ≡ tag_end self.old.text }
        ensures found { result ≡ is_ident_start (slice_index self.old.text 1) }
    {
        if !is_ident_start(self.first()) {
            return false;
        }
        self.eat_while(Class::TagCont);
        true
    }

    // Consumes a dollar-quoted string, whose opening delimiter was consumed.
    #[tactic(auto, using(crate::proofs::DollarSteps::delimiter_steps))]
    fn dollar_quoted_string(&mut self) -> TokenKind
        requires first { slice_index self.old.text 0 ≡ dollar_sign }
        requires at { self.old.at ≡ tag_end self.old.text + 1 }
        ensures text { self.new.text ≡ self.old.text }
        ensures lexeme { lexeme_until result self.new.at ≡ dollar_string self.old.text }
    {
        let delimiter = self.consumed_text();
        let terminated = self.eat_through(delimiter);
        literal(LiteralKind::DollarQuotedString { terminated })
    }
}
