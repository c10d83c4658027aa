//! Comments (PostgreSQL manual, 4.1.5): line comments, and block comments, which nest.
ghost use Rattle.std.specs.Prelude.{◌≡◌};
ghost use Rattle.squawk_lexer.specs.Kind.{lexeme_until};
ghost use Rattle.squawk_lexer.specs.Position.{position_after};
ghost use Rattle.squawk_lexer.specs.Runs.{line_end};
ghost use Rattle.squawk_lexer.specs.Comment.{comment_end, is_comment_closed, opens_comment, closes_comment};

use crate::classes::Class;
use crate::cursor::Cursor;
use crate::token::TokenKind;

fn opens_comment(c: char, next: char) -> bool
    ensures { result ≡ opens_comment c next }
{
    c == '/' && next == '*'
}

fn closes_comment(c: char, next: char) -> bool
    ensures { result ≡ closes_comment c next }
{
    c == '*' && next == '/'
}

impl<'a> Cursor<'a> {
    // Consumes a line comment, whose first dash was consumed. The line end is not part of it.
    pub(crate) fn line_comment(&mut self) -> TokenKind
        ensures text { self.new.text ≡ self.old.text }
        ensures lexeme { lexeme_until result self.new.at
            ≡ lexeme_until TokenKind.LineComment
            (line_end self.old.text (position_after self.old.text self.old.at)) }
    {
        self.bump();
        self.eat_while(Class::NotLineEnd);
        TokenKind::LineComment
    }

    // Consumes a block comment, whose `/` was consumed.
    pub(crate) fn block_comment(&mut self) -> TokenKind
        ensures text { self.new.text ≡ self.old.text }
        ensures lexeme { lexeme_until result self.new.at
            ≡ lexeme_until (TokenKind.BlockComment
            (is_comment_closed 0 self.old.text (position_after self.old.text self.old.at)))
            (comment_end 0 self.old.text (position_after self.old.text self.old.at)) }
    {
        self.bump();
        let terminated = self.eat_block_comment();
        TokenKind::BlockComment { terminated }
    }

    // Consumes a block comment, whose `/*` was consumed, and returns whether it is terminated.
    // `depth` counts the comments that are open inside it.
    // Not inlined, so that `advance_token` stays small.
    #[inline(never)]
    #[tactic(auto, using(crate::proofs::CommentSteps::comment_steps))]
    fn eat_block_comment(&mut self) -> bool
        ensures text { self.new.text ≡ self.old.text }
        ensures at { self.new.at ≡ comment_end 0 self.old.text self.old.at }
        ensures closed { result ≡ is_comment_closed 0 self.old.text self.old.at }
    {
        let mut depth = 0usize;
        while let Some(c) = self.eat_through2(b'/', b'*') {
            if opens_comment(c, self.first()) {
                self.bump();
                depth += 1;
            } else if closes_comment(c, self.first()) {
                self.bump();
                if depth == 0 {
                    return true;
                }
                depth -= 1;
            }
        }
        false
    }
}
