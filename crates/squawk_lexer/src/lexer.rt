//! Cuts the first token off a text.
ghost use Rattle.std.specs.Prelude.{◌≡◌, ◌≢◌, ◌+◌, ◌<◌, ◌==◌, ◌^◌, length, drop, slice_index, true, false};
ghost use Rattle.std.specs.Str.{chars, is_utf8, IsCharBoundary};
ghost use Rattle.squawk_lexer.specs.Kind.{lexeme_until};
ghost use Rattle.squawk_lexer.specs.Classes.{is_whitespace};
ghost use Rattle.squawk_lexer.specs.Runs.{run_end};
ghost use Rattle.squawk_lexer.specs.Symbols.{symbol};
ghost use Rattle.squawk_lexer.specs.Token.{token_form, lexeme_of, lexeme_at, token_at};
ghost use Rattle.squawk_lexer.specs.LookAhead.{IsFirstTokenAt, IsDecided, RestartsAt, SplitsAt};

use crate::classes::Class;
use crate::cursor::Cursor;
use crate::forms::TokenForm;
use crate::token::{LiteralKind, Strings, Token, TokenKind, literal};

/// The byte order mark, U+FEFF: three bytes in UTF-8. At the start of a text it is a `Whitespace`
/// token by itself. Anywhere else it is a letter, as every character from U+0080 on is.
pub const BOM: &str = "\u{feff}";

// The kind of the one-character token `b`. The bytes that are not listed are control characters.
// Inlined into every loop over tokens, however many there are: a call costs more than its work.
#[inline(always)]
#[tactic(auto, unfolding(crate::specs::Symbols::symbol))]
fn symbol_kind(b: u8) -> TokenKind
    ensures { result ≡ symbol b }
{
    match b {
        b';' => TokenKind::Semi,
        b',' => TokenKind::Comma,
        b'(' => TokenKind::OpenParen,
        b')' => TokenKind::CloseParen,
        b'[' => TokenKind::OpenBracket,
        b']' => TokenKind::CloseBracket,
        b'{' => TokenKind::OpenCurly,
        b'}' => TokenKind::CloseCurly,
        b'@' => TokenKind::At,
        b'#' => TokenKind::Pound,
        b'~' => TokenKind::Tilde,
        b'?' => TokenKind::Question,
        b':' => TokenKind::Colon,
        b'=' => TokenKind::Eq,
        b'!' => TokenKind::Bang,
        b'<' => TokenKind::Lt,
        b'>' => TokenKind::Gt,
        b'&' => TokenKind::And,
        b'|' => TokenKind::Or,
        b'+' => TokenKind::Plus,
        b'*' => TokenKind::Star,
        b'^' => TokenKind::Caret,
        b'%' => TokenKind::Percent,
        b'`' => TokenKind::Backtick,
        b'-' => TokenKind::Minus,
        b'/' => TokenKind::Slash,
        b'.' => TokenKind::Dot,
        _ => TokenKind::Unknown,
    }
}

// The form of a token, by the first bytes of its first two characters. These suffice, since all
// characters beyond ASCII are alike here: they begin a word, and none is the second one of a form.
// Inlined into every loop over tokens, however many there are: a call costs more than its work.
#[inline(always)]
#[tactic(auto, unfolding(crate::specs::Token::token_form))]
fn token_form(first: u8, second: u8) -> TokenForm
    ensures { result ≡ token_form first second }
{
    match first {
        b'\t'..=b'\r' | b' ' => TokenForm::Whitespace,
        b'-' if second == b'-' => TokenForm::LineComment,
        b'/' if second == b'*' => TokenForm::BlockComment,
        b'\'' => TokenForm::String,
        b'"' => TokenForm::QuotedIdent,
        b'a'..=b'z' | b'A'..=b'Z' | b'_' | 0x80.. => TokenForm::Word,
        b'$' => TokenForm::Dollar,
        b'0'..=b'9' => TokenForm::Number,
        b'.' if second == b'.' => TokenForm::DotDot,
        b'.' if second.is_ascii_digit() => TokenForm::Fraction,
        b'\\' => TokenForm::Psql,
        _ => TokenForm::Symbol,
    }
}

impl<'a> Cursor<'a> {
    // The form of the token that begins here.
    // Inlined into every loop over tokens, however many there are: a call costs more than its work.
    #[inline(always)]
    fn next_token_form(&self) -> TokenForm
        requires { self.now.at ≡ 0 }
        ensures { result ≡ token_form (slice_index self.now.text 0) (slice_index self.now.text 1) }
    {
        token_form(self.peek_byte(0), self.peek_byte(1))
    }

    // Consumes a token of one character: punctuation, an operator or an unknown character.
    // Inlined into every loop over tokens, however many there are: a call costs more than its work.
    #[inline(always)]
    fn symbol(&mut self) -> TokenKind
        requires at { self.old.at ≡ 0 }
        requires not_empty { 0 < length self.old.text }
        ensures text { self.new.text ≡ self.old.text }
        ensures lexeme { lexeme_until result self.new.at
            ≡ lexeme_until (symbol (slice_index self.old.text 0)) 1 }
    {
        let kind = symbol_kind(self.peek_byte(0));
        self.bump();
        kind
    }

    // Consumes a run of white space.
    fn whitespace(&mut self) -> TokenKind
        ensures text { self.new.text ≡ self.old.text }
        ensures lexeme { lexeme_until result self.new.at
            ≡ lexeme_until TokenKind.Whitespace (run_end is_whitespace self.old.text self.old.at) }
    {
        self.eat_while(Class::Whitespace);
        TokenKind::Whitespace
    }

    // Consumes the next token, and returns its kind.
    // Inlined into every loop over tokens, however many there are: a call costs more than its work.
    #[inline(always)]
    #[tactic(auto, using(crate::proofs::FormSteps::form_steps))]
    fn advance_token(&mut self, strings: Strings) -> TokenKind
        requires at { self.old.at ≡ 0 }
        requires not_empty { 0 < length self.old.text }
        ensures text { self.new.text ≡ self.old.text }
        ensures lexeme { lexeme_until result self.new.at ≡ lexeme_of strings self.old.text }
    {
        match self.next_token_form() {
            TokenForm::Whitespace => self.whitespace(),
            TokenForm::LineComment => {
                self.bump();
                self.line_comment()
            }
            TokenForm::BlockComment => {
                self.bump();
                self.block_comment()
            }
            TokenForm::String => {
                self.bump();
                let terminated = self.quoted_text(b'\'', strings.has_escapes());
                literal(LiteralKind::Str { terminated })
            }
            TokenForm::QuotedIdent => {
                self.bump();
                self.quoted_ident(false)
            }
            TokenForm::Word => self.ident_or_string(),
            TokenForm::Dollar => {
                self.bump();
                self.dollar_string_or_param()
            }
            TokenForm::Number => {
                let first = self.first();
                self.bump();
                self.number(first)
            }
            TokenForm::DotDot => {
                self.bump();
                self.bump();
                TokenKind::DotDot
            }
            TokenForm::Fraction => {
                self.bump();
                self.eat_fractional()
            }
            TokenForm::Psql => {
                self.bump();
                self.psql_command()
            }
            TokenForm::Symbol => self.symbol(),
        }
    }
}

// Cuts the first token off `text`, and returns it with the rest. `at_start` says that the input
// begins here, so that a byte order mark is white space.
// Inlined into every loop over tokens, however many there are: a call costs more than its work.
#[inline(always)]
pub(crate) fn cut(text: &str, at_start: bool, strings: Strings) -> (Token, &str)
    requires not_empty { 0 < length text.now }
    requires fits { length text.now < 2 ^ 32 }
    ensures token { result.0 ≡ token_at strings at_start (chars text.now) }
    ensures rest_fits { length result.1.now < 2 ^ 32 }
    ensures utf8 { is_utf8 result.1.now ≡ true }
    ensures rest { chars result.1.now
        ≡ drop (lexeme_at strings at_start (chars text.now)).end (chars text.now) }
{
    let mut cursor = Cursor::new(text);
    let kind = if at_start && cursor.first() == '\u{FEFF}' {
        cursor.bump();
        TokenKind::Whitespace
    } else {
        cursor.advance_token(strings)
    };
    let token = Token {
        kind,
        len: cursor.pos_within_token(),
    };
    (token, cursor.as_str())
}

/// Returns the first token of `input[at..]`, by the rules of `docs/GRAMMAR.md`, with
/// [`Strings::Standard`].
///
/// `at` is an offset in bytes. It must be less than the length of `input` and lie on a character
/// boundary; `input` must have fewer than 2^32 bytes. `at` need not be the start of a token of
/// `input`: inside a token, the text from `at` on is read as if a token began there. A byte order
/// mark is a token by itself only if `at` is 0.
///
/// The token has at least one byte, ends on a character boundary and is never `Eof`. If two more
/// characters follow it, no text after these can change it. If `at` is the end of a token of
/// `input`, or if the last token of `input[..at]` is `;` or `\;`, then the tokens of `input[at..]`,
/// read without the rule for the byte order mark, are those of `input` from `at` on. Nothing is
/// allocated.
pub fn cut_at(input: &str, at: usize) -> Token
    requires inside { at < length input.now }
    requires boundary { IsCharBoundary input.now at }
    requires fits { length input.now < 2 ^ 32 }
    ensures token { result ≡ token_at Strings.Standard (at == 0) (chars (drop at input.now)) }
    ensures first { IsFirstTokenAt Strings.Standard input.now at result }
    ensures positive { 0 < result.len }
    ensures ends_between { IsCharBoundary input.now (at + result.len) }
    ensures never_eof { result.kind ≢ TokenKind.Eof }
    ensures looks_ahead { IsDecided Strings.Standard (at == 0) (drop at input.now) result }
    ensures restarts { RestartsAt Strings.Standard input.now at }
    ensures splits { SplitsAt Strings.Standard input.now at }
{
    cut_at_in(input, at, Strings::Standard)
}

/// Returns the first token of `input[at..]`, by the rules of `docs/GRAMMAR.md`. `strings` says how
/// strings without a prefix are read.
///
/// `at` is an offset in bytes. It must be less than the length of `input` and lie on a character
/// boundary; `input` must have fewer than 2^32 bytes. The token has the properties that [`cut_at`]
/// states.
pub fn cut_at_in(input: &str, at: usize, strings: Strings) -> Token
    requires inside { at < length input.now }
    requires boundary { IsCharBoundary input.now at }
    requires fits { length input.now < 2 ^ 32 }
    ensures token { result ≡ token_at strings (at == 0) (chars (drop at input.now)) }
    ensures first { IsFirstTokenAt strings input.now at result }
    ensures positive { 0 < result.len }
    ensures ends_between { IsCharBoundary input.now (at + result.len) }
    ensures never_eof { result.kind ≢ TokenKind.Eof }
    ensures looks_ahead { IsDecided strings (at == 0) (drop at input.now) result }
    ensures restarts { RestartsAt strings input.now at }
    ensures splits { SplitsAt strings input.now at }
{
    cut(&input[at..], at == 0, strings).0
}
