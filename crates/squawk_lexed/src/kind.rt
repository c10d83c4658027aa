//! Leaf kinds.
ghost use Rattle.std.specs.Prelude.{◌≡◌};
ghost use Rattle.squawk_kinds.specs.Role.{role, Other};
ghost use Rattle.squawk_lexed.specs.Leaf.{leaf_kind, literal_kind, token_role, word_kind};

use squawk_kinds::SyntaxKind;
use squawk_lexer::{LiteralKind, TokenKind};
use squawk_words::from_keyword;

// The kind of a word: a keyword, which is compared ASCII case-insensitively, else `IDENT`.
// Inlined into every loop over tokens, however many there are: a call costs more than its work.
#[inline(always)]
#[tactic(auto, unfolding(squawk_kinds::specs::Role::role))]
fn word_kind(word: &str) -> SyntaxKind
    ensures kind { result ≡ word_kind word.now }
    ensures role { role result ≡ Other }
{
    match from_keyword(word) {
        Some(kind) => kind,
        None => SyntaxKind::IDENT,
    }
}

// The kind of a literal.
#[tactic(auto, unfolding(squawk_kinds::specs::Role::role))]
fn literal_kind(kind: LiteralKind) -> SyntaxKind
    ensures kind { result ≡ literal_kind kind }
    ensures role { role result ≡ Other }
{
    match kind {
        LiteralKind::Int { .. } => SyntaxKind::INT_NUMBER,
        LiteralKind::Numeric { .. } => SyntaxKind::NUMERIC_NUMBER,
        LiteralKind::Str { .. } => SyntaxKind::STRING,
        LiteralKind::NationalStr { .. } => SyntaxKind::NATIONAL_STRING,
        LiteralKind::ByteStr { .. } => SyntaxKind::BYTE_STRING,
        LiteralKind::BitStr { .. } => SyntaxKind::BIT_STRING,
        LiteralKind::DollarQuotedString { .. } => SyntaxKind::DOLLAR_QUOTED_STRING,
        LiteralKind::UnicodeEscStr { .. } => SyntaxKind::UNICODE_ESC_STRING,
        LiteralKind::EscStr { .. } => SyntaxKind::ESC_STRING,
    }
}

/// Returns the kind of the leaf for a token of this kind with this text.
///
/// An unquoted word is a keyword, compared ASCII case-insensitively, or else an `IDENT`; a quoted
/// word is always an `IDENT`. The leaf has the role of the token in the division into statements.
#[inline(always)]
#[tactic(auto, unfolding(squawk_kinds::specs::Role::role))]
pub fn kind_of(kind: TokenKind, text: &str) -> SyntaxKind
    ensures kind { result ≡ leaf_kind kind text.now }
    ensures role { role result ≡ token_role kind }
{
    match kind {
        TokenKind::Whitespace => SyntaxKind::WHITESPACE,
        TokenKind::LineComment | TokenKind::BlockComment { .. } => SyntaxKind::COMMENT,
        TokenKind::Ident => word_kind(text),
        TokenKind::QuotedIdent { .. } => SyntaxKind::IDENT,
        TokenKind::Literal { kind } => literal_kind(kind),
        TokenKind::PositionalParam { .. } => SyntaxKind::POSITIONAL_PARAM,
        TokenKind::PsqlCommand { ends_query: true } => SyntaxKind::PSQL_TERMINATOR_TEXT,
        TokenKind::PsqlCommand { ends_query: false } => SyntaxKind::PSQL_COMMAND_TEXT,
        TokenKind::Unknown => SyntaxKind::ERROR,
        TokenKind::Eof => SyntaxKind::EOF,
        TokenKind::Semi => SyntaxKind::SEMICOLON,
        TokenKind::Comma => SyntaxKind::COMMA,
        TokenKind::OpenParen => SyntaxKind::L_PAREN,
        TokenKind::CloseParen => SyntaxKind::R_PAREN,
        TokenKind::OpenBracket => SyntaxKind::L_BRACK,
        TokenKind::CloseBracket => SyntaxKind::R_BRACK,
        TokenKind::OpenCurly => SyntaxKind::L_CURLY,
        TokenKind::CloseCurly => SyntaxKind::R_CURLY,
        TokenKind::At => SyntaxKind::AT,
        TokenKind::Pound => SyntaxKind::POUND,
        TokenKind::Tilde => SyntaxKind::TILDE,
        TokenKind::Question => SyntaxKind::QUESTION,
        TokenKind::Colon => SyntaxKind::COLON,
        TokenKind::Eq => SyntaxKind::EQ,
        TokenKind::Bang => SyntaxKind::BANG,
        TokenKind::Lt => SyntaxKind::L_ANGLE,
        TokenKind::Gt => SyntaxKind::R_ANGLE,
        TokenKind::And => SyntaxKind::AMP,
        TokenKind::Or => SyntaxKind::PIPE,
        TokenKind::Plus => SyntaxKind::PLUS,
        TokenKind::Minus => SyntaxKind::MINUS,
        TokenKind::Star => SyntaxKind::STAR,
        TokenKind::Slash => SyntaxKind::SLASH,
        TokenKind::Caret => SyntaxKind::CARET,
        TokenKind::Percent => SyntaxKind::PERCENT,
        TokenKind::Backtick => SyntaxKind::BACKTICK,
        TokenKind::Dot => SyntaxKind::DOT,
        TokenKind::DotDot => SyntaxKind::DOT_DOT,
    }
}
