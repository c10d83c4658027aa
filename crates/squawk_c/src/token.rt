//! A token as C sees it.
ghost use Rattle.std.specs.Prelude.{◌≡◌, ◌≤◌, ◌+◌, ◌*◌};
ghost use Rattle.squawk_c.specs.Tokens.{flag, kind_code, literal_code, code_of, token_record};
ghost use Rattle.squawk_lexer.specs.Order.{base_value};

use squawk_lexer::laws::base_number;
use squawk_lexer::{Base, LiteralKind, Token, TokenKind};

/// A token, with its offset in the text in bytes.
#[repr(C)]
#[derive(Clone, Copy, Debug, PartialEq, Eq)]
pub struct SquawkToken {
    /// The number of its kind.
    pub kind: u16,
    /// A sum of flags; for an integer also 256 times its base.
    pub flags: u16,
    /// Its first byte.
    pub start: u32,
    /// Its length in bytes.
    pub len: u32,
    /// For a number or a parameter the offset in the token of the trailing junk, which is `len`
    /// where there is none; for other tokens 0.
    pub junk: u32,
}

// Its closing delimiter was found.
const TERMINATED: u16 = 1;

// It begins with `U&`.
const UESCAPE: u16 = 2;

// A psql command that ends the query before it.
const ENDS_QUERY: u16 = 4;

// The prefix of an integer without digits and junk.
const EMPTY_INT: u16 = 8;

// A number with an exponent without digits.
const EMPTY_EXPONENT: u16 = 16;

// The unit of an integer's base in its flags.
const BASE: u16 = 256;

// The kind of a token in numbers: that of the kind, its flags, and the offset of the junk.
#[derive(Clone, Copy)]
pub(crate) struct KindCode {
    kind: u16,
    flags: u16,
    junk: u32,
}

// A code of these numbers.
fn kind_code(kind: u16, flags: u16, junk: u32) -> KindCode
    ensures { result ≡ kind_code kind flags junk }
{
    KindCode { kind, flags, junk }
}

// A flag, if it is set.
fn flag(is_set: bool, bit: u16) -> u16
    ensures flag { result ≡ flag is_set bit }
    ensures small { result ≤ bit }
{
    if is_set { bit } else { 0 }
}

// A kind without flags.
fn plain(kind: u16) -> KindCode
    ensures { result ≡ kind_code kind 0 0 }
{
    kind_code(kind, 0, 0)
}

// A kind with a closing delimiter.
fn closed(kind: u16, terminated: bool) -> KindCode
    ensures { result ≡ kind_code kind (flag terminated 1) 0 }
{
    kind_code(kind, flag(terminated, TERMINATED), 0)
}

// The flags of an integer.
fn int_flags(base: Base, empty_int: bool) -> u16
    ensures { result ≡ base_value base * 256 + flag empty_int 8 }
{
    u16::from(base_number(base)) * BASE + flag(empty_int, EMPTY_INT)
}

// The code of a literal.
fn literal_code(kind: LiteralKind) -> KindCode
    ensures { result ≡ literal_code kind }
{
    match kind {
        LiteralKind::Int {
            base,
            empty_int,
            trailing_junk_start,
        } => kind_code(1, int_flags(base, empty_int), trailing_junk_start),
        LiteralKind::Numeric {
            empty_exponent_start,
            trailing_junk_start,
        } => match empty_exponent_start {
            Some(_) => kind_code(2, EMPTY_EXPONENT, trailing_junk_start),
            None => kind_code(2, 0, trailing_junk_start),
        },
        LiteralKind::Str { terminated } => closed(3, terminated),
        LiteralKind::NationalStr { terminated } => closed(4, terminated),
        LiteralKind::ByteStr { terminated } => closed(5, terminated),
        LiteralKind::BitStr { terminated } => closed(6, terminated),
        LiteralKind::DollarQuotedString { terminated } => closed(7, terminated),
        LiteralKind::UnicodeEscStr { terminated } => closed(8, terminated),
        LiteralKind::EscStr { terminated } => closed(9, terminated),
    }
}

// The code of a kind.
fn code_of(kind: TokenKind) -> KindCode
    ensures { result ≡ code_of kind }
{
    match kind {
        TokenKind::Unknown => plain(0),
        TokenKind::Literal { kind } => literal_code(kind),
        TokenKind::Whitespace => plain(10),
        TokenKind::Ident => plain(11),
        TokenKind::PsqlCommand { ends_query } => kind_code(12, flag(ends_query, ENDS_QUERY), 0),
        TokenKind::Semi => plain(13),
        TokenKind::Eof => plain(14),
        TokenKind::Slash => plain(15),
        TokenKind::LineComment => plain(16),
        TokenKind::BlockComment { terminated } => closed(17, terminated),
        TokenKind::Minus => plain(18),
        TokenKind::Colon => plain(19),
        TokenKind::Dot => plain(20),
        TokenKind::DotDot => plain(21),
        TokenKind::Eq => plain(22),
        TokenKind::Gt => plain(23),
        TokenKind::And => plain(24),
        TokenKind::Lt => plain(25),
        TokenKind::Bang => plain(26),
        TokenKind::Plus => plain(27),
        TokenKind::Tilde => plain(28),
        TokenKind::Pound => plain(29),
        TokenKind::Question => plain(30),
        TokenKind::Or => plain(31),
        TokenKind::Percent => plain(32),
        TokenKind::Caret => plain(33),
        TokenKind::Star => plain(34),
        TokenKind::Backtick => plain(35),
        TokenKind::At => plain(36),
        TokenKind::CloseBracket => plain(37),
        TokenKind::OpenBracket => plain(38),
        TokenKind::CloseCurly => plain(39),
        TokenKind::OpenCurly => plain(40),
        TokenKind::CloseParen => plain(41),
        TokenKind::OpenParen => plain(42),
        TokenKind::Comma => plain(43),
        TokenKind::PositionalParam {
            trailing_junk_start,
        } => kind_code(44, 0, trailing_junk_start),
        TokenKind::QuotedIdent {
            terminated,
            uescape,
        } => kind_code(45, flag(terminated, TERMINATED) + flag(uescape, UESCAPE), 0),
    }
}

// The record of a token that begins at this offset.
#[tactic(auto, unfolding(crate::specs::Tokens::token_record))]
pub(crate) fn token_record(start: u32, token: Token) -> SquawkToken
    ensures { result ≡ token_record start token }
{
    let code = code_of(token.kind);
    SquawkToken {
        kind: code.kind,
        flags: code.flags,
        start,
        len: token.len,
        junk: code.junk,
    }
}
