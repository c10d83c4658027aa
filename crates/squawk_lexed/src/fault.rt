//! The faults of a token.
ghost use Rattle.std.specs.Prelude.{◌≡◌, ◌≤◌, [], ◌∷◌, ◌++◌, length, IsTrue, Some, None};
ghost use Rattle.squawk_lexer.specs.Flags.{IsCut};
ghost use Rattle.squawk_lexed.specs.Faults.{fault, fault_if, exponent_fault, faults, kind_faults, literal_faults, fault_array, faults_within};
ghost use Rattle.squawk_lexed.specs.FaultLists.{both_faults, list_of};

use squawk_lexer::laws::flags_lie_within;
use squawk_lexer::{LiteralKind, Token, TokenKind};

/// A fault of a token. Offsets are in bytes from the start of the token.
#[derive(Clone, Copy, Debug, PartialEq, Eq)]
pub struct Fault {
    /// The number of its message, from 1 to 9.
    pub number: u8,
    /// Its first byte.
    pub start: u32,
    /// The byte after its last.
    pub end: u32,
}

// A fault if the test holds.
fn fault_if(test: bool, number: u8, start: u32, end: u32) -> Option<Fault>
    ensures { list_of result ≡ fault_if test (fault number start end) }
{
    if test {
        Some(Fault { number, start, end })
    } else {
        None
    }
}

// An array of both faults, in which only `None` follows a `None`.
fn in_order(first: Option<Fault>, second: Option<Fault>) -> [Option<Fault>; 2]
    ensures { result ≡ fault_array (both_faults first second) }
{
    if first.is_none() {
        [second, None]
    } else {
        [first, second]
    }
}

// The fault of an exponent without digits.
fn exponent_fault(empty_exponent_start: Option<u32>, trailing_junk_start: u32) -> Option<Fault>
    ensures { list_of result ≡ exponent_fault empty_exponent_start trailing_junk_start }
{
    match empty_exponent_start {
        Some(start) => Some(Fault {
            number: 6,
            start,
            end: trailing_junk_start,
        }),
        None => None,
    }
}

// The faults of a literal of this length.
fn literal_faults(kind: LiteralKind, len: u32) -> [Option<Fault>; 2]
    ensures { result ≡ fault_array (literal_faults kind len) }
{
    match kind {
        LiteralKind::Int {
            empty_int,
            trailing_junk_start,
            ..
        } => in_order(
            fault_if(empty_int, 5, 0, len),
            fault_if(trailing_junk_start < len, 7, trailing_junk_start, len),
        ),
        LiteralKind::Numeric {
            empty_exponent_start,
            trailing_junk_start,
        } => in_order(
            exponent_fault(empty_exponent_start, trailing_junk_start),
            fault_if(trailing_junk_start < len, 7, trailing_junk_start, len),
        ),
        LiteralKind::Str { terminated }
        | LiteralKind::NationalStr { terminated }
        | LiteralKind::ByteStr { terminated }
        | LiteralKind::BitStr { terminated }
        | LiteralKind::DollarQuotedString { terminated }
        | LiteralKind::UnicodeEscStr { terminated }
        | LiteralKind::EscStr { terminated } => in_order(fault_if(!terminated, 3, 0, len), None),
    }
}

// The faults of a token of this kind and length.
// Inlined into every loop over tokens, however many there are: a call costs more than its work.
#[inline(always)]
fn kind_faults(kind: TokenKind, len: u32) -> [Option<Fault>; 2]
    ensures { result ≡ fault_array (kind_faults kind len) }
{
    match kind {
        TokenKind::Unknown => in_order(fault_if(true, 1, 0, len), None),
        TokenKind::BlockComment { terminated } => in_order(fault_if(!terminated, 2, 0, len), None),
        TokenKind::Literal { kind } => literal_faults(kind, len),
        TokenKind::QuotedIdent { terminated, .. } => in_order(
            fault_if(!terminated, 4, 0, len),
            None,
        ),
        TokenKind::PositionalParam {
            trailing_junk_start,
        } => in_order(
            fault_if(trailing_junk_start == 1, 8, 0, 1),
            fault_if(trailing_junk_start < len, 9, trailing_junk_start, len),
        ),
        _ => [None, None],
    }
}

/// Returns the faults of a token that the lexer cut, in the order of their numbers. No token has
/// more than two, and only `None` follows a `None`. Each fault lies in the token and covers at
/// least one byte.
#[inline(always)]
pub fn faults_of(token: Token) -> [Option<Fault>; 2]
    requires cut { IsCut token }
    ensures faults { result ≡ fault_array (faults token) }
    ensures few { length (faults token) ≤ 2 }
    ensures within { IsTrue (faults_within token.len (faults token)) }
{
    flags_lie_within();
    kind_faults(token.kind, token.len)
}
