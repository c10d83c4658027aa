//! Classes of characters (`docs/GRAMMAR.md`, "Characters"), after PostgreSQL's `scan.l`.
ghost use Rattle.std.specs.Prelude.{◌≡◌};
ghost use Rattle.squawk_lexer.specs.Classes as spec;
ghost use Rattle.squawk_lexer.specs.ClassTests.{class_test, digit_test};

// A class of characters whose runs a cursor can skip.
#[derive(Clone, Copy)]
pub(crate) enum Class {
    Whitespace,
    Blank,
    IdentCont,
    Digit,
    NotLineEnd,
    // A character of a dollar tag after the first.
    TagCont,
    // A character of the name of a psql command.
    CommandChar,
}

// The digits of a number: decimal in all bases but the hexadecimal.
#[derive(Clone, Copy)]
pub(crate) enum Digits {
    Decimal,
    Hexadecimal,
}

// Space, TAB, LF, VT, FF or CR.
pub(crate) fn is_whitespace(c: char) -> bool
    ensures { result ≡ spec.is_whitespace c }
{
    matches!(c, ' ' | '\t' | '\n' | '\r' | '\u{B}' | '\u{C}')
}

// White space that ends no line.
pub(crate) fn is_blank(c: char) -> bool
    ensures { result ≡ spec.is_blank c }
{
    matches!(c, ' ' | '\t' | '\u{B}' | '\u{C}')
}

// A letter, `_`, or any character beyond ASCII.
pub(crate) fn is_ident_start(c: char) -> bool
    ensures { result ≡ spec.is_ident_start c }
{
    matches!(c, 'a'..='z' | 'A'..='Z' | '_' | '\u{80}'..)
}

// A character that begins an identifier, a digit or `$`.
pub(crate) fn is_ident_cont(c: char) -> bool
    ensures { result ≡ spec.is_ident_cont c }
{
    matches!(c, 'a'..='z' | 'A'..='Z' | '_' | '\u{80}'.. | '0'..='9' | '$')
}

pub(crate) fn is_digit(c: char) -> bool
    ensures { result ≡ spec.is_digit c }
{
    c.is_ascii_digit()
}

pub(crate) fn is_hex_digit(c: char) -> bool
    ensures { result ≡ spec.is_hex_digit c }
{
    c.is_ascii_hexdigit()
}

// Whether `b` is an ASCII digit of this kind.
pub(crate) fn is_digit_byte(digits: Digits, b: u8) -> bool
    ensures { result ≡ digit_test digits b }
{
    match digits {
        Digits::Decimal => is_digit(b as char),
        Digits::Hexadecimal => is_hex_digit(b as char),
    }
}

// Whether a character whose UTF-8 begins with `b` is in `class`. The first byte decides, since each
// class has all characters beyond ASCII or none.
pub(crate) fn is_in(class: Class, b: u8) -> bool
    ensures { result ≡ class_test class b }
{
    let c = b as char;
    match class {
        Class::Whitespace => is_whitespace(c),
        Class::Blank => is_blank(c),
        Class::IdentCont => is_ident_cont(c),
        Class::Digit => is_digit(c),
        Class::NotLineEnd => c != '\n' && c != '\r',
        Class::TagCont => is_ident_cont(c) && c != '$',
        Class::CommandChar => !is_whitespace(c) && c != '\\',
    }
}
