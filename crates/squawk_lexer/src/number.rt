//! Numeric constants (PostgreSQL manual, 4.1.2.6) and positional parameters (4.2.2).
//!
//! Each ends with its trailing junk: an identifier glued to the digits, which PostgreSQL reports as
//! an error. It belongs to the token, and `trailing_junk_start` is the offset at which it begins.
ghost use Rattle.std.specs.Prelude.{◌≡◌, ◌+◌, ◌<◌, ◌==◌, slice_index, ◌&&◌, not, length, true};
ghost use Rattle.squawk_lexer.specs.Kind.{lexeme_until};
ghost use Rattle.squawk_lexer.specs.Numbers as spec;
ghost use Rattle.squawk_lexer.specs.Runs.{exponent_end, fraction_end, is_sign, is_exponent_letter};
ghost use Rattle.squawk_lexer.specs.Classes.{is_digit};

use crate::classes::{Class, is_digit};
use crate::cursor::Cursor;
use crate::token::{Base, LiteralKind, TokenKind, literal};

fn is_sign(c: char) -> bool
    ensures { result ≡ is_sign c }
{
    c == '+' || c == '-'
}

fn is_exponent_letter(c: char) -> bool
    ensures { result ≡ is_exponent_letter c }
{
    c == 'e' || c == 'E'
}

impl<'a> Cursor<'a> {
    // Whether a sign and a digit come next.
    fn is_at_signed_digit(&self) -> bool
        ensures { result ≡ (is_sign (slice_index self.now.text self.now.at)
            && is_digit (slice_index self.now.text (self.now.at + 1))) }
    {
        is_sign(self.first()) && is_digit(self.second())
    }

    // Consumes an exponent, whose letter comes next, and returns whether it has digits. Without
    // digits it is the letter alone.
    #[tactic(auto, using(crate::proofs::Steps::exponent_steps))]
    pub(crate) fn eat_numeric_exponent(&mut self) -> bool
        requires { self.old.at < length self.old.text }
        ensures text { self.new.text ≡ self.old.text }
        ensures at { self.new.at ≡ exponent_end self.old.text self.old.at }
        ensures digits { result ≡ not (exponent_end self.old.text self.old.at == self.old.at + 1) }
    {
        self.bump();
        if self.is_at_signed_digit() {
            self.bump();
            self.eat_decimal_digits();
            return true;
        }
        if is_digit(self.first()) {
            self.eat_decimal_digits();
            return true;
        }
        false
    }

    // Consumes the digits after a decimal point, if there are any. They begin with a digit, not
    // with `_`.
    fn eat_fraction_digits(&mut self)
        ensures text { self.new.text ≡ self.old.text }
        ensures at { self.new.at ≡ fraction_end self.old.text self.old.at }
    {
        if is_digit(self.first()) {
            self.eat_decimal_digits();
        }
    }

    // Consumes the trailing junk of a number with a decimal point or an exponent.
    fn finish_numeric(&mut self, empty_exponent_start: Option<u32>) -> TokenKind
        ensures text { self.new.text ≡ self.old.text }
        ensures lexeme { lexeme_until result self.new.at
            ≡ spec.numeric empty_exponent_start self.old.text self.old.at }
    {
        let kind = LiteralKind::Numeric {
            empty_exponent_start,
            trailing_junk_start: self.pos_within_token(),
        };
        self.eat_identifier();
        literal(kind)
    }

    // Consumes an exponent, whose letter comes next, and the trailing junk.
    #[tactic(auto, using(crate::proofs::Steps::exponent_steps))]
    fn finish_with_exponent(&mut self) -> TokenKind
        requires { is_exponent_letter (slice_index self.old.text self.old.at) ≡ true }
        ensures text { self.new.text ≡ self.old.text }
        ensures lexeme { lexeme_until result self.new.at
            ≡ spec.with_exponent self.old.text self.old.at }
    {
        let start = self.pos_within_token();
        if self.eat_numeric_exponent() {
            self.finish_numeric(None)
        } else {
            self.finish_numeric(Some(start))
        }
    }

    // Consumes what follows a decimal point: digits, an exponent and the trailing junk.
    // Not inlined, so that `advance_token` stays small.
    #[inline(never)]
    pub(crate) fn eat_fractional(&mut self) -> TokenKind
        ensures text { self.new.text ≡ self.old.text }
        ensures lexeme { lexeme_until result self.new.at
            ≡ spec.fractional self.old.text self.old.at }
    {
        self.eat_fraction_digits();
        if is_exponent_letter(self.first()) {
            self.finish_with_exponent()
        } else {
            self.finish_numeric(None)
        }
    }

    // Consumes what follows the first digits of a number without a base prefix.
    #[tactic(auto, using(crate::proofs::Steps::exponent_steps))]
    fn finish_decimal(&mut self) -> TokenKind
        ensures text { self.new.text ≡ self.old.text }
        ensures lexeme { lexeme_until result self.new.at
            ≡ spec.decimal_from self.old.text self.old.at }
    {
        // In `1..10` the dots are a `DotDot`, not a decimal point.
        if self.first() == '.' && self.second() != '.' {
            self.bump();
            return self.eat_fractional();
        }
        if is_exponent_letter(self.first()) {
            return self.finish_with_exponent();
        }
        let trailing_junk_start = self.pos_within_token();
        self.eat_identifier();
        literal(LiteralKind::Int {
            base: Base::Decimal,
            empty_int: false,
            trailing_junk_start,
        })
    }

    // Consumes the trailing junk of a number with a base prefix. `has_digits` says whether digits
    // follow the prefix.
    fn finish_base_prefixed_int(&mut self, base: Base, has_digits: bool) -> TokenKind
        requires { has_digits ≡ not (self.old.at == 2) }
        ensures text { self.new.text ≡ self.old.text }
        ensures lexeme { lexeme_until result self.new.at
            ≡ spec.based_int base self.old.text self.old.at }
    {
        let trailing_junk_start = self.pos_within_token();
        let has_junk = self.eat_identifier();
        literal(LiteralKind::Int {
            base,
            empty_int: !has_digits && !has_junk,
            trailing_junk_start,
        })
    }

    // Consumes a number, whose first digit was consumed. The rules are those of PostgreSQL's
    // `scan.l`, except that any decimal digit may follow `0b` and `0o`: `0b12` is one token.
    // Not inlined, so that `advance_token` stays small.
    #[inline(never)]
    #[tactic(auto, using(crate::proofs::NumberSteps::number_steps))]
    pub(crate) fn number(&mut self, first: char) -> TokenKind
        requires first { first ≡ slice_index self.old.text 0 }
        requires at { self.old.at ≡ 1 }
        ensures text { self.new.text ≡ self.old.text }
        ensures lexeme { lexeme_until result self.new.at ≡ spec.number self.old.text }
    {
        if first == '0' {
            match self.first() {
                'b' | 'B' => {
                    self.bump();
                    let has_digits = self.eat_decimal_digits();
                    return self.finish_base_prefixed_int(Base::Binary, has_digits);
                }
                'o' | 'O' => {
                    self.bump();
                    let has_digits = self.eat_decimal_digits();
                    return self.finish_base_prefixed_int(Base::Octal, has_digits);
                }
                'x' | 'X' => {
                    self.bump();
                    let has_digits = self.eat_hexadecimal_digits();
                    return self.finish_base_prefixed_int(Base::Hexadecimal, has_digits);
                }
                _ => {}
            }
        }
        self.eat_decimal_digits();
        self.finish_decimal()
    }

    // Consumes a positional parameter, whose `$` was consumed. Its digits have no `_`.
    pub(crate) fn positional_param(&mut self) -> TokenKind
        requires { self.old.at ≡ 1 }
        ensures text { self.new.text ≡ self.old.text }
        ensures lexeme { lexeme_until result self.new.at ≡ spec.parameter self.old.text }
    {
        self.eat_while(Class::Digit);
        let trailing_junk_start = self.pos_within_token();
        self.eat_identifier();
        TokenKind::PositionalParam {
            trailing_junk_start,
        }
    }
}
