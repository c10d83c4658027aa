//! Laws of the lexical grammar, for proofs. Each is a clause of a function that does nothing, which
//! proofs in other crates can call, and holds for every text.
ghost use Rattle.std.specs.Prelude.{◌≡◌, ◌↔◌, IsTrue, ◌&&◌, ◌==◌, ◌∷◌, []};
ghost use Rattle.std.specs.Ordering.{nat_cmp};
ghost use Rattle.squawk_lexer.specs.Laws as spec;
ghost use Rattle.squawk_lexer.specs.LookAhead as ahead;
ghost use Rattle.squawk_lexer.specs.PsqlArguments as psql;
ghost use Rattle.squawk_lexer.specs.Flags.{FlagsLieWithin, TokensAreCut};
ghost use Rattle.squawk_lexer.specs.QuotedLaws.{QuotedEndsFirst, QuotedEndIsUnique, DigitsAreLongest};
ghost use Rattle.squawk_lexer.specs.Gaps.{GapsAreSeen, TokensStay, TokensStayBefore};
ghost use Rattle.squawk_lexer.specs.Order.{base_value, literal_cmp};
ghost use Rattle.squawk_lexer.specs.declared.lexer.TheConstants.{BOM};

use crate::token::{Base, LiteralKind, Strings, Token, TokenKind};

/// A run is the longest: all of its characters are of the class, and the next one is not. No other
/// end has this property.
pub fn runs_are_longest()
    ensures longest { spec.RunsAreLongest }
    ensures only { spec.RunsAreUnique }
{}

/// Each token has at least one character, and not more than the text. In bytes, it has at least one
/// and ends on a character boundary.
pub fn tokens_progress()
    ensures some { spec.TokensProgress }
    ensures within { spec.TokensWithin }
    ensures texts { ahead.TextsProgress }
{}

/// The lengths of the first n tokens add up to the bytes of the characters before the next token.
pub fn lengths_add_up()
    ensures within { spec.LengthsWithin }
    ensures bytes { spec.LengthsAddUp }
{}

/// After any token, the tokens are those of the remaining text, read without the rule for a leading
/// byte order mark.
pub fn tokens_restart()
    ensures chars { spec.TokensRestart }
    ensures texts { ahead.TextsRestart }
{}

/// A token is `Unknown` exactly where it begins with an ASCII control character other than white
/// space, and it is that one character.
pub fn unknown_is_control()
    ensures exactly { spec.UnknownIsControl }
    ensures one { spec.UnknownIsOneCharacter }
{}

/// A dollar-quoted string ends with the first occurrence of its delimiter, and is unterminated only
/// if there is none.
pub fn first_occurrence_is_found()
    ensures first { spec.FirstOccurrenceIsFound }
    ensures nowhere { spec.NoOccurrenceIsMissed }
{}

/// A block comment ends with the first `*/` that leaves no comment open, and is unterminated only
/// if there is none.
pub fn comments_balance()
    ensures ends { spec.CommentsBalance }
    ensures unterminated { spec.OpenCommentsStayOpen }
{}

/// psql's options in parentheses end with the first argument whose mark is `)`. The mark stands for
/// the last character of an argument (`docs/GRAMMAR.md`, "psql commands").
pub fn marked_is_first()
    ensures { psql.MarkedIsFirst }
{}

/// The arguments of a psql command are the longest sequence of parts, and one argument is the
/// longest such sequence without a blank. No other length has these properties.
pub fn arguments_are_longest()
    ensures all { psql.ArgumentsAreLongest }
    ensures only { psql.ArgumentsAreUnique }
    ensures one { psql.ArgumentIsLongest }
    ensures only_one { psql.ArgumentIsUnique }
{}

/// A quote in a psql command ends with the first character that closes it, and is unterminated only
/// if none on its line does.
pub fn quotes_close_first()
    ensures first { psql.QuotesCloseFirst }
    ensures open { psql.OpenQuotesStayOpen }
{}

/// Two characters of look-ahead suffice: a token that at least two characters follow is decided by
/// its own characters, these two, and whether it is at the start of the text.
pub fn tokens_look_ahead()
    ensures lexemes { ahead.LexemesLookAhead }
    ensures tokens { ahead.TokensLookAhead }
    ensures texts { ahead.TextsLookAhead }
{}

/// If the last token of a text is a `;` or `\;`, any text can be appended: no token before it
/// changes, and the appended text is cut by itself, without the rule for a leading byte order mark.
pub fn statements_stand_alone()
    ensures { ahead.StatementsStandAlone }
{}

/// Quoted text ends with the first quote that is neither doubled nor escaped, and with no other.
pub fn quoted_ends_first()
    ensures first { QuotedEndsFirst }
    ensures only { QuotedEndIsUnique }
{}

/// A run of digits, in which `_` may stand directly before a digit, is the longest.
pub fn digits_are_longest()
    ensures { DigitsAreLongest }
{}

/// [`BOM`](crate::BOM) is the UTF-8 encoding of U+FEFF.
pub fn bom_is_one_character()
    ensures { BOM.now ≡ 0xEF ∷ 0xBB ∷ 0xBF ∷ [] }
{}

/// A gap, which is white space or a comment, can be replaced by a space or LF without changing the
/// token before it. If the gap directly follows the token, the token must not be trivia, and a gap
/// that begins with LF or CR can only be replaced by LF. If it follows one character later, neither
/// matters.
pub fn tokens_stay()
    ensures seen { GapsAreSeen }
    ensures near { TokensStay }
    ensures before { TokensStayBefore }
{}

/// The offsets in the kind of a number or a parameter lie in the token: an empty exponent begins
/// before the trailing junk, and the trailing junk begins after the first byte and at the latest at
/// the end of the token. Each token of a text is the first token of some text, so this holds for
/// all of them.
pub fn flags_lie_within()
    ensures within { FlagsLieWithin }
    ensures cut { TokensAreCut }
{}

/// Returns `base as u8`, which is 2, 8, 10 or 16.
pub fn base_number(base: Base) -> u8
    ensures { result ≡ base_value base }
{
    base as u8
}

/// Bases are ordered as their numbers are. Kinds of literals are ordered by their variants as
/// listed, and within a variant by the fields from first to last.
pub fn literals_are_ordered()
    ensures bases { (a b : Base) → ⟦<Base as Ord>⟧.cmp a b ≡ nat_cmp (base_value a) (base_value b) }
    ensures literals { (a b : LiteralKind) → ⟦<LiteralKind as Ord>⟧.cmp a b ≡ literal_cmp a b }
{}

/// Values are `==` exactly if they are the same. Tokens are compared by kind and length.
pub fn equal_values_are_the_same()
    ensures tokens { (a b : Token) → ⟦<Token as PartialEq>⟧.eq a b
        ≡ (⟦<TokenKind as PartialEq>⟧.eq a.kind b.kind && a.len == b.len) }
    ensures kinds { (a b : TokenKind) → IsTrue (⟦<TokenKind as PartialEq>⟧.eq a b) ↔ (a ≡ b) }
    ensures literals { (a b : LiteralKind)
        → IsTrue (⟦<LiteralKind as PartialEq>⟧.eq a b) ↔ (a ≡ b) }
    ensures bases { (a b : Base) → IsTrue (⟦<Base as PartialEq>⟧.eq a b) ↔ (a ≡ b) }
    ensures strings { (a b : Strings) → IsTrue (⟦<Strings as PartialEq>⟧.eq a b) ↔ (a ≡ b) }
{}
