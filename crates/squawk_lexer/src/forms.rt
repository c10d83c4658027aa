//! The forms of tokens and the prefixes of strings, which the definitions of the grammar go by.
//! Public for contracts: no public function returns them.

/// The form of a token: a row of the lexical grammar (`docs/GRAMMAR.md`, "Forms"). The first two
/// characters of a token decide which form it has.
pub enum TokenForm {
    /// A run of white space.
    Whitespace,
    /// Begins with `--`.
    LineComment,
    /// Begins with `/*`.
    BlockComment,
    /// Begins with `'`: a string without a prefix.
    String,
    /// Begins with `"`: a quoted identifier without a prefix.
    QuotedIdent,
    /// Begins as an identifier does. Its [`StringPrefix`] says whether it is one.
    Word,
    /// Begins with `$`: a dollar-quoted string or a positional parameter.
    Dollar,
    /// A number that begins with a digit.
    Number,
    /// `..`
    DotDot,
    /// A number that begins with its decimal point, such as `.5`.
    Fraction,
    /// Begins with a backslash: a psql command, `\;` or `\:`.
    Psql,
    /// Any other character, by itself: punctuation, an operator or an unknown character.
    Symbol,
}

/// The prefix of a string or of a quoted identifier, with its letter in either case (PostgreSQL
/// manual, 4.1.1, 4.1.2.2, 4.1.2.3 and 4.1.2.5; `N'..'` is standard SQL).
pub enum StringPrefix {
    /// `N'`
    National,
    /// `B'`
    Bit,
    /// `X'`
    Byte,
    /// `E'`
    Escape,
    /// `U&'`
    UnicodeString,
    /// `U&"`
    UnicodeIdent,
    /// None of these: the token is an identifier or a keyword.
    NoPrefix,
}
