//! Tokens of 16 MB, of each form.
use super::{Row, check_texts};
use std::test::Fail;

// So many times 64 bytes are 16 MB.
const LONG: u32 = 262_144;

const SPACES: &str = "                                                                ";

const LETTERS: &str = "aaaaaaaaaaaaaaaaaaaaaaaaaaaaaaaaaaaaaaaaaaaaaaaaaaaaaaaaaaaaaaaa";

const DIGITS: &str = "7777777777777777777777777777777777777777777777777777777777777777";

const BITS: &str = "0101010101010101010101010101010101010101010101010101010101010101";

const BACKSLASHES: &str = "\\\\\\\\\\\\\\\\\\\\\\\\\\\\\\\\\\\\\\\\\\\\\\\\\\\\\\\\\\\\\\\\\
    \\\\\\\\\\\\\\\\\\\\\\\\\\\\\\\\\\\\\\\\\\\\\\\\\\\\\\\\\\\\\\\\";

const ACCENTS: &str = "éééééééééééééééééééééééééééééééé";

const STARS: &str = "****************************************************************";

const QUOTES: &str = "''''''''''''''''''''''''''''''''''''''''''''''''''''''''''''''''";

const DOUBLE_QUOTES: &str = "\"\"\"\"\"\"\"\"\"\"\"\"\"\"\"\"\"\"\"\"\"\"\"\"\"\"\"\"\"\"\"\"\
    \"\"\"\"\"\"\"\"\"\"\"\"\"\"\"\"\"\"\"\"\"\"\"\"\"\"\"\"\"\"\"\"";

const DOLLARS: &str = "$b$b$b$b$b$b$b$b$b$b$b$b$b$b$b$b$b$b$b$b$b$b$b$b$b$b$b$b$b$b$b$b";

// Each opens a comment in the one before it.
const COMMENT_STARTS: &str = "/*/*/*/*/*/*/*/*/*/*/*/*/*/*/*/*/*/*/*/*/*/*/*/*/*/*/*/*/*/*/*/*";

const WORDS_AND_TRIVIA: &[Row<'static>] = &[
    Row {
        name: "white_space",
        parts: &[(SPACES, LONG)],
        steps: 3,
        children: 1,
        lines: "T whitespace 0..16777216\n",
    },
    Row {
        name: "line_comment",
        parts: &[("--", 1), (LETTERS, LONG)],
        steps: 3,
        children: 1,
        lines: "T comment 0..16777218\n",
    },
    Row {
        name: "block_comment",
        parts: &[("/*", 1), (STARS, LONG), ("*/", 1)],
        steps: 3,
        children: 1,
        lines: "T comment 0..16777220\n",
    },
    Row {
        name: "block_comment_open",
        parts: &[(COMMENT_STARTS, LONG)],
        steps: 3,
        children: 1,
        lines: "T comment 0..16777216\n\
            E 0..16777216 unterminated block comment\n",
    },
    Row {
        name: "identifier",
        parts: &[(LETTERS, LONG)],
        steps: 5,
        children: 1,
        lines: "N error 0..16777216\n\
            T identifier 0..16777216\n\
            E 0..16777216 unknown statement\n",
    },
    Row {
        name: "identifier_of_accents",
        parts: &[(ACCENTS, LONG)],
        steps: 5,
        children: 1,
        lines: "N error 0..16777216\n\
            T identifier 0..16777216\n\
            E 0..16777216 unknown statement\n",
    },
    Row {
        name: "identifier_of_dollars",
        parts: &[("a", 1), (DOLLARS, LONG)],
        steps: 5,
        children: 1,
        lines: "N error 0..16777217\n\
            T identifier 0..16777217\n\
            E 0..16777217 unknown statement\n",
    },
];

const QUOTED_IDENTIFIERS: &[Row<'static>] = &[
    Row {
        name: "quoted_identifier",
        parts: &[("\"", 1), (LETTERS, LONG), ("\"", 1)],
        steps: 5,
        children: 1,
        lines: "N error 0..16777218\n\
            T identifier 0..16777218\n\
            E 0..16777218 unknown statement\n",
    },
    Row {
        name: "quoted_identifier_of_quotes",
        parts: &[("\"", 1), (DOUBLE_QUOTES, LONG), ("\"", 1)],
        steps: 5,
        children: 1,
        lines: "N error 0..16777218\n\
            T identifier 0..16777218\n\
            E 0..16777218 unknown statement\n",
    },
    Row {
        name: "quoted_identifier_open",
        parts: &[("\"", 1), (ACCENTS, LONG)],
        steps: 5,
        children: 1,
        lines: "N error 0..16777217\n\
            T identifier 0..16777217\n\
            E 0..16777217 unknown statement\n\
            E 0..16777217 unterminated quoted identifier\n",
    },
    Row {
        name: "unicode_identifier",
        parts: &[("U&\"", 1), (LETTERS, LONG), ("\"", 1)],
        steps: 5,
        children: 1,
        lines: "N error 0..16777220\n\
            T identifier 0..16777220\n\
            E 0..16777220 unknown statement\n",
    },
];

const STRINGS: &[Row<'static>] = &[
    Row {
        name: "string",
        parts: &[("'", 1), (ACCENTS, LONG), ("'", 1)],
        steps: 5,
        children: 1,
        lines: "N error 0..16777218\n\
            T string literal 0..16777218\n\
            E 0..16777218 unknown statement\n",
    },
    Row {
        name: "string_of_quotes",
        parts: &[("'", 1), (QUOTES, LONG), ("'", 1)],
        steps: 5,
        children: 1,
        lines: "N error 0..16777218\n\
            T string literal 0..16777218\n\
            E 0..16777218 unknown statement\n",
    },
    Row {
        name: "string_open",
        parts: &[("'", 1), (LETTERS, LONG)],
        steps: 5,
        children: 1,
        lines: "N error 0..16777217\n\
            T string literal 0..16777217\n\
            E 0..16777217 unknown statement\n\
            E 0..16777217 unterminated string\n",
    },
    Row {
        name: "escape_string",
        parts: &[("E'", 1), (BACKSLASHES, LONG), ("'", 1)],
        steps: 5,
        children: 1,
        lines: "N error 0..16777219\n\
            T escape string literal 0..16777219\n\
            E 0..16777219 unknown statement\n",
    },
    Row {
        name: "escape_string_open",
        parts: &[("E'", 1), (BACKSLASHES, LONG), ("\\'", 1)],
        steps: 5,
        children: 1,
        lines: "N error 0..16777220\n\
            T escape string literal 0..16777220\n\
            E 0..16777220 unknown statement\n\
            E 0..16777220 unterminated string\n",
    },
    Row {
        name: "national_string",
        parts: &[("N'", 1), (LETTERS, LONG), ("'", 1)],
        steps: 5,
        children: 1,
        lines: "N error 0..16777219\n\
            T national character string literal 0..16777219\n\
            E 0..16777219 unknown statement\n",
    },
    Row {
        name: "unicode_string",
        parts: &[("U&'", 1), (LETTERS, LONG), ("'", 1)],
        steps: 5,
        children: 1,
        lines: "N error 0..16777220\n\
            T unicode escape string literal 0..16777220\n\
            E 0..16777220 unknown statement\n",
    },
    Row {
        name: "bit_string",
        parts: &[("B'", 1), (BITS, LONG), ("'", 1)],
        steps: 5,
        children: 1,
        lines: "N error 0..16777219\n\
            T bit string literal 0..16777219\n\
            E 0..16777219 unknown statement\n",
    },
    Row {
        name: "hexadecimal_string",
        parts: &[("x'", 1), (DIGITS, LONG), ("'", 1)],
        steps: 5,
        children: 1,
        lines: "N error 0..16777219\n\
            T hexadecimal string literal 0..16777219\n\
            E 0..16777219 unknown statement\n",
    },
    Row {
        name: "dollar_string",
        parts: &[("$$", 1), (ACCENTS, LONG), ("$$", 1)],
        steps: 5,
        children: 1,
        lines: "N error 0..16777220\n\
            T dollar-quoted string literal 0..16777220\n\
            E 0..16777220 unknown statement\n",
    },
    Row {
        name: "dollar_string_of_near_misses",
        parts: &[("$a$", 1), (DOLLARS, LONG), ("$a$", 1)],
        steps: 5,
        children: 1,
        lines: "N error 0..16777222\n\
            T dollar-quoted string literal 0..16777222\n\
            E 0..16777222 unknown statement\n",
    },
    Row {
        name: "dollar_string_open",
        parts: &[("$b$", 1), (DIGITS, LONG)],
        steps: 5,
        children: 1,
        lines: "N error 0..16777219\n\
            T dollar-quoted string literal 0..16777219\n\
            E 0..16777219 unknown statement\n\
            E 0..16777219 unterminated string\n",
    },
];

const NUMBERS_AND_COMMANDS: &[Row<'static>] = &[
    Row {
        name: "integer",
        parts: &[(DIGITS, LONG)],
        steps: 5,
        children: 1,
        lines: "N error 0..16777216\n\
            T integer literal 0..16777216\n\
            E 0..16777216 unknown statement\n",
    },
    Row {
        name: "binary_integer",
        parts: &[("0b", 1), (BITS, LONG)],
        steps: 5,
        children: 1,
        lines: "N error 0..16777218\n\
            T integer literal 0..16777218\n\
            E 0..16777218 unknown statement\n",
    },
    Row {
        name: "fraction",
        parts: &[("1.", 1), (DIGITS, LONG)],
        steps: 5,
        children: 1,
        lines: "N error 0..16777218\n\
            T numeric literal 0..16777218\n\
            E 0..16777218 unknown statement\n",
    },
    Row {
        name: "fraction_without_integer",
        parts: &[(".", 1), (DIGITS, LONG)],
        steps: 5,
        children: 1,
        lines: "N error 0..16777217\n\
            T numeric literal 0..16777217\n\
            E 0..16777217 unknown statement\n",
    },
    Row {
        name: "exponent",
        parts: &[("1e+", 1), (DIGITS, LONG)],
        steps: 5,
        children: 1,
        lines: "N error 0..16777219\n\
            T numeric literal 0..16777219\n\
            E 0..16777219 unknown statement\n",
    },
    Row {
        name: "number_with_junk",
        parts: &[("1", 1), (LETTERS, LONG)],
        steps: 5,
        children: 1,
        lines: "N error 0..16777217\n\
            T integer literal 0..16777217\n\
            E 0..16777217 unknown statement\n\
            E 1..16777217 trailing junk after number\n",
    },
    Row {
        name: "parameter",
        parts: &[("$", 1), (DIGITS, LONG)],
        steps: 5,
        children: 1,
        lines: "N error 0..16777217\n\
            T positional parameter 0..16777217\n\
            E 0..16777217 unknown statement\n",
    },
    Row {
        name: "parameter_with_junk",
        parts: &[("$1", 1), (LETTERS, LONG)],
        steps: 5,
        children: 1,
        lines: "N error 0..16777218\n\
            T positional parameter 0..16777218\n\
            E 0..16777218 unknown statement\n\
            E 2..16777218 trailing junk after parameter\n",
    },
    Row {
        name: "psql_command",
        parts: &[("\\echo ", 1), (LETTERS, LONG)],
        steps: 5,
        children: 1,
        lines: "N psql command 0..16777222\n\
            T psql meta-command 0..16777222\n",
    },
    Row {
        name: "psql_command_of_quotes",
        parts: &[("\\echo ", 1), (QUOTES, LONG)],
        steps: 5,
        children: 1,
        lines: "N psql command 0..16777222\n\
            T psql meta-command 0..16777222\n",
    },
    Row {
        name: "psql_terminator",
        parts: &[("\\g ", 1), (LETTERS, LONG)],
        steps: 5,
        children: 1,
        lines: "N psql command 0..16777219\n\
            T psql terminator 0..16777219\n",
    },
];

#[test]
fn long_words_and_trivia(rt: HostRuntime) -> Result<(), Fail> {
    check_texts(&rt, rt.alloc(), WORDS_AND_TRIVIA)
}

#[test]
fn long_quoted_identifiers(rt: HostRuntime) -> Result<(), Fail> {
    check_texts(&rt, rt.alloc(), QUOTED_IDENTIFIERS)
}

#[test]
fn long_strings(rt: HostRuntime) -> Result<(), Fail> {
    check_texts(&rt, rt.alloc(), STRINGS)
}

#[test]
fn long_numbers_and_commands(rt: HostRuntime) -> Result<(), Fail> {
    check_texts(&rt, rt.alloc(), NUMBERS_AND_COMMANDS)
}
