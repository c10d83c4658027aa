//! Worked texts: edges of the grammar, and how much of what follows decides a token.
use super::Row;

// SQL.
pub const WORKED: &[Row] = &[
    (
        "byte_order_mark_twice",
        "\u{feff} ;\u{feff}x",
        r#"
            "\u{feff}" Whitespace
            " " Whitespace
            ";" Semi
            "\u{feff}x" Ident"#,
    ),
    (
        "empty_exponent_before_a_sign",
        "1e+_2",
        r#"
            "1e" Numeric { empty_exponent_start: Some(1), trailing_junk_start: 2 }
            "+" Plus
            "_2" Ident"#,
    ),
    (
        "empty_base_and_decimal_digit_in_base_two",
        "0x 0b9",
        r#"
            "0x" Int { base: Hexadecimal, empty_int: true, trailing_junk_start: 2 }
            " " Whitespace
            "0b9" Int { base: Binary, empty_int: false, trailing_junk_start: 3 }"#,
    ),
    (
        "empty_exponent_and_junk",
        "1eabc",
        r#"
            "1eabc" Numeric { empty_exponent_start: Some(1), trailing_junk_start: 2 }"#,
    ),
    (
        "dollar_delimiters_do_not_overlap",
        "$a$a$",
        r#"
            "$a$a$" DollarQuotedString { terminated: false }"#,
    ),
    (
        "dollar_digit_is_no_tag",
        "$1$",
        r#"
            "$1" PositionalParam { trailing_junk_start: 2 }
            "$" PositionalParam { trailing_junk_start: 1 }"#,
    ),
    (
        "star_of_the_opening_closes_nothing",
        "/*/",
        r#"
            "/*/" BlockComment { terminated: false }"#,
    ),
    (
        "nested_comment_left_open",
        "/*a/*b*/",
        r#"
            "/*a/*b*/" BlockComment { terminated: false }"#,
    ),
    (
        "nested_comment",
        "/*/**/*/",
        r#"
            "/*/**/*/" BlockComment { terminated: true }"#,
    ),
    (
        "string_prefixes",
        "N'a' b'1' X'F' E'\\'' U&'d' u&\"x\" \"q\"\"r\" 'it''s'",
        r#"
            "N'a'" NationalStr { terminated: true }
            " " Whitespace
            "b'1'" BitStr { terminated: true }
            " " Whitespace
            "X'F'" ByteStr { terminated: true }
            " " Whitespace
            "E'\\''" EscStr { terminated: true }
            " " Whitespace
            "U&'d'" UnicodeEscStr { terminated: true }
            " " Whitespace
            "u&\"x\"" QuotedIdent { terminated: true, uescape: true }
            " " Whitespace
            "\"q\"\"r\"" QuotedIdent { terminated: true, uescape: false }
            " " Whitespace
            "'it''s'" Str { terminated: true }"#,
    ),
    (
        "prefix_without_a_quote",
        "U&x",
        r#"
            "U" Ident
            "&" And
            "x" Ident"#,
    ),
    (
        "lone_apostrophe",
        "'",
        r#"
            "'" Str { terminated: false }"#,
    ),
    (
        "lone_quotation_mark",
        "\"",
        r#"
            "\"" QuotedIdent { terminated: false, uescape: false }"#,
    ),
    (
        "backslash_at_the_end",
        "E'\\",
        r#"
            "E'\\" EscStr { terminated: false }"#,
    ),
    (
        "lone_delimiter",
        "$$",
        r#"
            "$$" DollarQuotedString { terminated: false }"#,
    ),
    (
        "nul",
        "\0",
        r#"
            "\0" Unknown"#,
    ),
    (
        "range_of_integers",
        "1..10",
        r#"
            "1" Int { base: Decimal, empty_int: false, trailing_junk_start: 1 }
            ".." DotDot
            "10" Int { base: Decimal, empty_int: false, trailing_junk_start: 2 }"#,
    ),
    (
        "range_and_fraction",
        "1...2",
        r#"
            "1" Int { base: Decimal, empty_int: false, trailing_junk_start: 1 }
            ".." DotDot
            ".2" Numeric { empty_exponent_start: None, trailing_junk_start: 2 }"#,
    ),
    (
        "decimal_point_at_the_end",
        "1.",
        r#"
            "1." Numeric { empty_exponent_start: None, trailing_junk_start: 2 }"#,
    ),
    (
        "no_fraction_after_a_base",
        "0x1.5",
        r#"
            "0x1" Int { base: Hexadecimal, empty_int: false, trailing_junk_start: 3 }
            ".5" Numeric { empty_exponent_start: None, trailing_junk_start: 2 }"#,
    ),
    (
        "dollar_in_junk",
        "1f$",
        r#"
            "1f$" Int { base: Decimal, empty_int: false, trailing_junk_start: 1 }"#,
    ),
    (
        "dollar_after_an_empty_exponent",
        "1e$",
        r#"
            "1e" Numeric { empty_exponent_start: Some(1), trailing_junk_start: 2 }
            "$" PositionalParam { trailing_junk_start: 1 }"#,
    ),
    (
        "other_tags_inside_a_dollar_string",
        "$foo$hello$world$bar$",
        r#"
            "$foo$hello$world$bar$" DollarQuotedString { terminated: false }"#,
    ),
    (
        "tag_without_second_dollar",
        "$x;",
        r#"
            "$x" PositionalParam { trailing_junk_start: 1 }
            ";" Semi"#,
    ),
    (
        "identifier_before_a_string",
        "N1'foo'",
        r#"
            "N1" Ident
            "'foo'" Str { terminated: true }"#,
    ),
    (
        "parameter_after_a_number",
        "0xFF$1",
        r#"
            "0xFF" Int { base: Hexadecimal, empty_int: false, trailing_junk_start: 4 }
            "$1" PositionalParam { trailing_junk_start: 2 }"#,
    ),
    (
        "range_after_a_fraction",
        "1.5..2",
        r#"
            "1.5" Numeric { empty_exponent_start: None, trailing_junk_start: 3 }
            ".." DotDot
            "2" Int { base: Decimal, empty_int: false, trailing_junk_start: 1 }"#,
    ),
    (
        "delete_is_unknown",
        "a\u{7f}b",
        r#"
            "a" Ident
            "\u{7f}" Unknown
            "b" Ident"#,
    ),
];

// psql's commands.
pub const WORKED_PSQL: &[Row] = &[
    (
        "lone_backslash",
        "\\",
        r#"
            "\\" PsqlCommand { ends_query: false }"#,
    ),
    (
        "backslash_pairs",
        "\\;\\:\\\\",
        r#"
            "\\;" Semi
            "\\:" Colon
            "\\\\" PsqlCommand { ends_query: false }"#,
    ),
    (
        "names_are_compared_with_case",
        "\\G",
        r#"
            "\\G" PsqlCommand { ends_query: false }"#,
    ),
    (
        "copy_is_compared_without_case",
        "\\COPY t \\x",
        r#"
            "\\COPY t \\x" PsqlCommand { ends_query: false }"#,
    ),
    (
        "help_takes_the_line",
        "\\h select \\\\",
        r#"
            "\\h select \\\\" PsqlCommand { ends_query: false }"#,
    ),
    (
        "file_of_a_pipe_command",
        "\\w out.txt \\echo hi",
        r#"
            "\\w out.txt " PsqlCommand { ends_query: false }
            "\\echo hi" PsqlCommand { ends_query: false }"#,
    ),
    (
        "quote_ends_with_its_line",
        "\\echo 'a\\\n;",
        r#"
            "\\echo 'a\\" PsqlCommand { ends_query: false }
            "\n" Whitespace
            ";" Semi"#,
    ),
];

// Strings without a prefix, in both readings.
pub const STANDARD: &[Row] = &[
    (
        "backslash_before_a_quote",
        "'a\\'c'",
        r#"
            "'a\\'" Str { terminated: true }
            "c" Ident
            "'" Str { terminated: false }"#,
    ),
    (
        "backslash_at_the_end",
        "'\\",
        r#"
            "'\\" Str { terminated: false }"#,
    ),
];

pub const BACKSLASH: &[Row] = &[
    (
        "backslash_before_a_quote",
        "'a\\'c'",
        r#"
            "'a\\'c'" Str { terminated: true }"#,
    ),
    (
        "backslash_at_the_end",
        "'\\",
        r#"
            "'\\" Str { terminated: false }"#,
    ),
    (
        "other_forms_are_the_same",
        "E'a\\'c' N'a\\'",
        r#"
            "E'a\\'c'" EscStr { terminated: true }
            " " Whitespace
            "N'a\\'" NationalStr { terminated: true }"#,
    ),
];

// What follows decides the first token: `1.` needs two characters after the `1`, `u&` two after the
// `u`, and an exponent two after its letter.
pub const LOOK_AHEAD: &[Row] = &[
    (
        "range_or_fraction",
        "1..",
        r#"
            "1" Int { base: Decimal, empty_int: false, trailing_junk_start: 1 }
            ".." DotDot"#,
    ),
    (
        "fraction",
        "1.5",
        r#"
            "1.5" Numeric { empty_exponent_start: None, trailing_junk_start: 3 }"#,
    ),
    (
        "empty_exponent",
        "1e+x",
        r#"
            "1e" Numeric { empty_exponent_start: Some(1), trailing_junk_start: 2 }
            "+" Plus
            "x" Ident"#,
    ),
    (
        "exponent",
        "1e+5",
        r#"
            "1e+5" Numeric { empty_exponent_start: None, trailing_junk_start: 4 }"#,
    ),
    (
        "operator_after_u",
        "u&a",
        r#"
            "u" Ident
            "&" And
            "a" Ident"#,
    ),
    (
        "unicode_string",
        "u&'",
        r#"
            "u&'" UnicodeEscStr { terminated: false }"#,
    ),
    (
        "unicode_identifier",
        "u&\"",
        r#"
            "u&\"" QuotedIdent { terminated: false, uescape: true }"#,
    ),
    (
        "one_dash",
        "-/",
        r#"
            "-" Minus
            "/" Slash"#,
    ),
    (
        "two_dashes",
        "--",
        r#"
            "--" LineComment"#,
    ),
];
