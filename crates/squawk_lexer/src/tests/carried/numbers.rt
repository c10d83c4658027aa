//! Numbers and parameters.
use crate::tests::Row;

pub const NUMBERS: &[Row] = &[
    (
        "numeric",
        "\n42\n3.5\n4.\n.001\n.123e10\n5e2\n1.925e-3\n1e-10\n1e+10\n1e10\n4664.E+5\n",
        r#"
            "\n" Whitespace
            "42" Int { base: Decimal, empty_int: false, trailing_junk_start: 2 }
            "\n" Whitespace
            "3.5" Numeric { empty_exponent_start: None, trailing_junk_start: 3 }
            "\n" Whitespace
            "4." Numeric { empty_exponent_start: None, trailing_junk_start: 2 }
            "\n" Whitespace
            ".001" Numeric { empty_exponent_start: None, trailing_junk_start: 4 }
            "\n" Whitespace
            ".123e10" Numeric { empty_exponent_start: None, trailing_junk_start: 7 }
            "\n" Whitespace
            "5e2" Numeric { empty_exponent_start: None, trailing_junk_start: 3 }
            "\n" Whitespace
            "1.925e-3" Numeric { empty_exponent_start: None, trailing_junk_start: 8 }
            "\n" Whitespace
            "1e-10" Numeric { empty_exponent_start: None, trailing_junk_start: 5 }
            "\n" Whitespace
            "1e+10" Numeric { empty_exponent_start: None, trailing_junk_start: 5 }
            "\n" Whitespace
            "1e10" Numeric { empty_exponent_start: None, trailing_junk_start: 4 }
            "\n" Whitespace
            "4664.E+5" Numeric { empty_exponent_start: None, trailing_junk_start: 8 }
            "\n" Whitespace"#,
    ),
    (
        "numeric_non_decimal",
        "\n0b100101\n0B10011001\n0o273\n0O755\n0x42f\n0XFFFF\n",
        r#"
            "\n" Whitespace
            "0b100101" Int { base: Binary, empty_int: false, trailing_junk_start: 8 }
            "\n" Whitespace
            "0B10011001" Int { base: Binary, empty_int: false, trailing_junk_start: 10 }
            "\n" Whitespace
            "0o273" Int { base: Octal, empty_int: false, trailing_junk_start: 5 }
            "\n" Whitespace
            "0O755" Int { base: Octal, empty_int: false, trailing_junk_start: 5 }
            "\n" Whitespace
            "0x42f" Int { base: Hexadecimal, empty_int: false, trailing_junk_start: 5 }
            "\n" Whitespace
            "0XFFFF" Int { base: Hexadecimal, empty_int: false, trailing_junk_start: 6 }
            "\n" Whitespace"#,
    ),
    (
        "numeric_base_prefix_does_not_swallow_dollar_tokens",
        "123$abc 0b101$2 0o12$abc 0x12$abc 0xFF$1 0x1$$foo$$ 123$$foo$$",
        r#"
            "123" Int { base: Decimal, empty_int: false, trailing_junk_start: 3 }
            "$abc" PositionalParam { trailing_junk_start: 1 }
            " " Whitespace
            "0b101" Int { base: Binary, empty_int: false, trailing_junk_start: 5 }
            "$2" PositionalParam { trailing_junk_start: 2 }
            " " Whitespace
            "0o12" Int { base: Octal, empty_int: false, trailing_junk_start: 4 }
            "$abc" PositionalParam { trailing_junk_start: 1 }
            " " Whitespace
            "0x12" Int { base: Hexadecimal, empty_int: false, trailing_junk_start: 4 }
            "$abc" PositionalParam { trailing_junk_start: 1 }
            " " Whitespace
            "0xFF" Int { base: Hexadecimal, empty_int: false, trailing_junk_start: 4 }
            "$1" PositionalParam { trailing_junk_start: 2 }
            " " Whitespace
            "0x1" Int { base: Hexadecimal, empty_int: false, trailing_junk_start: 3 }
            "$$foo$$" DollarQuotedString { terminated: true }
            " " Whitespace
            "123" Int { base: Decimal, empty_int: false, trailing_junk_start: 3 }
            "$$foo$$" DollarQuotedString { terminated: true }"#,
    ),
    (
        "numeric_with_seperators",
        "\n1_500_000_000\n0b10001000_00000000\n0o_1_755\n0xFFFF_FFFF\n1.618_034\n",
        r#"
            "\n" Whitespace
            "1_500_000_000" Int { base: Decimal, empty_int: false, trailing_junk_start: 13 }
            "\n" Whitespace
            "0b10001000_00000000" Int { base: Binary, empty_int: false, trailing_junk_start: 19 }
            "\n" Whitespace
            "0o_1_755" Int { base: Octal, empty_int: false, trailing_junk_start: 8 }
            "\n" Whitespace
            "0xFFFF_FFFF" Int { base: Hexadecimal, empty_int: false, trailing_junk_start: 11 }
            "\n" Whitespace
            "1.618_034" Numeric { empty_exponent_start: None, trailing_junk_start: 9 }
            "\n" Whitespace"#,
    ),
    (
        "numeric_leading_dot_with_separators",
        ".1_2 .5_5 .1_2e3",
        r#"
            ".1_2" Numeric { empty_exponent_start: None, trailing_junk_start: 4 }
            " " Whitespace
            ".5_5" Numeric { empty_exponent_start: None, trailing_junk_start: 4 }
            " " Whitespace
            ".1_2e3" Numeric { empty_exponent_start: None, trailing_junk_start: 6 }"#,
    ),
    (
        "dot_dot_is_its_own_token",
        "1..10 1 .. 10 1.5..2 1...2 .. a[1..2]",
        r#"
            "1" Int { base: Decimal, empty_int: false, trailing_junk_start: 1 }
            ".." DotDot
            "10" Int { base: Decimal, empty_int: false, trailing_junk_start: 2 }
            " " Whitespace
            "1" Int { base: Decimal, empty_int: false, trailing_junk_start: 1 }
            " " Whitespace
            ".." DotDot
            " " Whitespace
            "10" Int { base: Decimal, empty_int: false, trailing_junk_start: 2 }
            " " Whitespace
            "1.5" Numeric { empty_exponent_start: None, trailing_junk_start: 3 }
            ".." DotDot
            "2" Int { base: Decimal, empty_int: false, trailing_junk_start: 1 }
            " " Whitespace
            "1" Int { base: Decimal, empty_int: false, trailing_junk_start: 1 }
            ".." DotDot
            ".2" Numeric { empty_exponent_start: None, trailing_junk_start: 2 }
            " " Whitespace
            ".." DotDot
            " " Whitespace
            "a" Ident
            "[" OpenBracket
            "1" Int { base: Decimal, empty_int: false, trailing_junk_start: 1 }
            ".." DotDot
            "2" Int { base: Decimal, empty_int: false, trailing_junk_start: 1 }
            "]" CloseBracket"#,
    ),
    (
        "dot_dot_does_not_disturb_neighboring_numerics",
        "1. .10 0 . .5 a.b 1.5",
        r#"
            "1." Numeric { empty_exponent_start: None, trailing_junk_start: 2 }
            " " Whitespace
            ".10" Numeric { empty_exponent_start: None, trailing_junk_start: 3 }
            " " Whitespace
            "0" Int { base: Decimal, empty_int: false, trailing_junk_start: 1 }
            " " Whitespace
            "." Dot
            " " Whitespace
            ".5" Numeric { empty_exponent_start: None, trailing_junk_start: 2 }
            " " Whitespace
            "a" Ident
            "." Dot
            "b" Ident
            " " Whitespace
            "1.5" Numeric { empty_exponent_start: None, trailing_junk_start: 3 }"#,
    ),
    (
        "numeric_exponent_underscore_after_sign",
        "1e+_2 1e-_2 1.0e+_2 .1e+_2",
        r#"
            "1e" Numeric { empty_exponent_start: Some(1), trailing_junk_start: 2 }
            "+" Plus
            "_2" Ident
            " " Whitespace
            "1e" Numeric { empty_exponent_start: Some(1), trailing_junk_start: 2 }
            "-" Minus
            "_2" Ident
            " " Whitespace
            "1.0e" Numeric { empty_exponent_start: Some(3), trailing_junk_start: 4 }
            "+" Plus
            "_2" Ident
            " " Whitespace
            ".1e" Numeric { empty_exponent_start: Some(2), trailing_junk_start: 3 }
            "+" Plus
            "_2" Ident"#,
    ),
    (
        "params",
        "\nselect $1 + $2;\n\nselect $1123123123123;\n\nselect $;\n",
        r#"
            "\n" Whitespace
            "select" Ident
            " " Whitespace
            "$1" PositionalParam { trailing_junk_start: 2 }
            " " Whitespace
            "+" Plus
            " " Whitespace
            "$2" PositionalParam { trailing_junk_start: 2 }
            ";" Semi
            "\n\n" Whitespace
            "select" Ident
            " " Whitespace
            "$1123123123123" PositionalParam { trailing_junk_start: 14 }
            ";" Semi
            "\n\n" Whitespace
            "select" Ident
            " " Whitespace
            "$" PositionalParam { trailing_junk_start: 1 }
            ";" Semi
            "\n" Whitespace"#,
    ),
    (
        "numeric_unicode_trailing_junk",
        "select 1é漢𐐷_09$, 1.0é漢𐐷_09$, 0xé漢𐐷_09$;",
        r#"
            "select" Ident
            " " Whitespace
            "1é漢𐐷_09$" Int { base: Decimal, empty_int: false, trailing_junk_start: 1 }
            "," Comma
            " " Whitespace
            "1.0é漢𐐷_09$" Numeric { empty_exponent_start: None, trailing_junk_start: 3 }
            "," Comma
            " " Whitespace
            "0xé漢𐐷_09$" Int { base: Hexadecimal, empty_int: false, trailing_junk_start: 2 }
            ";" Semi"#,
    ),
    (
        "positional_param_unicode_trailing_junk",
        "select $1é漢𐐷_09$;",
        r#"
            "select" Ident
            " " Whitespace
            "$1é漢𐐷_09$" PositionalParam { trailing_junk_start: 2 }
            ";" Semi"#,
    ),
];
