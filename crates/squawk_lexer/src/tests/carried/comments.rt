//! Comments, white space and dollar-quoted strings.
use crate::tests::Row;

// Dollar-quoted strings.
pub const DOLLAR: &[Row] = &[
    (
        "dollar_quoting",
        "\n\
         $$Dianne's horse$$\n\
         $SomeTag$Dianne's horse$SomeTag$\n\n\
         -- with dollar inside and matching tags\n\
         $foo$hello$world$bar$\n",
        r#"
            "\n" Whitespace
            "$$Dianne's horse$$" DollarQuotedString { terminated: true }
            "\n" Whitespace
            "$SomeTag$Dianne's horse$SomeTag$" DollarQuotedString { terminated: true }
            "\n\n" Whitespace
            "-- with dollar inside and matching tags" LineComment
            "\n" Whitespace
            "$foo$hello$world$bar$\n" DollarQuotedString { terminated: false }"#,
    ),
    (
        "dollar_strings_part2",
        "\nDO $doblock$\nend\n$doblock$;",
        r#"
            "\n" Whitespace
            "DO" Ident
            " " Whitespace
            "$doblock$\nend\n$doblock$" DollarQuotedString { terminated: true }
            ";" Semi"#,
    ),
    (
        "dollar_quote_mismatch_tags_simple",
        "\n-- dollar quoting with mismatched tags\n$foo$hello world$bar$\n",
        r#"
            "\n" Whitespace
            "-- dollar quoting with mismatched tags" LineComment
            "\n" Whitespace
            "$foo$hello world$bar$\n" DollarQuotedString { terminated: false }"#,
    ),
    (
        "dollar_quote_mismatch_tags_complex",
        "\n-- with dollar inside but mismatched tags\n$foo$hello$world$bar$\n",
        r#"
            "\n" Whitespace
            "-- with dollar inside but mismatched tags" LineComment
            "\n" Whitespace
            "$foo$hello$world$bar$\n" DollarQuotedString { terminated: false }"#,
    ),
    (
        "dollar_quoted_string",
        "$$$$",
        r#"
            "$$$$" DollarQuotedString { terminated: true }"#,
    ),
    (
        "tagged_dollar_quote_requires_leading_dollar",
        "select $foo$abcfoo$def$foo$;",
        r#"
            "select" Ident
            " " Whitespace
            "$foo$abcfoo$def$foo$" DollarQuotedString { terminated: true }
            ";" Semi"#,
    ),
    (
        "unclosed_dollar_tag_does_not_swallow_rest_of_input",
        "select $x;\ndrop table users;",
        r#"
            "select" Ident
            " " Whitespace
            "$x" PositionalParam { trailing_junk_start: 1 }
            ";" Semi
            "\n" Whitespace
            "drop" Ident
            " " Whitespace
            "table" Ident
            " " Whitespace
            "users" Ident
            ";" Semi"#,
    ),
    (
        "dollar_quote_unicode_tag_with_digits",
        "select $é漢𐐷_09$body$é漢𐐷_09$;",
        r#"
            "select" Ident
            " " Whitespace
            "$é漢𐐷_09$body$é漢𐐷_09$" DollarQuotedString { terminated: true }
            ";" Semi"#,
    ),
];

// Comments and white space.
pub const COMMENTS: &[Row] = &[
    (
        "lex_statement",
        "select 1;",
        r#"
            "select" Ident
            " " Whitespace
            "1" Int { base: Decimal, empty_int: false, trailing_junk_start: 1 }
            ";" Semi"#,
    ),
    (
        "block_comment",
        "\n/*\n * foo\n * bar\n*/",
        r#"
            "\n" Whitespace
            "/*\n * foo\n * bar\n*/" BlockComment { terminated: true }"#,
    ),
    (
        "block_comment_unterminated",
        "\n/*\n * foo\n * bar\n /*\n*/",
        r#"
            "\n" Whitespace
            "/*\n * foo\n * bar\n /*\n*/" BlockComment { terminated: false }"#,
    ),
    (
        "line_comment",
        "\n-- foooooooooooo bar buzz\n",
        r#"
            "\n" Whitespace
            "-- foooooooooooo bar buzz" LineComment
            "\n" Whitespace"#,
    ),
    (
        "line_comment_cr_newline",
        "select 1; -- comment\rselect 2;",
        r#"
            "select" Ident
            " " Whitespace
            "1" Int { base: Decimal, empty_int: false, trailing_junk_start: 1 }
            ";" Semi
            " " Whitespace
            "-- comment" LineComment
            "\r" Whitespace
            "select" Ident
            " " Whitespace
            "2" Int { base: Decimal, empty_int: false, trailing_junk_start: 1 }
            ";" Semi"#,
    ),
    ("empty_input", "", ""),
    (
        "whitespace_at_eof",
        " \t\n\r\u{b}\u{c}",
        r#"
            " \t\n\r\u{b}\u{c}" Whitespace"#,
    ),
    (
        "whitespace_preserves_next_token",
        " \té漢𐐷\t1;\n",
        r#"
            " \t" Whitespace
            "é漢𐐷" Ident
            "\t" Whitespace
            "1" Int { base: Decimal, empty_int: false, trailing_junk_start: 1 }
            ";" Semi
            "\n" Whitespace"#,
    ),
    (
        "whitespace_stops_at_nul",
        " \t\0é漢𐐷",
        r#"
            " \t" Whitespace
            "\0" Unknown
            "é漢𐐷" Ident"#,
    ),
    (
        "line_comment_whitespace",
        "\nselect 'Hello' -- This is a comment\n' World';",
        r#"
            "\n" Whitespace
            "select" Ident
            " " Whitespace
            "'Hello'" Str { terminated: true }
            " " Whitespace
            "-- This is a comment" LineComment
            "\n" Whitespace
            "' World'" Str { terminated: true }
            ";" Semi"#,
    ),
    (
        "line_comment_with_unicode_and_nul",
        "select 1; --é\0漢𐐷\r\nselect 2;",
        r#"
            "select" Ident
            " " Whitespace
            "1" Int { base: Decimal, empty_int: false, trailing_junk_start: 1 }
            ";" Semi
            " " Whitespace
            "--é\0漢𐐷" LineComment
            "\r\n" Whitespace
            "select" Ident
            " " Whitespace
            "2" Int { base: Decimal, empty_int: false, trailing_junk_start: 1 }
            ";" Semi"#,
    ),
    (
        "line_comment_with_unicode_and_nul_at_eof",
        "--é\0漢𐐷",
        r#"
            "--é\0漢𐐷" LineComment"#,
    ),
    (
        "nested_block_comment_with_unicode_and_nul",
        "select /*é\0/*漢𐐷*/*/ 1;",
        r#"
            "select" Ident
            " " Whitespace
            "/*é\0/*漢𐐷*/*/" BlockComment { terminated: true }
            " " Whitespace
            "1" Int { base: Decimal, empty_int: false, trailing_junk_start: 1 }
            ";" Semi"#,
    ),
    (
        "unterminated_nested_block_comment_with_unicode_and_nul",
        "select /*é\0/*漢𐐷*/",
        r#"
            "select" Ident
            " " Whitespace
            "/*é\0/*漢𐐷*/" BlockComment { terminated: false }"#,
    ),
];
