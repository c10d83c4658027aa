//! Identifiers.
use crate::tests::Row;

pub const IDENTIFIERS: &[Row] = &[
    (
        "select_with_period",
        "\nselect public.users;\n",
        r#"
            "\n" Whitespace
            "select" Ident
            " " Whitespace
            "public" Ident
            "." Dot
            "users" Ident
            ";" Semi
            "\n" Whitespace"#,
    ),
    (
        "ident_prefix_then_string_is_consistent",
        "N1'foo' E1'foo' B1'foo' X1'foo' U1'foo' uuid'00000000'",
        r#"
            "N1" Ident
            "'foo'" Str { terminated: true }
            " " Whitespace
            "E1" Ident
            "'foo'" Str { terminated: true }
            " " Whitespace
            "B1" Ident
            "'foo'" Str { terminated: true }
            " " Whitespace
            "X1" Ident
            "'foo'" Str { terminated: true }
            " " Whitespace
            "U1" Ident
            "'foo'" Str { terminated: true }
            " " Whitespace
            "uuid" Ident
            "'00000000'" Str { terminated: true }"#,
    ),
    (
        "quoted_ident_with_unicode_and_nul",
        "select \"é\0漢𐐷\"\"尾\";",
        r#"
            "select" Ident
            " " Whitespace
            "\"é\0漢𐐷\"\"尾\"" QuotedIdent { terminated: true, uescape: false }
            ";" Semi"#,
    ),
    (
        "unterminated_quoted_ident_with_unicode_and_nul",
        "select \"é\0漢𐐷",
        r#"
            "select" Ident
            " " Whitespace
            "\"é\0漢𐐷" QuotedIdent { terminated: false, uescape: false }"#,
    ),
    (
        "quoted_ident",
        "\n\"hello &1 -world\";\n\n\n\"hello-world\n",
        r#"
            "\n" Whitespace
            "\"hello &1 -world\"" QuotedIdent { terminated: true, uescape: false }
            ";" Semi
            "\n\n\n" Whitespace
            "\"hello-world\n" QuotedIdent { terminated: false, uescape: false }"#,
    ),
    (
        "quoted_ident_with_escape_quote",
        "\n\"foo \"\" bar\"\n",
        r#"
            "\n" Whitespace
            "\"foo \"\" bar\"" QuotedIdent { terminated: true, uescape: false }
            "\n" Whitespace"#,
    ),
    (
        "bom_at_start",
        "\u{feff}select 1;",
        r#"
            "\u{feff}" Whitespace
            "select" Ident
            " " Whitespace
            "1" Int { base: Decimal, empty_int: false, trailing_junk_start: 1 }
            ";" Semi"#,
    ),
    (
        "bom_after_start_is_an_ident_char",
        "select 1;\n\u{feff}select 2;",
        r#"
            "select" Ident
            " " Whitespace
            "1" Int { base: Decimal, empty_int: false, trailing_junk_start: 1 }
            ";" Semi
            "\n" Whitespace
            "\u{feff}select" Ident
            " " Whitespace
            "2" Int { base: Decimal, empty_int: false, trailing_junk_start: 1 }
            ";" Semi"#,
    ),
    (
        "identifier_ascii_continuation",
        "select azAZ_09$;",
        r#"
            "select" Ident
            " " Whitespace
            "azAZ_09$" Ident
            ";" Semi"#,
    ),
    (
        "identifier_unicode_continuation",
        "select aé漢𐐷_09$, tail;",
        r#"
            "select" Ident
            " " Whitespace
            "aé漢𐐷_09$" Ident
            "," Comma
            " " Whitespace
            "tail" Ident
            ";" Semi"#,
    ),
    (
        "identifier_non_ascii_boundary",
        "select a\u{7f}tail, a\u{80}tail;",
        r#"
            "select" Ident
            " " Whitespace
            "a" Ident
            "\u{7f}" Unknown
            "tail" Ident
            "," Comma
            " " Whitespace
            "a\u{80}tail" Ident
            ";" Semi"#,
    ),
    (
        "identifier_nul_boundary",
        "select aé漢𐐷\0tail;",
        r#"
            "select" Ident
            " " Whitespace
            "aé漢𐐷" Ident
            "\0" Unknown
            "tail" Ident
            ";" Semi"#,
    ),
    (
        "identifier_unicode_delimiters",
        "select aé漢𐐷.tail + aé漢𐐷::text;",
        r#"
            "select" Ident
            " " Whitespace
            "aé漢𐐷" Ident
            "." Dot
            "tail" Ident
            " " Whitespace
            "+" Plus
            " " Whitespace
            "aé漢𐐷" Ident
            ":" Colon
            ":" Colon
            "text" Ident
            ";" Semi"#,
    ),
    (
        "ident_non_ascii_above_latin1",
        "ẞ Ā 漢字 𐐷",
        r#"
            "ẞ" Ident
            " " Whitespace
            "Ā" Ident
            " " Whitespace
            "漢字" Ident
            " " Whitespace
            "𐐷" Ident"#,
    ),
];
