//! Strings.
use crate::tests::Row;

pub const STRINGS: &[Row] = &[
    (
        "bitstring",
        "\nB'1001'\nb'1001'\nX'1FF'\nx'1FF'\n",
        r#"
            "\n" Whitespace
            "B'1001'" BitStr { terminated: true }
            "\n" Whitespace
            "b'1001'" BitStr { terminated: true }
            "\n" Whitespace
            "X'1FF'" ByteStr { terminated: true }
            "\n" Whitespace
            "x'1FF'" ByteStr { terminated: true }
            "\n" Whitespace"#,
    ),
    (
        "national_character_string",
        "N'foo' n'bar' numeric'1'",
        r#"
            "N'foo'" NationalStr { terminated: true }
            " " Whitespace
            "n'bar'" NationalStr { terminated: true }
            " " Whitespace
            "numeric" Ident
            "'1'" Str { terminated: true }"#,
    ),
    (
        "string",
        "\n\
         'Dianne''s horse'\n\n\
         select 'foo ''\n\
         bar';\n\n\
         select 'foooo'   \n   'bar';\n\n\n\
         'foo \\\\ \\n \\tbar'\n\n\
         'forgot to close the string\n",
        r#"
            "\n" Whitespace
            "'Dianne''s horse'" Str { terminated: true }
            "\n\n" Whitespace
            "select" Ident
            " " Whitespace
            "'foo ''\nbar'" Str { terminated: true }
            ";" Semi
            "\n\n" Whitespace
            "select" Ident
            " " Whitespace
            "'foooo'" Str { terminated: true }
            "   \n   " Whitespace
            "'bar'" Str { terminated: true }
            ";" Semi
            "\n\n\n" Whitespace
            "'foo \\\\ \\n \\tbar'" Str { terminated: true }
            "\n\n" Whitespace
            "'forgot to close the string\n" Str { terminated: false }"#,
    ),
    (
        "string_with_escapes",
        "\n\
         E'foo'\n\n\
         e'bar'\n\n\
         e'\\b\\f\\n\\r\\t'\n\n\
         e'\\0\\11\\777'\n\n\
         e'\\x0\\x11\\xFF'\n\n\
         e'\\uAAAA \\UFFFFFFFF'\n\n",
        r#"
            "\n" Whitespace
            "E'foo'" EscStr { terminated: true }
            "\n\n" Whitespace
            "e'bar'" EscStr { terminated: true }
            "\n\n" Whitespace
            "e'\\b\\f\\n\\r\\t'" EscStr { terminated: true }
            "\n\n" Whitespace
            "e'\\0\\11\\777'" EscStr { terminated: true }
            "\n\n" Whitespace
            "e'\\x0\\x11\\xFF'" EscStr { terminated: true }
            "\n\n" Whitespace
            "e'\\uAAAA \\UFFFFFFFF'" EscStr { terminated: true }
            "\n\n" Whitespace"#,
    ),
    (
        "escape_string_with_backslash_escaped_quote",
        "E'foo\\'bar'",
        r#"
            "E'foo\\'bar'" EscStr { terminated: true }"#,
    ),
    (
        "escape_string_with_escaped_terminal_quote_is_unterminated",
        "E'foo\\';",
        r#"
            "E'foo\\';" EscStr { terminated: false }"#,
    ),
    (
        "escape_string_with_even_backslashes_before_quote_is_terminated",
        "E'foo\\\\'",
        r#"
            "E'foo\\\\'" EscStr { terminated: true }"#,
    ),
    (
        "string_with_unicode_and_nul",
        "select 'é\0漢𐐷''尾';",
        r#"
            "select" Ident
            " " Whitespace
            "'é\0漢𐐷''尾'" Str { terminated: true }
            ";" Semi"#,
    ),
    (
        "unterminated_string_with_unicode_and_nul",
        "select 'é\0漢𐐷",
        r#"
            "select" Ident
            " " Whitespace
            "'é\0漢𐐷" Str { terminated: false }"#,
    ),
    (
        "escape_string_with_unicode_and_nul",
        "select E'\\é\\𐐷\0''尾';",
        r#"
            "select" Ident
            " " Whitespace
            "E'\\é\\𐐷\0''尾'" EscStr { terminated: true }
            ";" Semi"#,
    ),
    (
        "escape_string_with_unicode_and_trailing_backslash",
        "select E'漢\\",
        r#"
            "select" Ident
            " " Whitespace
            "E'漢\\" EscStr { terminated: false }"#,
    ),
    (
        "string_unicode_escape",
        "\n\
         U&\"d\\0061t\\+000061\"\n\n\
         U&\"\\0441\\043B\\043E\\043D\"\n\n\
         u&'\\0441\\043B'\n\n\
         U&\"d!0061t!+000061\" UESCAPE '!'\n",
        r#"
            "\n" Whitespace
            "U&\"d\\0061t\\+000061\"" QuotedIdent { terminated: true, uescape: true }
            "\n\n" Whitespace
            "U&\"\\0441\\043B\\043E\\043D\"" QuotedIdent { terminated: true, uescape: true }
            "\n\n" Whitespace
            "u&'\\0441\\043B'" UnicodeEscStr { terminated: true }
            "\n\n" Whitespace
            "U&\"d!0061t!+000061\"" QuotedIdent { terminated: true, uescape: true }
            " " Whitespace
            "UESCAPE" Ident
            " " Whitespace
            "'!'" Str { terminated: true }
            "\n" Whitespace"#,
    ),
];
