//! psql's commands.
use crate::tests::Row;

// psql's commands.
pub const PSQL_LINES: &[Row] = &[
    (
        "psql_commands",
        "\\dt+ public.*\n\
         \\set value :'other'\n\
         \\echo 'it\\'s a \\\\ path' `echo hello`\n\
         \\echo \"quoted\\name\" 'two''quotes'\n\
         \\! echo C:\\tmp\n\
         \\copy t from 'C:\\tmp'\n\
         \\echo 'unterminated\n\
         \\",
        r#"
            "\\dt+ public.*" PsqlCommand { ends_query: false }
            "\n" Whitespace
            "\\set value :'other'" PsqlCommand { ends_query: false }
            "\n" Whitespace
            "\\echo 'it\\'s a \\\\ path' `echo hello`" PsqlCommand { ends_query: false }
            "\n" Whitespace
            "\\echo \"quoted\\name\" 'two''quotes'" PsqlCommand { ends_query: false }
            "\n" Whitespace
            "\\! echo C:\\tmp" PsqlCommand { ends_query: false }
            "\n" Whitespace
            "\\copy t from 'C:\\tmp'" PsqlCommand { ends_query: false }
            "\n" Whitespace
            "\\echo 'unterminated" PsqlCommand { ends_query: false }
            "\n" Whitespace
            "\\" PsqlCommand { ends_query: false }"#,
    ),
    (
        "psql_commands_newlines",
        "\\echo 'unterminated\n\
         select 1;\n\
         \\echo 'unterminated\r\n\
         select 1;\r\n\
         \\echo 'unterminated\rselect 1;",
        r#"
            "\\echo 'unterminated" PsqlCommand { ends_query: false }
            "\n" Whitespace
            "select" Ident
            " " Whitespace
            "1" Int { base: Decimal, empty_int: false, trailing_junk_start: 1 }
            ";" Semi
            "\n" Whitespace
            "\\echo 'unterminated" PsqlCommand { ends_query: false }
            "\r\n" Whitespace
            "select" Ident
            " " Whitespace
            "1" Int { base: Decimal, empty_int: false, trailing_junk_start: 1 }
            ";" Semi
            "\r\n" Whitespace
            "\\echo 'unterminated" PsqlCommand { ends_query: false }
            "\r" Whitespace
            "select" Ident
            " " Whitespace
            "1" Int { base: Decimal, empty_int: false, trailing_junk_start: 1 }
            ";" Semi"#,
    ),
    (
        "psql_commands_same_line",
        "\\echo hello \\dt \\\\ select 1;",
        r#"
            "\\echo hello " PsqlCommand { ends_query: false }
            "\\dt " PsqlCommand { ends_query: false }
            "\\\\" PsqlCommand { ends_query: false }
            " " Whitespace
            "select" Ident
            " " Whitespace
            "1" Int { base: Decimal, empty_int: false, trailing_junk_start: 1 }
            ";" Semi"#,
    ),
    (
        "psql_escaped_semicolon_and_colon",
        "SELECT 1\\; SELECT 2\\; SELECT 3\\:\\:int;",
        r#"
            "SELECT" Ident
            " " Whitespace
            "1" Int { base: Decimal, empty_int: false, trailing_junk_start: 1 }
            "\\;" Semi
            " " Whitespace
            "SELECT" Ident
            " " Whitespace
            "2" Int { base: Decimal, empty_int: false, trailing_junk_start: 1 }
            "\\;" Semi
            " " Whitespace
            "SELECT" Ident
            " " Whitespace
            "3" Int { base: Decimal, empty_int: false, trailing_junk_start: 1 }
            "\\:" Colon
            "\\:" Colon
            "int" Ident
            ";" Semi"#,
    ),
    (
        "psql_commands_reading_whole_line",
        "\\o | grep foo\\|bar\n\
         \\g |sed s/a\\\\b/c/\n\
         \\h select \\\\\n\
         \\sf+ foo(int) \\x\n\
         \\w out.txt \\echo hi\n\
         \\g (format=csv) |cat \\\\ x\n\
         \\gx (format=csv tuples_only) | cat\n\
         \\g ( format=csv ) |cat\n\
         \\g (fieldsep=')') |cat\n\
         \\g (format=csv) out.csv \\echo hi\n\
         \\COPY t to stdout \\\\ x",
        r#"
            "\\o | grep foo\\|bar" PsqlCommand { ends_query: false }
            "\n" Whitespace
            "\\g |sed s/a\\\\b/c/" PsqlCommand { ends_query: true }
            "\n" Whitespace
            "\\h select \\\\" PsqlCommand { ends_query: false }
            "\n" Whitespace
            "\\sf+ foo(int) \\x" PsqlCommand { ends_query: false }
            "\n" Whitespace
            "\\w out.txt " PsqlCommand { ends_query: false }
            "\\echo hi" PsqlCommand { ends_query: false }
            "\n" Whitespace
            "\\g (format=csv) |cat \\\\ x" PsqlCommand { ends_query: true }
            "\n" Whitespace
            "\\gx (format=csv tuples_only) | cat" PsqlCommand { ends_query: true }
            "\n" Whitespace
            "\\g ( format=csv ) |cat" PsqlCommand { ends_query: true }
            "\n" Whitespace
            "\\g (fieldsep=')') |cat" PsqlCommand { ends_query: true }
            "\n" Whitespace
            "\\g (format=csv) out.csv " PsqlCommand { ends_query: true }
            "\\echo hi" PsqlCommand { ends_query: false }
            "\n" Whitespace
            "\\COPY t to stdout \\\\ x" PsqlCommand { ends_query: false }"#,
    ),
    (
        "psql_commands_ending_query",
        "select 1 \\echo x \\gset x_\nselect $1 \\parse stmt\nselect 2 \\r",
        r#"
            "select" Ident
            " " Whitespace
            "1" Int { base: Decimal, empty_int: false, trailing_junk_start: 1 }
            " " Whitespace
            "\\echo x " PsqlCommand { ends_query: false }
            "\\gset x_" PsqlCommand { ends_query: true }
            "\n" Whitespace
            "select" Ident
            " " Whitespace
            "$1" PositionalParam { trailing_junk_start: 2 }
            " " Whitespace
            "\\parse stmt" PsqlCommand { ends_query: true }
            "\n" Whitespace
            "select" Ident
            " " Whitespace
            "2" Int { base: Decimal, empty_int: false, trailing_junk_start: 1 }
            " " Whitespace
            "\\r" PsqlCommand { ends_query: true }"#,
    ),
    (
        "psql_argument_whitespace",
        "\\echo \t\u{b}\u{c}hello\nselect 1;",
        r#"
            "\\echo \t\u{b}\u{c}hello" PsqlCommand { ends_query: false }
            "\n" Whitespace
            "select" Ident
            " " Whitespace
            "1" Int { base: Decimal, empty_int: false, trailing_junk_start: 1 }
            ";" Semi"#,
    ),
    (
        "psql_command_name_with_unicode_and_nul",
        "\\echo\0é漢𐐷\\echo done\nselect 1;",
        r#"
            "\\echo\0é漢𐐷" PsqlCommand { ends_query: false }
            "\\echo done" PsqlCommand { ends_query: false }
            "\n" Whitespace
            "select" Ident
            " " Whitespace
            "1" Int { base: Decimal, empty_int: false, trailing_junk_start: 1 }
            ";" Semi"#,
    ),
];

// Quotes in psql's commands.
pub const PSQL_QUOTES: &[Row] = &[
    (
        "psql_command_quotes_without_escapes",
        "\\echo \"C:\\\" \\\\ select 1;\n\\echo `echo a\\` \\\\ select 2;",
        r#"
            "\\echo \"C:\\\" " PsqlCommand { ends_query: false }
            "\\\\" PsqlCommand { ends_query: false }
            " " Whitespace
            "select" Ident
            " " Whitespace
            "1" Int { base: Decimal, empty_int: false, trailing_junk_start: 1 }
            ";" Semi
            "\n" Whitespace
            "\\echo `echo a\\` " PsqlCommand { ends_query: false }
            "\\\\" PsqlCommand { ends_query: false }
            " " Whitespace
            "select" Ident
            " " Whitespace
            "2" Int { base: Decimal, empty_int: false, trailing_junk_start: 1 }
            ";" Semi"#,
    ),
    (
        "psql_quoted_unicode_arguments",
        "\\echo 'é漢𐐷' \"é漢𐐷\" `é漢𐐷` abc'漢'尾\nselect 1;",
        r#"
            "\\echo 'é漢𐐷' \"é漢𐐷\" `é漢𐐷` abc'漢'尾" PsqlCommand { ends_query: false }
            "\n" Whitespace
            "select" Ident
            " " Whitespace
            "1" Int { base: Decimal, empty_int: false, trailing_junk_start: 1 }
            ";" Semi"#,
    ),
    (
        "psql_single_quote_escaped_unicode",
        "\\echo 'a\\𐐷' tail\nselect 1;",
        r#"
            "\\echo 'a\\𐐷' tail" PsqlCommand { ends_query: false }
            "\n" Whitespace
            "select" Ident
            " " Whitespace
            "1" Int { base: Decimal, empty_int: false, trailing_junk_start: 1 }
            ";" Semi"#,
    ),
    (
        "psql_single_quote_backslash_before_newline",
        "\\echo 'a\\\nselect 1;\n\\echo 'a\\\rselect 2;",
        r#"
            "\\echo 'a\\" PsqlCommand { ends_query: false }
            "\n" Whitespace
            "select" Ident
            " " Whitespace
            "1" Int { base: Decimal, empty_int: false, trailing_junk_start: 1 }
            ";" Semi
            "\n" Whitespace
            "\\echo 'a\\" PsqlCommand { ends_query: false }
            "\r" Whitespace
            "select" Ident
            " " Whitespace
            "2" Int { base: Decimal, empty_int: false, trailing_junk_start: 1 }
            ";" Semi"#,
    ),
    (
        "psql_single_quote_trailing_backslash",
        "\\echo 'a\\",
        r#"
            "\\echo 'a\\" PsqlCommand { ends_query: false }"#,
    ),
    (
        "psql_unterminated_double_quoted_unicode",
        "\\echo \"unterminated漢",
        r#"
            "\\echo \"unterminated漢" PsqlCommand { ends_query: false }"#,
    ),
    (
        "psql_unterminated_backtick_unicode",
        "\\echo abc`unterminated漢",
        r#"
            "\\echo abc`unterminated漢" PsqlCommand { ends_query: false }"#,
    ),
    (
        "psql_quoted_nul",
        "\\echo 'a\0漢'\nselect 1;",
        r#"
            "\\echo 'a\0漢'" PsqlCommand { ends_query: false }
            "\n" Whitespace
            "select" Ident
            " " Whitespace
            "1" Int { base: Decimal, empty_int: false, trailing_junk_start: 1 }
            ";" Semi"#,
    ),
    (
        "psql_short_quoted_arguments",
        "\\echo '' 'a' 'abc' 'abcd' \"\" \"abc\" `` `abc`\nselect 1;",
        r#"
            "\\echo '' 'a' 'abc' 'abcd' \"\" \"abc\" `` `abc`" PsqlCommand { ends_query: false }
            "\n" Whitespace
            "select" Ident
            " " Whitespace
            "1" Int { base: Decimal, empty_int: false, trailing_junk_start: 1 }
            ";" Semi"#,
    ),
    (
        "psql_long_quoted_arguments",
        "\\echo 'A long single-quoted message with é漢𐐷' \
         \"A long double-quoted message with é漢𐐷\" \
         `printf 'A long backtick message with é漢𐐷'`\n\
         select 1;",
        r#"
            "\\echo 'A long single-quoted message with é漢𐐷' \"A long double-quoted message with é漢𐐷\" `printf 'A long backtick message with é漢𐐷'`" PsqlCommand { ends_query: false }
            "\n" Whitespace
            "select" Ident
            " " Whitespace
            "1" Int { base: Decimal, empty_int: false, trailing_junk_start: 1 }
            ";" Semi"#,
    ),
    (
        "psql_unterminated_long_quoted_arguments",
        "\\echo 'A long single-quoted message with é漢𐐷\n\
         select 1;\n\
         \\echo \"A long double-quoted message with é漢𐐷\rselect 2;\r\
         \\echo `A long backtick message with é漢𐐷",
        r#"
            "\\echo 'A long single-quoted message with é漢𐐷" PsqlCommand { ends_query: false }
            "\n" Whitespace
            "select" Ident
            " " Whitespace
            "1" Int { base: Decimal, empty_int: false, trailing_junk_start: 1 }
            ";" Semi
            "\n" Whitespace
            "\\echo \"A long double-quoted message with é漢𐐷" PsqlCommand { ends_query: false }
            "\r" Whitespace
            "select" Ident
            " " Whitespace
            "2" Int { base: Decimal, empty_int: false, trailing_junk_start: 1 }
            ";" Semi
            "\r" Whitespace
            "\\echo `A long backtick message with é漢𐐷" PsqlCommand { ends_query: false }"#,
    ),
    (
        "psql_single_quoted_parenthesis_closes_options",
        "\\g (fieldsep=')' |cat \\echo done",
        r#"
            "\\g (fieldsep=')' |cat \\echo done" PsqlCommand { ends_query: true }"#,
    ),
    (
        "psql_double_quoted_parenthesis_does_not_close_options",
        "\\g (fieldsep=\")\" |cat \\echo done",
        r#"
            "\\g (fieldsep=\")\" |cat " PsqlCommand { ends_query: true }
            "\\echo done" PsqlCommand { ends_query: false }"#,
    ),
    (
        "psql_backtick_parenthesis_does_not_close_options",
        "\\g (fieldsep=`printf ')'` |cat \\echo done",
        r#"
            "\\g (fieldsep=`printf ')'` |cat " PsqlCommand { ends_query: true }
            "\\echo done" PsqlCommand { ends_query: false }"#,
    ),
    (
        "psql_quoted_argument_followed_by_parenthesis",
        "\\g (fieldsep='abc') |cat \\echo done\n\
         \\g (fieldsep=`printf abc`) |cat \\echo done\n\
         select 1;",
        r#"
            "\\g (fieldsep='abc') |cat \\echo done" PsqlCommand { ends_query: true }
            "\n" Whitespace
            "\\g (fieldsep=`printf abc`) |cat \\echo done" PsqlCommand { ends_query: true }
            "\n" Whitespace
            "select" Ident
            " " Whitespace
            "1" Int { base: Decimal, empty_int: false, trailing_junk_start: 1 }
            ";" Semi"#,
    ),
];
