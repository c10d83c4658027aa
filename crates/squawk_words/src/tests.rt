//! Keywords of some texts, and members of the sets.
use super::*;
use std::alloc::AllocError;

#[test]
fn words_and_sets(rt: HostRuntime) {
    // The name of the row, a text, its keyword and its contextual keyword.
    let words = [
        ("mixed case", "SeLeCt", Some(SyntaxKind::SELECT_KW), None),
        (
            "contextual keyword",
            "loop",
            None,
            Some(SyntaxKind::LOOP_KW),
        ),
        (
            "contextual keyword in capitals",
            "LOOP",
            None,
            Some(SyntaxKind::LOOP_KW),
        ),
        (
            "the last keyword by name",
            "zone",
            Some(SyntaxKind::ZONE_KW),
            None,
        ),
        (
            "the first keyword by name",
            "abort",
            Some(SyntaxKind::ABORT_KW),
            None,
        ),
        (
            "the longest keyword",
            "CURRENT_TIMESTAMP",
            Some(SyntaxKind::CURRENT_TIMESTAMP_KW),
            None,
        ),
        (
            "the shortest and first of the table",
            "as",
            Some(SyntaxKind::AS_KW),
            None,
        ),
        (
            "keyword with an ASCII k",
            "key",
            Some(SyntaxKind::KEY_KW),
            None,
        ),
        ("Kelvin sign in place of k", "\u{212A}ey", None, None),
        (
            "Turkish dotless i in place of i",
            "l\u{131}m\u{131}t",
            None,
            None,
        ),
        (
            "the longest contextual keyword",
            "pg_exception_context",
            None,
            Some(SyntaxKind::PG_EXCEPTION_CONTEXT_KW),
        ),
        ("empty text", "", None, None),
        ("one letter", "a", None, None),
        ("the hash of select, another letter", "seject", None, None),
        (
            "longer than every word",
            "aaaaaaaaaaaaaaaaaaaaa",
            None,
            None,
        ),
        ("prefix of a keyword", "selec", None, None),
        ("keyword and one letter", "selects", None, None),
        ("printed text of a keyword", "`select`", None, None),
        ("quoted keyword", "\"select\"", None, None),
        (
            "letter with another byte that differs in bit 5",
            "\u{13}elect",
            None,
            None,
        ),
    ];
    for (row, text, keyword, contextual) in words {
        assert_eq!(rt; from_keyword(text), keyword, "{row}: {text}");
        assert_eq!(rt; from_contextual_keyword(text), contextual, "{row}: {text}");
    }
}

// The number of kinds that are members of the set.
fn count_of(set: KindSet) -> usize {
    (0..squawk_kinds::COUNT)
        .filter_map(SyntaxKind::from_raw)
        .filter(|kind| set.contains(*kind))
        .count()
}

#[test]
fn sets_have_members(rt: HostRuntime) -> Result<(), AllocError> {
    // A set, the number of its members, some members, and some kinds that are none.
    let sets = [
        (
            "PUNCTUATION",
            PUNCTUATION,
            10,
            [
                SyntaxKind::SEMICOLON,
                SyntaxKind::R_BRACK,
                SyntaxKind::DOT_DOT,
            ],
            [SyntaxKind::DOLLAR, SyntaxKind::COLON, SyntaxKind::MINUS],
        ),
        (
            "OPERATORS",
            OPERATORS,
            28,
            [
                SyntaxKind::DOLLAR,
                SyntaxKind::COLON_EQ,
                SyntaxKind::BACKTICK,
            ],
            [SyntaxKind::EOF, SyntaxKind::SEMICOLON, SyntaxKind::ABORT_KW],
        ),
        (
            "CONTEXTUAL_KEYWORDS",
            CONTEXTUAL_KEYWORDS,
            49,
            [
                SyntaxKind::ALIAS_KW,
                SyntaxKind::LOOP_KW,
                SyntaxKind::WHILE_KW,
            ],
            [
                SyntaxKind::ZONE_KW,
                SyntaxKind::SELECT_KW,
                SyntaxKind::BIT_STRING,
            ],
        ),
        (
            "COLUMN_OR_TABLE_KEYWORDS",
            COLUMN_OR_TABLE_KEYWORDS,
            410,
            [
                SyntaxKind::ABORT_KW,
                SyntaxKind::BETWEEN_KW,
                SyntaxKind::ZONE_KW,
            ],
            [
                SyntaxKind::LEFT_KW,
                SyntaxKind::SELECT_KW,
                SyntaxKind::ALIAS_KW,
            ],
        ),
        (
            "TYPE_KEYWORDS",
            TYPE_KEYWORDS,
            433,
            [
                SyntaxKind::ABORT_KW,
                SyntaxKind::LEFT_KW,
                SyntaxKind::INT_KW,
            ],
            [
                SyntaxKind::SELECT_KW,
                SyntaxKind::ALL_KW,
                SyntaxKind::LOOP_KW,
            ],
        ),
        (
            "COL_NAME_KEYWORD_FIRST",
            COL_NAME_KEYWORD_FIRST,
            64,
            [
                SyntaxKind::BETWEEN_KW,
                SyntaxKind::INT_KW,
                SyntaxKind::XMLTABLE_KW,
            ],
            [
                SyntaxKind::BEGIN_KW,
                SyntaxKind::LEFT_KW,
                SyntaxKind::YEAR_KW,
            ],
        ),
        (
            "TYPE_FUNC_NAME_KEYWORDS",
            TYPE_FUNC_NAME_KEYWORDS,
            23,
            [
                SyntaxKind::AUTHORIZATION_KW,
                SyntaxKind::LEFT_KW,
                SyntaxKind::VERBOSE_KW,
            ],
            [
                SyntaxKind::INT_KW,
                SyntaxKind::ATTRIBUTE_KW,
                SyntaxKind::SELECT_KW,
            ],
        ),
        (
            "ALL_KEYWORDS",
            ALL_KEYWORDS,
            511,
            [
                SyntaxKind::ABORT_KW,
                SyntaxKind::SELECT_KW,
                SyntaxKind::ZONE_KW,
            ],
            [
                SyntaxKind::BACKTICK,
                SyntaxKind::ALIAS_KW,
                SyntaxKind::SELECT,
            ],
        ),
        (
            "BARE_LABEL_KEYWORDS",
            BARE_LABEL_KEYWORDS,
            470,
            [
                SyntaxKind::ABORT_KW,
                SyntaxKind::SELECT_KW,
                SyntaxKind::ZONE_KW,
            ],
            [SyntaxKind::AS_KW, SyntaxKind::YEAR_KW, SyntaxKind::CHAR_KW],
        ),
        (
            "UNRESERVED_KEYWORDS",
            UNRESERVED_KEYWORDS,
            346,
            [
                SyntaxKind::ABORT_KW,
                SyntaxKind::NFC_KW,
                SyntaxKind::YEAR_KW,
            ],
            [
                SyntaxKind::INT_KW,
                SyntaxKind::LEFT_KW,
                SyntaxKind::SELECT_KW,
            ],
        ),
        (
            "RESERVED_KEYWORDS",
            RESERVED_KEYWORDS,
            78,
            [
                SyntaxKind::ALL_KW,
                SyntaxKind::SELECT_KW,
                SyntaxKind::WITH_KW,
            ],
            [
                SyntaxKind::LEFT_KW,
                SyntaxKind::INT_KW,
                SyntaxKind::WITHIN_KW,
            ],
        ),
        (
            "PLPGSQL_RESERVED_KEYWORDS",
            PLPGSQL_RESERVED_KEYWORDS,
            19,
            [SyntaxKind::ALL_KW, SyntaxKind::IF_KW, SyntaxKind::WHEN_KW],
            [
                SyntaxKind::SELECT_KW,
                SyntaxKind::LOOP_KW,
                SyntaxKind::WHERE_KW,
            ],
        ),
        (
            "PLPGSQL_RESERVED_CONTEXTUAL_KEYWORDS",
            PLPGSQL_RESERVED_CONTEXTUAL_KEYWORDS,
            3,
            [
                SyntaxKind::FOREACH_KW,
                SyntaxKind::LOOP_KW,
                SyntaxKind::WHILE_KW,
            ],
            [
                SyntaxKind::EXIT_KW,
                SyntaxKind::IF_KW,
                SyntaxKind::WARNING_KW,
            ],
        ),
    ];
    for (row, set, count, members, others) in sets {
        assert_eq!(rt; count_of(set), count, "{row}");
        assert_eq!(rt;
            count_of(laws::clones_are_equal(set)?),
            count,
            "clone of {row}"
        );
        for kind in members {
            assert!(rt; set.contains(kind), "{row}: {kind}");
        }
        for kind in others {
            assert!(rt; !set.contains(kind), "{row}: {kind}");
        }
    }
    Ok(())
}

#[test]
fn keyword_categories(rt: HostRuntime) {
    // A kind, and whether it is reserved, a column name, and a type or function name.
    let table = [
        (SyntaxKind::SELECT_KW, true, false, false),
        (SyntaxKind::BETWEEN_KW, false, true, false),
        (SyntaxKind::LEFT_KW, false, false, true),
        (SyntaxKind::ABORT_KW, false, false, false),
        (SyntaxKind::LOOP_KW, false, false, false),
        (SyntaxKind::IDENT, false, false, false),
        (SyntaxKind::SELECT, false, false, false),
    ];
    for (kind, reserved, col_name, type_func_name) in table {
        assert_eq!(rt; is_reserved_keyword(kind), reserved, "{kind}");
        assert_eq!(rt; is_col_name_keyword(kind), col_name, "{kind}");
        assert_eq!(rt; is_type_func_name_keyword(kind), type_func_name, "{kind}");
    }
}

#[test]
fn semantic_categories(rt: HostRuntime) {
    // A kind, and whether it is a keyword, an operator, punctuation and trivia.
    let table = [
        (SyntaxKind::SELECT_KW, true, false, false, false),
        (SyntaxKind::PERFORM_KW, true, false, false, false),
        (SyntaxKind::PLUS, false, true, false, false),
        (SyntaxKind::L_PAREN, false, false, true, false),
        (SyntaxKind::WHITESPACE, false, false, false, true),
        (SyntaxKind::COMMENT, false, false, false, true),
        (SyntaxKind::IDENT, false, false, false, false),
        (SyntaxKind::SELECT, false, false, false, false),
    ];
    for (kind, keyword, operator, punctuation, trivia) in table {
        assert_eq!(rt; kind.is_keyword(), keyword, "{kind}");
        assert_eq!(rt; kind.is_operator(), operator, "{kind}");
        assert_eq!(rt; kind.is_punctuation(), punctuation, "{kind}");
        assert_eq!(rt; kind.is_trivia(), trivia, "{kind}");
    }
}
