//! Leaf kinds, faults and accessors over texts whose tokens were worked by hand.
use super::*;
use squawk_events::{FrontError, Output, StepSink, StrStep};
use squawk_kinds::SyntaxKind;
use squawk_kinds::numbers::Number;
use squawk_lexer::{Strings, Token, TokenKind};
use std::test::Fail;

// Each row: the kind of a token, the token's text, and the kind of its leaf.
const LEAF_KINDS: &[(&str, &str, u16)] = &[
    ("Whitespace", "\t ", Number::WHITESPACE),
    ("LineComment", "--c", Number::COMMENT),
    ("BlockComment", "/**/", Number::COMMENT),
    ("Ident, a keyword", "select", Number::SELECT_KW),
    ("Ident, no keyword", "foo", Number::IDENT),
    ("QuotedIdent", "\"select\"", Number::IDENT),
    ("Int", "1", Number::INT_NUMBER),
    ("Numeric", "1.5", Number::NUMERIC_NUMBER),
    ("Str", "'a'", Number::STRING),
    ("NationalStr", "n'a'", Number::NATIONAL_STRING),
    ("ByteStr", "x'1f'", Number::BYTE_STRING),
    ("BitStr", "b'01'", Number::BIT_STRING),
    ("DollarQuotedString", "$$a$$", Number::DOLLAR_QUOTED_STRING),
    ("UnicodeEscStr", "u&'a'", Number::UNICODE_ESC_STRING),
    ("EscStr", "e'a'", Number::ESC_STRING),
    ("PositionalParam", "$1", Number::POSITIONAL_PARAM),
    (
        "PsqlCommand, ends the query",
        "\\g",
        Number::PSQL_TERMINATOR_TEXT,
    ),
    ("PsqlCommand, does not", "\\d", Number::PSQL_COMMAND_TEXT),
    ("Unknown", "\u{1}", Number::ERROR),
    ("Semi", ";", Number::SEMICOLON),
    ("Comma", ",", Number::COMMA),
    ("OpenParen", "(", Number::L_PAREN),
    ("CloseParen", ")", Number::R_PAREN),
    ("OpenBracket", "[", Number::L_BRACK),
];

const LEAF_KINDS_OF_PUNCTUATION: &[(&str, &str, u16)] = &[
    ("CloseBracket", "]", Number::R_BRACK),
    ("OpenCurly", "{", Number::L_CURLY),
    ("CloseCurly", "}", Number::R_CURLY),
    ("At", "@", Number::AT),
    ("Pound", "#", Number::POUND),
    ("Tilde", "~", Number::TILDE),
    ("Question", "?", Number::QUESTION),
    ("Colon", ":", Number::COLON),
    ("Eq", "=", Number::EQ),
    ("Bang", "!", Number::BANG),
    ("Lt", "<", Number::L_ANGLE),
    ("Gt", ">", Number::R_ANGLE),
    ("And", "&", Number::AMP),
    ("Or", "|", Number::PIPE),
    ("Plus", "+", Number::PLUS),
    ("Minus", "-", Number::MINUS),
    ("Star", "*", Number::STAR),
    ("Slash", "/", Number::SLASH),
    ("Caret", "^", Number::CARET),
    ("Percent", "%", Number::PERCENT),
    ("Backtick", "`", Number::BACKTICK),
    ("Dot", ".", Number::DOT),
    ("DotDot", "..", Number::DOT_DOT),
];

#[test]
fn leaf_kinds(rt: HostRuntime) {
    for row in LEAF_KINDS {
        let (name, text, number) = *row;
        let lexed = LexedStr::new(rt.alloc(), text).expect(&rt, "memory");
        assert_eq!(rt; lexed.len(), 1, "{name}: {text}");
        assert_eq!(rt; lexed.kind(0).to_raw(), number, "{name}: {text}");
    }
    for row in LEAF_KINDS_OF_PUNCTUATION {
        let (name, text, number) = *row;
        let lexed = LexedStr::new(rt.alloc(), text).expect(&rt, "memory");
        assert_eq!(rt; lexed.len(), 1, "{name}: {text}");
        assert_eq!(rt; lexed.kind(0).to_raw(), number, "{name}: {text}");
    }
    assert_eq!(rt; kind_of(TokenKind::Eof, ""), SyntaxKind::EOF);
    assert_eq!(rt; kind_of(TokenKind::Ident, "SeLeCt"), SyntaxKind::SELECT_KW);
    assert_eq!(rt; kind_of(TokenKind::Ident, "\u{212a}ey"), SyntaxKind::IDENT);
}

// Each row: its name, a text, and the number, the start and the end of each of its errors.
const ERRORS: &[(&str, &str, &[(u8, usize, usize)])] = &[
    ("no error", "select 1", &[]),
    ("unknown character", "\u{1}", &[(1, 0, 1)]),
    ("unterminated block comment", "/* a", &[(2, 0, 4)]),
    ("unterminated string", "'a", &[(3, 0, 2)]),
    ("unterminated dollar string", "$$a", &[(3, 0, 3)]),
    ("unterminated quoted identifier", "\"a", &[(4, 0, 2)]),
    ("base without digits", "0x", &[(5, 0, 2)]),
    ("exponent without digits", "1e+_2", &[(6, 1, 2)]),
    (
        "exponent without digits, and junk",
        "1eabc",
        &[(6, 1, 2), (7, 2, 5)],
    ),
    ("junk of two bytes", "12é", &[(7, 2, 4)]),
    ("parameter without digits", "1 $a;", &[(8, 2, 3), (9, 3, 4)]),
];

#[test]
fn errors_of_texts(rt: HostRuntime) {
    for row in ERRORS {
        let (name, text, errors) = *row;
        let lexed = LexedStr::new(rt.alloc(), text).expect(&rt, "memory");
        assert_eq!(rt; lexed.errors().len(), errors.len(), "{name}: {text}");
        for k in 0..errors.len() {
            let (number, start, end) = errors[k];
            assert_eq!(rt; lexed.errors()[k].number(), number, "{name}: {text}");
            assert_eq!(rt; lexed.errors()[k].range().start, start, "{name}: {text}");
            assert_eq!(rt; lexed.errors()[k].range().end, end, "{name}: {text}");
        }
    }
}

#[test]
fn faults_of_a_token(rt: HostRuntime) {
    let token = Token {
        kind: TokenKind::BlockComment { terminated: false },
        len: 4,
    };
    let comment = Fault {
        number: 2,
        start: 0,
        end: 4,
    };
    let faults = faults_of(token);
    assert_eq!(rt; faults[0], Some(comment));
    assert_eq!(rt; faults[1], None);
}

#[test]
fn lexed_text(rt: HostRuntime) {
    let lexed = LexedStr::new(rt.alloc(), " a ;").expect(&rt, "memory");
    assert_eq!(rt; lexed.as_str(), " a ;");
    assert_eq!(rt; lexed.len(), 4);
    assert_eq!(rt; lexed.kind(0), SyntaxKind::WHITESPACE);
    assert_eq!(rt; lexed.kind(1), SyntaxKind::IDENT);
    assert_eq!(rt; lexed.kind(2), SyntaxKind::WHITESPACE);
    assert_eq!(rt; lexed.kind(3), SyntaxKind::SEMICOLON);
    assert_eq!(rt; lexed.kind(4), SyntaxKind::EOF);
    assert_eq!(rt; lexed.text(1), "a");
    assert_eq!(rt; lexed.text_range(1).start, 1);
    assert_eq!(rt; lexed.text_range(1).end, 2);
    assert_eq!(rt; lexed.text_start(4), 4);
    assert_eq!(rt; lexed.token_step(1), token(SyntaxKind::IDENT, 1, 2));
    assert_eq!(rt; lexed.kinds().len(), 4);
    assert_eq!(rt; lexed.kinds()[3], SyntaxKind::SEMICOLON);
    assert_eq!(rt; lexed.errors().len(), 0);
    let input = lexed.to_input(rt.alloc()).expect(&rt, "memory");
    assert_eq!(rt; input.len(), 2);
    assert_eq!(rt; input.kind(0), SyntaxKind::IDENT);
    assert_eq!(rt; input.kind(1), SyntaxKind::SEMICOLON);
}

// A sink that keeps its steps in a list.
#[derive(Drop)]
struct ListSink {
    steps: Vec<StrStep>,
}

impl StepSink for ListSink {
    ghost use Rattle.std.specs.Prelude.{[]};

    ghost steps = { λ s. s.steps.items };

    ghost errors = { λ _. [] };

    fn step(&mut self, step: StrStep) -> Result<(), FrontError> {
        self.steps.push(step)?;
        Ok(())
    }
}

fn enter(kind: SyntaxKind) -> StrStep {
    StrStep::Enter { kind }
}

fn token(kind: SyntaxKind, start: u32, end: u32) -> StrStep {
    StrStep::Token { kind, start, end }
}

// The steps of a grammar for the kinds of " a ;", and where its trivia stands between them.
#[test]
fn trivia_between_steps(rt: HostRuntime) -> Result<(), Fail> {
    let lexed = LexedStr::new(rt.alloc(), " a ;").expect(&rt, "memory");
    let input = lexed.to_input(rt.alloc())?;
    assert!(rt; input.len() == 2);
    assert!(rt; input.kind(0).to_raw() == Number::IDENT);
    assert!(rt; input.kind(1).to_raw() == Number::SEMICOLON);
    let mut output = Output::new(rt.alloc());
    output.enter(SyntaxKind::SOURCE_FILE)?;
    output.enter(SyntaxKind::ERROR)?;
    output.error(10)?;
    output.token(SyntaxKind::IDENT)?;
    output.token(SyntaxKind::SEMICOLON)?;
    output.exit()?;
    output.exit()?;
    let mut sink = ListSink {
        steps: Vec::new(rt.alloc()),
    };
    let all = lexed.intersperse_trivia(&output, &mut sink)?;
    assert!(rt; all);
    let woven = [
        enter(SyntaxKind::SOURCE_FILE),
        token(SyntaxKind::WHITESPACE, 0, 1),
        enter(SyntaxKind::ERROR),
        StrStep::Error { number: 10, at: 1 },
        token(SyntaxKind::IDENT, 1, 2),
        token(SyntaxKind::WHITESPACE, 2, 3),
        token(SyntaxKind::SEMICOLON, 3, 4),
        StrStep::Exit,
        StrStep::Exit,
    ];
    assert_eq!(rt; sink.steps.as_slice(), woven.as_slice());
    Ok(())
}

#[test]
fn part_of_a_text(rt: HostRuntime) {
    let tokens = [
        Token {
            kind: TokenKind::Ident,
            len: 1,
        },
        Token {
            kind: TokenKind::Whitespace,
            len: 1,
        },
    ];
    let part = LexedStr::from_tokens(rt.alloc(), " a ;", 1, &tokens).expect(&rt, "memory");
    assert_eq!(rt; part.as_str(), "a ");
    assert_eq!(rt; part.len(), 2);
    assert_eq!(rt; part.kind(0), SyntaxKind::IDENT);
    assert_eq!(rt; part.kind(1), SyntaxKind::WHITESPACE);
    assert_eq!(rt; part.text_range(1).start, 1);
    assert_eq!(rt; part.text_range(1).end, 2);
    assert_eq!(rt; part.errors().len(), 0);
}

#[test]
fn backslash_in_a_string(rt: HostRuntime) {
    let escaped = LexedStr::new_in(rt.alloc(), "'\\';", Strings::Backslash).expect(&rt, "memory");
    assert_eq!(rt; escaped.len(), 1);
    assert_eq!(rt; escaped.errors().len(), 1);
}
