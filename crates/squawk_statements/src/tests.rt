//! Openings, first children and steps of worked lists of kinds.
ghost use Rattle.std.specs.Prelude.{IfOk, IsTrue};
ghost use Rattle.squawk_events.specs.Kinds.{has_no_trivia};

use super::*;
use squawk_events::{EntryPoint, FrontError, Input, Step};
use squawk_kinds::SyntaxKind;
use squawk_kinds::numbers::Number;
use std::alloc::{AllocError, Global};

// Each row: its name, the kinds of a statement, and its node, which is `ERROR` where no row of the
// opening table is a prefix of the kinds.
const OPENINGS: &[(&str, &[u16], u16)] = &[
    ("select", &[Number::SELECT_KW, Number::STAR], Number::SELECT),
    (
        "with recursive",
        &[Number::WITH_KW, Number::RECURSIVE_KW],
        Number::SELECT,
    ),
    (
        "begins with (",
        &[Number::L_PAREN, Number::SELECT_KW],
        Number::PAREN_SELECT,
    ),
    (
        "begins with )",
        &[Number::R_PAREN, Number::SELECT_KW],
        Number::ERROR,
    ),
    (
        "create table",
        &[Number::CREATE_KW, Number::TABLE_KW],
        Number::CREATE_TABLE,
    ),
    (
        "create global temporary table",
        &[
            Number::CREATE_KW,
            Number::GLOBAL_KW,
            Number::TEMPORARY_KW,
            Number::TABLE_KW,
        ],
        Number::CREATE_TABLE,
    ),
    (
        "create unique index",
        &[Number::CREATE_KW, Number::UNIQUE_KW, Number::INDEX_KW],
        Number::CREATE_INDEX,
    ),
    (
        "create or replace function",
        &[
            Number::CREATE_KW,
            Number::OR_KW,
            Number::REPLACE_KW,
            Number::FUNCTION_KW,
        ],
        Number::CREATE_FUNCTION,
    ),
    (
        "create text search parser",
        &[
            Number::CREATE_KW,
            Number::TEXT_KW,
            Number::SEARCH_KW,
            Number::PARSER_KW,
            Number::IDENT,
        ],
        Number::CREATE_TEXT_SEARCH_PARSER,
    ),
    (
        "create text search, one word short",
        &[Number::CREATE_KW, Number::TEXT_KW, Number::SEARCH_KW],
        Number::ERROR,
    ),
    ("a lone create", &[Number::CREATE_KW], Number::ERROR),
    (
        "create and modifiers alone",
        &[Number::CREATE_KW, Number::OR_KW, Number::REPLACE_KW],
        Number::ERROR,
    ),
    (
        "create with trivia, which is not left out",
        &[Number::CREATE_KW, Number::WHITESPACE, Number::TABLE_KW],
        Number::ERROR,
    ),
    ("no kinds", &[], Number::ERROR),
];

const OTHER_OPENINGS: &[(&str, &[u16], u16)] = &[
    (
        "alter table",
        &[Number::ALTER_KW, Number::TABLE_KW],
        Number::ALTER_TABLE,
    ),
    (
        "alter unique index",
        &[Number::ALTER_KW, Number::UNIQUE_KW, Number::INDEX_KW],
        Number::ERROR,
    ),
    (
        "drop materialized view",
        &[Number::DROP_KW, Number::MATERIALIZED_KW, Number::VIEW_KW],
        Number::DROP_MATERIALIZED_VIEW,
    ),
    (
        "drop text search dictionary",
        &[
            Number::DROP_KW,
            Number::TEXT_KW,
            Number::SEARCH_KW,
            Number::DICTIONARY_KW,
        ],
        Number::DROP_TEXT_SEARCH_DICT,
    ),
    (
        "set, a prefix of longer rows",
        &[Number::SET_KW, Number::SESSION_KW],
        Number::SET,
    ),
    (
        "set session authorization",
        &[Number::SET_KW, Number::SESSION_KW, Number::AUTHORIZATION_KW],
        Number::SET_SESSION_AUTH,
    ),
    (
        "rollback",
        &[Number::ROLLBACK_KW, Number::SEMICOLON],
        Number::ROLLBACK_TRANSACTION,
    ),
    (
        "rollback to",
        &[Number::ROLLBACK_KW, Number::TO_KW, Number::IDENT],
        Number::ROLLBACK_TO_SAVEPOINT,
    ),
    (
        "commit prepared",
        &[Number::COMMIT_KW, Number::PREPARED_KW],
        Number::COMMIT_PREPARED,
    ),
    (
        "import foreign schema",
        &[Number::IMPORT_KW, Number::FOREIGN_KW, Number::SCHEMA_KW],
        Number::IMPORT_FOREIGN_SCHEMA,
    ),
    (
        "import foreign, one word short",
        &[Number::IMPORT_KW, Number::FOREIGN_KW],
        Number::ERROR,
    ),
];

// The kinds with these numbers.
fn kinds_with_numbers(alloc: Global, numbers: &[u16]) -> Result<Vec<SyntaxKind>, AllocError> {
    let mut kinds = Vec::new(alloc);
    for number in numbers {
        if let Some(kind) = SyntaxKind::from_raw(*number) {
            kinds.push(kind)?;
        }
    }
    Ok(kinds)
}

// The number of the node of a statement of these kinds.
fn node_number(kinds: &[SyntaxKind]) -> u16 {
    match opening(kinds) {
        Some(node) => node.to_raw(),
        None => Number::ERROR,
    }
}

#[test]
fn openings(rt: HostRuntime) {
    for row in OPENINGS {
        let (name, numbers, node) = *row;
        let kinds = kinds_with_numbers(rt.alloc(), numbers).expect(&rt, "memory");
        assert_eq!(rt; node_number(&kinds), node, "{name}");
    }
    for row in OTHER_OPENINGS {
        let (name, numbers, node) = *row;
        let kinds = kinds_with_numbers(rt.alloc(), numbers).expect(&rt, "memory");
        assert_eq!(rt; node_number(&kinds), node, "{name}");
    }
}

#[test]
fn first_children(rt: HostRuntime) {
    let semicolon = ChildShape {
        tokens: 1,
        node: Some(SyntaxKind::EMPTY_STMT),
        closed: true,
    };
    let kinds = [SyntaxKind::SEMICOLON, SyntaxKind::SELECT_KW];
    assert_eq!(rt; first_child(&kinds), semicolon);
    let create = [
        SyntaxKind::CREATE_KW,
        SyntaxKind::WHITESPACE,
        SyntaxKind::UNIQUE_KW,
        SyntaxKind::COMMENT,
        SyntaxKind::INDEX_KW,
        SyntaxKind::WHITESPACE,
    ];
    let unclosed = ChildShape {
        tokens: 5,
        node: Some(SyntaxKind::CREATE_INDEX),
        closed: false,
    };
    assert_eq!(rt; first_child(&create), unclosed);
    let leaf = ChildShape {
        tokens: 1,
        node: None,
        closed: true,
    };
    let kinds = create.as_slice();
    assert_eq!(rt; first_child(&kinds[1..]), leaf);
    let group = [
        SyntaxKind::L_PAREN,
        SyntaxKind::SEMICOLON,
        SyntaxKind::R_PAREN,
        SyntaxKind::SEMICOLON,
    ];
    assert_eq!(rt; first_child(&group).tokens, 2);
    assert_eq!(rt; first_child_in(&group, Division::Grouped).tokens, 4);
}

// The input of `foo (a;b`, without its trivia.
#[tactic(auto, unfolding(squawk_events::specs::Kinds::is_trivia_kind))]
fn semicolon_in_group(alloc: Global) -> Result<Input, FrontError>
    ensures { IfOk result (λ input. IsTrue (has_no_trivia input)) }
{
    let mut input = Input::new(alloc);
    input.push(SyntaxKind::IDENT)?;
    input.push(SyntaxKind::L_PAREN)?;
    input.push(SyntaxKind::IDENT)?;
    input.push(SyntaxKind::SEMICOLON)?;
    input.push(SyntaxKind::IDENT)?;
    Ok(input)
}

fn enter(kind: SyntaxKind) -> Step {
    Step::Enter { kind }
}

fn token(kind: SyntaxKind) -> Step {
    Step::Token { kind }
}

#[test]
fn flat_division(rt: HostRuntime) {
    let input = semicolon_in_group(rt.alloc()).expect(&rt, "memory");
    let output = EntryPoint::SourceFile
        .parse(rt.alloc(), &input, &PlainGrammar)
        .expect(&rt, "memory");
    let wanted = [
        enter(SyntaxKind::SOURCE_FILE),
        enter(SyntaxKind::ERROR),
        Step::Error { number: 10 },
        token(SyntaxKind::IDENT),
        enter(SyntaxKind::PAREN_EXPR),
        token(SyntaxKind::L_PAREN),
        token(SyntaxKind::IDENT),
        Step::Exit,
        token(SyntaxKind::SEMICOLON),
        Step::Exit,
        enter(SyntaxKind::ERROR),
        Step::Error { number: 10 },
        token(SyntaxKind::IDENT),
        Step::Exit,
        Step::Exit,
    ];
    assert_eq!(rt; output.steps().len(), wanted.len());
    for k in 0..wanted.len() {
        assert_eq!(rt; output.steps()[k], wanted[k], "step {k}");
    }
}

#[test]
fn grouped_division(rt: HostRuntime) {
    let input = semicolon_in_group(rt.alloc()).expect(&rt, "memory");
    let output = EntryPoint::SourceFile
        .parse(rt.alloc(), &input, &GroupedGrammar)
        .expect(&rt, "memory");
    let wanted = [
        enter(SyntaxKind::SOURCE_FILE),
        enter(SyntaxKind::ERROR),
        Step::Error { number: 10 },
        token(SyntaxKind::IDENT),
        enter(SyntaxKind::PAREN_EXPR),
        token(SyntaxKind::L_PAREN),
        token(SyntaxKind::IDENT),
        token(SyntaxKind::SEMICOLON),
        token(SyntaxKind::IDENT),
        Step::Exit,
        Step::Exit,
        Step::Exit,
    ];
    assert_eq!(rt; output.steps().len(), wanted.len());
    for k in 0..wanted.len() {
        assert_eq!(rt; output.steps()[k], wanted[k], "step {k}");
    }
}
