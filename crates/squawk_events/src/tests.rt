//! Displayed texts, conversions of errors, trivia, and the lists of kinds and steps.
ghost use Rattle.std.specs.Prelude.{IsOkUnless};

use super::*;
use squawk_kinds::SyntaxKind;
use std::alloc::{AllocError, Global};

#[test]
fn errors_have_texts(rt: HostRuntime) -> Result<(), AllocError> {
    let table = [
        (FrontError::TooLong, "too long"),
        (FrontError::OutOfMemory, "out of memory"),
        (FrontError::BadRange, "bad range"),
    ];
    for (error, text) in table {
        assert_eq!(rt; format!(in rt.alloc(); "{error}")?.as_str(), text);
    }
    Ok(())
}

fn push(items: &mut Vec<u8>, item: u8) -> Result<(), FrontError>
    ensures { IsOkUnless result FrontError.OutOfMemory }
{
    items.push(item)?;
    Ok(())
}

#[test]
fn allocation_errors_are_converted(rt: HostRuntime) {
    let mut items = Vec::new(rt.alloc());
    assert_eq!(rt; push(&mut items, 1), Ok(()));
    assert_eq!(rt; FrontError::from(AllocError), FrontError::OutOfMemory);
}

// Each row: a number, and its message.
const MESSAGES: &[(u8, &str)] = &[
    (1, "unknown character"),
    (2, "unterminated block comment"),
    (3, "unterminated string"),
    (4, "unterminated quoted identifier"),
    (5, "missing digits after base prefix"),
    (6, "missing digits in exponent"),
    (7, "trailing junk after number"),
    (8, "missing digits in parameter"),
    (9, "trailing junk after parameter"),
    (10, "unknown statement"),
];

#[test]
fn messages_have_texts(rt: HostRuntime) {
    for row in MESSAGES {
        let (number, text) = *row;
        assert_eq!(rt; message(number), text);
    }
}

#[test]
fn trivia(rt: HostRuntime) {
    assert_eq!(rt; is_trivia(SyntaxKind::WHITESPACE), true);
    assert_eq!(rt; is_trivia(SyntaxKind::COMMENT), true);
    assert_eq!(rt; is_trivia(SyntaxKind::SEMICOLON), false);
}

#[test]
fn kinds_of_an_input(rt: HostRuntime) {
    let mut input = Input::new(rt.alloc());
    assert_eq!(rt; input.kind(0), SyntaxKind::EOF);
    input.push(SyntaxKind::IDENT).expect(&rt, "memory");
    input.push(SyntaxKind::SEMICOLON).expect(&rt, "memory");
    assert_eq!(rt; input.len(), 2);
    assert_eq!(rt; input.kind(0), SyntaxKind::IDENT);
    assert_eq!(rt; input.kind(1), SyntaxKind::SEMICOLON);
    assert_eq!(rt; input.kind(2), SyntaxKind::EOF);
    assert_eq!(rt; input.kinds().len(), 2);
}

#[test]
fn input_from_kinds(rt: HostRuntime) -> Result<(), AllocError> {
    let kinds = vec![in rt.alloc(); SyntaxKind::IDENT, SyntaxKind::SEMICOLON]?;
    let input = Input::from_kinds(kinds);
    assert_eq!(rt; input.len(), 2);
    assert_eq!(rt; input.kind(0), SyntaxKind::IDENT);
    assert_eq!(rt; input.kind(1), SyntaxKind::SEMICOLON);
    Ok(())
}

// A node with one token and an error.
fn one_token(alloc: Global) -> Result<Output, FrontError> {
    let mut output = Output::new(alloc);
    output.enter(SyntaxKind::SOURCE_FILE)?;
    output.error(10)?;
    output.token(SyntaxKind::IDENT)?;
    output.exit()?;
    Ok(output)
}

#[test]
fn steps_of_an_output(rt: HostRuntime) {
    let output = one_token(rt.alloc()).expect(&rt, "memory");
    let wanted = [
        Step::Enter {
            kind: SyntaxKind::SOURCE_FILE,
        },
        Step::Error { number: 10 },
        Step::Token {
            kind: SyntaxKind::IDENT,
        },
        Step::Exit,
    ];
    assert_eq!(rt; output.depth(), 0);
    assert_eq!(rt; output.steps().len(), wanted.len());
    for k in 0..wanted.len() {
        assert_eq!(rt; output.steps()[k], wanted[k], "step {k}");
    }
}
