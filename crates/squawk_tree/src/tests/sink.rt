//! A tree that is built by hand.
use crate::TreeSink;
use squawk_events::{ParseError, StepSink, StrStep};
use squawk_kinds::SyntaxKind;
use std::test::Fail;

const ROOT: StrStep = StrStep::Enter {
    kind: SyntaxKind::SOURCE_FILE,
};

const WORD: StrStep = StrStep::Token {
    kind: SyntaxKind::IDENT,
    start: 0,
    end: 3,
};

const ERROR: ParseError = ParseError {
    start: 1,
    end: 3,
    number: 1,
};

#[test]
fn tree_by_hand(rt: HostRuntime) -> Result<(), Fail> {
    let mut sink = TreeSink::new(rt.alloc());
    sink.step(ROOT)?;
    sink.step(StrStep::Error { number: 10, at: 0 })?;
    sink.step(WORD)?;
    sink.push_error(ERROR)?;
    sink.step(StrStep::Exit)?;
    let parse = sink.finish()?;
    assert_eq!(rt; parse.steps(), [ROOT, WORD, StrStep::Exit].as_slice());
    assert_eq!(rt; parse.errors(), [ERROR].as_slice());
    assert_eq!(rt; parse.len(), 3);
    assert_eq!(rt; parse.children().len(), 1);
    Ok(())
}
