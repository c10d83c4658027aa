//! Parses of lexed texts by the grammar of statements, and by a grammar of this file.
ghost use Rattle.std.specs.Prelude.{◌≡◌, ◌∷◌, [], ◌++◌, ℕ, List, OnOk, IfOk, IfErr};
ghost use Rattle.squawk_events.specs.Depth.{depth_of};
ghost use Rattle.squawk_events.specs.Refusals.{IsOutOfMemory};
ghost use Rattle.squawk_tree.specs.UngroupedGrammar.{ungrouped, ungrouped_from, ungrouped_depth};

use super::{MIGRATION, render};
use crate::{parse_lexed, parse_source, parse_source_in, parse_with_in};
use squawk_events::{FrontError, Grammar, Input, Output};
use squawk_kinds::SyntaxKind;
use squawk_lexed::LexedStr;
use squawk_lexer::Strings;
use squawk_statements::PlainGrammar;
use std::test::Fail;

// Appends the steps of a kind. Returns whether a statement is open after it.
fn emit_kind(output: &mut Output, in_statement: bool, kind: SyntaxKind) -> Result<bool, FrontError>
    requires { depth_of output.old ≡ ungrouped_depth in_statement }
    ensures steps { IfOk result (λ after. (rest : List ℕ)
        → output.new ++ ungrouped_from after rest
        ≡ output.old ++ ungrouped_from in_statement (kind ∷ rest)) }
    ensures depth { IfOk result (λ after. depth_of output.new ≡ ungrouped_depth after) }
    ensures refusals { IfErr result IsOutOfMemory }
{
    if !in_statement {
        output.enter(SyntaxKind::ERROR)?;
    }
    output.token(kind)?;
    if kind == SyntaxKind::SEMICOLON {
        output.exit()?;
        return Ok(false);
    }
    Ok(true)
}

// Appends the steps of a text.
fn emit_ungrouped(output: &mut Output, kinds: &[SyntaxKind]) -> Result<(), FrontError>
    requires { output.old ≡ [] }
    ensures ok { OnOk result (output.new ≡ ungrouped kinds.now) }
    ensures refusals { IfErr result IsOutOfMemory }
{
    output.enter(SyntaxKind::SOURCE_FILE)?;
    let mut in_statement = false;
    for i in 0..kinds.len() {
        in_statement = emit_kind(output, in_statement, kinds[i])?;
    }
    if in_statement {
        output.error(10)?;
        output.exit()?;
    }
    output.exit()
}

// A grammar that makes no groups: each statement is one node, which ends with its semicolon.
struct UngroupedGrammar;

impl Grammar for UngroupedGrammar {
    ghost use Rattle.squawk_tree.specs.UngroupedGrammar.{ungrouped, ungrouped_lawful};

    ghost told = { λ _ kinds. ungrouped kinds };

    fn run(&self, input: &Input, output: &mut Output) -> Result<(), FrontError> {
        emit_ungrouped(output, input.kinds())
    }

    ghost lawful = { λ _ kinds no_trivia. ungrouped_lawful kinds no_trivia };
}

#[test]
fn statements_without_groups(rt: HostRuntime) -> Result<(), Fail> {
    let text = "(a); 1e b";
    let lexed = LexedStr::new(rt.alloc(), text)?;
    let parse = parse_lexed(rt.alloc(), &lexed, &UngroupedGrammar)?;
    let lines = render(rt.alloc(), &parse, text)?;
    assert_eq!(rt;
        lines.as_str(),
        "+ source file 0..9\n\
        + error 0..4\n\
        \"(\" `(` 0..1\n\
        \"a\" identifier 1..2\n\
        \")\" `)` 2..3\n\
        \";\" `;` 3..4\n\
        -\n\
        \" \" whitespace 4..5\n\
        + error 5..9\n\
        \"1e\" numeric literal 5..7\n\
        \" \" whitespace 7..8\n\
        \"b\" identifier 8..9\n\
        -\n\
        -\n\
        E 6..7 6\n\
        E 9..9 10\n"
    );
    Ok(())
}

#[test]
fn lexed_text_parses_as_its_text(rt: HostRuntime) -> Result<(), Fail> {
    let lexed = LexedStr::new(rt.alloc(), MIGRATION)?;
    let by_tokens = parse_lexed(rt.alloc(), &lexed, &PlainGrammar)?;
    let by_text = parse_source(rt.alloc(), MIGRATION)?;
    assert_eq!(rt; by_tokens.steps(), by_text.steps());
    assert_eq!(rt; by_tokens.errors(), by_text.errors());
    assert_eq!(rt; by_tokens.len(), by_text.len());
    Ok(())
}

#[test]
fn readings_of_strings(rt: HostRuntime) -> Result<(), Fail> {
    let text = "'\\';'";
    let standard = parse_source_in(rt.alloc(), text, Strings::Standard)?;
    assert_eq!(rt; standard.children().len(), 2);
    let escaped = parse_with_in(rt.alloc(), text, Strings::Backslash, &UngroupedGrammar)?;
    assert_eq!(rt; escaped.children().len(), 1);
    Ok(())
}
