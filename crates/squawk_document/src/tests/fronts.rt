//! Documents over fronts of the tests' own.
ghost use Rattle.std.specs.Prelude.{◌≡◌, ◌<◌, ◌^◌, length, drop, take, IfOk, IfErr};
ghost use Rattle.std.specs.Str.{IsCharBoundary};
ghost use Rattle.squawk_cut.specs.Children.{text_tokens};
ghost use Rattle.squawk_cut.specs.Tells.{IsLawful, next_count};
ghost use Rattle.squawk_document.specs.TokenFront.{token_child, token_tells};
ghost use Rattle.squawk_events.specs.Refusals.{IsOutOfMemory};
ghost use Rattle.squawk_lexed.specs.LexedText.{EndAtBoundaries};
ghost use Rattle.squawk_lexer.specs.Flags.{AreCut};
ghost use Rattle.std.proofs.Props.{props};

use super::rows::render;
use super::{same_document, sums};
use crate::{Document, FrontError};
use squawk_cut::{Child, Division, Front, PlainFront, Strings, Token};
use squawk_lexed::LexedStr;
use squawk_lexer::cut_at_in;
use squawk_lexer::laws::{tokens_look_ahead, tokens_progress};
use squawk_statements::PlainGrammar;
use squawk_tree::laws::parses_are_trees;
use squawk_tree::parse_lexed;
use std::alloc::Global;
use std::test::Fail;

// A plain front that counts its calls of each kind, and fails after so many parses.
#[derive(Drop)]
struct CountingFront {
    plain: PlainFront,
    cuts: usize,
    parses: usize,
    most_parses: usize,
}

fn counting_front(most_parses: usize) -> CountingFront {
    CountingFront {
        plain: PlainFront::new_divided(Strings::Standard, Division::Grouped),
        cuts: 0,
        parses: 0,
        most_parses,
    }
}

impl Front for CountingFront {
    ghost use Rattle.squawk_cut.specs.PlainTells.{plain_tells};

    ghost tells = { λ s. plain_tells s.plain.strings s.plain.division };

    ghost count = { λ s. s.plain.steps };

    ghost lawful = { λ s. s.plain.lawful };

    fn cut_next(&mut self, text: &str, at: usize) -> Token {
        self.cuts = self.cuts.saturating_add(1);
        self.plain.cut_next(text, at)
    }

    fn parse_next(
        &mut self,
        alloc: Global,
        text: &str,
        at: usize,
        tokens: &[Token],
    ) -> Result<Child, FrontError> {
        let child = self.plain.parse_next(alloc, text, at, tokens)?;
        if self.parses == self.most_parses {
            return Err(FrontError::OutOfMemory);
        }
        self.parses = self.parses.saturating_add(1);
        Ok(child)
    }

    fn steps(&self) -> u64 {
        self.plain.steps()
    }
}

const TEXT: &str = "select 1; select (2; 3); insert; \\dt\nselect 4";

#[test]
fn front_is_asked_once_for_each(rt: HostRuntime) -> Result<(), Fail> {
    let mut document = Document::new(rt.alloc(), counting_front(100), TEXT)
        .ok()
        .ok_or("no memory")?;
    assert_eq!(rt; document.front().cuts, document.tokens().len());
    assert_eq!(rt; document.front().parses, document.children().len());
    let (cuts, parses) = (document.front().cuts, document.front().parses);
    let edited = document.edit(18, 19, "20 ").ok().ok_or("no memory")?;
    assert_eq!(rt;
        document.front().cuts,
        cuts.saturating_add(edited.cut_tokens)
    );
    assert_eq!(rt;
        document.front().parses,
        parses.saturating_add(edited.parsed_children)
    );
    assert_eq!(rt; edited.front_children, 2);
    assert_eq!(rt; edited.parsed_children, 1);
    Ok(())
}

// The edit removes a quote and parses seven children. If the front fails at one of them, the
// document stays as it was.
#[test]
fn failed_parses_change_nothing(rt: HostRuntime) -> Result<(), Fail> {
    let alloc = rt.alloc();
    let text = "a; b; ' c; d; e'; f;";
    let whole = Document::new(alloc, counting_front(100), text)
        .ok()
        .ok_or("no memory")?;
    let parses = whole.front().parses;
    let mut failures = 0usize;
    for more in 0..20usize {
        let front = counting_front(parses.saturating_add(more));
        let mut document = Document::new(alloc, front, text).ok().ok_or("no memory")?;
        match document.edit(6, 7, "") {
            Ok(_) => {
                let after = "a; b;  c; d; e'; f;";
                let new = Document::new(alloc, counting_front(100), after);
                assert!(rt; same_document(&document, &new.ok().ok_or("no memory")?));
            }
            Err(error) => {
                failures = failures.saturating_add(1);
                assert_eq!(rt; error, FrontError::OutOfMemory);
                assert!(rt; same_document(&document, &whole));
            }
        }
    }
    assert_eq!(rt; failures, 7);
    Ok(())
}

// A front whose children are single tokens, each of them closed.
#[derive(Drop)]
struct TokenFront {
    steps: u64,
    ghost lawful: { IsLawful token_tells } by { Prim.hlevel props },
}

fn token_front() -> TokenFront {
    tokens_progress();
    tokens_look_ahead();
    TokenFront { steps: 0 }
}

// The number of steps after one more.
fn next_step(steps: u64) -> u64
    ensures { result ≡ next_count steps }
{
    steps.saturating_add(1)
}

// The first of these tokens, which begins at `at`, as a closed child.
fn first_token(alloc: Global, text: &str, at: usize, tokens: &[Token]) -> Result<Child, FrontError>
    requires small { length text.now < 2 ^ 32 }
    requires some { 0 < length tokens.now }
    requires boundary { IsCharBoundary text.now at }
    requires cut { AreCut (take 1 tokens.now) }
    requires laid { EndAtBoundaries text.now at (take 1 tokens.now) }
    ensures child { IfOk result (λ child.
        child ≡ token_child (text_tokens (drop at text.now) tokens.now)) }
    ensures refusals { IfErr result IsOutOfMemory }
{
    parses_are_trees();
    let lexed = LexedStr::from_tokens(alloc, text, at, &tokens[..1])?;
    let parse = parse_lexed(alloc, &lexed, &PlainGrammar)?;
    Child::from_parse(alloc, &parse, true)
}

impl Front for TokenFront {
    ghost use Rattle.squawk_document.specs.TokenFront.{token_tells};

    ghost tells = { λ s. token_tells };

    ghost count = { λ s. s.steps };

    ghost lawful = { λ s. s.lawful };

    fn cut_next(&mut self, text: &str, at: usize) -> Token {
        self.steps = next_step(self.steps);
        cut_at_in(text, at, Strings::Standard)
    }

    fn parse_next(
        &mut self,
        alloc: Global,
        text: &str,
        at: usize,
        tokens: &[Token],
    ) -> Result<Child, FrontError> {
        self.steps = next_step(self.steps);
        tokens_progress();
        first_token(alloc, text, at, tokens)
    }

    fn steps(&self) -> u64 {
        self.steps
    }
}

struct Row<'a> {
    name: &'a str,
    start: usize,
    end: usize,
    new: &'a str,
    counts: &'a str,
    lines: &'a str,
}

// The edits of a document of `select a, 'b' -- c`, one after the other.
const EDITS: &[Row<'static>] = &[
    Row {
        name: "a word grows",
        start: 8,
        end: 8,
        new: "x",
        counts: "tokens 1+2+5 children 1+2+5",
        lines: "+ select\n\"select\" `select`\n+ leaf\n\" \" whitespace\n\
            + error\n\"ax\" identifier\n+ error\n\",\" `,`\n+ leaf\n\" \" whitespace\n\
            + error\n\"'b'\" string literal\n+ leaf\n\" \" whitespace\n\
            + leaf\n\"-- c\" comment\n",
    },
    Row {
        name: "a string loses its end",
        start: 13,
        end: 14,
        new: "",
        counts: "tokens 5+1+0 children 5+1+0",
        lines: "+ select\n\"select\" `select`\n+ leaf\n\" \" whitespace\n\
            + error\n\"ax\" identifier\n+ error\n\",\" `,`\n+ leaf\n\" \" whitespace\n\
            + error\n\"'b -- c\" string literal\n",
    },
    Row {
        name: "a group begins",
        start: 0,
        end: 6,
        new: "(",
        counts: "tokens 0+1+5 children 0+1+5",
        lines: "+ paren select\n\"(\" `(`\n+ leaf\n\" \" whitespace\n\
            + error\n\"ax\" identifier\n+ error\n\",\" `,`\n+ leaf\n\" \" whitespace\n\
            + error\n\"'b -- c\" string literal\n",
    },
];

#[test]
fn children_of_single_tokens(rt: HostRuntime) -> Result<(), Fail> {
    let text = "select a, 'b' -- c";
    let mut document = Document::new(rt.alloc(), token_front(), text)
        .ok()
        .ok_or("no memory")?;
    assert_eq!(rt; document.children().len(), 8);
    assert_eq!(rt; document.front().steps(), 16);
    for row in EDITS {
        let edited = document.edit(row.start, row.end, row.new);
        let counts = sums(rt.alloc(), edited.ok().ok_or(row.name)?)?;
        assert_eq!(rt; counts.as_str(), row.counts, "{}", row.name);
        let lines = render(rt.alloc(), &document)?;
        assert_eq!(rt; lines.as_str(), row.lines, "{}", row.name);
        let fresh = Document::new(rt.alloc(), token_front(), document.text());
        assert!(rt;
            same_document(&document, &fresh.ok().ok_or(row.name)?),
            "{}",
            row.name
        );
    }
    Ok(())
}
