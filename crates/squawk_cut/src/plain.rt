//! The plain front: the tokens of the lexer, and the division into statements.
ghost use Rattle.std.specs.Prelude.{◌≡◌, ◌<◌, ◌≤◌, ◌^◌, length, drop, map, take, IfOk, IfErr};
ghost use Rattle.std.specs.Str.{IsCharBoundary};
ghost use Rattle.squawk_cut.specs.Children.{text_tokens};
ghost use Rattle.squawk_cut.specs.PlainTells.{lexed_of, kinds_of, plain_child, plain_tells};
ghost use Rattle.squawk_cut.specs.Tells.{IsLawful, next_count};
ghost use Rattle.squawk_events.specs.Refusals.{IsOutOfMemory};
ghost use Rattle.squawk_lexed.specs.LexedText.{EndAtBoundaries};
ghost use Rattle.squawk_lexer.specs.Flags.{AreCut};
ghost use Rattle.squawk_lexer.specs.declared.token.Strings.TheVariants.{Standard};
ghost use Rattle.squawk_statements.specs.First.{first_shape};
ghost use Rattle.squawk_statements.specs.declared.division.Division.TheVariants.{Flat};
ghost use Rattle.squawk_tree.specs.ParseOf.{parse_of_tokens};
ghost use Rattle.std.proofs.Props.{props};

use crate::{Child, Front};
use squawk_events::FrontError;
use squawk_lexed::laws::cut_tokens_are_sound;
use squawk_lexed::{LexedStr, kind_of};
use squawk_lexer::laws::{tokens_look_ahead, tokens_progress, tokens_restart};
use squawk_lexer::{Strings, Token, cut_at_in};
use squawk_statements::laws::first_children_stay;
use squawk_statements::{ChildShape, Division, GroupedGrammar, PlainGrammar, first_child_in};
use squawk_tree::laws::{children_are_trees, children_stand_alone};
use squawk_tree::{Parse, parse_lexed};
use std::alloc::Global;
use std::marker::Model;

// The shape of the first child of these tokens, the first of which begins at `at`. Asks for the
// first child of the first 1, 2, 4, .. kinds until it is closed, so that the work grows with the
// child and not with the text.
fn first_shape(
    alloc: Global,
    text: &str,
    at: usize,
    tokens: &[Token],
    division: Division,
) -> Result<ChildShape, FrontError>
    requires some { 0 < length tokens.now }
    requires boundary { IsCharBoundary text.now at }
    requires laid { EndAtBoundaries text.now at tokens.now }
    ensures shape { IfOk result (λ shape.
        shape ≡ first_shape division (kinds_of (text_tokens (drop at text.now) tokens.now))) }
    ensures within { IfOk result (λ shape. shape.tokens ≤ length tokens.now) }
    ensures refusals { IfErr result IsOutOfMemory }
{
    let mut kinds = Vec::new(alloc);
    let mut from = at;
    let mut ask_at = 1usize;
    for i in 0..tokens.len() {
        let token = tokens[i];
        let end = from + token.len as usize;
        kinds.push(kind_of(token.kind, &text[from..end]))?;
        from = end;
        if kinds.len() == ask_at {
            let shape = first_child_in(&kinds, division);
            if shape.closed {
                return Ok(shape);
            }
            ask_at = ask_at.saturating_mul(2);
        }
    }
    Ok(first_child_in(&kinds, division))
}

// The parse of these tokens alone, the first of which begins at `at`.
fn parse_own(
    alloc: Global,
    text: &str,
    at: usize,
    own: &[Token],
    division: Division,
) -> Result<Parse, FrontError>
    requires small { length text.now < 2 ^ 32 }
    requires boundary { IsCharBoundary text.now at }
    requires cut { AreCut own.now }
    requires laid { EndAtBoundaries text.now at own.now }
    ensures tree { IfOk result (λ parse.
        parse ≡ parse_of_tokens division (map lexed_of (text_tokens (drop at text.now) own.now))) }
    ensures refusals { IfErr result IsOutOfMemory }
{
    let lexed = LexedStr::from_tokens(alloc, text, at, own)?;
    match division {
        Division::Flat => parse_lexed(alloc, &lexed, &PlainGrammar),
        Division::Grouped => parse_lexed(alloc, &lexed, &GroupedGrammar),
    }
}

// The first child of these tokens, the first of which begins at `at`.
fn first_child(
    alloc: Global,
    text: &str,
    at: usize,
    tokens: &[Token],
    division: Division,
) -> Result<Child, FrontError>
    requires small { length text.now < 2 ^ 32 }
    requires some { 0 < length tokens.now }
    requires boundary { IsCharBoundary text.now at }
    requires cut { AreCut tokens.now }
    requires laid { EndAtBoundaries text.now at tokens.now }
    ensures child { IfOk result (λ child.
        child ≡ plain_child division (text_tokens (drop at text.now) tokens.now)) }
    ensures refusals { IfErr result IsOutOfMemory }
{
    cut_tokens_are_sound();
    children_stand_alone();
    children_are_trees();
    let shape = first_shape(alloc, text, at, tokens, division)?;
    let parse = parse_own(alloc, text, at, &tokens[..shape.tokens], division)?;
    Child::from_parse(alloc, &parse, shape.closed)
}

// The number of steps after one more.
fn next_count(steps: u64) -> u64
    ensures { result ≡ next_count steps }
{
    steps.saturating_add(1)
}

/// The front whose tokens are those of the lexer, and whose children are those of the division into
/// statements.
#[derive(Drop)]
pub struct PlainFront {
    strings: Strings,
    division: Division,
    steps: u64,
    ghost lawful: { IsLawful (plain_tells strings division) } by { Prim.hlevel props },
}

impl Model for PlainFront {
    ghost use Rattle.squawk_cut.specs.PlainValue.{PlainValue};

    ghost Value = { PlainValue };

    ghost view = { λ f. record {
      strings = f.strings;
      division = f.division;
      steps = f.steps;
      lawful = f.lawful;
    } };
}

impl PlainFront {
    /// `new_in` with `Strings::Standard`: a backslash in a plain string is an ordinary character.
    pub fn new() -> PlainFront
        ensures steps { result.steps ≡ 0 }
        ensures strings { result.strings ≡ Standard }
        ensures division { result.division ≡ Flat }
    {
        PlainFront::new_in(Strings::Standard)
    }

    /// `new_divided` with `Division::Flat`: each semicolon ends a statement.
    pub fn new_in(strings: Strings) -> PlainFront
        ensures steps { result.steps ≡ 0 }
        ensures strings { result.strings ≡ strings }
        ensures division { result.division ≡ Flat }
    {
        PlainFront::new_divided(strings, Division::Flat)
    }

    /// A front that has taken no step. Allocates nothing. `strings` says how plain strings are
    /// read, and `division` whether a semicolon between parentheses ends a statement.
    pub fn new_divided(strings: Strings, division: Division) -> PlainFront
        ensures steps { result.steps ≡ 0 }
        ensures strings { result.strings ≡ strings }
        ensures division { result.division ≡ division }
    {
        tokens_progress();
        tokens_look_ahead();
        first_children_stay();
        PlainFront {
            strings,
            division,
            steps: 0,
        }
    }

    /// How plain strings are read.
    pub fn strings(&self) -> Strings
        ensures { result ≡ self.now.strings }
    {
        self.strings
    }

    /// Whether a semicolon between parentheses ends a statement.
    pub fn division(&self) -> Division
        ensures { result ≡ self.now.division }
    {
        self.division
    }
}

impl Front for PlainFront {
    ghost use Rattle.squawk_cut.specs.PlainTells.{plain_tells};

    ghost tells = { λ s. plain_tells s.strings s.division };

    ghost count = { λ s. s.steps };

    ghost lawful = { λ s. s.lawful };

    fn cut_next(&mut self, text: &str, at: usize) -> Token {
        self.steps = next_count(self.steps);
        cut_at_in(text, at, self.strings)
    }

    fn parse_next(
        &mut self,
        alloc: Global,
        text: &str,
        at: usize,
        tokens: &[Token],
    ) -> Result<Child, FrontError> {
        self.steps = next_count(self.steps);
        tokens_progress();
        tokens_restart();
        first_child(alloc, text, at, tokens, self.division)
    }

    fn steps(&self) -> u64 {
        self.steps
    }
}
