//! The parse into statements, child by child: the steps of each child of the root are emitted with
//! its trivia, without the steps of a grammar or a list of the kinds that are not trivia. The
//! ranges of the nodes are found with them, and the children of the root at the end.
ghost use Rattle.std.specs.Prelude.{◌≡◌, ◌≤◌, ◌<◌, ◌+◌, ◌-◌, ◌^◌, ◌++◌, ◌∷◌, [], if◌then◌else◌, length, map, take, drop, slice_range, OnOk, IfOk, IfErr, IsTrue};
ghost use Rattle.squawk_events.specs.Refusals.{IsOutOfMemory};
ghost use Rattle.squawk_kinds.specs.Role.{role};
ghost use Rattle.squawk_lexed.specs.LexedText.{are_sound, token_start};
ghost use Rattle.squawk_lexed.specs.Stored.{errors_of, kinds_of};
ghost use Rattle.squawk_statements.specs.Children.{open_groups_after, trimmed_len};
ghost use Rattle.squawk_statements.specs.First.{first_shape};
ghost use Rattle.squawk_statements.specs.Plain.{plain};
ghost use Rattle.squawk_tree.specs.Built.{IsBuilt, emitted};
ghost use Rattle.squawk_tree.specs.ChildGrammar.{child_at, woven_text};
ghost use Rattle.squawk_tree.specs.ChildSteps.{exit_steps, nested_steps, node_steps, steps_in_groups};
ghost use Rattle.squawk_tree.specs.ParseOf.{token_steps};
ghost use Rattle.squawk_tree.specs.Parses.{ParsesTokens};
ghost use Rattle.squawk_tree.specs.Steps.{without_errors};
ghost use Rattle.squawk_tree.specs.Walk.{merged_errors};

use crate::builder::TreeBuilder;
use crate::child_grammar::{ChildGrammar, PlainChildren};
use crate::errors::{Walk, push_child_errors, push_lexical_errors};
use crate::parse::Parse;
use squawk_events::{FrontError, ParseError, StrStep, is_trivia};
use squawk_kinds::SyntaxKind;
use squawk_lexed::LexedStr;
use squawk_statements::{ChildShape, Division, first_child_in};
use std::alloc::Global;

/// Emits an `Exit` for each of `groups` open groups.
///
/// Fails only if memory runs out; what `tree` then holds is unspecified.
pub fn emit_exits(groups: usize, tree: &mut TreeBuilder) -> Result<(), FrontError>
    requires { IsBuilt tree.old }
    ensures steps { OnOk result (emitted tree.new
        ≡ emitted tree.old ++ exit_steps groups) }
    ensures built { OnOk result (IsBuilt tree.new) }
    ensures refusals { IfErr result IsOutOfMemory }
{
    let mut left = groups;
    while left > 0 {
        tree.push(StrStep::Exit)?;
        left -= 1;
    }
    Ok(())
}

/// Emits the step of a token of this kind, and the start or the end of a group. `groups` is the
/// number of open groups before it, below 2^63; returns the number after it.
///
/// Fails only if memory runs out; what `tree` then holds is unspecified.
#[inline(always)]
#[tactic(auto, unfolding(squawk_kinds::specs::Role::role))]
pub fn emit_in_groups(
    groups: usize,
    kind: SyntaxKind,
    step: StrStep,
    tree: &mut TreeBuilder,
) -> Result<usize, FrontError>
    requires small { groups < 2 ^ 63 }
    requires built { IsBuilt tree.old }
    ensures steps { OnOk result (emitted tree.new
        ≡ emitted tree.old ++ steps_in_groups groups (role kind) step) }
    ensures built { OnOk result (IsBuilt tree.new) }
    ensures groups { IfOk result (λ n. n ≡ open_groups_after groups (role kind)) }
    ensures bound { IfOk result (λ n. n ≤ groups + 1) }
    ensures refusals { IfErr result IsOutOfMemory }
{
    match kind {
        SyntaxKind::L_PAREN => {
            tree.push(StrStep::Enter {
                kind: SyntaxKind::PAREN_EXPR,
            })?;
            tree.push(step)?;
            Ok(groups + 1)
        }
        SyntaxKind::R_PAREN if groups > 0 => {
            tree.push(step)?;
            tree.push(StrStep::Exit)?;
            Ok(groups - 1)
        }
        _ => {
            tree.push(step)?;
            Ok(groups)
        }
    }
}

// Emits the tokens from `from` up to `to` with the groups among them. None of the tokens ends the
// statement.
#[tactic(auto, using(crate::proofs::ChildTokenLemmas::kinds_len))]
fn emit_nested(
    lexed: &LexedStr<'_>,
    from: usize,
    to: usize,
    tree: &mut TreeBuilder,
) -> Result<(), FrontError>
    requires ordered { from ≤ to }
    requires within { to ≤ length lexed.now.tokens }
    requires built { IsBuilt tree.old }
    ensures steps { OnOk result (tree.new.steps.items ≡ tree.old.steps.items
        ++ nested_steps 0 (token_start lexed.now.tokens from)
        (slice_range lexed.now.tokens from to)) }
    ensures built { OnOk result (IsBuilt tree.new) }
    ensures refusals { IfErr result IsOutOfMemory }
{
    let kinds = lexed.kinds();
    let mut groups = 0;
    for i in from..to {
        groups = emit_in_groups(groups, kinds[i], lexed.token_step(i), tree)?;
    }
    emit_exits(groups, tree)
}

/// Emits the tokens from index `from` up to `to`, which is at most the number of tokens.
///
/// Fails only if memory runs out; what `tree` then holds is unspecified.
pub fn emit_tokens(
    lexed: &LexedStr<'_>,
    from: usize,
    to: usize,
    tree: &mut TreeBuilder,
) -> Result<(), FrontError>
    requires ordered { from ≤ to }
    requires within { to ≤ length lexed.now.tokens }
    requires built { IsBuilt tree.old }
    ensures steps { OnOk result (emitted tree.new ≡ emitted tree.old
        ++ token_steps (token_start lexed.now.tokens from)
        (slice_range lexed.now.tokens from to)) }
    ensures built { OnOk result (IsBuilt tree.new) }
    ensures refusals { IfErr result IsOutOfMemory }
{
    for i in from..to {
        tree.push(lexed.token_step(i))?;
    }
    Ok(())
}

// The number of tokens of a child of these kinds before the token that ends it and the trivia
// there. A child that is not closed has neither.
fn body_len(kinds: &[SyntaxKind], closed: bool) -> usize
    requires { 0 < length kinds.now }
    ensures len { result ≡ trimmed_len (map role
        (take (length kinds.now - (if closed then 1 else 0)) kinds.now)) }
    ensures within { result ≤ length kinds.now }
{
    let mut len = kinds.len() - usize::from(closed);
    while len > 0 && is_trivia(kinds[len - 1]) {
        len -= 1;
    }
    len
}

// Emits a node of this kind with the tokens from `from` up to `to`. Groups that are open at its end
// end before the token that ends the statement and the trivia before it.
#[tactic(auto, using(crate::proofs::ChildTokenLemmas::kinds_len))]
pub(crate) fn emit_plain_node(
    lexed: &LexedStr<'_>,
    from: usize,
    to: usize,
    shape: ChildShape,
    node: SyntaxKind,
    tree: &mut TreeBuilder,
) -> Result<(), FrontError>
    requires ordered { from < to }
    requires within { to ≤ length lexed.now.tokens }
    requires built { IsBuilt tree.old }
    ensures steps { OnOk result (tree.new.steps.items ≡ tree.old.steps.items
        ++ without_errors (node_steps node shape.closed (token_start lexed.now.tokens from)
        (slice_range lexed.now.tokens from to))) }
    ensures built { OnOk result (IsBuilt tree.new) }
    ensures refusals { IfErr result IsOutOfMemory }
{
    let kinds = lexed.kinds();
    let body_end = from + body_len(&kinds[from..to], shape.closed);
    tree.push(StrStep::Enter { kind: node })?;
    emit_nested(lexed, from, body_end, tree)?;
    emit_tokens(lexed, body_end, to, tree)?;
    tree.push(StrStep::Exit)?;
    Ok(())
}

// Emits the child of this shape whose first token is that at `from`.
fn emit_child<G: ChildGrammar>(
    grammar: &G,
    lexed: &LexedStr<'_>,
    division: Division,
    from: usize,
    shape: ChildShape,
    tree: &mut TreeBuilder,
) -> Result<(), FrontError>
    requires first { shape ≡ first_shape division (kinds_of (drop from lexed.now.tokens)) }
    requires some { 1 ≤ shape.tokens }
    requires within { from + shape.tokens ≤ length lexed.now.tokens }
    requires built { IsBuilt tree.old }
    ensures steps { OnOk result (tree.new.steps.items ≡ tree.old.steps.items
        ++ child_at (G.child grammar.now division) lexed.now.tokens from shape.tokens) }
    ensures built { OnOk result (IsBuilt tree.new) }
    ensures refusals { IfErr result IsOutOfMemory }
{
    // The number of tokens bounds the indices.
    let _ = lexed.len();
    match shape.node {
        None => emit_tokens(lexed, from, from + shape.tokens, tree),
        Some(node) => grammar.emit_node(lexed, division, from, shape, node, tree),
    }
}

// Emits the steps of a text that is divided into statements, and appends the errors up to the last
// unknown statement. Returns the index of the next lexical error.
#[tactic(auto, using(crate::proofs::ChildTokenLemmas::kinds_len))]
fn emit_children<G: ChildGrammar>(
    grammar: &G,
    lexed: &LexedStr<'_>,
    division: Division,
    tree: &mut TreeBuilder,
    errors: &mut Vec<ParseError>,
) -> Result<usize, FrontError>
    requires built { IsBuilt tree.old }
    requires no_steps { tree.old.steps.items ≡ [] }
    requires no_errors { errors.old.items ≡ [] }
    ensures steps { OnOk result (tree.new.steps.items
        ≡ without_errors (woven_text (G.told grammar.now division) lexed.now.tokens)) }
    ensures built { OnOk result (IsBuilt tree.new) }
    ensures errors { IfOk result (λ next. errors.new.items
        ++ drop next (errors_of 0 lexed.now.tokens)
        ≡ merged_errors 0 lexed.now.tokens (errors_of 0 lexed.now.tokens)
        (woven_text (G.told grammar.now division) lexed.now.tokens)) }
    ensures within { IfOk result (λ next. next ≤ length (errors_of 0 lexed.now.tokens)) }
    ensures refusals { IfErr result IsOutOfMemory }
{
    tree.push(StrStep::Enter {
        kind: SyntaxKind::SOURCE_FILE,
    })?;
    let kinds = lexed.kinds();
    let (mut at, mut error) = (0, 0);
    while at < kinds.len() {
        let shape = first_child_in(&kinds[at..], division);
        error = push_child_errors(errors, lexed, Walk { token: at, error }, &shape)?;
        emit_child(grammar, lexed, division, at, shape, tree)?;
        at += shape.tokens;
    }
    tree.push(StrStep::Exit)?;
    Ok(error)
}

/// Parses the tokens of a text by a grammar of children, where `division` divides them into the
/// children of the root. The only error is `OutOfMemory`.
///
/// Takes the tokens, so that they are freed before the children of the root are listed.
pub fn parse_children<G: ChildGrammar>(
    alloc: Global,
    lexed: LexedStr<'_>,
    division: Division,
    grammar: &G,
) -> Result<Parse, FrontError>
    ensures parse { ParsesTokens (G.told grammar.now division) lexed.entry result }
    ensures sound { IsTrue (are_sound lexed.entry.tokens) }
    ensures refusals { IfErr result IsOutOfMemory }
{
    let mut tree = TreeBuilder::with_room(alloc, lexed.len());
    let mut errors = Vec::new(alloc);
    let next = emit_children(grammar, &lexed, division, &mut tree, &mut errors)?;
    let len = lexed.text_start(lexed.len());
    push_lexical_errors(&mut errors, &lexed, next, len)?;
    drop(lexed);
    tree.finish(alloc, errors, len as u32)
}

/// Parses the tokens of a text into statements, as `parse_divided` parses the text. The only error
/// is `OutOfMemory`.
///
/// Takes the tokens, as `parse_children` does.
pub fn parse_statements(
    alloc: Global,
    lexed: LexedStr<'_>,
    division: Division,
) -> Result<Parse, FrontError>
    ensures parse { ParsesTokens (plain division) lexed.entry result }
    ensures sound { IsTrue (are_sound lexed.entry.tokens) }
    ensures refusals { IfErr result IsOutOfMemory }
{
    parse_children(alloc, lexed, division, &PlainChildren)
}
