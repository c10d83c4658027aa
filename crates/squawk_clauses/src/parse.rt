//! The parse of tokens into statements and clauses: the steps of each child of the root are emitted
//! from its tokens.
ghost use Rattle.std.specs.Prelude.{◌≡◌, ◌≤◌, ◌<◌, ◌+◌, ◌^◌, [], ◌∷◌, ◌++◌, ◌||◌, false, is_some, length, slice_index, slice_range, OnOk, IfOk, IfErr, IsTrue};
ghost use Rattle.squawk_clauses.specs.Clauses.{clause_of, clauses, in_clause_after};
ghost use Rattle.squawk_clauses.specs.Depth.{open_nodes};
ghost use Rattle.squawk_clauses.specs.SelectTokens.{clause_enter, select_left, select_token};
ghost use Rattle.squawk_events.specs.Refusals.{IsOutOfMemory};
ghost use Rattle.squawk_events.specs.declared.steps.StrStep.TheVariants as out;
ghost use Rattle.squawk_kinds.specs.Role.{role};
ghost use Rattle.squawk_lexed.specs.LexedText.{are_sound, token_start};
ghost use Rattle.squawk_lexed.specs.Stored.{kinds_of};
ghost use Rattle.squawk_statements.specs.Plain.{groups_open_after};
ghost use Rattle.squawk_tree.specs.Built.{IsBuilt, emitted};
ghost use Rattle.squawk_tree.specs.ChildSteps.{exit_steps};
ghost use Rattle.squawk_tree.specs.ParseOf.{token_steps};
ghost use Rattle.squawk_tree.specs.Parses.{ParsesTokens};

use crate::grammar::{OpenNodes, clause_of, has_clauses};
use squawk_events::{FrontError, StrStep, is_trivia};
use squawk_kinds::SyntaxKind;
use squawk_lexed::LexedStr;
use squawk_statements::{ChildShape, Division, ends_statement};
use squawk_tree::{
    ChildGrammar, Parse, PlainChildren, TreeBuilder, emit_exits, emit_in_groups, emit_tokens,
    parse_children,
};
use std::alloc::Global;

// Emits the end of the clause that is open, if one is.
fn emit_clause_exit(in_clause: bool, tree: &mut TreeBuilder) -> Result<(), FrontError>
    requires { IsBuilt tree.old }
    ensures steps { OnOk result (emitted tree.new
        ≡ emitted tree.old ++ exit_steps (open_nodes in_clause 0)) }
    ensures built { OnOk result (IsBuilt tree.new) }
    ensures refusals { IfErr result IsOutOfMemory }
{
    if in_clause {
        tree.push(StrStep::Exit)?;
    }
    Ok(())
}

// Emits the trivia from `from` up to `to` and the start of a clause after it, if one begins.
// Returns whether a clause is open then.
fn emit_clause_enter(
    lexed: &LexedStr<'_>,
    in_clause: bool,
    next_clause: Option<SyntaxKind>,
    from: usize,
    to: usize,
    tree: &mut TreeBuilder,
) -> Result<bool, FrontError>
    requires ordered { from ≤ to }
    requires within { to ≤ length lexed.now.tokens }
    requires built { IsBuilt tree.old }
    ensures steps { OnOk result (emitted tree.new ≡ emitted tree.old
        ++ clause_enter in_clause next_clause (token_steps (token_start lexed.now.tokens from)
        (slice_range lexed.now.tokens from to))) }
    ensures after { IfOk result (λ after. after ≡ (in_clause || is_some next_clause)) }
    ensures built { OnOk result (IsBuilt tree.new) }
    ensures refusals { IfErr result IsOutOfMemory }
{
    let Some(clause) = next_clause else {
        emit_tokens(lexed, from, to, tree)?;
        return Ok(in_clause);
    };
    emit_clause_exit(in_clause, tree)?;
    emit_tokens(lexed, from, to, tree)?;
    tree.push(StrStep::Enter { kind: clause })?;
    Ok(true)
}

// Emits the token at `at` and the trivia before it, from `from` on. Returns what is open after it.
fn emit_select_token(
    lexed: &LexedStr<'_>,
    division: Division,
    nodes: OpenNodes,
    from: usize,
    at: usize,
    kind: SyntaxKind,
    tree: &mut TreeBuilder,
) -> Result<OpenNodes, FrontError>
    requires ordered { from ≤ at }
    requires within { at < length lexed.now.tokens }
    requires small { nodes.groups < 2 ^ 63 }
    requires built { IsBuilt tree.old }
    ensures steps { OnOk result (emitted tree.new ≡ emitted tree.old
        ++ select_token division nodes.in_clause nodes.groups kind
        (token_steps (token_start lexed.now.tokens from) (slice_range lexed.now.tokens from at))
        (out.Token (slice_index (kinds_of lexed.now.tokens) at) (token_start lexed.now.tokens at)
        (token_start lexed.now.tokens (at + 1)))) }
    ensures in_clause { IfOk result (λ after.
        after.in_clause ≡ in_clause_after division nodes.in_clause nodes.groups kind) }
    ensures groups { IfOk result (λ after.
        after.groups ≡ groups_open_after division nodes.groups (role kind)) }
    ensures bound { IfOk result (λ after. after.groups ≤ nodes.groups + 1) }
    ensures built { OnOk result (IsBuilt tree.new) }
    ensures refusals { IfErr result IsOutOfMemory }
{
    if ends_statement(division, nodes.groups, kind) {
        emit_exits(nodes.groups, tree)?;
        emit_clause_exit(nodes.in_clause, tree)?;
        emit_tokens(lexed, from, at, tree)?;
        tree.push(lexed.token_step(at))?;
        return Ok(OpenNodes {
            in_clause: false,
            groups: 0,
        });
    }
    let next_clause = clause_of(nodes.groups, kind);
    let in_clause = emit_clause_enter(lexed, nodes.in_clause, next_clause, from, at, tree)?;
    let groups = emit_in_groups(nodes.groups, kind, lexed.token_step(at), tree)?;
    Ok(OpenNodes { in_clause, groups })
}

// Emits the tokens from `from` up to `to` inside the node of a `SELECT` statement, and its end.
#[tactic(auto, using(crate::proofs::SelectLemmas::kinds_len))]
fn emit_select(
    lexed: &LexedStr<'_>,
    division: Division,
    from: usize,
    to: usize,
    tree: &mut TreeBuilder,
) -> Result<(), FrontError>
    requires ordered { from ≤ to }
    requires within { to ≤ length lexed.now.tokens }
    requires built { IsBuilt tree.old }
    ensures steps { OnOk result (emitted tree.new
        ≡ emitted tree.old ++ select_left division false 0 lexed.now.tokens from to) }
    ensures built { OnOk result (IsBuilt tree.new) }
    ensures refusals { IfErr result IsOutOfMemory }
{
    let kinds = lexed.kinds();
    let mut nodes = OpenNodes {
        in_clause: false,
        groups: 0,
    };
    // The tokens from this one up to the next are trivia that is not yet emitted.
    let mut next = from;
    for i in from..to {
        let kind = kinds[i];
        if is_trivia(kind) {
            continue;
        }
        nodes = emit_select_token(lexed, division, nodes, next, i, kind, tree)?;
        next = i + 1;
    }
    emit_exits(nodes.groups, tree)?;
    emit_clause_exit(nodes.in_clause, tree)?;
    emit_tokens(lexed, next, to, tree)?;
    tree.push(StrStep::Exit)?;
    Ok(())
}

// The clause grammar, by the children of the root.
#[derive(Clone, Copy)]
struct ClauseChildren;

impl ChildGrammar for ClauseChildren {
    ghost use Rattle.squawk_clauses.specs.ClauseChildren.{clause_grammar};
    ghost use Rattle.squawk_clauses.specs.Clauses.{clauses, clause_child_steps};

    ghost told = { λ g division. clauses division };

    ghost child = { λ g division. clause_child_steps division };

    fn emit_node(
        &self,
        lexed: &LexedStr<'_>,
        division: Division,
        from: usize,
        shape: ChildShape,
        node: SyntaxKind,
        tree: &mut TreeBuilder,
    ) -> Result<(), FrontError> {
        if has_clauses(Some(node)) {
            // The number of tokens bounds the indices.
            let _ = lexed.len();
            tree.push(StrStep::Enter { kind: node })?;
            return emit_select(lexed, division, from, from + shape.tokens, tree);
        }
        PlainChildren.emit_node(lexed, division, from, shape, node, tree)
    }

    ghost lawful = { λ g division. clause_grammar division };
}

/// Parses the tokens of a text into statements and clauses, as `parse_with_in` parses the text with
/// `ClauseGrammar`. The only error is `OutOfMemory`.
///
/// Takes the tokens, as `parse_children` does.
pub fn parse_clauses(
    alloc: Global,
    lexed: LexedStr<'_>,
    division: Division,
) -> Result<Parse, FrontError>
    ensures parse { ParsesTokens (clauses division) lexed.entry result }
    ensures sound { IsTrue (are_sound lexed.entry.tokens) }
    ensures refusals { IfErr result IsOutOfMemory }
{
    parse_children(alloc, lexed, division, &ClauseChildren)
}
