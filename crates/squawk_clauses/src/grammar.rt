//! The clause grammar: the plain grammar with clauses inside `SELECT` statements.
ghost use Rattle.std.specs.Prelude.{◌≡◌, ◌==◌, unwrap_or, ◌≤◌, ◌<◌, ◌+◌, ◌^◌, [], ◌∷◌, ◌++◌, ◌||◌, false, length, is_some, OnOk, IfOk, IfErr, IsTrue};
ghost use Rattle.squawk_clauses.specs.Clauses.{clauses, clause_of, clause_child_steps, clause_end, clause_start, in_clause_after, select_child_steps, select_kind_steps, select_steps};
ghost use Rattle.squawk_clauses.specs.Depth.{open_nodes};
ghost use Rattle.squawk_events.specs.Depth.{depth_of};
ghost use Rattle.squawk_events.specs.Kinds.{has_no_trivia};
ghost use Rattle.squawk_events.specs.Refusals.{IsOutOfMemory};
ghost use Rattle.squawk_kinds.specs.Role.{role};
ghost use Rattle.squawk_kinds.specs.declared.numbers.TheConstants.Number.{ERROR, SELECT};
ghost use Rattle.squawk_statements.specs.First.{child_node};
ghost use Rattle.squawk_statements.specs.Plain.{groups_open_after};

use squawk_events::{FrontError, Grammar, Input, Output};
use squawk_kinds::SyntaxKind;
use squawk_statements::{
    Division, emit_child, emit_exits, emit_token, ends_statement, first_child_in,
};
use std::marker::Model;

// What is open at a token of a `SELECT` statement, in the node of the statement.
#[derive(Clone, Copy)]
pub(crate) struct OpenNodes {
    // Whether a clause is open.
    pub(crate) in_clause: bool,
    // The number of open groups. They are in the clause, if there is one.
    pub(crate) groups: usize,
}

// The node of the clause that a kind inside `groups` groups begins, if it begins one.
#[tactic(auto, unfolding(crate::specs::Clauses::clause_rows))]
pub(crate) fn clause_of(groups: usize, kind: SyntaxKind) -> Option<SyntaxKind>
    ensures { result ≡ clause_of groups kind }
{
    if groups > 0 {
        return None;
    }
    match kind {
        SyntaxKind::SELECT_KW => Some(SyntaxKind::SELECT_CLAUSE),
        SyntaxKind::FROM_KW => Some(SyntaxKind::FROM_CLAUSE),
        SyntaxKind::WHERE_KW => Some(SyntaxKind::WHERE_CLAUSE),
        SyntaxKind::GROUP_KW => Some(SyntaxKind::GROUP_BY_CLAUSE),
        SyntaxKind::HAVING_KW => Some(SyntaxKind::HAVING_CLAUSE),
        SyntaxKind::ORDER_KW => Some(SyntaxKind::ORDER_BY_CLAUSE),
        SyntaxKind::LIMIT_KW => Some(SyntaxKind::LIMIT_CLAUSE),
        SyntaxKind::OFFSET_KW => Some(SyntaxKind::OFFSET_CLAUSE),
        _ => None,
    }
}

// Emits the end of the clause that is open, if one is.
fn emit_clause_end(output: &mut Output, in_clause: bool) -> Result<(), FrontError>
    requires { open_nodes in_clause 0 ≤ depth_of output.old }
    ensures ok { OnOk result (output.new ≡ output.old ++ clause_end in_clause) }
    ensures depth { OnOk result (depth_of output.new + open_nodes in_clause 0
        ≡ depth_of output.old) }
    ensures refusals { IfErr result IsOutOfMemory }
{
    if in_clause {
        output.exit()?;
    }
    Ok(())
}

// Emits what stands before the first kind of a clause, if one begins. Returns whether a clause is
// open then.
fn emit_clause_start(
    output: &mut Output,
    in_clause: bool,
    next_clause: Option<SyntaxKind>,
) -> Result<bool, FrontError>
    requires { open_nodes in_clause 0 ≤ depth_of output.old }
    ensures ok { OnOk result (output.new ≡ output.old ++ clause_start in_clause next_clause) }
    ensures after { IfOk result (λ after. after ≡ (in_clause || is_some next_clause)) }
    ensures depth { IfOk result (λ after. depth_of output.new + open_nodes in_clause 0
        ≡ depth_of output.old + open_nodes after 0) }
    ensures refusals { IfErr result IsOutOfMemory }
{
    let Some(node) = next_clause else {
        return Ok(in_clause);
    };
    emit_clause_end(output, in_clause)?;
    output.enter(node)?;
    Ok(true)
}

// Emits the steps of a token of a `SELECT` statement. Returns what is open after it.
fn emit_kind(
    output: &mut Output,
    division: Division,
    nodes: OpenNodes,
    kind: SyntaxKind,
) -> Result<OpenNodes, FrontError>
    requires within { open_nodes nodes.in_clause nodes.groups ≤ depth_of output.old }
    requires small { nodes.groups < 2 ^ 63 }
    ensures ok { OnOk result (output.new
        ≡ output.old ++ select_kind_steps division nodes.in_clause nodes.groups kind) }
    ensures in_clause { IfOk result (λ after.
        after.in_clause ≡ in_clause_after division nodes.in_clause nodes.groups kind) }
    ensures groups { IfOk result (λ after.
        after.groups ≡ groups_open_after division nodes.groups (role kind)) }
    ensures depth { IfOk result (λ after.
        depth_of output.new + open_nodes nodes.in_clause nodes.groups
        ≡ depth_of output.old + open_nodes after.in_clause after.groups) }
    ensures bound { IfOk result (λ after. after.groups ≤ nodes.groups + 1) }
    ensures refusals { IfErr result IsOutOfMemory }
{
    if ends_statement(division, nodes.groups, kind) {
        emit_exits(output, nodes.groups)?;
        emit_clause_end(output, nodes.in_clause)?;
        output.token(kind)?;
        return Ok(OpenNodes {
            in_clause: false,
            groups: 0,
        });
    }
    let next_clause = clause_of(nodes.groups, kind);
    let in_clause = emit_clause_start(output, nodes.in_clause, next_clause)?;
    let groups = emit_token(output, division, nodes.groups, kind)?;
    Ok(OpenNodes { in_clause, groups })
}

// Emits the steps inside the node of a `SELECT` statement.
fn emit_select_body(
    output: &mut Output,
    division: Division,
    kinds: &[SyntaxKind],
) -> Result<(), FrontError>
    ensures ok { OnOk result (output.new ≡ output.old ++ select_steps division false 0 kinds.now) }
    ensures depth { OnOk result (depth_of output.new ≡ depth_of output.old) }
    ensures refusals { IfErr result IsOutOfMemory }
{
    let mut nodes = OpenNodes {
        in_clause: false,
        groups: 0,
    };
    for i in 0..kinds.len() {
        nodes = emit_kind(output, division, nodes, kinds[i])?;
    }
    emit_exits(output, nodes.groups)?;
    emit_clause_end(output, nodes.in_clause)
}

// Emits the steps of a `SELECT` statement.
fn emit_select(
    output: &mut Output,
    division: Division,
    kinds: &[SyntaxKind],
) -> Result<(), FrontError>
    ensures ok { OnOk result (output.new ≡ output.old ++ select_child_steps division kinds.now) }
    ensures depth { OnOk result (depth_of output.new ≡ depth_of output.old) }
    ensures refusals { IfErr result IsOutOfMemory }
{
    output.enter(SyntaxKind::SELECT)?;
    emit_select_body(output, division, kinds)?;
    output.exit()
}

// Whether a child with this node is divided into clauses.
pub(crate) fn has_clauses(node: Option<SyntaxKind>) -> bool
    ensures { result ≡ (unwrap_or node ERROR == SELECT) }
{
    matches!(node, Some(SyntaxKind::SELECT))
}

// Emits the steps of a child with this node.
#[tactic(auto, using(crate::proofs::Nodes::select_child, crate::proofs::Nodes::other_child))]
fn emit_clause_child(
    output: &mut Output,
    division: Division,
    node: Option<SyntaxKind>,
    kinds: &[SyntaxKind],
) -> Result<(), FrontError>
    requires some { 0 < length kinds.now }
    requires no_trivia { IsTrue (has_no_trivia kinds.now) }
    requires node { node ≡ child_node kinds.now }
    ensures ok { OnOk result (output.new ≡ output.old ++ clause_child_steps division kinds.now) }
    ensures depth { OnOk result (depth_of output.new ≡ depth_of output.old) }
    ensures refusals { IfErr result IsOutOfMemory }
{
    if has_clauses(node) {
        emit_select(output, division, kinds)
    } else {
        emit_child(output, division, kinds)
    }
}

// Emits the steps of a whole text.
fn emit_clauses(
    output: &mut Output,
    division: Division,
    kinds: &[SyntaxKind],
) -> Result<(), FrontError>
    requires empty { output.old ≡ [] }
    requires no_trivia { IsTrue (has_no_trivia kinds.now) }
    ensures ok { OnOk result (output.new ≡ clauses division kinds.now) }
    ensures refusals { IfErr result IsOutOfMemory }
{
    output.enter(SyntaxKind::SOURCE_FILE)?;
    let mut at = 0;
    while at < kinds.len() {
        let shape = first_child_in(&kinds[at..], division);
        emit_clause_child(output, division, shape.node, &kinds[at..at + shape.tokens])?;
        at += shape.tokens;
    }
    output.exit()
}

/// Divides a text into statements as the plain grammars do, and the `SELECT` statements into their
/// clauses.
///
/// In a statement whose node is `SELECT`, each word of `select`, `from`, `where`, `group`,
/// `having`, `order`, `limit` and `offset` outside of parentheses begins the node of a clause. It
/// extends to the next such word, or to the last token before the one that ends the statement.
/// Words alone decide: `docs/STATEMENTS.md`, "Clauses", says what is not promised.
#[derive(Clone, Copy, Debug, PartialEq, Eq)]
pub struct ClauseGrammar {
    division: Division,
}

impl Model for ClauseGrammar {
    ghost use Rattle.squawk_statements.specs.declared.division.Division.{Division};

    ghost Value = { Division };

    ghost view = { λ g. g.division };

    ghost inverse = { λ division. record { division = division } };
}

impl ClauseGrammar {
    /// Returns the grammar with this division, without allocating.
    pub fn new(division: Division) -> ClauseGrammar
        ensures { result ≡ division }
    {
        ClauseGrammar { division }
    }
}

impl Grammar for ClauseGrammar {
    ghost use Rattle.squawk_clauses.specs.ClausesAreLawful.{clauses_lawful};

    ghost told = { λ division kinds. clauses division kinds };

    fn run(&self, input: &Input, output: &mut Output) -> Result<(), FrontError> {
        emit_clauses(output, self.division, input.kinds())
    }

    ghost lawful = { λ division kinds no_trivia. clauses_lawful division kinds no_trivia };
}
