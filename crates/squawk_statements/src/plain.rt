//! The plain grammars: statements with their nodes, and groups inside them.
ghost use Rattle.std.specs.Prelude.{◌≡◌, ◌≤◌, ◌<◌, ◌+◌, ◌^◌, [], ◌∷◌, ◌++◌, length, OnOk, IfOk, IfErr, IsTrue};
ghost use Rattle.squawk_events.specs.Depth.{depth_of};
ghost use Rattle.squawk_kinds.specs.Role.{role};
ghost use Rattle.squawk_events.specs.Refusals.{IsOutOfMemory};
ghost use Rattle.squawk_statements.specs.Plain.{node_of, exits, kind_steps, groups_open_after, body_steps, unknown_statement_error, child_steps, plain};
ghost use Rattle.squawk_statements.specs.declared.division.Division.TheVariants.{Flat};

use crate::division::{Division, ends_statement};
use crate::first::first_extent;
use crate::node::statement_node;
use squawk_events::{FrontError, Grammar, Input, Output};
use squawk_kinds::SyntaxKind;

/// Appends an `Exit` for each of `groups` open groups. `output` must have at least that many open
/// nodes. Fails only if memory runs out.
pub fn emit_exits(output: &mut Output, groups: usize) -> Result<(), FrontError>
    requires { groups ≤ depth_of output.old }
    ensures ok { OnOk result (output.new ≡ output.old ++ exits groups) }
    ensures depth { OnOk result (depth_of output.new + groups ≡ depth_of output.old) }
    ensures refusals { IfErr result IsOutOfMemory }
{
    let mut left = groups;
    while left > 0 {
        output.exit()?;
        left -= 1;
    }
    Ok(())
}

/// Appends the steps of a token of a child in which `groups` groups are open. Returns the number of
/// open groups after it. `output` must have at least `groups` open nodes, and `groups` must be
/// below 2^63. Fails only if memory runs out.
#[tactic(auto, unfolding(squawk_kinds::specs::Role::role))]
pub fn emit_token(
    output: &mut Output,
    division: Division,
    groups: usize,
    kind: SyntaxKind,
) -> Result<usize, FrontError>
    requires open_groups { groups ≤ depth_of output.old }
    requires small { groups < 2 ^ 63 }
    ensures ok { OnOk result (output.new ≡ output.old ++ kind_steps division groups kind) }
    ensures groups { IfOk result (λ n. n ≡ groups_open_after division groups (role kind)) }
    ensures depth { IfOk result (λ n. depth_of output.new + groups ≡ depth_of output.old + n) }
    ensures bound { IfOk result (λ n. n ≤ groups + 1) }
    ensures refusals { IfErr result IsOutOfMemory }
{
    if ends_statement(division, groups, kind) {
        emit_exits(output, groups)?;
        output.token(kind)?;
        return Ok(0);
    }
    match kind {
        SyntaxKind::L_PAREN => {
            output.enter(SyntaxKind::PAREN_EXPR)?;
            output.token(kind)?;
            Ok(groups + 1)
        }
        SyntaxKind::R_PAREN if groups > 0 => {
            output.token(kind)?;
            output.exit()?;
            Ok(groups - 1)
        }
        _ => {
            output.token(kind)?;
            Ok(groups)
        }
    }
}

// Emits the steps inside the node of a child.
fn emit_body(
    output: &mut Output,
    division: Division,
    kinds: &[SyntaxKind],
) -> Result<(), FrontError>
    ensures ok { OnOk result (output.new ≡ output.old ++ body_steps division 0 kinds.now) }
    ensures depth { OnOk result (depth_of output.new ≡ depth_of output.old) }
    ensures refusals { IfErr result IsOutOfMemory }
{
    let mut groups = 0;
    for i in 0..kinds.len() {
        groups = emit_token(output, division, groups, kinds[i])?;
    }
    emit_exits(output, groups)
}

// Emits the error of an unknown statement if the node is `ERROR`.
fn emit_unknown_error(output: &mut Output, node: SyntaxKind) -> Result<(), FrontError>
    ensures ok { OnOk result (output.new ≡ output.old ++ unknown_statement_error node) }
    ensures depth { OnOk result (depth_of output.new ≡ depth_of output.old) }
    ensures refusals { IfErr result IsOutOfMemory }
{
    if node == SyntaxKind::ERROR {
        output.error(10)?;
    }
    Ok(())
}

// The node of a child of these kinds, none of which is trivia.
#[tactic(auto, unfolding(squawk_kinds::specs::Role::role))]
fn node_of(kinds: &[SyntaxKind]) -> SyntaxKind
    requires { 0 < length kinds.now }
    ensures { result ≡ node_of kinds.now }
{
    let first = kinds[0];
    match first {
        SyntaxKind::WHITESPACE | SyntaxKind::COMMENT => SyntaxKind::ERROR,
        SyntaxKind::SEMICOLON => SyntaxKind::EMPTY_STMT,
        SyntaxKind::PSQL_TERMINATOR_TEXT | SyntaxKind::PSQL_COMMAND_TEXT =>
            SyntaxKind::PSQL_COMMAND,
        _ => statement_node(kinds, false),
    }
}

/// Appends the steps of a child of these kinds. There must be at least one kind. Fails only if
/// memory runs out.
pub fn emit_child(
    output: &mut Output,
    division: Division,
    kinds: &[SyntaxKind],
) -> Result<(), FrontError>
    requires { 0 < length kinds.now }
    ensures ok { OnOk result (output.new ≡ output.old ++ child_steps division kinds.now) }
    ensures depth { OnOk result (depth_of output.new ≡ depth_of output.old) }
    ensures refusals { IfErr result IsOutOfMemory }
{
    let node = node_of(kinds);
    output.enter(node)?;
    emit_unknown_error(output, node)?;
    emit_body(output, division, kinds)?;
    output.exit()
}

// Emits the steps of a whole text.
fn emit_plain(
    output: &mut Output,
    division: Division,
    kinds: &[SyntaxKind],
) -> Result<(), FrontError>
    requires { output.old ≡ [] }
    ensures ok { OnOk result (output.new ≡ plain division kinds.now) }
    ensures refusals { IfErr result IsOutOfMemory }
{
    output.enter(SyntaxKind::SOURCE_FILE)?;
    let mut at = 0;
    while at < kinds.len() {
        let count = first_extent(division, &kinds[at..]).tokens;
        emit_child(output, division, &kinds[at..at + count])?;
        at += count;
    }
    output.exit()
}

/// Divides a text into statements by `Division::Flat`, and nests what parentheses enclose.
///
/// The root is a `SOURCE_FILE`, and a group is a `PAREN_EXPR`. A statement that no row of the
/// opening table fits is an `ERROR` node, which begins with error 10, "unknown statement".
#[derive(Clone, Copy, Debug, PartialEq, Eq)]
pub struct PlainGrammar;

impl Grammar for PlainGrammar {
    ghost use Rattle.squawk_statements.specs.PlainIsLawful.{plain_lawful};

    ghost told = { λ _ kinds. plain Flat kinds };

    fn run(&self, input: &Input, output: &mut Output) -> Result<(), FrontError> {
        emit_plain(output, Division::Flat, input.kinds())
    }

    ghost lawful = { λ _ kinds no_trivia. plain_lawful Flat kinds no_trivia };
}

/// `PlainGrammar` with `Division::Grouped`: a semicolon inside a group ends no statement.
#[derive(Clone, Copy, Debug, PartialEq, Eq)]
pub struct GroupedGrammar;

impl Grammar for GroupedGrammar {
    ghost use Rattle.squawk_statements.specs.PlainIsLawful.{plain_lawful};
    ghost use Rattle.squawk_statements.specs.declared.division.Division.TheVariants.{Grouped};

    ghost told = { λ _ kinds. plain Grouped kinds };

    fn run(&self, input: &Input, output: &mut Output) -> Result<(), FrontError> {
        emit_plain(output, Division::Grouped, input.kinds())
    }

    ghost lawful = { λ _ kinds no_trivia. plain_lawful Grouped kinds no_trivia };
}
