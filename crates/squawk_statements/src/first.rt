//! The first child of the root.
ghost use Rattle.std.specs.Prelude.{◌≡◌, ◌≤◌, ◌<◌, ◌+◌, IsTrue, length, map, take};
ghost use Rattle.squawk_statements.specs.Children.{statement, first_child};
ghost use Rattle.squawk_statements.specs.First.{first_shape, child_node, IsFirstOfLonger};
ghost use Rattle.squawk_kinds.specs.Role.{role};
ghost use Rattle.squawk_statements.specs.declared.division.Division.TheVariants.{Flat};

use crate::division::{Division, ends_statement, is_single_token, open_groups_after};
use crate::node::statement_node;
use squawk_events::is_trivia;
use squawk_kinds::SyntaxKind;

/// The shape of a child of the root.
#[derive(Clone, Copy, Debug, PartialEq, Eq)]
pub struct ChildShape {
    /// The number of its tokens, including trivia inside it.
    pub tokens: usize,
    /// The kind of its node; `None` for a leaf, which is one trivia token.
    pub node: Option<SyntaxKind>,
    /// Whether no later token can belong to it: `false` only for a statement that no token ends.
    pub closed: bool,
}

// How many tokens a child has, and whether it is closed.
#[derive(Clone, Copy)]
pub(crate) struct Extent {
    pub(crate) tokens: usize,
    closed: bool,
}

// The extent of the statement at the start of `kinds`: up to and including the token that ends it,
// else up to the last token that is not trivia.
fn statement_extent(division: Division, kinds: &[SyntaxKind]) -> Extent
    ensures tokens { result.tokens ≡ (statement division (map role kinds.now)).tokens }
    ensures closed { result.closed ≡ (statement division (map role kinds.now)).closed }
    ensures within { result.tokens ≤ length kinds.now }
{
    let mut groups = 0;
    let mut trimmed = 0;
    for i in 0..kinds.len() {
        let kind = kinds[i];
        if ends_statement(division, groups, kind) {
            return Extent {
                tokens: i + 1,
                closed: true,
            };
        }
        groups = open_groups_after(groups, kind);
        if !is_trivia(kind) {
            trimmed = i + 1;
        }
    }
    Extent {
        tokens: trimmed,
        closed: false,
    }
}

// The extent of the first child.
pub(crate) fn first_extent(division: Division, kinds: &[SyntaxKind]) -> Extent
    requires { 0 < length kinds.now }
    ensures tokens { result.tokens ≡ (first_child division (map role kinds.now)).tokens }
    ensures closed { result.closed ≡ (first_child division (map role kinds.now)).closed }
    ensures some { 0 < result.tokens }
    ensures within { result.tokens ≤ length kinds.now }
{
    let kind = kinds[0];
    if is_trivia(kind) || is_single_token(kind) {
        return Extent {
            tokens: 1,
            closed: true,
        };
    }
    statement_extent(division, kinds)
}

// The node of a child of these kinds; `None` for a trivia token.
#[tactic(auto, unfolding(squawk_kinds::specs::Role::role))]
fn child_node(kinds: &[SyntaxKind]) -> Option<SyntaxKind>
    requires { 0 < length kinds.now }
    ensures { result ≡ child_node kinds.now }
{
    let first = kinds[0];
    match first {
        SyntaxKind::WHITESPACE | SyntaxKind::COMMENT => None,
        SyntaxKind::SEMICOLON => Some(SyntaxKind::EMPTY_STMT),
        SyntaxKind::PSQL_TERMINATOR_TEXT | SyntaxKind::PSQL_COMMAND_TEXT => {
            Some(SyntaxKind::PSQL_COMMAND)
        }
        _ => Some(statement_node(kinds, true)),
    }
}

// The shape of the first child.
fn shape_of(kinds: &[SyntaxKind], division: Division) -> ChildShape
    requires { 0 < length kinds.now }
    ensures shape { result ≡ first_shape division kinds.now }
    ensures some { 0 < result.tokens }
    ensures within { result.tokens ≤ length kinds.now }
{
    let extent = first_extent(division, kinds);
    ChildShape {
        tokens: extent.tokens,
        node: child_node(&kinds[..extent.tokens]),
        closed: extent.closed,
    }
}

/// Returns the first child of the root of a text whose tokens have exactly these kinds, trivia
/// included. There must be at least one kind.
///
/// A closed child is also the first child of every longer list that begins with these kinds.
pub fn first_child_in(kinds: &[SyntaxKind], division: Division) -> ChildShape
    requires { 0 < length kinds.now }
    ensures shape { result ≡ first_shape division kinds.now }
    ensures some { 0 < result.tokens }
    ensures within { result.tokens ≤ length kinds.now }
    ensures longer { IsTrue result.closed → IsFirstOfLonger division kinds.now result }
{
    shape_of(kinds, division)
}

/// `first_child_in` with `Division::Flat`, by which every semicolon ends a statement.
pub fn first_child(kinds: &[SyntaxKind]) -> ChildShape
    requires { 0 < length kinds.now }
    ensures shape { result ≡ first_shape Flat kinds.now }
    ensures some { 0 < result.tokens }
    ensures within { result.tokens ≤ length kinds.now }
    ensures longer { IsTrue result.closed → IsFirstOfLonger Flat kinds.now result }
{
    first_child_in(kinds, Division::Flat)
}
