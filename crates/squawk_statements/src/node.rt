//! The node of a statement, by its first kinds.
ghost use Rattle.std.specs.Prelude.{◌↔◌, false, IsNone, ◌≡◌, ◌≤◌, ◌<◌, length, take, option_map};
ghost use Rattle.squawk_statements.specs.Opening.{is_modifier, has_row, is_prefix, key, longest, opening_of, rows, statement_node};
ghost use Rattle.squawk_statements.specs.Rows.{row_of, without_trivia_if, is_skipped_modifier, is_skipped};

use crate::rows::{Row, rows_from};
use squawk_events::is_trivia;
use squawk_kinds::SyntaxKind;
use squawk_kinds::numbers::Number;

// The first kinds of the key of a statement, by number. Four decide: no row has more.
#[derive(Clone, Copy)]
struct KeyPrefix {
    kinds: [u16; 4],
    len: usize,
}

// Whether the kind may stand between `CREATE` and the kind of object that is created.
#[tactic(auto, unfolding(crate::specs::Opening::is_modifier, crate::specs::Opening::modifiers))]
fn is_modifier(kind: SyntaxKind) -> bool
    ensures { result ≡ is_modifier kind }
{
    matches!(
        kind,
        SyntaxKind::OR_KW
            | SyntaxKind::REPLACE_KW
            | SyntaxKind::TEMP_KW
            | SyntaxKind::TEMPORARY_KW
            | SyntaxKind::GLOBAL_KW
            | SyntaxKind::LOCAL_KW
            | SyntaxKind::UNLOGGED_KW
            | SyntaxKind::UNIQUE_KW
            | SyntaxKind::TRUSTED_KW
            | SyntaxKind::PROCEDURAL_KW
            | SyntaxKind::RECURSIVE_KW
            | SyntaxKind::CONSTRAINT_KW
    )
}

// Whether the kinds of the row are a prefix of these kinds.
fn fits(row: &Row, start: &[u16]) -> bool
    requires { 0 < length start.now }
    ensures { result ≡ is_prefix (row_of row.now).0 start.now }
{
    row.first == start[0] && start[1..].starts_with(row.rest)
}

// The node of the longest row that is a prefix of these kinds.
fn look_up(start: &[u16]) -> Option<SyntaxKind>
    ensures { result ≡ option_map (λ row. row.1) (longest rows start.now) }
{
    if start.is_empty() {
        return None;
    }
    let rows = rows_from(start[0]);
    for row in rows {
        if fits(row, start) {
            return SyntaxKind::from_raw(row.node);
        }
    }
    None
}

// The first four kinds of the key of these kinds, with trivia left out if `skip_trivia` is set.
fn key_prefix(kinds: &[SyntaxKind], skip_trivia: bool) -> KeyPrefix
    ensures within { result.len ≤ 4 }
    ensures key { take result.len result.kinds
        ≡ take 4 (key (without_trivia_if skip_trivia kinds.now)) }
{
    let mut prefix = KeyPrefix {
        kinds: [0; 4],
        len: 0,
    };
    for kind in kinds {
        if prefix.len == 4 {
            return prefix;
        }
        if !is_skipped(&prefix.kinds[..prefix.len], skip_trivia, *kind) {
            prefix.kinds[prefix.len] = kind.to_raw();
            prefix.len += 1;
        }
    }
    prefix
}

// Whether the key leaves out this kind as a modifier, after the kinds that it has so far.
fn is_skipped_modifier(so_far: &[u16], kind: SyntaxKind) -> bool
    ensures { result ≡ is_skipped_modifier so_far.now kind }
{
    so_far.len() == 1 && so_far[0] == Number::CREATE_KW && is_modifier(kind)
}

// Whether the key leaves out this kind, after the kinds that it has so far.
fn is_skipped(so_far: &[u16], skip_trivia: bool, kind: SyntaxKind) -> bool
    ensures { result ≡ is_skipped skip_trivia so_far.now kind }
{
    skip_trivia && is_trivia(kind) || is_skipped_modifier(so_far, kind)
}

// The node of a statement of these kinds, with trivia left out if `skip_trivia` is set.
fn opening_in(kinds: &[SyntaxKind], skip_trivia: bool) -> Option<SyntaxKind>
    ensures { result ≡ opening_of (without_trivia_if skip_trivia kinds.now) }
{
    let prefix = key_prefix(kinds, skip_trivia);
    look_up(&prefix.kinds[..prefix.len])
}

/// Returns the node of a statement of these kinds, from which trivia has been left out.
///
/// The longest row of the opening table that is a prefix of the kinds decides; modifiers such as
/// `OR REPLACE` directly after a first `CREATE` do not count. `None` exactly if no row is a prefix:
/// the node of the statement is then `ERROR`.
pub fn opening(kinds: &[SyntaxKind]) -> Option<SyntaxKind>
    ensures node { result ≡ opening_of kinds.now }
    ensures none { IsNone result ↔ (has_row kinds.now ≡ false) }
{
    opening_in(kinds, false)
}

// The node of a statement of these kinds, with trivia left out if `skip_trivia` is set; `ERROR` if
// no row of the table is a prefix.
pub(crate) fn statement_node(kinds: &[SyntaxKind], skip_trivia: bool) -> SyntaxKind
    ensures { result ≡ statement_node (without_trivia_if skip_trivia kinds.now) }
{
    match opening_in(kinds, skip_trivia) {
        Some(node) => node,
        None => SyntaxKind::ERROR,
    }
}
