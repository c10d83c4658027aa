//! The rules that divide kinds into statements and groups, kind by kind.
ghost use Rattle.std.specs.Prelude.{◌≡◌, ◌<◌, ◌^◌};
ghost use Rattle.squawk_statements.specs.Children.{ends_statement, open_groups_after, is_single_token};
ghost use Rattle.squawk_kinds.specs.Role.{role};

use squawk_kinds::SyntaxKind;

/// The rule by which a semicolon ends a statement.
#[derive(Clone, Copy, Debug, PartialEq, Eq)]
pub enum Division {
    /// Every semicolon ends the statement that it stands in.
    Flat,
    /// A semicolon inside a group, that is between `(` and its `)`, ends no statement.
    Grouped,
}

// Whether the kind is a child of the root by itself if no statement is open.
#[tactic(auto, unfolding(squawk_kinds::specs::Role::role))]
pub(crate) fn is_single_token(kind: SyntaxKind) -> bool
    ensures { result ≡ is_single_token (role kind) }
{
    matches!(
        kind,
        SyntaxKind::SEMICOLON | SyntaxKind::PSQL_TERMINATOR_TEXT | SyntaxKind::PSQL_COMMAND_TEXT
    )
}

/// Returns whether a token of this kind ends a statement in which `groups` groups are open.
#[tactic(auto, unfolding(squawk_kinds::specs::Role::role))]
pub fn ends_statement(division: Division, groups: usize, kind: SyntaxKind) -> bool
    ensures { result ≡ ends_statement division groups (role kind) }
{
    match kind {
        SyntaxKind::PSQL_TERMINATOR_TEXT => true,
        SyntaxKind::SEMICOLON => match division {
            Division::Flat => true,
            Division::Grouped => groups == 0,
        },
        _ => false,
    }
}

// The number of open groups after a kind that does not end the statement.
#[tactic(auto, unfolding(squawk_kinds::specs::Role::role))]
pub(crate) fn open_groups_after(groups: usize, kind: SyntaxKind) -> usize
    requires { groups < 2 ^ 63 }
    ensures { result ≡ open_groups_after groups (role kind) }
{
    match kind {
        SyntaxKind::L_PAREN => groups + 1,
        SyntaxKind::R_PAREN => groups.saturating_sub(1),
        _ => groups,
    }
}
