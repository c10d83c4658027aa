//! Trivia among kinds.
ghost use Rattle.std.specs.Prelude.{◌≡◌};
ghost use Rattle.squawk_kinds.specs.Role.{is_trivia, role};
ghost use Rattle.squawk_events.specs.Kinds.{is_trivia_kind};

use squawk_kinds::SyntaxKind;

/// Returns whether the kind is trivia: white space or a comment.
#[tactic(auto, unfolding(squawk_kinds::specs::Role::role, crate::specs::Kinds::is_trivia_kind))]
pub fn is_trivia(kind: SyntaxKind) -> bool
    ensures kind { result ≡ is_trivia_kind kind }
    ensures role { result ≡ is_trivia (role kind) }
{
    matches!(kind, SyntaxKind::WHITESPACE | SyntaxKind::COMMENT)
}
