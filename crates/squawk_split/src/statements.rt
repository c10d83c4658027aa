//! The end of a statement, and whether COPY data follows it.
ghost use Rattle.std.specs.Prelude.{◌≡◌, ◌<◌, ◌≤◌, ◌^◌, drop, length, false};
ghost use Rattle.std.specs.Str.{IsCharBoundary};
ghost use Rattle.squawk_kinds.specs.Role.{role};
ghost use Rattle.squawk_split.specs.Pieces.{tokens_of};
ghost use Rattle.squawk_split.specs.StatementEnds.{start_state, state_after, end_from};
ghost use Rattle.squawk_statements.specs.Children.{open_groups_after};

use crate::reader::TokenReader;
use squawk_events::is_trivia;
use squawk_kinds::SyntaxKind;
use squawk_statements::{Division, ends_statement};

// What was read of a statement: how many groups are open, whether its last kind is a FROM outside
// of all groups, and whether a STDIN followed such a FROM.
#[derive(Clone, Copy)]
pub(crate) struct StatementState {
    groups: usize,
    after_from: bool,
    from_stdin: bool,
}

impl StatementState {
    // The state before the first kind.
    fn start() -> StatementState
        ensures { result ≡ start_state }
    {
        StatementState {
            groups: 0,
            after_from: false,
            from_stdin: false,
        }
    }

    // The state after a kind that is not trivia and does not end the statement.
    fn after(self, kind: SyntaxKind) -> StatementState
        requires { self.groups < 2 ^ 63 }
        ensures { result ≡ state_after self kind }
    {
        StatementState {
            groups: open_groups_after(self.groups, kind),
            after_from: self.groups == 0 && kind == SyntaxKind::FROM_KW,
            from_stdin: self.from_stdin || self.after_from && kind == SyntaxKind::STDIN_KW,
        }
    }
}

// The number of open groups after a kind that does not end the statement.
#[tactic(auto, unfolding(squawk_kinds::specs::Role::role))]
fn open_groups_after(groups: usize, kind: SyntaxKind) -> usize
    requires { groups < 2 ^ 63 }
    ensures { result ≡ open_groups_after groups (role kind) }
{
    match kind {
        SyntaxKind::L_PAREN => groups + 1,
        SyntaxKind::R_PAREN => groups.saturating_sub(1),
        _ => groups,
    }
}

// Where a statement ends, and whether a semicolon after `FROM STDIN` ends it.
#[derive(Clone, Copy)]
pub(crate) struct StatementEnd {
    pub(crate) end: usize,
    pub(crate) from_stdin: bool,
}

// Reads the rest of a statement whose first token has this kind and ends at `at`. Without a token
// that ends it, it extends to the last token that is not trivia.
pub(crate) fn statement_end(
    reader: &mut TokenReader<'_>,
    at: usize,
    first: SyntaxKind,
    division: Division,
) -> StatementEnd
    requires some { 0 < at }
    requires boundary { IsCharBoundary reader.old.text at }
    ensures same { reader.new ≡ reader.old }
    ensures end { result ≡ end_from division (state_after start_state first) at at
        (tokens_of reader.old.strings false (drop at reader.old.text)) }
{
    let len = reader.text().len();
    let mut state = StatementState::start().after(first);
    let mut trimmed = at;
    let mut from = at;
    while from < len {
        let token = reader.token_at(from);
        if ends_statement(division, state.groups, token.kind) {
            let from_stdin = state.from_stdin && token.kind == SyntaxKind::SEMICOLON;
            return StatementEnd {
                end: token.end,
                from_stdin,
            };
        }
        if !is_trivia(token.kind) {
            state = state.after(token.kind);
            trimmed = token.end;
        }
        from = token.end;
    }
    StatementEnd {
        end: trimmed,
        from_stdin: false,
    }
}
