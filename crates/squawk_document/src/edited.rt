//! What an edit kept and what it did anew, as counts.
ghost use Rattle.std.specs.Prelude.{◌≡◌};
ghost use Rattle.squawk_document.specs.Edited.{both_counts};

/// How many tokens and children of the root an edit kept before and after the part that it did
/// anew, and how many it cut and parsed there.
#[derive(Clone, Copy, Debug, PartialEq, Eq)]
pub struct Edited {
    /// The tokens with at least two characters between their end and the range of the edit.
    pub front_tokens: usize,
    /// The tokens of the new text between those at its front and those at its back.
    pub cut_tokens: usize,
    /// The tokens after the meeting: the first offset at or past the end of the range at which a
    /// token ends in the old text and in the new one.
    pub back_tokens: usize,
    /// The children of front tokens alone that no open statement precedes, and that are closed.
    pub front_children: usize,
    /// The children of the new text between those at its front and those at its back.
    pub parsed_children: usize,
    /// The children after the first offset at or past the meeting at which a child ends in the old
    /// text and in the new one, with no open statement before it.
    pub back_children: usize,
}

// The number of tokens that an edit kept and cut.
#[derive(Clone, Copy)]
pub(crate) struct TokenCounts {
    pub(crate) front_tokens: usize,
    pub(crate) cut_tokens: usize,
    pub(crate) back_tokens: usize,
}

// The number of children that an edit kept and parsed.
#[derive(Clone, Copy)]
pub(crate) struct ChildCounts {
    pub(crate) front_children: usize,
    pub(crate) parsed_children: usize,
    pub(crate) back_children: usize,
}

// The counts of tokens and of children together.
pub(crate) fn both_counts(tokens: TokenCounts, children: ChildCounts) -> Edited
    ensures { result ≡ both_counts tokens children }
{
    Edited {
        front_tokens: tokens.front_tokens,
        cut_tokens: tokens.cut_tokens,
        back_tokens: tokens.back_tokens,
        front_children: children.front_children,
        parsed_children: children.parsed_children,
        back_children: children.back_children,
    }
}
