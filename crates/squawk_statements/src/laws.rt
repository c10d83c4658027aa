//! Laws of the definitions, for proofs: functions that do nothing, each with a law as its contract.
ghost use Rattle.squawk_statements.specs.Laws as law;

/// The kinds of a statement before the token that ends it divide into plain kinds and groups, in
/// exactly one way, and the statement's steps are those of this division.
///
/// The token that ends a statement stands after all of its groups.
pub fn groups_divide_uniquely()
    ensures some { law.NestingExists }
    ensures one { law.NestingIsUnique }
    ensures closing { law.EndingTokenIsLast }
{}

/// The row that decides the node of a statement is in the table and a prefix of the kinds, and no
/// other such row is longer.
pub fn openings_are_longest()
    ensures { law.FoundRowIsLongest }
{}

/// A closed statement extends to the first token that may end it, and a statement is open only if
/// no token may end it. An open statement extends to the last token that is not trivia.
pub fn statements_end_first()
    ensures closed { law.ClosedStatementEndsFirst }
    ensures open { law.NothingEndsOpenStatement }
    ensures trimmed { law.LastTokenIsNotTrivia }
{}

/// The first child has at least one token, and no more than there are. Where it is closed, it is
/// decided by its own tokens: it stays the same whatever follows them.
pub fn first_children_stay()
    ensures within { law.FirstChildrenWithin }
    ensures stays { law.FirstChildrenStay }
{}
