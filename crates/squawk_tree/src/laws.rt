//! Laws of the definitions, for proofs of other crates: functions that do nothing, whose
//! contract is the law.
ghost use Rattle.std.specs.Prelude.{ℕ, ◌≡◌, ◌∷◌, [], IsTrue, List, map, take};
ghost use Rattle.std.specs.Str.{chars};
ghost use Rattle.squawk_events.specs.Lawful.{IsLawful};
ghost use Rattle.squawk_events.specs.declared.steps.Step.{Step};
ghost use Rattle.squawk_lexed.specs.LexedText.{are_sound};
ghost use Rattle.squawk_lexed.specs.LexedToken.{LexedToken, lexed_role};
ghost use Rattle.squawk_lexed.specs.Weave.{kinds_without_trivia, weave};
ghost use Rattle.squawk_lexer.specs.Cut.{tokens, token_ends};
ghost use Rattle.squawk_lexer.specs.declared.token.Strings.{Strings};
ghost use Rattle.squawk_statements.specs.Children.{parts, children, first_child_len};
ghost use Rattle.squawk_statements.specs.declared.division.Division.{Division};
ghost use Rattle.squawk_tree.specs.Children.{ChildrenAreTrees};
ghost use Rattle.squawk_tree.specs.Join.{child_of, join};
ghost use Rattle.squawk_tree.specs.ParseOf.{parse_of, parse_of_tokens, roles_of, tree_of};
ghost use Rattle.squawk_tree.specs.Steps.{leaves, ranges_through, root_children, root_child};
ghost use Rattle.squawk_tree.specs.Tree.{IsTree};

use squawk_lexed::laws::leaves_keep_roles;

/// The children of the root are independent of each other: the parse of tokens is the join of the
/// children, each built from its own tokens alone.
pub fn children_join()
    ensures { (division : Division) (tokens : List LexedToken) → IsTrue (are_sound tokens)
        → parse_of_tokens division tokens
        ≡ join (map (child_of division) (parts lexed_role division tokens)) }
{}

/// The tree that a lawful output of a grammar makes over tokens is a tree in the sense of `IsTree`.
/// In a parse into statements, the children of the root are those of the division.
pub fn parses_are_trees()
    ensures lawful { (tokens : List LexedToken) (steps : List Step) → IsTrue (are_sound tokens)
        → IsLawful (kinds_without_trivia tokens) steps
        → IsTree (tree_of tokens (weave tokens steps)) }
    ensures children { (division : Division) (tokens : List LexedToken)
        → root_children (parse_of_tokens division tokens).steps
        ≡ map root_child (children division (map lexed_role tokens)) }
{}

/// The parse of the tokens of the first child alone is that child under a root.
pub fn children_stand_alone()
    ensures { (division : Division) (token : LexedToken) (tokens : List LexedToken)
        → let all = token ∷ tokens in
        let own = take (first_child_len lexed_role division all) all in
        IsTrue (are_sound own)
        → parse_of_tokens division own ≡ join (child_of division own ∷ []) }
{}

/// The leaves of the parse of a text are the tokens of the text, and the children of its root are
/// those of the division of the tokens.
pub fn parses_have_the_tokens()
    ensures leaves { (strings : Strings) (division : Division) (text : List ℕ)
        → leaves (parse_of strings division text).steps
        ≡ ranges_through 0 (token_ends 0 (tokens strings (chars text))) }
    ensures children { (strings : Strings) (division : Division) (text : List ℕ)
        → root_children (parse_of strings division text).steps
        ≡ map root_child (children division (roles_of (tokens strings (chars text)))) }
{
    leaves_keep_roles();
}

/// A child is one leaf or a balanced list of steps. Its tokens cover it from its start to its end,
/// its errors lie in it, it has a leaf for each of its tokens, and its node is that of their kinds.
pub fn children_are_trees()
    ensures { ChildrenAreTrees }
{}
