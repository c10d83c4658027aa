//! Grammars that emit the tree of a text child by child, from its tokens.
ghost use Rattle.std.specs.Prelude.{◌≡◌, ℕ, ◌++◌, List, OnOk, IfErr};
ghost use Rattle.squawk_events.specs.Refusals.{IsOutOfMemory};
ghost use Rattle.squawk_events.specs.declared.steps.Step as steps;
ghost use Rattle.squawk_statements.specs.declared.division.Division as divisions;
ghost use Rattle.squawk_tree.specs.Built.{IsBuilt, emitted};
ghost use Rattle.squawk_tree.specs.ChildGrammar.{IsFirstNode, IsGrammarOf, child_at};

use crate::builder::TreeBuilder;
use crate::child_steps::emit_plain_node;
use squawk_events::FrontError;
use squawk_kinds::SyntaxKind;
use squawk_lexed::LexedStr;
use squawk_statements::{ChildShape, Division};

/// Emits the node of each child of the root from the tokens of the child. `parse_children` makes
/// the rest of a tree: it divides the tokens, and emits the root, its leaves and the errors.
///
/// In contracts, an implementation stands for two functions on kinds without trivia: `told` returns
/// the steps of a text, and `child` those of one child of the root. It proves that `emit_node`
/// emits the steps of `child`, woven with the trivia of the child, and that the two functions are a
/// grammar (`lawful`):
///
/// - the steps of a text are a root over the steps of its children, and a lawful tree of its kinds;
/// - the steps of a child are its node, with the error of an unknown statement and no other, and a
///   tree of its kinds in which each inner node has a token.
pub trait ChildGrammar {
    /// The steps of a text, by its kinds without trivia.
    ghost told: { Self → divisions.Division → List ℕ → List steps.Step };

    /// The steps of a child of the root, by its kinds without trivia.
    ghost child: { Self → divisions.Division → List ℕ → List steps.Step };

    /// Appends the steps of a child that is a node to `tree`, trivia included, but not its error.
    ///
    /// `from` is the index in `lexed` of the first token of the child. `shape` is what `division`
    /// makes of the tokens from there on: the next `shape.tokens` of them, trivia included, are the
    /// child. `node` is the kind in `shape.node`.
    ///
    /// Fails only if memory runs out; what `tree` then holds is unspecified.
    fn emit_node(
        &self,
        lexed: &LexedStr<'_>,
        division: Division,
        from: usize,
        shape: ChildShape,
        node: SyntaxKind,
        tree: &mut TreeBuilder,
    ) -> Result<(), FrontError>
        requires first { IsFirstNode division lexed.now.tokens from shape node }
        requires built { IsBuilt tree.old }
        ensures steps { OnOk result (emitted tree.new ≡ emitted tree.old
            ++ child_at (child self.now division) lexed.now.tokens from shape.tokens) }
        ensures built { OnOk result (IsBuilt tree.new) }
        ensures refusals { IfErr result IsOutOfMemory };

    /// The proof that `told` and `child` are a grammar.
    ghost lawful: { (g : Self) (d : divisions.Division) → IsGrammarOf d (child g d) (told g d) };
}

/// The plain grammar: statements with their nodes, and groups inside them.
#[derive(Clone, Copy)]
pub struct PlainChildren;

impl ChildGrammar for PlainChildren {
    ghost use Rattle.squawk_statements.specs.Plain.{plain, child_steps};
    ghost use Rattle.squawk_tree.specs.PlainChildren.{plain_grammar};

    ghost told = { λ g division. plain division };

    ghost child = { λ g division. child_steps division };

    fn emit_node(
        &self,
        lexed: &LexedStr<'_>,
        division: Division,
        from: usize,
        shape: ChildShape,
        node: SyntaxKind,
        tree: &mut TreeBuilder,
    ) -> Result<(), FrontError> {
        // The number of tokens bounds the indices.
        let _ = (division, lexed.len());
        emit_plain_node(lexed, from, from + shape.tokens, shape, node, tree)
    }

    ghost lawful = { λ g division. plain_grammar division };
}
