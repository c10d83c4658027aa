//! Children of the root.
ghost use Rattle.std.specs.Prelude.{◌≡◌, length, IfOk, IfErr};
ghost use Rattle.squawk_cut.specs.ChildValue.{IsChild, child_of_tree};
ghost use Rattle.squawk_events.specs.Refusals.{IsOutOfMemory};
ghost use Rattle.squawk_tree.specs.Steps.{root_children};

use squawk_events::{FrontError, ParseError, StrStep};
use squawk_kinds::SyntaxKind;
use squawk_tree::Parse;
use std::alloc::Global;
use std::marker::Model;

/// A child of the root. The offsets in its steps and errors are in bytes, from its own start.
///
/// A leaf has one `Token` step; a node has its `Enter`, what it holds and its `Exit`. The ranges of
/// its tokens follow one another from 0 to its length. No `Error` is among its steps.
#[derive(Drop)]
pub struct Child {
    tokens: usize,
    bytes: u32,
    node: Option<SyntaxKind>,
    closed: bool,
    steps: Vec<StrStep>,
    errors: Vec<ParseError>,
}

impl Model for Child {
    ghost use Rattle.squawk_cut.specs.ChildValue.{ChildValue, IsChild};

    ghost Value = { ChildValue };

    ghost view = { λ c. record {
      tokens = c.tokens;
      bytes = c.bytes;
      node = c.node;
      closed = c.closed;
      steps = c.steps.items;
      errors = c.errors.items;
    } };

    ghost invariant = { λ c. IsChild (record {
      tokens = c.tokens;
      bytes = c.bytes;
      node = c.node;
      closed = c.closed;
      steps = c.steps.items;
      errors = c.errors.items;
    }) };
}

impl Child {
    /// The only root child of a tree: its steps without those of the root, and its errors. `closed`
    /// says whether no later token can belong to it. The only error is `OutOfMemory`.
    ///
    /// The root of `parse` must have exactly one child: `parse.children().len()` is 1.
    pub fn from_parse(alloc: Global, parse: &Parse, closed: bool) -> Result<Child, FrontError>
        requires one { length (root_children parse.now.steps) ≡ 1 }
        ensures child { IfOk result (λ child. child ≡ child_of_tree parse.now closed) }
        ensures refusals { IfErr result IsOutOfMemory }
    {
        let bytes = parse.len();
        let only = parse.children()[0];
        let steps = parse.steps();
        let steps = steps[1..steps.len() - 1].to_vec(alloc)?;
        let errors = parse.errors().to_vec(alloc)?;
        Ok(Child {
            tokens: only.tokens,
            bytes,
            node: only.node,
            closed,
            steps,
            errors,
        })
    }

    /// The number of its tokens, trivia included.
    pub fn tokens(&self) -> usize
        ensures { result ≡ self.now.tokens }
    {
        self.tokens
    }

    /// Its length in bytes.
    pub fn bytes(&self) -> u32
        ensures { result ≡ self.now.bytes }
    {
        self.bytes
    }

    /// The kind of its node; `None` for a leaf.
    pub fn node(&self) -> Option<SyntaxKind>
        ensures { result ≡ self.now.node }
    {
        self.node
    }

    /// Whether no later token can belong to it. In a plain front it is `false` only for a statement
    /// that no token ends.
    pub fn closed(&self) -> bool
        ensures { result ≡ self.now.closed }
    {
        self.closed
    }

    /// Its steps, in order.
    ///
    /// The clause `sound` holds for every child: it is a leaf or a balanced list of steps without
    /// `Error`, its tokens cover it from 0 to `bytes`, each error lies in it and has a number from
    /// 1 to 10, and `tokens` and `node` are those of its steps.
    pub fn steps(&self) -> &[StrStep]
        ensures steps { result.now ≡ self.now.steps }
        ensures sound { IsChild self.now }
    {
        &self.steps
    }

    /// Its errors, in the order of its tokens.
    pub fn errors(&self) -> &[ParseError]
        ensures errors { result.now ≡ self.now.errors }
        ensures sound { IsChild self.now }
    {
        &self.errors
    }
}
