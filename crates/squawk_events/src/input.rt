//! The input of a grammar.
ghost use Rattle.std.specs.Prelude.{◌≡◌, ◌<◌, [], ◌∷◌, ◌++◌, length, OnOk, OnErr, IfErr, slice_index_or};
ghost use Rattle.squawk_events.specs.Refusals.{IsOutOfMemory};
ghost use Rattle.squawk_kinds.specs.declared.numbers.TheConstants.Number.{EOF};

use crate::FrontError;
use squawk_kinds::SyntaxKind;
use std::alloc::Global;
use std::marker::Model;

/// A growing list of kinds: the input of a grammar.
#[derive(Drop)]
pub struct Input {
    kinds: Vec<SyntaxKind>,
}

impl Model for Input {
    ghost use Rattle.std.specs.Prelude.{ℕ, List};

    ghost Value = { List ℕ };

    ghost view = { λ i. i.kinds.items };
}

impl Input {
    /// Returns an empty list, without allocating.
    pub fn new(alloc: Global) -> Input
        ensures { result ≡ [] }
    {
        Input {
            kinds: Vec::new(alloc),
        }
    }

    /// Returns the list of these kinds, without allocating.
    pub fn from_kinds(kinds: Vec<SyntaxKind>) -> Input
        ensures { result ≡ kinds.items }
    {
        Input { kinds }
    }

    /// Appends a kind. Fails only if memory runs out, and then leaves the list unchanged.
    pub fn push(&mut self, kind: SyntaxKind) -> Result<(), FrontError>
        ensures ok { OnOk result (self.new ≡ self.old ++ kind ∷ []) }
        ensures err { OnErr result (self.new ≡ self.old) }
        ensures refusals { IfErr result IsOutOfMemory }
    {
        self.kinds.push(kind)?;
        Ok(())
    }

    /// Returns the kind at index `i`, or `EOF` if `i` is not below `len`.
    pub fn kind(&self, i: usize) -> SyntaxKind
        ensures { result ≡ slice_index_or self.now i EOF }
    {
        match self.kinds.get(i) {
            Some(kind) => *kind,
            None => SyntaxKind::EOF,
        }
    }

    /// Returns the number of kinds.
    pub fn len(&self) -> usize
        ensures { result ≡ length self.now }
    {
        self.kinds.len()
    }

    /// Returns the kinds, in order.
    pub fn kinds(&self) -> &[SyntaxKind]
        ensures { result.now ≡ self.now }
    {
        &self.kinds
    }
}
