//! The output of a grammar.
ghost use Rattle.std.specs.Prelude.{◌≡◌, ◌+◌, ◌<◌, ◌≤◌, [], ◌∷◌, ◌++◌, OnOk, OnErr, IfErr};
ghost use Rattle.squawk_events.specs.Depth.{depth_of};
ghost use Rattle.squawk_events.specs.Refusals.{IsOutOfMemory};
ghost use Rattle.squawk_events.specs.declared.steps.Step.TheVariants.{Enter, Token, Exit, Error};

use crate::{FrontError, Step};
use squawk_kinds::SyntaxKind;
use std::alloc::Global;
use std::marker::Model;

/// A growing list of steps: the output of a grammar.
///
/// Calls that append a step fail only if memory runs out, and then leave the list unchanged.
#[derive(Drop)]
pub struct Output {
    steps: Vec<Step>,
    depth: usize,
}

impl Model for Output {
    ghost use Rattle.std.specs.Prelude.{List};
    ghost use Rattle.squawk_events.specs.declared.steps.Step.{Step};
    ghost use Rattle.squawk_events.specs.Depth.{IsDepth};

    ghost Value = { List Step };

    ghost view = { λ o. o.steps.items };

    ghost invariant = { λ o. IsDepth o.depth o.steps.items };
}

#[tactic(auto, using(crate::proofs::DepthLemmas::enters_of_append, crate::proofs::DepthLemmas::exits_of_append, crate::proofs::DepthLemmas::enters_of_le))]
impl Output {
    /// Returns an empty list, without allocating.
    pub fn new(alloc: Global) -> Output
        ensures { result ≡ [] }
    {
        Output {
            steps: Vec::new(alloc),
            depth: 0,
        }
    }

    /// Appends the start of a node of this kind.
    pub fn enter(&mut self, kind: SyntaxKind) -> Result<(), FrontError>
        ensures ok { OnOk result (self.new ≡ self.old ++ Enter kind ∷ []) }
        ensures depth { OnOk result (depth_of self.new ≡ depth_of self.old + 1) }
        ensures err { OnErr result (self.new ≡ self.old) }
        ensures refusals { IfErr result IsOutOfMemory }
    {
        self.steps.push(Step::Enter { kind })?;
        self.depth += 1;
        Ok(())
    }

    /// Appends a token of this kind.
    pub fn token(&mut self, kind: SyntaxKind) -> Result<(), FrontError>
        ensures ok { OnOk result (self.new ≡ self.old ++ Token kind ∷ []) }
        ensures depth { OnOk result (depth_of self.new ≡ depth_of self.old) }
        ensures err { OnErr result (self.new ≡ self.old) }
        ensures refusals { IfErr result IsOutOfMemory }
    {
        self.steps.push(Step::Token { kind })?;
        Ok(())
    }

    /// Appends the end of the innermost open node. `depth` must not be 0.
    pub fn exit(&mut self) -> Result<(), FrontError>
        requires { 0 < depth_of self.old }
        ensures ok { OnOk result (self.new ≡ self.old ++ Exit ∷ []) }
        ensures depth { OnOk result (depth_of self.new + 1 ≡ depth_of self.old) }
        ensures err { OnErr result (self.new ≡ self.old) }
        ensures refusals { IfErr result IsOutOfMemory }
    {
        self.steps.push(Step::Exit)?;
        self.depth -= 1;
        Ok(())
    }

    /// Appends an error by the number of its message, from 1 to 10.
    pub fn error(&mut self, number: u8) -> Result<(), FrontError>
        requires low { 1 ≤ number }
        requires high { number ≤ 10 }
        ensures ok { OnOk result (self.new ≡ self.old ++ Error number ∷ []) }
        ensures depth { OnOk result (depth_of self.new ≡ depth_of self.old) }
        ensures err { OnErr result (self.new ≡ self.old) }
        ensures refusals { IfErr result IsOutOfMemory }
    {
        self.steps.push(Step::Error { number })?;
        Ok(())
    }

    /// Returns the number of open nodes.
    pub fn depth(&self) -> usize
        ensures { result ≡ depth_of self.now }
    {
        self.depth
    }

    /// Returns the steps, in order.
    pub fn steps(&self) -> &[Step]
        ensures { result.now ≡ self.now }
    {
        &self.steps
    }
}
