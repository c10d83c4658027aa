//! A sink that builds a tree from the steps that it receives.
ghost use Rattle.std.specs.Prelude.{◌≡◌, ◌≤◌, IsTrue, All, [], ◌∷◌, ◌++◌, OnOk, OnErr, IfOk, IfErr};
ghost use Rattle.squawk_events.specs.Refusals.{IsOutOfMemory};
ghost use Rattle.squawk_tree.specs.Steps.{has_no_errors, is_balanced, leaves, tiles, without_errors};
ghost use Rattle.squawk_tree.specs.Taken.{Taken, IsError, EndsBy, tokens_end};

use crate::parse::{Parse, TreeParts};
use squawk_events::{FrontError, ParseError, StepSink, StrStep};
use std::alloc::Global;
use std::marker::Model;

/// A sink that builds a tree from the steps that it receives and the errors that are pushed to it.
///
/// Each of its errors has a number from 1 to 10 and does not end before its start.
#[derive(Drop)]
pub struct TreeSink {
    alloc: Global,
    steps: Vec<StrStep>,
    // Whether no `Error` is among the steps.
    has_no_errors: bool,
    errors: Vec<ParseError>,
}

impl Model for TreeSink {
    ghost use Rattle.squawk_tree.specs.Taken.{Taken, IsSinkState};

    ghost Value = { Taken };

    ghost view = { λ s. record { steps = s.steps.items; errors = s.errors.items } };

    ghost invariant = { λ s. IsSinkState s.steps.items s.has_no_errors s.errors.items };
}

// Whether a step stays in the tree: whether it is no `Error`.
fn is_kept(step: &StrStep) -> bool
    ensures { result ≡ has_no_errors (step.now ∷ []) }
{
    !matches!(*step, StrStep::Error { .. })
}

// Removes the `Error` steps, in place.
fn remove_errors(steps: &mut Vec<StrStep>)
    ensures { steps.new.items ≡ without_errors steps.old.items }
{
    steps.retain(|step| is_kept(step));
}

// The steps less their `Error` steps; `no_errors` says whether there are none.
fn without_errors(steps: Vec<StrStep>, no_errors: bool) -> Vec<StrStep>
    requires { no_errors ≡ has_no_errors steps.items }
    ensures { result.items ≡ without_errors steps.items }
{
    if no_errors {
        return steps;
    }
    let mut steps = steps;
    remove_errors(&mut steps);
    steps
}

// The end of the last token of these steps, or 0 if there is none.
fn last_end(steps: &[StrStep]) -> u32
    ensures { result ≡ tokens_end steps.now }
{
    let mut end = 0;
    for step in steps {
        if let StrStep::Token { end: next, .. } = *step {
            end = next;
        }
    }
    end
}

impl TreeSink {
    /// An empty sink. Allocates nothing.
    pub fn new(alloc: Global) -> TreeSink
        ensures { result ≡ record { steps = []; errors = [] } }
    {
        TreeSink {
            alloc,
            steps: Vec::new(alloc),
            has_no_errors: true,
            errors: Vec::new(alloc),
        }
    }

    /// Appends an error to those of the tree. Its number must be from 1 to 10, and its range in
    /// bytes must not end before its start. The only error of the call is `OutOfMemory`; it leaves
    /// the sink unchanged.
    pub fn push_error(&mut self, error: ParseError) -> Result<(), FrontError>
        requires { IsError error }
        ensures steps { OnOk result (self.new.steps ≡ self.old.steps) }
        ensures errors { OnOk result (self.new.errors ≡ self.old.errors ++ error ∷ []) }
        ensures err { OnErr result (self.new ≡ self.old) }
        ensures refusals { IfErr result IsOutOfMemory }
    {
        self.errors.push(error)?;
        Ok(())
    }

    // An empty sink with room for this many steps. If that much memory cannot be had, it grows as
    // needed.
    pub(crate) fn with_room(alloc: Global, steps: usize) -> TreeSink
        ensures { result ≡ record { steps = []; errors = [] } }
    {
        let mut sink = TreeSink::new(alloc);
        let _ = sink.steps.reserve(steps);
        sink
    }

    // The steps that the sink has received.
    pub(crate) fn steps(&self) -> &[StrStep]
        ensures { result.now ≡ self.now.steps }
    {
        &self.steps
    }

    // Whether no `Error` is among the steps that the sink has received.
    pub(crate) fn has_no_errors(&self) -> bool
        ensures { result ≡ has_no_errors self.now.steps }
    {
        self.has_no_errors
    }

    // The steps that the sink has received, less their `Error` steps.
    pub(crate) fn into_steps(self) -> Vec<StrStep>
        ensures { result.items ≡ without_errors self.steps }
    {
        without_errors(self.steps, self.has_no_errors)
    }

    /// The tree with the steps that the sink has received, less their `Error` steps, and the errors
    /// that were pushed.
    ///
    /// The steps must be balanced, their tokens must follow one another from offset 0, and no error
    /// may end after the last token. The only error is `OutOfMemory`; the sink is dropped then.
    pub fn finish(self) -> Result<Parse, FrontError>
        requires balanced { IsTrue (is_balanced (without_errors self.steps)) }
        requires tiled { IsTrue (tiles 0 (leaves self.steps) (tokens_end self.steps)) }
        requires within { All (EndsBy (tokens_end self.steps)) self.errors }
        ensures steps { IfOk result (λ parse. parse.steps ≡ without_errors self.steps) }
        ensures errors { IfOk result (λ parse. parse.errors ≡ self.errors) }
        ensures len { IfOk result (λ parse. parse.len ≡ tokens_end self.steps) }
        ensures refusals { IfErr result IsOutOfMemory }
    {
        let len = last_end(&self.steps);
        let parts = TreeParts {
            steps: without_errors(self.steps, self.has_no_errors),
            errors: self.errors,
            len,
            node_steps: 0,
        };
        Ok(Parse::new(self.alloc, parts)?)
    }
}

impl StepSink for TreeSink {
    ghost steps = { λ s. s.steps };

    ghost errors = { λ s. s.errors };

    fn step(&mut self, step: StrStep) -> Result<(), FrontError> {
        let is_kept = is_kept(&step);
        self.steps.push(step)?;
        if !is_kept {
            self.has_no_errors = false;
        }
        Ok(())
    }
}
