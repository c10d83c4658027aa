//! Receivers of the steps of a tree over a text.
ghost use Rattle.std.specs.Prelude.{◌≡◌, List, [], ◌∷◌, ◌++◌, OnOk, OnErr, IfErr};
ghost use Rattle.squawk_events.specs.Refusals.{IsOutOfMemory};
ghost use Rattle.squawk_events.specs.declared.steps.StrStep as steps;
ghost use Rattle.squawk_events.specs.declared.steps.ParseError as errors;

use crate::{FrontError, StrStep};

/// A receiver of the steps of a tree over a text, such as a builder of trees.
pub trait StepSink {
    /// The steps received so far.
    ghost steps: { Self → List steps.StrStep };

    /// The errors that it also holds; no step changes them.
    ghost errors: { Self → List errors.ParseError };

    /// Receives the next step. Fails only if memory runs out, and then keeps the steps so far.
    fn step(&mut self, step: StrStep) -> Result<(), FrontError>
        ensures ok { OnOk result (steps self.new ≡ steps self.old ++ step ∷ []) }
        ensures err { OnErr result (steps self.new ≡ steps self.old) }
        ensures kept { errors self.new ≡ errors self.old }
        ensures refusals { IfErr result IsOutOfMemory };
}
