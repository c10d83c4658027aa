//! Grammars: from the kinds of a text to the steps of its tree.
ghost use Rattle.std.specs.Prelude.{◌≡◌, ℕ, List, [], IsTrue, IfOk, OnOk, IfErr};
ghost use Rattle.squawk_events.specs.Kinds.{has_no_trivia};
ghost use Rattle.squawk_events.specs.Lawful.{IsLawful};
ghost use Rattle.squawk_events.specs.Refusals.{IsOutOfMemory};
ghost use Rattle.squawk_events.specs.declared.steps.Step as steps;

use crate::{FrontError, Input, Output};
use std::alloc::Global;

/// Turns the kinds of a text, without trivia, into the steps of its tree.
///
/// An implementation states, for contracts only, which steps it produces, and proves that they are
/// lawful: balanced, with the kinds as their tokens in order, and with error numbers from 1 to 10.
pub trait Grammar {
    /// The steps that the grammar produces for a list of kinds.
    ghost told: { Self → List ℕ → List steps.Step };

    /// Appends the steps for the kinds of `input` to the empty `output`.
    ///
    /// Fails only if memory runs out; what `output` then holds is unspecified.
    fn run(&self, input: &Input, output: &mut Output) -> Result<(), FrontError>
        requires empty { output.old ≡ [] }
        requires no_trivia { IsTrue (has_no_trivia input.now) }
        ensures ok { OnOk result (output.new ≡ told self.now input.now) }
        ensures refusals { IfErr result IsOutOfMemory };

    /// The proof that these steps are lawful.
    ghost lawful: { (g : Self) (kinds : List ℕ) → IsTrue (has_no_trivia kinds)
        → IsLawful kinds (told g kinds) };
}

/// The start symbol of a grammar: what a text is parsed as.
#[derive(Clone, Copy, Debug, PartialEq, Eq)]
pub enum EntryPoint {
    /// A whole text.
    SourceFile,
}

impl EntryPoint {
    /// Runs a grammar on an input without trivia and returns its output, which is lawful. Fails
    /// only if memory runs out.
    pub fn parse<G: Grammar>(
        &self,
        alloc: Global,
        input: &Input,
        grammar: &G,
    ) -> Result<Output, FrontError>
        requires { IsTrue (has_no_trivia input.now) }
        ensures told { IfOk result (λ output. output ≡ G.told grammar.now input.now) }
        ensures lawful { IfOk result (λ output. IsLawful input.now output) }
        ensures refusals { IfErr result IsOutOfMemory }
    {
        let mut output = Output::new(alloc);
        grammar.run(input, &mut output)?;
        Ok(output)
    }
}
