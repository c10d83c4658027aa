//! The tree of root children in order.
ghost use Rattle.std.specs.Prelude.{◌≡◌, ◌+◌, ◌<◌, ◌^◌, ◌++◌, [], ◌∷◌, All, IfOk, IfErr, OnOk, IsTrue, map};
ghost use Rattle.squawk_cut.specs.ChildValue.{IsChild};
ghost use Rattle.squawk_cut.specs.Join.{child_bytes, join_of, step_within, steps_within};
ghost use Rattle.squawk_events.specs.Refusals.{IsOutOfMemory};
ghost use Rattle.squawk_tree.specs.Join.{shifted_step, shifted_error};
ghost use Rattle.squawk_tree.specs.Tree.{IsErrorWithin};

use crate::Child;
use squawk_events::{FrontError, ParseError, StepSink, StrStep};
use squawk_kinds::SyntaxKind;
use squawk_tree::{Parse, TreeSink};
use std::alloc::Global;

// The step with its offsets shifted by `at` bytes.
fn shifted(step: StrStep, at: u32, len: u32) -> StrStep
    requires small { at + len < 2 ^ 32 }
    requires within { IsTrue (step_within len step) }
    ensures { result ≡ shifted_step at step }
{
    match step {
        StrStep::Enter { kind } => StrStep::Enter { kind },
        StrStep::Token { kind, start, end } => StrStep::Token {
            kind,
            start: start + at,
            end: end + at,
        },
        StrStep::Exit => StrStep::Exit,
        StrStep::Error { number, at: offset } => StrStep::Error {
            number,
            at: offset + at,
        },
    }
}

// Appends steps, shifted by `at` bytes. Their offsets are at most `len`.
fn push_steps(sink: &mut TreeSink, steps: &[StrStep], at: u32, len: u32) -> Result<(), FrontError>
    requires small { at + len < 2 ^ 32 }
    requires within { IsTrue (steps_within len steps.now) }
    ensures steps { OnOk result
        (sink.new.steps ≡ sink.old.steps ++ map (shifted_step at) steps.now) }
    ensures errors { sink.new.errors ≡ sink.old.errors }
    ensures refusals { IfErr result IsOutOfMemory }
{
    for i in 0..steps.len() {
        sink.step(shifted(steps[i], at, len))?;
    }
    Ok(())
}

// Appends errors, shifted by `at` bytes. They lie within `len` bytes.
fn push_errors(
    sink: &mut TreeSink,
    errors: &[ParseError],
    at: u32,
    len: u32,
) -> Result<(), FrontError>
    requires small { at + len < 2 ^ 32 }
    requires within { All (IsErrorWithin len) errors.now }
    ensures errors { OnOk result
        (sink.new.errors ≡ sink.old.errors ++ map (shifted_error at) errors.now) }
    ensures steps { OnOk result (sink.new.steps ≡ sink.old.steps) }
    ensures refusals { IfErr result IsOutOfMemory }
{
    for i in 0..errors.len() {
        let error = errors[i];
        sink.push_error(ParseError {
            start: error.start + at,
            end: error.end + at,
            number: error.number,
        })?;
    }
    Ok(())
}

// Appends a child that begins at `at`.
#[tactic(auto, using(crate::proofs::JoinSteps::child_steps_within))]
fn push_child(sink: &mut TreeSink, child: &Child, at: u32) -> Result<(), FrontError>
    requires small { at + child.now.bytes < 2 ^ 32 }
    ensures steps { OnOk result
        (sink.new.steps ≡ sink.old.steps ++ map (shifted_step at) child.now.steps) }
    ensures errors { OnOk result
        (sink.new.errors ≡ sink.old.errors ++ map (shifted_error at) child.now.errors) }
    ensures sound { IsChild child.now }
    ensures refusals { IfErr result IsOutOfMemory }
{
    let len = child.bytes();
    push_steps(sink, child.steps(), at, len)?;
    push_errors(sink, child.errors(), at, len)
}

/// Returns the tree whose root has these children in order: the steps and errors of each, shifted
/// by the bytes before it. No children make a tree of an empty text. The only error is
/// `OutOfMemory`.
///
/// The children must have fewer than 2^32 bytes together.
pub fn join(alloc: Global, children: &[Child]) -> Result<Parse, FrontError>
    requires small { child_bytes children.now < 2 ^ 32 }
    ensures tree { IfOk result (λ parse. parse ≡ join_of children.now) }
    ensures refusals { IfErr result IsOutOfMemory }
{
    let mut sink = TreeSink::new(alloc);
    sink.step(StrStep::Enter {
        kind: SyntaxKind::SOURCE_FILE,
    })?;
    let mut at = 0u32;
    for i in 0..children.len() {
        let child = &children[i];
        push_child(&mut sink, child, at)?;
        at += child.bytes();
    }
    sink.step(StrStep::Exit)?;
    sink.finish()
}
