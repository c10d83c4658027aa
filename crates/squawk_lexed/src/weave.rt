//! Puts trivia back between the steps of a grammar.
ghost use Rattle.std.specs.Prelude.{◌≡◌, ◌^◌, ◌<◌, ◌≤◌, ◌+◌, [], ◌∷◌, ◌++◌, length, OnOk, OnErr, IfOk, IfErr, IsTrue, drop};
ghost use Rattle.squawk_events.specs.Lawful.{is_balanced};
ghost use Rattle.squawk_events.specs.Refusals.{IsOutOfMemory};
ghost use Rattle.squawk_lexed.specs.Weave.{KindsAgree, all_emitted, leading_trivia, weave, weave_from, remaining_from, is_empty};
ghost use Rattle.squawk_lexed.specs.WeavePosition as spec;
ghost use Rattle.squawk_lexed.specs.LexedText.{total_len};
ghost use Rattle.squawk_lexed.specs.Prefixes.{AppendsPrefix};
ghost use Rattle.squawk_events.specs.declared.steps.Step.TheVariants.{Enter};

use crate::lexed::{KindAndLen, LexedStr};
use squawk_events::{FrontError, Output, Step, StepSink, StrStep, is_trivia};
use squawk_kinds::SyntaxKind;

// The indices of the step and of the token that come next, and the byte at which the token starts.
#[derive(Clone, Copy)]
pub(crate) struct Position {
    step: usize,
    token: usize,
    at: u32,
}

// Emits the trivia that the tokens from `from` on begin with. Returns the position after it.
#[inline(always)]
fn emit_leading_trivia<K: StepSink>(
    lexed: &LexedStr<'_>,
    from: Position,
    sink: &mut K,
) -> Result<Position, FrontError>
    requires within { from.token ≤ length lexed.now.tokens }
    requires small { from.at + total_len (drop from.token lexed.now.tokens) < 2 ^ 32 }
    ensures ok { OnOk result (K.steps sink.new
        ≡ K.steps sink.old ++ leading_trivia from.at (drop from.token lexed.now.tokens)) }
    ensures after { IfOk result (spec.IsAfterTrivia lexed.now.tokens from) }
    ensures same_step { IfOk result (λ to. to.step ≡ from.step) }
    ensures prefix { OnErr result (AppendsPrefix (K.steps sink.old) (K.steps sink.new)
        (leading_trivia from.at (drop from.token lexed.now.tokens))) }
    ensures grows { length (K.steps sink.old) ≤ length (K.steps sink.new) }
    ensures errors { K.errors sink.new ≡ K.errors sink.old }
    ensures refusals { IfErr result IsOutOfMemory }
{
    let mut token = from.token;
    let mut at = from.at;
    while token < lexed.len() && is_trivia(lexed.kind_and_len(token).kind) {
        let KindAndLen { kind, len } = lexed.kind_and_len(token);
        let end = at + len;
        sink.step(StrStep::Token {
            kind,
            start: at,
            end,
        })?;
        at = end;
        token += 1;
    }
    Ok(Position {
        step: from.step,
        token,
        at,
    })
}

// Emits the trivia that comes next, and then an `Enter` or the last `Exit`.
#[inline(always)]
fn emit_after_trivia<K: StepSink>(
    lexed: &LexedStr<'_>,
    from: Position,
    step: StrStep,
    sink: &mut K,
) -> Result<Position, FrontError>
    requires within { from.token ≤ length lexed.now.tokens }
    requires small { from.at + total_len (drop from.token lexed.now.tokens) < 2 ^ 32 }
    requires step_fits { from.step + 1 < 2 ^ 64 }
    ensures ok { OnOk result (K.steps sink.new ≡ K.steps sink.old
        ++ (leading_trivia from.at (drop from.token lexed.now.tokens) ++ step ∷ [])) }
    ensures after { IfOk result (spec.IsAfterTrivia lexed.now.tokens from) }
    ensures next_step { IfOk result (λ to. to.step ≡ from.step + 1) }
    ensures prefix { OnErr result (AppendsPrefix (K.steps sink.old) (K.steps sink.new)
        (leading_trivia from.at (drop from.token lexed.now.tokens) ++ step ∷ [])) }
    ensures grows { length (K.steps sink.old) ≤ length (K.steps sink.new) }
    ensures errors { K.errors sink.new ≡ K.errors sink.old }
    ensures refusals { IfErr result IsOutOfMemory }
{
    let to = emit_leading_trivia(lexed, from, sink)?;
    sink.step(step)?;
    Ok(Position {
        step: to.step + 1,
        token: to.token,
        at: to.at,
    })
}

// Emits the next token: trivia before a `Token` step, or the token of that step. One token a call
// keeps the loop over the steps free of a branch on trivia, which would be hard to predict.
#[inline(always)]
fn emit_token<K: StepSink>(
    lexed: &LexedStr<'_>,
    steps: &[Step],
    from: Position,
    sink: &mut K,
) -> Result<Position, FrontError>
    requires small { total_len lexed.now.tokens < 2 ^ 32 }
    requires position { spec.IsPosition lexed.now.tokens steps.now from }
    requires step { from.step < length steps.now }
    requires token { spec.IsTokenNext steps.now from }
    ensures ok { IfOk result (λ to.
        K.steps sink.new ++ spec.weave_left lexed.now.tokens steps.now to
        ≡ K.steps sink.old ++ spec.weave_left lexed.now.tokens steps.now from) }
    ensures after { IfOk result (spec.IsAfter lexed.now.tokens steps.now from) }
    ensures err { OnErr result (K.steps sink.new ≡ K.steps sink.old) }
    ensures grows { length (K.steps sink.old) ≤ length (K.steps sink.new) }
    ensures errors { K.errors sink.new ≡ K.errors sink.old }
    ensures refusals { IfErr result IsOutOfMemory }
{
    let KindAndLen { kind, len } = lexed.kind_and_len(from.token);
    let end = from.at + len;
    sink.step(StrStep::Token {
        kind,
        start: from.at,
        end,
    })?;
    Ok(Position {
        step: from.step + usize::from(!is_trivia(kind)),
        token: from.token + 1,
        at: end,
    })
}

// Emits what comes next: a token, or a step with the trivia before it. Trivia goes before an
// `Enter`, a `Token` and the last `Exit`.
#[inline(always)]
fn emit_next<K: StepSink>(
    lexed: &LexedStr<'_>,
    steps: &[Step],
    from: Position,
    sink: &mut K,
) -> Result<Position, FrontError>
    requires small { total_len lexed.now.tokens < 2 ^ 32 }
    requires position { spec.IsPosition lexed.now.tokens steps.now from }
    requires step { from.step < length steps.now }
    ensures ok { IfOk result (λ to.
        K.steps sink.new ++ spec.weave_left lexed.now.tokens steps.now to
        ≡ K.steps sink.old ++ spec.weave_left lexed.now.tokens steps.now from) }
    ensures after { IfOk result (spec.IsAfter lexed.now.tokens steps.now from) }
    ensures prefix { OnErr result (AppendsPrefix (K.steps sink.old) (K.steps sink.new)
        (spec.weave_left lexed.now.tokens steps.now from)) }
    ensures grows { length (K.steps sink.old) ≤ length (K.steps sink.new) }
    ensures errors { K.errors sink.new ≡ K.errors sink.old }
    ensures refusals { IfErr result IsOutOfMemory }
{
    let next = Position {
        step: from.step + 1,
        ..from
    };
    match steps[from.step] {
        Step::Token { .. } => emit_token(lexed, steps, from, sink),
        Step::Enter { kind } => emit_after_trivia(lexed, from, StrStep::Enter { kind }, sink),
        Step::Exit if next.step == steps.len() => {
            emit_after_trivia(lexed, from, StrStep::Exit, sink)
        }
        Step::Exit => {
            sink.step(StrStep::Exit)?;
            Ok(next)
        }
        Step::Error { number } => {
            sink.step(StrStep::Error {
                number,
                at: from.at,
            })?;
            Ok(next)
        }
    }
}

// Emits all steps but the first. Returns whether all tokens were emitted.
fn emit_rest<K: StepSink>(
    lexed: &LexedStr<'_>,
    rest: &[Step],
    sink: &mut K,
) -> Result<bool, FrontError>
    requires agree { KindsAgree lexed.now.tokens rest.now }
    ensures ok { OnOk result (K.steps sink.new
        ≡ K.steps sink.old ++ weave_from 0 lexed.now.tokens rest.now) }
    ensures all { IfOk result (λ all. all ≡ is_empty (remaining_from lexed.now.tokens rest.now)) }
    ensures prefix { OnErr result (AppendsPrefix (K.steps sink.old) (K.steps sink.new)
        (weave_from 0 lexed.now.tokens rest.now)) }
    ensures errors { K.errors sink.new ≡ K.errors sink.old }
    ensures refusals { IfErr result IsOutOfMemory }
{
    // The length bounds the offsets.
    let count = lexed.len();
    let mut position = Position {
        step: 0,
        token: 0,
        at: 0,
    };
    while position.step < rest.len() {
        position = emit_next(lexed, rest, position, sink)?;
    }
    Ok(position.token == count)
}

// The kind of the root of balanced steps.
fn root_of(steps: &[Step]) -> SyntaxKind
    requires { IsTrue (is_balanced steps.now) }
    ensures { steps.now ≡ Enter result ∷ drop 1 steps.now }
{
    let Step::Enter { kind } = steps[0] else {
        unreachable!();
    };
    kind
}

impl<'a> LexedStr<'a> {
    /// Sends the steps of an output to a sink, with the ranges of their tokens, and with the trivia
    /// between them. Returns whether all tokens of the text were sent.
    ///
    /// The steps must be balanced, and their tokens must have the first kinds of `to_input`.
    ///
    /// A trivia token goes directly before the first `Enter`, `Token` or last `Exit` that follows
    /// the token before it, so it lies in the innermost node that continues after it. An `Error` is
    /// placed at the end of the last token before it. Tokens for which there is no step, and the
    /// trivia after them, are left out.
    ///
    /// Fails only if memory runs out; the sink then has received a prefix of these steps.
    pub fn intersperse_trivia<K: StepSink>(
        &self,
        output: &Output,
        sink: &mut K,
    ) -> Result<bool, FrontError>
        requires balanced { IsTrue (is_balanced output.now) }
        requires tokens { KindsAgree self.now.tokens output.now }
        ensures ok { OnOk result (K.steps sink.new
            ≡ K.steps sink.old ++ weave self.now.tokens output.now) }
        ensures all { IfOk result (λ all. all ≡ all_emitted self.now.tokens output.now) }
        ensures prefix { OnErr result (AppendsPrefix (K.steps sink.old) (K.steps sink.new)
            (weave self.now.tokens output.now)) }
        ensures errors { K.errors sink.new ≡ K.errors sink.old }
        ensures refusals { IfErr result IsOutOfMemory }
    {
        let steps = output.steps();
        sink.step(StrStep::Enter {
            kind: root_of(steps),
        })?;
        let all = emit_rest(self, &steps[1..], sink)?;
        Ok(all)
    }
}
