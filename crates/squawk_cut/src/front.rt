//! What a document cuts and parses with.
ghost use Rattle.std.specs.Prelude.{◌≡◌, ◌<◌, ◌^◌, ◌==◌, ℕ, length, drop, IfOk, IfErr};
ghost use Rattle.std.specs.Str.{IsCharBoundary};
ghost use Rattle.squawk_cut.specs.Children.{text_tokens};
ghost use Rattle.squawk_cut.specs.Tokens.{tokens_from};
ghost use Rattle.squawk_cut.specs.Tells.{Tells, IsLawful, next_count};
ghost use Rattle.squawk_events.specs.Refusals.{IsOutOfMemory};

use crate::Child;
use squawk_events::FrontError;
use squawk_lexer::Token;
use std::alloc::Global;

/// What a document cuts and parses with. In contracts, a front tells the first token of every text
/// and the first root child of every list of tokens. No call changes what it tells, and no call
/// makes or copies a front.
pub trait Front: Drop {
    /// The first token of each text, and the first child of each list of tokens.
    ghost tells: { Self → Tells };

    /// The number of steps so far.
    ghost count: { Self → ℕ };

    /// Returns the first token of `text[at..]`, read as the start of a text exactly if `at` is 0.
    /// Allocates nothing.
    ///
    /// `text` must have fewer than 2^32 bytes, and `at`, an offset in bytes, must be below its
    /// length and a character boundary.
    fn cut_next(&mut self, text: &str, at: usize) -> Token
        requires small { length text.now < 2 ^ 32 }
        requires inside { at < length text.now }
        requires boundary { IsCharBoundary text.now at }
        ensures token { result ≡ (tells self.old).token_at (at == 0) (drop at text.now) }
        ensures same { tells self.new ≡ tells self.old }
        ensures counted { count self.new ≡ next_count (count self.old) };

    /// Returns the first root child of these tokens. The only error is `OutOfMemory`.
    ///
    /// `text` and `at` are as for `cut_next`, and `tokens` must be the front's tokens of
    /// `text[at..]`, up to its end.
    fn parse_next(
        &mut self,
        alloc: Global,
        text: &str,
        at: usize,
        tokens: &[Token],
    ) -> Result<Child, FrontError>
        requires small { length text.now < 2 ^ 32 }
        requires inside { at < length text.now }
        requires boundary { IsCharBoundary text.now at }
        requires tokens { tokens.now
            ≡ tokens_from (tells self.old) 0 (at == 0) (drop at text.now) }
        ensures child { IfOk result (λ child.
            child ≡ (tells self.old).child_at (text_tokens (drop at text.now) tokens.now)) }
        ensures refusals { IfErr result IsOutOfMemory }
        ensures same { tells self.new ≡ tells self.old }
        ensures counted { count self.new ≡ next_count (count self.old) };

    /// The number of calls of `cut_next` and `parse_next` so far, or the last value of its type.
    fn steps(&self) -> u64
        ensures { result ≡ count self.now };

    /// What a front tells is lawful.
    ghost lawful: { (front : Self) → IsLawful (tells front) };
}
