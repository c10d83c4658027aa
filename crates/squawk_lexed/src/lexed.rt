//! A text with its tokens.
ghost use Rattle.std.specs.Prelude.{◌≡◌, ◌^◌, ◌<◌, ◌≤◌, ◌+◌, ◌↔◌, [], ◌∷◌, ◌++◌, length, drop, slice_index, slice_index_or, IfOk, OnOk, IsErrOf, IfErr, IsTrue};
ghost use Rattle.std.specs.Str.{chars, IsCharBoundary};
ghost use Rattle.squawk_kinds.specs.declared.numbers.TheConstants.Number.{EOF};
ghost use Rattle.squawk_events.specs.Limit.{limit};
ghost use Rattle.squawk_events.specs.Refusals.{IsOutOfMemory, MayRefuse};
ghost use Rattle.squawk_events.specs.Kinds.{has_no_trivia, without_trivia};
ghost use Rattle.squawk_events.specs.declared.steps.StrStep.TheVariants as Step;
ghost use Rattle.squawk_lexed.specs.Weave.{kinds_without_trivia};
ghost use Rattle.squawk_lexer.specs.Flags.{IsCut, AreCut};
ghost use Rattle.squawk_lexer.specs.declared.token.Strings.TheVariants.{Standard};
ghost use Rattle.squawk_lexed.specs.Leaf.{leaf_kind};
ghost use Rattle.squawk_lexed.specs.Faults.{faults};
ghost use Rattle.squawk_lexed.specs.LexedText.{lexed_text, lexed_part, EndAtBoundaries, token_start, token_text, total_len, are_sound};
ghost use Rattle.squawk_lexed.specs.Stored.{kinds_of, starts_of, errors_of, errors_at, faults_at, token_of};

use crate::error::{LexError, push_faults};
use crate::kind::kind_of;
use squawk_events::{FrontError, Input, LIMIT, StrStep, is_trivia};
use squawk_kinds::SyntaxKind;
use squawk_lexer::laws::flags_lie_within;
use squawk_lexer::{Strings, Token, tokenize_in};
use std::alloc::Global;
use std::marker::Model;
use std::ops::Range;

// The mean length of a token in most SQL, trivia counted: `new_in` reserves room for one token in
// so many bytes.
const BYTES_PER_TOKEN: usize = 4;

// The lists of a lexed text while it grows.
#[derive(Drop)]
struct Lists {
    kinds: Vec<SyntaxKind>,
    starts: Vec<u32>,
    errors: Vec<LexError>,
}

impl Lists {
    // Empty lists with room for this many tokens and the end of the last. If that much memory
    // cannot be had, they grow as needed.
    fn with_room(alloc: Global, tokens: usize) -> Lists
        ensures kinds { result.kinds.items ≡ [] }
        ensures starts { result.starts.items ≡ [] }
        ensures errors { result.errors.items ≡ [] }
    {
        let mut kinds = Vec::new(alloc);
        let mut starts = Vec::new(alloc);
        let _ = kinds.reserve(tokens);
        let _ = starts.reserve(tokens.saturating_add(1));
        Lists {
            kinds,
            starts,
            errors: Vec::new(alloc),
        }
    }
}

// Appends a token with this text, which begins at byte `at`.
// Inlined into every loop over tokens, however many there are: a call costs more than its work.
#[inline(always)]
fn push_token(lists: &mut Lists, at: u32, token: Token, text: &str) -> Result<(), FrontError>
    requires cut { IsCut token }
    requires fits { at + token.len < 2 ^ 32 }
    ensures kinds { OnOk result (lists.new.kinds.items
        ≡ lists.old.kinds.items ++ leaf_kind token.kind text.now ∷ []) }
    ensures starts { OnOk result (lists.new.starts.items ≡ lists.old.starts.items ++ at ∷ []) }
    ensures errors { OnOk result (lists.new.errors.items
        ≡ lists.old.errors.items ++ errors_at at (faults token)) }
    ensures refusals { IfErr result IsOutOfMemory }
{
    lists.kinds.push(kind_of(token.kind, text))?;
    lists.starts.push(at)?;
    push_faults(&mut lists.errors, at, token)
}

/// A text with its tokens: the kind and the start of each, and its lexical errors.
///
/// A token takes six bytes; errors are kept apart, since most tokens have none.
#[derive(Drop)]
pub struct LexedStr<'a> {
    text: &'a str,
    kinds: Vec<SyntaxKind>,
    // The start of each token, and the end of the last.
    starts: Vec<u32>,
    errors: Vec<LexError>,
}

impl<'a> Model for LexedStr<'a> {
    ghost use Rattle.squawk_lexed.specs.LexedText.{LexedText};
    ghost use Rattle.squawk_lexed.specs.Stored.{lexed_tokens_from, IsStored};

    ghost Value = { LexedText };

    ghost view = { λ l. record {
      text = l.text.now;
      tokens = lexed_tokens_from l.kinds.items l.starts.items l.errors.items;
    } };

    ghost invariant = { λ l. IsStored l.text.now l.kinds.items l.starts.items l.errors.items };
}

// The kind of a token, and its length in bytes.
#[derive(Clone, Copy)]
pub(crate) struct KindAndLen {
    pub(crate) kind: SyntaxKind,
    pub(crate) len: u32,
}

// The kinds that are not trivia. Stores every kind, and the next one over it if it is trivia: a
// branch would be hard to predict.
fn without_trivia(alloc: Global, kinds: &[SyntaxKind]) -> Result<Input, FrontError>
    ensures ok { IfOk result (λ input. input ≡ without_trivia kinds.now) }
    ensures refusals { IfErr result IsOutOfMemory }
{
    let mut kept = vec![in alloc; SyntaxKind::EOF; kinds.len()]?;
    let mut count = 0;
    for i in 0..kinds.len() {
        kept[count] = kinds[i];
        count += usize::from(!is_trivia(kinds[i]));
    }
    kept.truncate(count);
    Ok(Input::from_kinds(kept))
}

impl<'a> LexedStr<'a> {
    /// Cuts a text into tokens. `strings` says whether a backslash escapes in plain strings.
    ///
    /// Returns `TooLong` exactly if the text has more than 4294967295 bytes, before it allocates,
    /// and `OutOfMemory` only if memory runs out.
    pub fn new_in(
        alloc: Global,
        text: &'a str,
        strings: Strings,
    ) -> Result<LexedStr<'a>, FrontError>
        ensures lexed { IfOk result (λ l. l ≡ lexed_text strings text.now) }
        ensures too_long { IsErrOf result FrontError.TooLong ↔ (limit < length text.now) }
        ensures refusals { IfErr result (MayRefuse text.now) }
    {
        if text.len() as u64 > LIMIT {
            return Err(FrontError::TooLong);
        }
        flags_lie_within();
        let mut lists = Lists::with_room(alloc, text.len() / BYTES_PER_TOKEN);
        let mut at = 0;
        for token in tokenize_in(text, strings) {
            let end = at + token.len as usize;
            push_token(&mut lists, at as u32, token, &text[at..end])?;
            at = end;
        }
        lists.starts.push(at as u32)?;
        let Lists {
            kinds,
            starts,
            errors,
        } = lists;
        Ok(LexedStr {
            text,
            kinds,
            starts,
            errors,
        })
    }

    /// `new_in` with `Strings::Standard`: a backslash in a plain string is an ordinary character,
    /// as with PostgreSQL's `standard_conforming_strings = on`.
    pub fn new(alloc: Global, text: &'a str) -> Result<LexedStr<'a>, FrontError>
        ensures lexed { IfOk result (λ l. l ≡ lexed_text Standard text.now) }
        ensures too_long { IsErrOf result FrontError.TooLong ↔ (limit < length text.now) }
        ensures refusals { IfErr result (MayRefuse text.now) }
    {
        LexedStr::new_in(alloc, text, Strings::Standard)
    }

    /// Makes a lexed text of tokens that the lexer has cut before, the first of which begins at
    /// byte `at` of `text`. Its text is the slice that they cover, and its offsets count from `at`.
    ///
    /// `text` must have at most 4294967295 bytes, and `at` and the end of each token must be
    /// character boundaries in it. Fails only if memory runs out.
    pub fn from_tokens(
        alloc: Global,
        text: &'a str,
        at: usize,
        tokens: &[Token],
    ) -> Result<LexedStr<'a>, FrontError>
        requires fits { length text.now ≤ limit }
        requires boundary { IsCharBoundary text.now at }
        requires cut { AreCut tokens.now }
        requires laid { EndAtBoundaries text.now at tokens.now }
        ensures lexed { IfOk result (λ l. l ≡ lexed_part text.now at tokens.now) }
        ensures refusals { IfErr result IsOutOfMemory }
    {
        flags_lie_within();
        let mut lists = Lists::with_room(alloc, tokens.len());
        let mut from = at;
        for i in 0..tokens.len() {
            let token = tokens[i];
            let end = from + token.len as usize;
            push_token(&mut lists, (from - at) as u32, token, &text[from..end])?;
            from = end;
        }
        lists.starts.push((from - at) as u32)?;
        let Lists {
            kinds,
            starts,
            errors,
        } = lists;
        Ok(LexedStr {
            text: &text[at..from],
            kinds,
            starts,
            errors,
        })
    }

    /// Returns the text.
    pub fn as_str(&self) -> &'a str
        ensures { result.now ≡ self.now.text }
    {
        self.text
    }

    /// Returns the number of tokens.
    ///
    /// Each token has at least one byte, its faults lie in it, and the tokens cover the text.
    pub fn len(&self) -> usize
        ensures count { result ≡ length self.now.tokens }
        ensures sound { IsTrue (are_sound self.now.tokens) }
        ensures whole { total_len self.now.tokens ≡ length self.now.text }
        ensures fits { length self.now.text < 2 ^ 32 }
    {
        self.kinds.len()
    }

    /// Returns the kind of token `i`, or `EOF` if `i` is `len`. `i` must be at most `len`.
    pub fn kind(&self, i: usize) -> SyntaxKind
        requires { i ≤ length self.now.tokens }
        ensures { result ≡ slice_index_or (kinds_of self.now.tokens) i EOF }
    {
        if i < self.kinds.len() {
            self.kinds[i]
        } else {
            SyntaxKind::EOF
        }
    }

    /// Returns the kinds of the tokens, in order.
    pub fn kinds(&self) -> &[SyntaxKind]
        ensures { result.now ≡ kinds_of self.now.tokens }
    {
        &self.kinds
    }

    /// Returns the `Token` step of token `i`: its kind and its range in bytes. `i` must be below
    /// `len`.
    #[inline(always)]
    pub fn token_step(&self, i: usize) -> StrStep
        requires { i < length self.now.tokens }
        ensures { result ≡ Step.Token (slice_index (kinds_of self.now.tokens) i)
            (token_start self.now.tokens i) (token_start self.now.tokens (i + 1)) }
    {
        StrStep::Token {
            kind: self.kinds[i],
            start: self.starts[i],
            end: self.starts[i + 1],
        }
    }

    /// Returns the byte offset at which token `i` starts, or the length of the text if `i` is
    /// `len`. `i` must be at most `len`.
    pub fn text_start(&self, i: usize) -> usize
        requires { i ≤ length self.now.tokens }
        ensures { result ≡ token_start self.now.tokens i }
    {
        self.starts[i] as usize
    }

    /// Returns the range of token `i` in bytes. `i` must be below `len`.
    pub fn text_range(&self, i: usize) -> Range<usize>
        requires { i < length self.now.tokens }
        ensures start { result.start ≡ token_start self.now.tokens i }
        ensures end { result.end ≡ token_start self.now.tokens (i + 1) }
    {
        self.starts[i] as usize..self.starts[i + 1] as usize
    }

    /// Returns the text of token `i`. `i` must be below `len`.
    pub fn text(&self, i: usize) -> &'a str
        requires { i < length self.now.tokens }
        ensures { result.now ≡ token_text self.now i }
    {
        let range = self.text_range(i);
        &self.text[range.start..range.end]
    }

    /// Returns the lexical errors in the order of the tokens, and by number at each token.
    pub fn errors(&self) -> &[LexError]
        ensures { result.now ≡ errors_of 0 self.now.tokens }
    {
        &self.errors
    }

    // The kind and the length of token `i`.
    pub(crate) fn kind_and_len(&self, i: usize) -> KindAndLen
        requires { i < length self.now.tokens }
        ensures fits { i + 1 < 2 ^ 32 }
        ensures at { drop i self.now.tokens
            ≡ token_of result.kind result.len (faults_at self.now.tokens i)
            ∷ drop (i + 1) self.now.tokens }
    {
        KindAndLen {
            kind: self.kinds[i],
            len: self.starts[i + 1] - self.starts[i],
        }
    }

    /// Returns the kinds that are not trivia, in order: the input of a grammar. Fails only if
    /// memory runs out.
    pub fn to_input(&self, alloc: Global) -> Result<Input, FrontError>
        ensures ok { IfOk result (λ input. input ≡ kinds_without_trivia self.now.tokens) }
        ensures no_trivia { IfOk result (λ input. IsTrue (has_no_trivia input)) }
        ensures refusals { IfErr result IsOutOfMemory }
    {
        without_trivia(alloc, &self.kinds)
    }
}
