//! A document: a text, its tokens, the children of its root, and the front that cuts and parses it.
ghost use Rattle.std.specs.Prelude.{◌≡◌, ◌≢◌, ◌+◌, ◌-◌, ◌<◌, ◌≤◌, ◌^◌, ◌↔◌, IfOk, IfErr, OnOk, OnErr, IsErrOf, IsTrue, length};
ghost use Rattle.squawk_cut.specs.Children.{children_of};
ghost use Rattle.squawk_cut.specs.Join.{join_of};
ghost use Rattle.squawk_cut.specs.Tokens.{tokens_of};
ghost use Rattle.squawk_document.specs.Boundaries.{splice, IsRange};
ghost use Rattle.squawk_document.specs.Edited.{edited_of, IsTooLong, MayRefuseEdit};
ghost use Rattle.squawk_events.specs.Limit.{limit};
ghost use Rattle.squawk_events.specs.Refusals.{IsOutOfMemory, MayRefuse};

use crate::recut::cut_to_meeting;
use crate::reparse::parse_to_return;
use crate::skip::{FrontChildren, Position};
use crate::update::edit_in_place;
use crate::{Edited, FrontError};
use squawk_cut::{Child, Front, Parse, Token, join};
use squawk_events::LIMIT;
use std::alloc::Global;
use std::marker::Model;

/// A text of at most `LIMIT` bytes, its tokens and the children of its root, with the front that
/// cuts and parses them. An edit cuts and parses only the part of the text that it changes.
#[derive(Drop)]
pub struct Document<F: Front> {
    alloc: Global,
    front: F,
    text: String,
    tokens: Vec<Token>,
    children: Vec<Child>,
}

impl<F: Front> Model for Document<F> {
    ghost use Rattle.std.specs.Prelude.{◌≡◌, ◌<◌, ◌^◌, List, length};
    ghost use Rattle.std.specs.String.{string_bytes};
    ghost use Rattle.squawk_cut.specs.Children.{children_of};
    ghost use Rattle.squawk_cut.specs.Tokens.{tokens_of};
    ghost use Rattle.squawk_document.specs.DocumentValue.{DocumentValue};
    ghost use Rattle.squawk_lexer.specs.declared.token.Token.{Token};

    ghost Value = { DocumentValue F };

    ghost view = { λ d. record {
      front = d.front;
      text = string_bytes d.text;
      tokens = d.tokens.items;
      children = d.children.items;
    } };

    ghost invariant = { λ d. (length (string_bytes d.text) < 2 ^ 32)
        × (d.tokens.items ≡ tokens_of (F.tells d.front) (string_bytes d.text))
        × (d.children.items ≡ children_of (F.tells d.front) (string_bytes d.text)) };
}

// Whether both ends of a range are character boundaries, and it does not end before its start.
fn is_range(text: &str, start: usize, end: usize) -> bool
    ensures { IsTrue result ↔ IsRange text.now start end }
{
    start <= end && text.is_char_boundary(start) && text.is_char_boundary(end)
}

impl<F: Front> Document<F> {
    /// A document of a text. `TooLong` exactly if the text has more than `LIMIT` bytes; nothing is
    /// allocated then. After an error the front is dropped.
    ///
    /// The front takes at most one step for each token and each child.
    pub fn new(alloc: Global, front: F, text: &str) -> Result<Document<F>, FrontError>
        ensures text { IfOk result (λ d. d.text ≡ text.now) }
        ensures tokens { IfOk result (λ d. d.tokens ≡ tokens_of (F.tells front) text.now) }
        ensures children { IfOk result (λ d. d.children ≡ children_of (F.tells front) text.now) }
        ensures tells { IfOk result (λ d. F.tells d.front ≡ F.tells front) }
        ensures steps { IfOk result (λ d. F.count d.front
            ≤ F.count front + length d.tokens + length d.children) }
        ensures too_long { IsErrOf result FrontError.TooLong ↔ (limit < length text.now) }
        ensures refusals { IfErr result (MayRefuse text.now) }
    {
        if text.len() as u64 > LIMIT {
            return Err(FrontError::TooLong);
        }
        let mut front = front;
        let mut copy = String::with_capacity(alloc, text.len())?;
        copy.push_str(text)?;
        let start = Position {
            index: 0,
            offset: 0,
        };
        let cut = cut_to_meeting(alloc, &mut front, text, &[], start, 0, 0)?;
        let none = FrontChildren { len: 0, end: start };
        let parsed = parse_to_return(alloc, &mut front, text, &cut.tokens, &[], none, 0, 0, None)?;
        Ok(Document {
            alloc,
            front,
            text: copy,
            tokens: cut.tokens,
            children: parsed.children,
        })
    }

    /// Replaces the bytes of the text from `start` to `end` by `new`, and returns what was kept and
    /// what was cut and parsed.
    ///
    /// `BadRange` exactly if `start` is above `end`, or one of them is no character boundary of the
    /// text; otherwise `TooLong` exactly if the new text would have more than `LIMIT` bytes. On
    /// every error text, tokens and children are unchanged. The front takes at most one step for
    /// each token cut and each child parsed. On `BadRange` and `TooLong` the front takes no step.
    pub fn edit(&mut self, start: usize, end: usize, new: &str) -> Result<Edited, FrontError>
        ensures text { OnOk result (self.new.text ≡ splice self.old.text start end new.now) }
        ensures tokens { self.new.tokens ≡ tokens_of (F.tells self.new.front) self.new.text }
        ensures children { self.new.children ≡ children_of (F.tells self.new.front) self.new.text }
        ensures tells { F.tells self.new.front ≡ F.tells self.old.front }
        ensures counts { IfOk result (λ edited.
            edited ≡ edited_of (F.tells self.old.front) self.old.text start end new.now) }
        ensures steps { IfOk result (λ edited. F.count self.new.front
            ≤ F.count self.old.front + edited.cut_tokens + edited.parsed_children) }
        ensures bad_range { IsErrOf result FrontError.BadRange
            ↔ (¬ IsRange self.old.text start end) }
        ensures too_long { IsErrOf result FrontError.TooLong
            ↔ IsTooLong self.old.text start end new.now }
        ensures refusals { IfErr result (MayRefuseEdit self.old.text start end new.now) }
        ensures unchanged { OnErr result ((self.new.text ≡ self.old.text)
            × (self.new.tokens ≡ self.old.tokens) × (self.new.children ≡ self.old.children)) }
        ensures refused { IfErr result (λ error.
            error ≢ FrontError.OutOfMemory → self.new.front ≡ self.old.front) }
    {
        if !is_range(self.text.as_str(), start, end) {
            return Err(FrontError::BadRange);
        }
        if (self.text.len() - (end - start) + new.len()) as u64 > LIMIT {
            return Err(FrontError::TooLong);
        }
        let update = edit_in_place(
            self.alloc,
            &mut self.front,
            self.text.as_str(),
            &mut self.tokens,
            &mut self.children,
            start,
            end,
            new,
        )?;
        self.text = update.text;
        Ok(update.edited)
    }

    /// The text. The clause `short` holds at every moment: it has at most `LIMIT` bytes.
    pub fn text(&self) -> &str
        ensures text { result.now ≡ self.now.text }
        ensures short { length self.now.text ≤ limit }
    {
        self.text.as_str()
    }

    /// The tokens of the text, in order. The clause `told` holds at every moment: they are those
    /// that the front tells for the text.
    pub fn tokens(&self) -> &[Token]
        ensures tokens { result.now ≡ self.now.tokens }
        ensures told { self.now.tokens ≡ tokens_of (F.tells self.now.front) self.now.text }
    {
        &self.tokens
    }

    /// The children of the text's root, in order. The clause `told` holds at every moment: they are
    /// those that the front tells for the text.
    pub fn children(&self) -> &[Child]
        ensures children { result.now ≡ self.now.children }
        ensures told { self.now.children ≡ children_of (F.tells self.now.front) self.now.text }
    {
        &self.children
    }

    /// The front that cuts and parses the text.
    pub fn front(&self) -> &F
        ensures { result.now ≡ self.now.front }
    {
        &self.front
    }

    /// The tree of the current text: that of its children, in order. The only error is
    /// `OutOfMemory`.
    pub fn parse(&self, alloc: Global) -> Result<Parse, FrontError>
        ensures tree { IfOk result (λ parse. parse ≡ join_of self.now.children) }
        ensures text { IfOk result (λ parse.
            parse ≡ join_of (children_of (F.tells self.now.front) self.now.text)) }
        ensures refusals { IfErr result IsOutOfMemory }
    {
        join_within(alloc, &self.front, self.text.as_str(), &self.children)
    }
}

// The tree of the children of a text's root. `front` and `text` stand in the contract alone: it
// says here what a document always holds.
fn join_within<F: Front>(
    alloc: Global,
    front: &F,
    text: &str,
    children: &[Child],
) -> Result<Parse, FrontError>
    requires small { length text.now < 2 ^ 32 }
    requires children { children.now ≡ children_of (F.tells front.now) text.now }
    ensures tree { IfOk result (λ parse. parse ≡ join_of children.now) }
    ensures text { IfOk result (λ parse.
        parse ≡ join_of (children_of (F.tells front.now) text.now)) }
    ensures refusals { IfErr result IsOutOfMemory }
{
    join(alloc, children)
}
