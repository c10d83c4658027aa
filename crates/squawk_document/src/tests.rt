//! Edits of documents, worked by hand or compared with new documents of the text after the edit.
mod fronts;
mod memory;
mod rows;
mod seeds;

use crate::{Document, Edited};
use squawk_cut::{Child, Front, Parse};
use std::alloc::{AllocError, Global};

// Whether two children have the same parts.
fn same_child(a: &Child, b: &Child) -> bool {
    a.tokens() == b.tokens()
        && a.bytes() == b.bytes()
        && a.node() == b.node()
        && a.closed() == b.closed()
        && a.steps() == b.steps()
        && a.errors() == b.errors()
}

// Whether two lists of children are the same.
fn same_children(a: &[Child], b: &[Child]) -> bool {
    if a.len() != b.len() {
        return false;
    }
    for i in 0..a.len() {
        if !same_child(&a[i], &b[i]) {
            return false;
        }
    }
    true
}

// Whether two documents have the same text, tokens and children.
fn same_document<F: Front, G: Front>(a: &Document<F>, b: &Document<G>) -> bool {
    a.text() == b.text() && a.tokens() == b.tokens() && same_children(a.children(), b.children())
}

// Whether two parses have the same steps, errors and length.
fn same_parse(a: &Parse, b: &Parse) -> bool {
    a.steps() == b.steps() && a.errors() == b.errors() && a.len() == b.len()
}

// The counts as two sums, of tokens and of children.
fn sums(alloc: Global, edited: Edited) -> Result<String, AllocError> {
    let (a, b, c) = (edited.front_tokens, edited.cut_tokens, edited.back_tokens);
    let (d, e, f) = (
        edited.front_children,
        edited.parsed_children,
        edited.back_children,
    );
    format!(in alloc; "tokens {a}+{b}+{c} children {d}+{e}+{f}")
}
