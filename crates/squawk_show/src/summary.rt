//! The line that the command `make` writes.
ghost use Rattle.std.specs.Prelude.{◌≡◌, count_by, IfOk};
ghost use Rattle.squawk_show.specs.Summary.{is_node, is_token, summary_line};

use squawk_events::StrStep;
use squawk_tree::{ChildSpan, Parse};
use std::alloc::{AllocError, Global};

// The number of leaves among steps.
fn count_leaves(steps: &[StrStep]) -> usize
    ensures { result ≡ count_by is_token steps.now }
{
    steps
        .iter()
        .filter(|step| matches!(step, StrStep::Token { .. }))
        .count()
}

// The number of nodes among children of the root.
fn count_nodes(children: &[ChildSpan]) -> usize
    ensures { result ≡ count_by is_node children.now }
{
    children.iter().filter(|child| child.node.is_some()).count()
}

// Makes the summary line of a tree.
pub(crate) fn make_summary(alloc: Global, parse: &Parse) -> Result<Vec<u8>, AllocError>
    ensures { IfOk result (λ line. line.items ≡ summary_line parse.now) }
{
    let bytes = parse.len();
    let tokens = count_leaves(parse.steps());
    let children = parse.children().len();
    let nodes = count_nodes(parse.children());
    let errors = parse.errors().len();
    let line = format!(in alloc;
        "bytes {bytes} tokens {tokens} children {children} nodes {nodes} errors {errors}\n"
    )?;
    Ok(line.into_bytes())
}
