//! The report of a tree, written while it is made.
ghost use Rattle.std.specs.Prelude.{◌≡◌, ◌≤◌, ◌<◌, ◌+◌, ◌++◌, ◌^◌, [], length, All, OnOk, IfOk, flat_map};
ghost use Rattle.squawk_show.specs.Edge.{AppendsAll, AppendsPrefix, HasCause};
ghost use Rattle.squawk_show.specs.Output.{TakesAllBut, block_len, line_room};
ghost use Rattle.squawk_show.specs.Report.{report_of, step_line, tree_lines, depth_after, parse_error_line};
ghost use Rattle.squawk_tree.specs.Tree.{IsErrorWithin};

use crate::block::{BLOCK_LEN, Block, LINE_ROOM};
use crate::digits::{DigitTables, Number};
use crate::line::{push_error, push_line};
use crate::{Failed, Sink, write_whole};
use squawk_events::{ParseError, StrStep};
use squawk_tree::Parse;
use std::alloc::{AllocError, Global};

// For fewer steps the tables of digits cost more than they save.
const MIN_STEPS_FOR_TABLES: usize = 16384;

/// All the memory that `write_report` needs.
#[derive(Drop)]
pub struct ReportMemory {
    tables: Option<DigitTables>,
    block: Block,
    ghost empty: { block ≡ [] },
}

impl ReportMemory {
    /// The memory for the report of a tree of this many steps: at most 160 KiB, however many they
    /// are. Fails only if memory runs out.
    pub fn new(alloc: Global, steps: usize) -> Result<ReportMemory, AllocError> {
        let tables = make_tables(alloc, steps)?;
        let block = Block::new(alloc)?;
        Ok(ReportMemory { tables, block })
    }
}

// The tables of digits, if there are enough steps to be worth it.
fn make_tables(alloc: Global, steps: usize) -> Result<Option<DigitTables>, AllocError> {
    if steps < MIN_STEPS_FOR_TABLES {
        return Ok(None);
    }
    Ok(Some(DigitTables::new(alloc)?))
}

// Writes what a block holds if it has no room for one more line.
#[inline(always)]
fn make_room<K: Sink>(sink: &mut K, block: &mut Block) -> Result<(), Failed>
    ensures ok { OnOk result (TakesAllBut (K.view sink.old) (K.view sink.new) block.old block.new) }
    ensures room { OnOk result (length block.new + line_room ≤ block_len) }
    ensures prefix { AppendsPrefix (K.view sink.old) (K.view sink.new) block.old }
    ensures cause { HasCause (K.view sink.old).faults (K.view sink.new).faults result }
{
    if block.len() <= BLOCK_LEN - LINE_ROOM {
        return Ok(());
    }
    write_whole(sink, block.as_bytes())?;
    block.clear();
    Ok(())
}

// Appends the line of a step, if it has one. Returns the depth after it, and the number where the
// next line probably starts: the end of a leaf, but not of a node, whose children come next.
#[inline(always)]
fn push_step(
    block: &mut Block,
    tables: &Option<DigitTables>,
    last: Number,
    depth: usize,
    step: StrStep,
    range: (u32, u32),
) -> (usize, Number)
    requires depth { depth + 1 < 2 ^ 64 }
    requires room { length block.old + line_room ≤ block_len }
    ensures line { block.new ≡ block.old ++ step_line depth step range }
    ensures depth { result.0 ≡ depth_after depth step }
{
    match step {
        StrStep::Enter { kind } => {
            push_line(block, tables, last, depth, b'N', kind, range);
            (depth + 1, last)
        }
        StrStep::Token { kind, .. } => {
            let end = push_line(block, tables, last, depth, b'T', kind, range);
            (depth, end)
        }
        StrStep::Exit => (depth.saturating_sub(1), last),
        StrStep::Error { .. } => (depth, last),
    }
}

// Appends the lines of the nodes and the leaves to a block, and writes it whenever it is full.
fn push_tree_lines<K: Sink>(
    sink: &mut K,
    block: &mut Block,
    tables: &Option<DigitTables>,
    parse: &Parse,
) -> Result<(), Failed>
    ensures ok { OnOk result (TakesAllBut (K.view sink.old) (K.view sink.new)
        (block.old ++ tree_lines parse.now.steps) block.new) }
    ensures prefix { AppendsPrefix (K.view sink.old) (K.view sink.new)
        (block.old ++ tree_lines parse.now.steps) }
    ensures cause { HasCause (K.view sink.old).faults (K.view sink.new).faults result }
{
    // The number of steps bounds the depth.
    let _ = parse.steps().len();
    let mut depth = 0usize;
    let mut last = Number::zero();
    for (step, range) in parse.steps_with_ranges() {
        make_room(sink, block)?;
        (depth, last) = push_step(block, tables, last, depth, step, range);
    }
    Ok(())
}

// Appends the lines of the errors to a block, and writes it whenever it is full.
fn push_error_lines<K: Sink>(sink: &mut K, block: &mut Block, parse: &Parse) -> Result<(), Failed>
    ensures ok { OnOk result (TakesAllBut (K.view sink.old) (K.view sink.new)
        (block.old ++ flat_map parse_error_line parse.now.errors) block.new) }
    ensures prefix { AppendsPrefix (K.view sink.old) (K.view sink.new)
        (block.old ++ flat_map parse_error_line parse.now.errors) }
    ensures cause { HasCause (K.view sink.old).faults (K.view sink.new).faults result }
{
    for error in parse.errors() {
        make_room(sink, block)?;
        push_error(block, *error);
    }
    Ok(())
}

// Appends a text to an empty block, or writes it, if it is too long.
fn push_head<K: Sink>(sink: &mut K, block: &mut Block, head: &[u8]) -> Result<(), Failed>
    requires { block.old ≡ [] }
    ensures ok { OnOk result (TakesAllBut (K.view sink.old) (K.view sink.new) head.now block.new) }
    ensures prefix { AppendsPrefix (K.view sink.old) (K.view sink.new) head.now }
    ensures cause { HasCause (K.view sink.old).faults (K.view sink.new).faults result }
{
    if head.len() > BLOCK_LEN {
        return write_whole(sink, head);
    }
    block.push_text(head);
    Ok(())
}

/// Writes a text and then the report of a tree (`docs/PROGRAM.md`, "The report"): a line for each
/// node and leaf, in order, and then a line for each error. Allocates nothing. The report is UTF-8.
///
/// `Failed` comes only if the sink failed. A prefix of the text and the report was written then.
pub fn write_report<K: Sink>(
    sink: &mut K,
    head: &[u8],
    parse: &Parse,
    memory: ReportMemory,
) -> Result<(), Failed>
    ensures ok { OnOk result (AppendsAll (K.view sink.old) (K.view sink.new)
        (head.now ++ report_of parse.now)) }
    ensures prefix { AppendsPrefix (K.view sink.old) (K.view sink.new)
        (head.now ++ report_of parse.now) }
    ensures cause { HasCause (K.view sink.old).faults (K.view sink.new).faults result }
{
    let ReportMemory { tables, mut block } = memory;
    push_head(sink, &mut block, head)?;
    push_tree_lines(sink, &mut block, &tables, parse)?;
    push_error_lines(sink, &mut block, parse)?;
    write_whole(sink, block.as_bytes())
}
