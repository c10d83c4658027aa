//! Checks a migration: prints the nodes under its root and then its errors.
#![tactic(auto)]

use squawk_events::message;
use squawk_tree::parse_source;

const MIGRATION: &str = "begin;\ninsert into t values (1e);\ncomit;\n";

fn main(rt: HostRuntime) -> anyhow::Result<()> {
    let parse = parse_source(rt.alloc(), MIGRATION)?;
    for child in parse.children() {
        if let Some(kind) = child.node {
            println!(rt; "{}..{} {kind}", child.start, child.end)?;
        }
    }
    for error in parse.errors() {
        let before = MIGRATION.get(..error.start as usize).unwrap_or_default();
        let line = before.split('\n').count();
        let last_line = before.rsplit('\n').next().unwrap_or_default();
        let column = last_line.chars().count() + 1;
        println!(rt; "{line}:{column}: {}", message(error.number))?;
    }
    Ok(())
}
