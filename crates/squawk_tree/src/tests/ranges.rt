//! Ranges and texts of steps in trees of more than 64 steps.
use super::MIGRATION;
use crate::{Parse, parse_source};
use std::process::Abort;
use std::test::Fail;

// 40 groups, one in another.
const GROUPS: &str = "select \
    ((((((((((((((((((((((((((((((((((((((((x))))))))))))))))))))))))))))))))))))))))";

// The range of a step of `GROUPS`. Its steps are: the root, the statement, `select`, a space, 40
// times a group and its `(`, `x`, 40 times a `)` and the end of its group, and two ends.
fn range_in_groups(i: usize) -> (u32, u32) {
    if i < 2 || i > 164 {
        return (0, 88);
    }
    if i < 4 {
        return if i == 2 { (0, 6) } else { (6, 7) };
    }
    if i < 84 {
        let depth = ((i - 4) / 2) as u32;
        let end = if i % 2 == 0 { 88 - depth } else { 8 + depth };
        return (7 + depth, end);
    }
    if i == 84 {
        return (47, 48);
    }
    let closed = ((i - 85) / 2) as u32;
    let start = if i % 2 == 0 { 46 - closed } else { 48 + closed };
    (start, 49 + closed)
}

#[test]
fn nested_groups(rt: HostRuntime) -> Result<(), Fail> {
    let parse = parse_source(rt.alloc(), GROUPS)?;
    assert_eq!(rt; parse.steps().len(), 167);
    let mut i = 0;
    for (step, range) in parse.steps_with_ranges() {
        assert!(rt; i < parse.steps().len());
        assert_eq!(rt; step, parse.steps()[i], "step {i}");
        let (start, end) = parse.range(i);
        let expected = range_in_groups(i);
        assert_eq!(rt; start, expected.0, "start of step {i}");
        assert_eq!(rt; end, expected.1, "end of step {i}");
        assert_eq!(rt; range.0, start, "start of step {i}");
        assert_eq!(rt; range.1, end, "end of step {i}");
        i += 1;
    }
    assert_eq!(rt; i, 167);
    Ok(())
}

// The text of a step of a parse of `text`.
fn text_of<'a>(rt: &impl Abort, parse: &Parse, text: &'a str, i: usize) -> &'a str {
    assert!(rt; i < parse.steps().len());
    let (start, end) = parse.range(i);
    assert!(rt; text.is_char_boundary(start as usize));
    assert!(rt; text.is_char_boundary(end as usize));
    parse.text(text, i)
}

#[test]
fn texts_of_children(rt: HostRuntime) -> Result<(), Fail> {
    let texts = [
        "BEGIN;",
        "\n",
        "create table if not exists t (id bigint primary key, \"Name\" text default E'a\\'b');",
        "\n",
        "create unique index concurrently i on t (id);",
        "\n",
        "create or replace function f() returns int language sql \
        as $body$ select 1; select 2; $body$;",
        "\n",
        "COMMIT;",
        "\n",
    ];
    let parse = parse_source(rt.alloc(), MIGRATION)?;
    assert_eq!(rt; parse.children().len(), texts.len());
    let mut i = 0;
    for child in parse.children() {
        assert!(rt; i < texts.len());
        assert_eq!(rt; text_of(&rt, &parse, MIGRATION, child.step), texts[i]);
        i += 1;
    }
    assert_eq!(rt; text_of(&rt, &parse, MIGRATION, 0), MIGRATION);
    Ok(())
}
