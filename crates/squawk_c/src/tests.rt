//! What no clause says: worked examples of each call, each refusal, and that memory suffices.
use crate::{
    SquawkError, SquawkStep, SquawkToken, squawk_check, squawk_kind_name, squawk_message,
    squawk_parse, squawk_tokens, squawk_tokens_unchecked, squawk_version,
};
use std::test::Fail;

const NO_TOKEN: SquawkToken = SquawkToken {
    kind: 99,
    flags: 0,
    start: 0,
    len: 0,
    junk: 0,
};

const NO_STEP: SquawkStep = SquawkStep {
    step: 9,
    kind: 0,
    start: 0,
    end: 0,
};

const NO_ERROR: SquawkError = SquawkError {
    start: 0,
    end: 0,
    number: 99,
};

// A token of a row.
fn token(kind: u16, flags: u16, start: u32, len: u32, junk: u32) -> SquawkToken {
    SquawkToken {
        kind,
        flags,
        start,
        len,
        junk,
    }
}

// A text of nine tokens, cut three at a time.
#[test]
fn tokens_are_cut_in_portions(rt: HostRuntime) -> Result<(), Fail> {
    let text = b"x'1 '1e+ 0x \"q\"\\g\n";
    let all = [
        // x'1 '
        token(5, 1, 0, 5, 0),
        // 1e
        token(2, 16, 5, 2, 2),
        // +
        token(27, 0, 7, 1, 0),
        token(10, 0, 8, 1, 0),
        // 0x
        token(1, 16 * 256 + 8, 9, 2, 2),
        token(10, 0, 11, 1, 0),
        // "q"
        token(45, 1, 12, 3, 0),
        // \g
        token(12, 4, 15, 2, 0),
        // LF
        token(10, 0, 17, 1, 0),
    ];
    let mut at = 0;
    let mut done = 0;
    for _ in 0..5 {
        let mut part = [NO_TOKEN; 3];
        let mut count = 7;
        assert_eq!(rt; squawk_tokens(text, 0, &mut at, &mut part, &mut count), 0);
        assert!(rt; count <= 3 && done <= 9 && count <= 9 - done);
        assert_eq!(rt; part[..count], all[done..done + count]);
        done += count;
    }
    assert_eq!(rt; (at, done), (18, 9));
    Ok(())
}

// Name, text, options, offset, status.
const REFUSALS: &[(&str, &[u8], u32, usize, u32)] = &[
    ("offset inside a character", b"\xc3\xa9", 0, 1, 2),
    ("offset past the end", b"1", 0, 2, 2),
    ("unknown options", b"1", 4, 0, 2),
    ("not UTF-8", b"1\xff", 0, 0, 4),
    ("not UTF-8 and unknown options", b"1\xff", 4, 0, 4),
    ("empty text", b"", 3, 0, 0),
    ("offset at the end", b"1", 2, 1, 0),
];

#[test]
fn bad_arguments_are_refused(rt: HostRuntime) -> Result<(), Fail> {
    for &(name, text, options, offset, status) in REFUSALS {
        let mut tokens = [NO_TOKEN; 2];
        let mut at = offset;
        let mut count = 7;
        let result = squawk_tokens(text, options, &mut at, &mut tokens, &mut count);
        assert_eq!(rt; (result, at, count), (status, offset, 0), "{name}");
        assert_eq!(rt; tokens[0].kind, 99, "{name}");
    }
    Ok(())
}

// Options, and the length of the first token: the backslash escapes the quote or not.
#[test]
fn options_choose_the_reading_of_strings(rt: HostRuntime) -> Result<(), Fail> {
    let text = b"'a\\' b'";
    for (options, len) in [(0, 4), (1, 7), (2, 4), (3, 7)] {
        let mut tokens = [NO_TOKEN; 1];
        let mut at = 0;
        let mut count = 0;
        let result = unsafe {
            squawk_tokens_unchecked(text, options, &mut at, &mut tokens, &mut count)
        };
        assert_eq!(rt; (result, at, count), (0, len, 1));
        assert_eq!(rt; tokens[0], token(3, 1, 0, len as u32, 0));
    }
    Ok(())
}

#[test]
fn texts_are_checked(rt: HostRuntime) -> Result<(), Fail> {
    let mut valid = 7;
    assert_eq!(rt; (squawk_check(b"s\xff", &mut valid), valid), (4, 1));
    assert_eq!(rt;
        (squawk_check("s\u{e9}".as_bytes(), &mut valid), valid),
        (0, 3)
    );
    assert_eq!(rt; squawk_version(), 65536);
    Ok(())
}

// Options, and the numbers of steps and errors: a semicolon in parentheses ends a statement or not,
// and so `1e` is a statement of its own or not.
#[test]
fn options_choose_the_division(rt: HostRuntime) -> Result<(), Fail> {
    for (options, step_count, error_count) in [(0, 11, 2), (2, 9, 1), (4, 0, 0)] {
        let mut steps = [NO_STEP; 16];
        let mut errors = [NO_ERROR; 4];
        let mut counts = (7, 7);
        let status = squawk_parse(
            rt.alloc(),
            b"(;1e",
            options,
            &mut steps,
            &mut counts.0,
            &mut errors,
            &mut counts.1,
        );
        assert_eq!(rt; status, if options == 4 { 2 } else { 0 });
        assert_eq!(rt; counts, (step_count, error_count));
    }
    Ok(())
}

// `select 1e;` has a root, a statement with four leaves, and one error.
#[test]
fn steps_and_errors_are_written_where_they_fit(rt: HostRuntime) -> Result<(), Fail> {
    for (step_room, error_room, status) in [(8, 1, 0), (7, 1, 12), (8, 0, 12), (0, 0, 12)] {
        let mut steps = [NO_STEP; 8];
        let mut errors = [NO_ERROR; 1];
        let mut counts = (7, 7);
        let result = squawk_parse(
            rt.alloc(),
            b"select 1e;",
            0,
            &mut steps[..step_room],
            &mut counts.0,
            &mut errors[..error_room],
            &mut counts.1,
        );
        assert_eq!(rt; (result, counts), (status, (8, 1)));
        let leaf = steps[2];
        let are_written = step_room == 8;
        assert_eq!(rt;
            (leaf.step, leaf.end),
            if are_written { (1, 6) } else { (9, 0) }
        );
        let error = errors[0];
        let is_written = error_room == 1;
        assert_eq!(rt;
            (error.start, error.end, error.number),
            if is_written { (8, 9, 6) } else { (0, 0, 99) }
        );
    }
    Ok(())
}

// Name, number of the kind, room, status, length.
const NAMES: &[(&str, u32, usize, u32, usize)] = &[
    ("room", 2, 39, 0, 3),
    ("just enough room", 2, 3, 0, 3),
    ("too little room", 2, 2, 12, 3),
    ("no such kind", 2068, 39, 2, 0),
    ("far above the kinds", 65537, 39, 2, 0),
];

#[test]
fn kinds_have_names(rt: HostRuntime) -> Result<(), Fail> {
    for &(name, kind, room, status, len) in NAMES {
        let mut text = [b'-'; 39];
        let mut count = 7;
        assert!(rt; room <= 39);
        let result = squawk_kind_name(kind, &mut text[..room], &mut count);
        assert_eq!(rt; (result, count), (status, len), "{name}");
        let expected = if status == 0 { b"`$`" } else { b"---" };
        assert_eq!(rt; text[..3], expected[..], "{name}");
    }
    Ok(())
}

#[test]
fn errors_have_messages(rt: HostRuntime) -> Result<(), Fail> {
    let mut text = [0; 40];
    let mut count = 7;
    assert_eq!(rt; squawk_message(10, &mut text, &mut count), 0);
    assert!(rt; count <= 40);
    assert_eq!(rt; text[..count], b"unknown statement"[..]);
    for number in [0, 11, 257] {
        assert_eq!(rt;
            (squawk_message(number, &mut text, &mut count), count),
            (2, 0)
        );
    }
    Ok(())
}
