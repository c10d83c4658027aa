//! The tests of the Rust crate's lexer, each under its name there.
mod comments;
mod identifiers;
mod numbers;
mod psql;
mod strings;

use super::compare;
use crate::Strings;
use std::test::Fail;

#[test]
fn carried_tests(rt: HostRuntime) -> Result<(), Fail> {
    compare(&rt, rt.alloc(), Strings::Standard, psql::PSQL_LINES)?;
    compare(&rt, rt.alloc(), Strings::Standard, psql::PSQL_QUOTES)?;
    compare(&rt, rt.alloc(), Strings::Standard, comments::COMMENTS)?;
    compare(&rt, rt.alloc(), Strings::Standard, comments::DOLLAR)?;
    compare(&rt, rt.alloc(), Strings::Standard, identifiers::IDENTIFIERS)?;
    compare(&rt, rt.alloc(), Strings::Standard, numbers::NUMBERS)?;
    compare(&rt, rt.alloc(), Strings::Standard, strings::STRINGS)?;
    Ok(())
}
