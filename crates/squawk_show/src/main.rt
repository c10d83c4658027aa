//! The program: it writes a form of the SQL on standard input, a summary of a made text, or what
//! the edits of a script do.
#![tactic(auto)]

mod block;
mod command;
mod digits;
mod edge;
mod error;
mod forms;
pub mod laws;
mod line;
mod line_buffer;
mod made;
mod options;
mod program;
mod reading;
mod refusal;
mod replay;
mod report;
mod summary;
#[cfg(test)]
mod tests;
mod writing;

pub use command::{Command, Form};
pub use edge::{Failed, MemorySink, MemorySource, ReadSource, Sink, Source, WriteSink};
pub use error::RunError;
pub use options::Reading;
pub use program::{Shown, run};
pub use reading::read_all;
pub use report::{ReportMemory, write_report};
use std::alloc::Global;
use std::env;
use std::io::{ErrorKind, Read, Write};
use std::process::ExitCode;
pub use writing::write_whole;

// The status if there is not enough memory for the words of the command line.
const OUT_OF_MEMORY: u8 = 6;

// The status if the system refuses the words for another reason, such as one that is not UTF-8.
const WORDS_REFUSED: u8 = 11;

fn main(rt: HostRuntime) -> ExitCode {
    let args = match env::args(&rt) {
        Ok(args) => args,
        Err(error) => {
            let status = match error.kind() {
                ErrorKind::OutOfMemory => OUT_OF_MEMORY,
                _ => WORDS_REFUSED,
            };
            return ExitCode::from(status);
        }
    };
    let Ok(words) = args.skip(1).collect::<Vec<String>>(rt.alloc()) else {
        return ExitCode::from(OUT_OF_MEMORY);
    };
    let status = run_streams(rt.alloc(), &words, rt.stdin(), rt.stdout(), rt.stderr());
    ExitCode::from(status)
}

// Runs the program over streams of std, and returns the status that it ends with.
fn run_streams<R: Read + Drop, W: Write + Drop, E: Write + Drop>(
    alloc: Global,
    words: &[String],
    input: R,
    output: W,
    errors: E,
) -> u8 {
    let mut source = ReadSource::new(input);
    let mut out = WriteSink::new(output);
    let mut err = WriteSink::new(errors);
    run(alloc, words, &mut source, &mut out, &mut err).status
}
