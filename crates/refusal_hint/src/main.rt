//! The program `refusal_hint LINE COL KIND < TEXT`: it reads a preprocessed text from standard input, which the analyser
//! refuses at this line and column as KIND, and writes what stands there and what to write instead, as one line to
//! standard output; or nothing, where the words round the place do not tell it. Where the system does not give the
//! program its words, it writes nothing and ends with status 7.
#![tactic(auto)]

mod top;
mod words;

use crate::top::answer;
use crate::words::{Asked, read_words};
use program_streams::{Status, program_words, tell_usage};
use std::process::ExitCode;
use tm_io::{StdSink, StdSource};

/// The line that says how the program is used.
const USAGE: &str = "usage: refusal_hint LINE COL KIND < TEXT";

/// Writes the hint that is asked for.
fn write_hint(rt: &HostRuntime, asked: Asked) -> Status {
    let mut text = StdSource::new(rt.stdin());
    let mut out = StdSink::new(rt.stdout());
    answer(rt.alloc(), asked, &mut text, &mut out)
}

/// What the program does with words, behind its own name.
fn run(rt: &HostRuntime, words: &[String]) -> Status {
    if let Some(asked) = read_words(words) {
        return write_hint(rt, asked);
    }
    tell_usage(rt, USAGE)
}

fn main(rt: HostRuntime) -> ExitCode {
    match program_words(&rt) {
        Ok(words) => ExitCode::from(run(&rt, &words).number()),
        Err(number) => ExitCode::from(number),
    }
}
