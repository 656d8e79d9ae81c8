//! The program that checks certificates, and holds no analysis: it reads a certificate from standard input, writes to
//! standard output what may be said of it, and ends with the number of the status of that answer: the text and the
//! status are those of the command `check` of the analyser. No crate below it solves equations. It takes no words;
//! where it is given one it ends with the status of words that are no command, and where the system does not give it
//! its words, with status 7.
#![tactic(auto)]

use certificate_check::check_source;
use program_streams::{Status, program_words, tell_usage};
use std::process::ExitCode;
use tm_io::{StdSink, StdSource};

/// The line that says how the program is used.
const USAGE: &str = "usage: check_main < certificate";

/// What the program does with words, behind its own name.
fn run(rt: &HostRuntime, words: &[String]) -> Status {
    if !words.is_empty() {
        return tell_usage(rt, USAGE);
    }
    let mut source = StdSource::new(rt.stdin());
    let mut out = StdSink::new(rt.stdout());
    check_source(rt.alloc(), &mut source, &mut out)
}

fn main(rt: HostRuntime) -> ExitCode {
    match program_words(&rt) {
        Ok(words) => ExitCode::from(run(&rt, &words).number()),
        Err(number) => ExitCode::from(number),
    }
}
