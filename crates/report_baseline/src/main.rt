//! The program `report_baseline FORM NEW REMARKS OLD`: it reads a log in the format SARIF 2.1.0 from the file NEW, an
//! array of a text for each of its results from the file REMARKS, and an old log from the file OLD, where that is not
//! empty. With the FORM `--log` it writes the log with what suppresses each result, and its state by the old one, and
//! with the results of the old one that were found no more; with `--standings` a line for each of these, and then how
//! many stand how. Why there is no such log goes to standard error. Where the system does not give the program its words,
//! it writes nothing and ends with status 7.
#![tactic(auto)]

mod top;
mod words;

use crate::top::answer;
use crate::words::{Asked, read_words};
use program_streams::{Status, program_words, tell_usage};
use std::fs::File;
use std::process::ExitCode;
use tm_io::{StdSink, StdSource};

/// The line that says how the program is used.
const USAGE: &str = "usage: report_baseline --log|--standings NEW REMARKS OLD";

/// Writes what is asked for.
fn write_answer(rt: &HostRuntime, asked: Asked<'_>) -> Status {
    let Ok(new) = File::open(rt, asked.new) else {
        return Status::ReadFault;
    };
    let Ok(remarks) = File::open(rt, asked.remarks) else {
        return Status::ReadFault;
    };
    let Ok(old) = File::open(rt, asked.old) else {
        return Status::ReadFault;
    };
    let mut new = StdSource::new(new);
    let mut remarks = StdSource::new(remarks);
    let mut old = StdSource::new(old);
    let mut out = StdSink::new(rt.stdout());
    let mut told = StdSink::new(rt.stderr());
    answer(
        rt.alloc(),
        asked.form,
        &mut new,
        &mut remarks,
        &mut old,
        &mut out,
        &mut told,
    )
}

/// What the program does with words, behind its own name.
fn run(rt: &HostRuntime, words: &[String]) -> Status {
    if let Some(asked) = read_words(words) {
        return write_answer(rt, asked);
    }
    tell_usage(rt, USAGE)
}

fn main(rt: HostRuntime) -> ExitCode {
    match program_words(&rt) {
        Ok(words) => ExitCode::from(run(&rt, &words).number()),
        Err(number) => ExitCode::from(number),
    }
}
