//! The program `report_page TEXT NAME TABLES NOTES LINES REMARKS < REPORT`: it reads a report, as JSON, from standard
//! input, and from the file TEXT the text that it is of, and writes the page of the report to standard output. NAME is
//! the name of the file from which the first line of the text comes, spelled as in a line mark. TABLES, NOTES, LINES and
//! REMARKS are the files that hold what the page shows beside the report. Why a text is refused goes to standard error.
//! Where the system does not give the program its words, it writes nothing and ends with status 7.
#![tactic(auto)]

mod top;
mod words;

use crate::top::answer;
use crate::words::{Asked, read_words};
use program_streams::{Status, program_words, tell_usage};
use std::fs::File;
use std::process::ExitCode;
use tm_io::{StdSink, StdSource};

/// The line that says how the program is used.
const USAGE: &str = "usage: report_page TEXT NAME TABLES NOTES LINES REMARKS < REPORT";

/// Writes the page that is asked for.
fn write_page(rt: &HostRuntime, asked: Asked<'_>) -> Status {
    let Ok(text) = File::open(rt, asked.text) else {
        return Status::ReadFault;
    };
    let Ok(tables) = File::open(rt, asked.tables) else {
        return Status::ReadFault;
    };
    let Ok(notes) = File::open(rt, asked.notes) else {
        return Status::ReadFault;
    };
    let Ok(lines) = File::open(rt, asked.lines) else {
        return Status::ReadFault;
    };
    let Ok(remarks) = File::open(rt, asked.remarks) else {
        return Status::ReadFault;
    };
    let mut report = StdSource::new(rt.stdin());
    let mut text = StdSource::new(text);
    let mut tables = StdSource::new(tables);
    let mut notes = StdSource::new(notes);
    let mut lines = StdSource::new(lines);
    let mut remarks = StdSource::new(remarks);
    let mut out = StdSink::new(rt.stdout());
    let mut told = StdSink::new(rt.stderr());
    answer(
        rt.alloc(),
        asked,
        &mut report,
        &mut text,
        &mut tables,
        &mut notes,
        &mut lines,
        &mut remarks,
        &mut out,
        &mut told,
    )
}

/// What the program does with words, behind its own name.
fn run(rt: &HostRuntime, words: &[String]) -> Status {
    if let Some(asked) = read_words(words) {
        return write_page(rt, asked);
    }
    tell_usage(rt, USAGE)
}

fn main(rt: HostRuntime) -> ExitCode {
    match program_words(&rt) {
        Ok(words) => ExitCode::from(run(&rt, &words).number()),
        Err(number) => ExitCode::from(number),
    }
}
