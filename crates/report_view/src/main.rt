//! The program `report_view FORM TEXT NAME < REPORT`: it reads a report, as JSON, from standard input, and the text
//! that it is of from the file TEXT, and writes the view of the report to standard output. FORM is `--lines` or
//! `--summary`; NAME is the name of the file from which the first line of the text comes, spelled as in a line mark.
//! `report_view --sarif TEXT NAME WAITS DEAD ASSUMPTIONS WAYS LINES FOLDER DOCUMENTS < REPORT` reads also what `waits`
//! answers from the file WAITS, what `ranges` answers behind the bounds of objects from the file DEAD, the list of the
//! assumptions from the file ASSUMPTIONS, from the file WAYS with which accesses alarms race and on what ways control
//! comes to them, and from the file LINES the lines of the files from which those of the text come, and writes the log
//! of it all; FOLDER is the folder from which names of files are seen, and DOCUMENTS that in which ALARMS.md and
//! ASSUMPTIONS.md stand.
//! `report_view --refusal TEXT NAME LINES DOCUMENTS LINE COL KIND MEANING` writes the log of an analysis that refused the
//! text at the place LINE:COL, for this kind of cause, with this meaning; 0 and 0 are no place. `report_view --rules`
//! writes what each rule says, and what helps against what it finds.
//! Where the system does not give the program its words, it writes nothing and ends with status 7.
#![tactic(auto)]

mod logs;
mod readings;
mod refusals;
mod rules;
mod top;
mod words;

use crate::logs::answer_log;
use crate::refusals::answer_refusal;
use crate::rules::answer_rules;
use crate::top::answer;
use crate::words::{
    Asked, AskedLog, AskedRefusal, ask_for_rules, read_log_words, read_refusal_words, read_words,
    refusal_of,
};
use program_streams::{Status, program_words, tell_usage};
use report_logs::Refusal;
use std::fs::File;
use std::process::ExitCode;
use tm_io::{StdSink, StdSource};

/// The line that says how the program is used.
const USAGE: &str = "usage: report_view --lines|--summary TEXT NAME < REPORT, \
    or report_view --sarif TEXT NAME WAITS DEAD ASSUMPTIONS WAYS LINES FOLDER DOCUMENTS < REPORT, \
    or report_view --refusal TEXT NAME LINES DOCUMENTS LINE COL KIND MEANING, \
    or report_view --rules";

/// Writes the log that is asked for.
fn write_log(rt: &HostRuntime, asked: AskedLog<'_>) -> Status {
    let Ok(text) = File::open(rt, asked.text) else {
        return Status::ReadFault;
    };
    let Ok(waits) = File::open(rt, asked.waits) else {
        return Status::ReadFault;
    };
    let Ok(dead) = File::open(rt, asked.dead) else {
        return Status::ReadFault;
    };
    let Ok(assumptions) = File::open(rt, asked.assumptions) else {
        return Status::ReadFault;
    };
    let Ok(ways) = File::open(rt, asked.ways) else {
        return Status::ReadFault;
    };
    let Ok(lines) = File::open(rt, asked.lines) else {
        return Status::ReadFault;
    };
    let mut report = StdSource::new(rt.stdin());
    let mut text = StdSource::new(text);
    let mut waits = StdSource::new(waits);
    let mut dead = StdSource::new(dead);
    let mut assumptions = StdSource::new(assumptions);
    let mut ways = StdSource::new(ways);
    let mut lines = StdSource::new(lines);
    let mut out = StdSink::new(rt.stdout());
    let mut told = StdSink::new(rt.stderr());
    answer_log(
        rt.alloc(),
        asked,
        &mut report,
        &mut text,
        &mut waits,
        &mut dead,
        &mut assumptions,
        &mut ways,
        &mut lines,
        &mut out,
        &mut told,
    )
}

/// Writes the log of a refusal that is asked for.
fn write_refusal(rt: &HostRuntime, asked: AskedRefusal<'_>, refusal: Refusal<'_>) -> Status {
    let Ok(text) = File::open(rt, asked.text) else {
        return Status::ReadFault;
    };
    let Ok(lines) = File::open(rt, asked.lines) else {
        return Status::ReadFault;
    };
    let mut text = StdSource::new(text);
    let mut lines = StdSource::new(lines);
    let mut out = StdSink::new(rt.stdout());
    answer_refusal(rt.alloc(), asked, refusal, &mut text, &mut lines, &mut out)
}

/// Writes the view that is asked for.
fn write_view(rt: &HostRuntime, asked: Asked<'_>) -> Status {
    let Ok(text) = File::open(rt, asked.text) else {
        return Status::ReadFault;
    };
    let mut report = StdSource::new(rt.stdin());
    let mut text = StdSource::new(text);
    let mut out = StdSink::new(rt.stdout());
    let mut told = StdSink::new(rt.stderr());
    answer(
        rt.alloc(),
        asked,
        &mut report,
        &mut text,
        &mut out,
        &mut told,
    )
}

/// Writes what the rules say.
fn write_rules(rt: &HostRuntime) -> Status {
    let mut out = StdSink::new(rt.stdout());
    answer_rules(rt.alloc(), &mut out)
}

/// What the program does with words, behind its own name.
fn run(rt: &HostRuntime, words: &[String]) -> Status {
    if ask_for_rules(words) {
        return write_rules(rt);
    }
    if let Some(asked) = read_words(words) {
        return write_view(rt, asked);
    }
    if let Some(asked) = read_log_words(words) {
        return write_log(rt, asked);
    }
    if let Some(asked) = read_refusal_words(words) {
        if let Some(refusal) = refusal_of(asked.line, asked.col, asked.word, asked.said) {
            return write_refusal(rt, asked, refusal);
        }
    }
    tell_usage(rt, USAGE)
}

fn main(rt: HostRuntime) -> ExitCode {
    match program_words(&rt) {
        Ok(words) => ExitCode::from(run(&rt, &words).number()),
        Err(number) => ExitCode::from(number),
    }
}
