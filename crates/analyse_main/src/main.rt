//! The program: it analyses standard input, writes to standard output, and ends with the number of the analysis'
//! status. Words that ask for notes are handed to the calls that tell them, and all others to those that analyse; of
//! both, words that ask for workers go to the call that may wait for them, and the rest to the one that waits for none.
//! Where the first word is `notes` and the others ask for none, standard error says how notes are asked for. Where the
//! system does not give the program its words, it writes nothing and ends with status 7.
#![tactic(auto)]

use analyser::{Status, analyse, analyse_alone, asks_workers};
use program_streams::{program_words, tell_usage};
use source_notes::{asked_notes, asks_notes, tell_notes, tell_notes_by_workers};
use std::process::ExitCode;
use tm_io::{OpenGate, StdSink, StdSource};
use tm_lattice::NoMemory;

/// The line that says how notes are asked for.
const NOTES_USAGE: &str =
    "usage: analyse_main notes [large] [--workers=N] report|rings|races|alarms|causes|notes|assumptions|parts < SOURCE";

fn main(rt: HostRuntime) -> ExitCode {
    let words = match program_words(&rt) {
        Ok(words) => words,
        Err(number) => return ExitCode::from(number),
    };
    let alloc = rt.alloc();
    let mut source = StdSource::new(rt.stdin());
    let mut out = StdSink::new(rt.stdout());
    if asks_notes(&words) {
        let Some(asked) = asked_notes(&words) else {
            return ExitCode::from(tell_usage(&rt, NOTES_USAGE).number());
        };
        let status = if asked.workers > 1 {
            tell_notes_by_workers(&rt, alloc, asked, &mut source, &mut out, &OpenGate)
        } else {
            tell_notes(alloc, asked.scale, asked.note, &mut source, &mut out)
        };
        return ExitCode::from(status.number());
    }
    let status = match asks_workers(alloc, &words) {
        Ok(false) => analyse_alone(alloc, &words, &mut source, &mut out),
        Ok(true) => analyse(&rt, alloc, &words, &mut source, &mut out, &OpenGate),
        Err(NoMemory) => Status::NoMemory,
    };
    ExitCode::from(status.number())
}
