//! The program `join_units < UNITS`: it reads preprocessed units from standard input, and writes them as one text to
//! standard output; or the line that tells why they are refused, with status 2.
#![tactic(auto)]

mod top;

use crate::top::answer;
use std::process::ExitCode;
use tm_io::{StdSink, StdSource};

fn main(rt: HostRuntime) -> ExitCode {
    let mut source = StdSource::new(rt.stdin());
    let mut out = StdSink::new(rt.stdout());
    ExitCode::from(answer(rt.alloc(), &mut source, &mut out).number())
}
