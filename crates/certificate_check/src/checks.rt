//! The check of a certificate.

ghost use Rattle.std.specs.Prelude.{◌≡◌, ◌≤◌, ◌<◌, ◌^◌, drop, length, IfOk};
ghost use Rattle.mutex_configs.specs.tm_laid.Layouts.{laid_tree};
ghost use Rattle.post_recheck.specs.program_systems.Analysable.{IsAnalysable};
ghost use Rattle.post_recheck.specs.program_systems.ProgramFacts.{AreProgramFacts, program_with};
ghost use Rattle.program_reports.specs.post_recheck.Pairs.{FitsPair, pair_of};
ghost use Rattle.certificate_texts.specs.Limits.{certificate_limit};
ghost use Rattle.certificate_texts.specs.Certificates.{IsSplit};
ghost use Rattle.certificate_check.specs.Verdicts.{IsVerdict};
ghost use Rattle.certificate_check.specs.reading.Parts.{IsPairVerdict, IsToldVerdict};

use crate::verdicts::Verdict;
use certificate_reading::{Pair, read};
use certificate_texts::{CERTIFICATE_LIMIT, numbers_are_small, split};
use mutex_configs::Program;
use post_recheck::ProgramFacts;
use program_reports::{Checked, judge, recheck_in_order};
use source_programs::source_program;
use std::alloc::Global;
use std::sync::Arc;
use tm_lattice::NoMemory;
use tm_terms::Fail;

/// The verdict on tables and a store that fit a program.
fn verdict_on_pair(
    alloc: Global,
    program: &Program,
    facts: &ProgramFacts,
    pair: Pair,
) -> Result<Verdict, NoMemory>
    requires analysable { IsAnalysable program.now }
    requires facts { AreProgramFacts program.now facts.now }
    requires fits { FitsPair (program_with program.now facts.now) (pair_of pair.tables.items pair.store) }
    ensures { IfOk result (IsPairVerdict (program_with program.now facts.now) (pair_of pair.tables.items pair.store)) }
{
    let Pair { tables, store } = pair;
    match recheck_in_order(alloc, program, facts, tables, Arc::new(alloc, store)?)? {
        Checked::Solution(found) => {
            let report = judge(alloc, program, facts, found.tables(), found.store())?;
            Ok(Verdict::Certified(report))
        }
        Checked::Uncovered { body, edge } => Ok(Verdict::Uncovered { body, edge }),
        Checked::UncoveredStore => Ok(Verdict::UncoveredStore),
    }
}

/// The verdict on what is told of a program, in the bytes from a place on.
fn verdict_on_told(
    alloc: Global,
    program: &Program,
    bytes: Vec<u8>,
    start: usize,
) -> Result<Verdict, NoMemory>
    requires within { start ≤ length bytes.items }
    requires analysable { IsAnalysable program.now }
    requires few { length program.now.laid.objects.items ≤ 2 ^ 32 }
    ensures { IfOk result (IsToldVerdict program.now (drop start bytes.items)) }
{
    let facts = ProgramFacts::new(alloc, program)?;
    numbers_are_small(program, &facts);
    match read(alloc, bytes, start, program, &facts)? {
        Some(pair) => verdict_on_pair(alloc, program, &facts, pair),
        None => Ok(Verdict::NoCertificate),
    }
}

/// The verdict on bytes in which a source stands from `start` to `end`.
fn verdict_on_source(
    alloc: Global,
    bytes: Vec<u8>,
    start: usize,
    end: usize,
) -> Result<Verdict, NoMemory>
    requires short { length bytes.items ≤ certificate_limit }
    requires split { IsSplit bytes.items start end }
    requires within { end < length bytes.items }
    ensures { IfOk result (IsVerdict bytes.items) }
{
    match source_program(alloc, &bytes[start..end], &[]) {
        Ok(program) => verdict_on_told(alloc, &program, bytes, end + 1),
        Err(Fail::Refused(refusal)) => Ok(Verdict::Refused(refusal)),
        Err(Fail::NoMemory) => Err(NoMemory),
    }
}

/// What may be said of bytes as a certificate. No equation is solved: each edge of the program is applied to the state
/// that the bytes tell for the node that it leaves.
pub fn check(alloc: Global, bytes: Vec<u8>) -> Result<Verdict, NoMemory>
    // Each answer has its cause. Certified: the bytes are the text of a source that is accepted, and of tables and a
    // store that fit its program and are a solution of it; the report is that of the tables, and each error that occurs
    // in an allowed run of the source stands in it. Beside these answers comes only want of memory.
    ensures { IfOk result (IsVerdict bytes.items) }
{
    if bytes.len() > CERTIFICATE_LIMIT {
        return Ok(Verdict::TooLong);
    }
    match split(&bytes) {
        Some((start, end)) => verdict_on_source(alloc, bytes, start, end),
        None => Ok(Verdict::NoCertificate),
    }
}
