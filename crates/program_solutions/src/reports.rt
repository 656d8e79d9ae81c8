//! The report of a program.
ghost use Rattle.std.specs.Prelude.{IfOk};
ghost use Rattle.thread_pass.specs.program_systems.ReadPrograms.{program_of};
ghost use Rattle.program_solutions.specs.LeastReports.{IsLeastPair, IsLeastReport};

use crate::solutions::solution;
use program_reports::{Solution, judge};
use std::alloc::Global;
use thread_pass::Analysis;
use tm_lattice::NoMemory;
use tm_terms::Report;

/// The report of a least solution.
pub fn solution_report(
    alloc: Global,
    analysis: &Analysis,
    found: &Solution,
) -> Result<Report, NoMemory>
    requires { IsLeastPair (program_of analysis.now) found.now }
    ensures { IfOk result (λ report. IsLeastReport (program_of analysis.now) report.alarms.items) }
{
    let (program, facts) = analysis.parts();
    let report = judge(alloc, program, facts, found.tables(), found.store())?;
    Ok(report)
}

/// The report of a program: that of its least solution.
pub fn least_report(alloc: Global, analysis: &Analysis) -> Result<Report, NoMemory>
    ensures { IfOk result (λ report. IsLeastReport (program_of analysis.now) report.alarms.items) }
{
    let found = solution(alloc, analysis)?;
    solution_report(alloc, analysis, &found)
}
