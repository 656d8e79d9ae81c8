//! The report that workers find.
ghost use Rattle.std.specs.Prelude.{◌≡◌, ◌≤◌, IfOk};
ghost use Rattle.store_core.specs.Histories.{IsQuiet};
ghost use Rattle.program_solutions.specs.program_systems.ReadPrograms.{program_of};
ghost use Rattle.program_solutions.specs.LeastReports.{IsLeastReport};
ghost use Rattle.worker_solutions.specs.QuietHistories.{IsQuietHistory};

use crate::solutions::core_solution;
use program_solutions::{Analysis, solution_report};
use shared_analyses::solved_by;
use std::alloc::Global;
use std::sync::{Arc, Wait};
use std::thread::Threads;
use store_core::StoreCore;
use tm_io::Gate;
use tm_lattice::NoMemory;
use tm_terms::Report;

/// The report of a program, and the core of the workers that found its least solution.
#[derive(Drop)]
pub struct WorkedOut {
    /// The report.
    pub report: Report,
    /// The core, with its history.
    pub core: StoreCore<Analysis>,
}

// The report of a quiet core: that of its solution.
fn core_report(alloc: Global, core: &StoreCore<Analysis>) -> Result<Report, NoMemory>
    requires { IsQuiet core.now.program.tasks core.now.past }
    ensures { IfOk result (λ report. IsLeastReport (program_of core.now.program) report.alarms.items) }
{
    let found = core_solution(alloc, core)?;
    solution_report(alloc, core.program(), &found)
}

/// The report of a program, found by 1 to 16 workers, each in a thread of its own where one can be made; with the
/// history of a store that such workers share.
pub fn report_by_workers<R: Threads + Wait + Sync, G: Gate>(
    rt: &R,
    alloc: Global,
    analysis: Analysis,
    workers: u32,
    gate: &G,
) -> Result<WorkedOut, NoMemory>
    requires some { 1 ≤ workers }
    requires most { workers ≤ 16 }

    // The report is that of the least solution, in whatever order the workers came.
    ensures report { IfOk result (λ out. IsLeastReport (program_of analysis) out.report.alarms.items) }

    // The history is one of these workers on this program, and it has come to its end.
    ensures history { IfOk result (λ out. IsQuietHistory (program_of analysis) workers out.core.past) }
{
    let core = solved_by(rt, alloc, Arc::new(alloc, analysis)?, workers, gate)?;
    let _history = core.history();
    let report = core_report(alloc, &core)?;
    Ok(WorkedOut { report, core })
}
