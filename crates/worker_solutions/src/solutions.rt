//! The least solution that workers find.
ghost use Rattle.std.specs.Prelude.{◌≡◌, ◌≤◌, IfOk};
ghost use Rattle.std.specs.Arc.{arc_value};
ghost use Rattle.store_core.specs.Histories.{IsQuiet};
ghost use Rattle.program_solutions.specs.program_systems.ReadPrograms.{program_of};
ghost use Rattle.program_solutions.specs.LeastReports.{IsLeastPair};

use crate::tables::kept_tables;
use interfere_set::Store;
use program_solutions::{Analysis, Solution, completed, least_pair};
use shared_analyses::solved_by;
use std::alloc::Global;
use std::sync::{Arc, Wait};
use std::thread::Threads;
use store_core::StoreCore;
use tm_io::Gate;
use tm_lattice::{Lattice, NoMemory};

// The solution of a quiet core: its store, with the tables that the last passes of its tasks kept.
pub(crate) fn core_solution(alloc: Global, core: &StoreCore<Analysis>) -> Result<Solution, NoMemory>
    requires { IsQuiet core.now.program.tasks core.now.past }
    ensures { IfOk result (IsLeastPair (program_of core.now.program)) }
{
    let _history = core.history();
    let analysis = core.program();
    let tables = kept_tables(alloc, core)?;
    let all = completed(alloc, analysis, tables)?;
    let store = Arc::new(alloc, core.store().copied(alloc)?)?;
    Ok(least_pair(analysis, all, store))
}

/// The least solution of a program, found by 1 to 16 workers, each in a thread of its own where one can be made. It is
/// the same one in whatever order the workers came, since there is one least solution. What they shared is let go.
pub fn solution_by_workers<R: Threads + Wait + Sync, G: Gate>(
    rt: &R,
    alloc: Global,
    analysis: Arc<Analysis>,
    workers: u32,
    gate: &G,
) -> Result<Solution, NoMemory>
    requires some { 1 ≤ workers }
    requires most { workers ≤ 16 }
    ensures { IfOk result (IsLeastPair (program_of (arc_value analysis))) }
{
    let core = solved_by(rt, alloc, analysis, workers, gate)?;
    core_solution(alloc, &core)
}
