//! The whole solution of an analysis.
ghost use Rattle.std.specs.Prelude.{◌≡◌, ◌≤◌, IfOk};
ghost use Rattle.std.specs.Arc.{arc_value};
ghost use Rattle.store_core.specs.Histories.{IsQuiet};

use std::alloc::Global;
use std::sync::{Arc, Wait};
use std::thread::Threads;
use store_core::StoreCore;
use thread_pass::Analysis;
use thread_workers::solve;
use tm_io::Gate;
use tm_lattice::NoMemory;

/// A quiet core of this analysis and for this number of workers, 1 to 16: its store is the one in which every order of
/// publications ends.
pub fn solved_by<R: Threads + Wait + Sync, G: Gate>(
    rt: &R,
    alloc: Global,
    analysis: Arc<Analysis>,
    workers: u32,
    gate: &G,
) -> Result<StoreCore<Analysis>, NoMemory>
    requires some { 1 ≤ workers }
    requires most { workers ≤ 16 }
    ensures program { IfOk result (λ core. core.program ≡ arc_value analysis) }
    ensures workers { IfOk result (λ core. core.workers ≡ workers) }
    ensures quiet { IfOk result (λ core. IsQuiet core.program.tasks core.past) }
{
    let core = solve(rt, alloc, analysis, workers, gate)?;
    Ok(core)
}
