//! How the least solution of a program is found: on the calling thread, or by workers.
ghost use Rattle.std.specs.Prelude.{◌≤◌, IfOk};
ghost use Rattle.source_notes.specs.reading.Finders.{IsFound};

use std::alloc::Global as Heap;
use std::sync::{Arc, Wait};
use std::thread::Threads;
use tm_io::Gate;
use tm_lattice::NoMemory;
use worker_solutions::{Analysis, Solution, solution, solution_by_workers};

/// An analysis, and its least solution.
#[derive(Drop)]
pub(crate) struct Found {
    pub analysis: Arc<Analysis>,
    pub solution: Solution,
}

/// What finds the least solution of a program.
pub(crate) trait Finder {
    /// Where it does.
    ghost serves: { Self → Type 0 };

    /// The analysis with its least solution.
    fn find(&self, alloc: Heap, analysis: Analysis) -> Result<Found, NoMemory>
        requires { serves self.now }
        ensures { IfOk result (IsFound analysis) };
}

/// The calling thread, which passes the tasks in turn. It waits for no other thread, so whatever calls it and has no
/// handle is proved to return.
#[derive(Clone, Copy)]
pub(crate) struct Alone;

impl Finder for Alone {
    ghost serves = { λ _. Unit {0} };

    fn find(&self, alloc: Heap, analysis: Analysis) -> Result<Found, NoMemory> {
        let solution = solution(alloc, &analysis)?;
        let analysis = Arc::new(alloc, analysis)?;
        Ok(Found { analysis, solution })
    }
}

/// Workers, by a call that has them find a solution: so the bounds by which it may wait are its own, and a function over
/// finders has none.
#[derive(Clone, Copy)]
pub(crate) struct Workers<F> {
    pub(crate) find: F,
}

impl<F: Fn(Analysis) -> Result<Found, NoMemory>> Finder for Workers<F> {
    ghost use Rattle.std.specs.Prelude.{IfOk};
    ghost use Rattle.worker_solutions.specs.program_systems.ReadPrograms.{ReadProgram};
    ghost use Rattle.source_notes.specs.reading.Finders.{IsFound};

    ghost serves = { λ s. (analysis : ReadProgram) → F.pre s.find analysis
        × ((r : _) → F.post s.find analysis r → IfOk r (IsFound analysis)) };

    fn find(&self, _alloc: Heap, analysis: Analysis) -> Result<Found, NoMemory> {
        (self.find)(analysis)
    }
}

/// The analysis with its least solution by 1 to 16 workers, who share a store; the gate is told of their passes.
pub(crate) fn found_by_workers<R: Threads + Wait + Sync, G: Gate>(
    rt: &R,
    alloc: Heap,
    analysis: Analysis,
    workers: u32,
    gate: &G,
) -> Result<Found, NoMemory>
    requires some { 1 ≤ workers }
    requires most { workers ≤ 16 }
    ensures { IfOk result (IsFound analysis) }
{
    let analysis = Arc::new(alloc, analysis)?;
    let shared = Arc::try_clone(&analysis)?;
    let solution = solution_by_workers(rt, alloc, shared, workers, gate)?;
    Ok(Found { analysis, solution })
}
