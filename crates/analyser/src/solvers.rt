//! How a program is solved: on the calling thread, or by workers.

ghost use Rattle.std.specs.Prelude.{◌≡◌, ℕ, Bool, IfOk, IsTrue, string_bytes};
ghost use Rattle.worker_solutions.specs.program_systems.ReadPrograms.{program_of};
ghost use Rattle.analyser.specs.reading.Manners.{AreFew, IsAlone};
ghost use Rattle.analyser.specs.reading.Replies.{AreLines, IsSolved};

use history_lines::history_lines;
use std::alloc::Global as Heap;
use std::sync::Wait;
use std::thread::Threads;
use store_core::StoreCore;
use tm_io::Gate;
use tm_lattice::NoMemory;
use tm_terms::Report;
use worker_solutions::{Analysis, WorkedOut, least_report, report_by_workers};

/// How a program is to be solved.
#[derive(Clone, Copy)]
pub struct Manner {
    /// How many workers there are.
    pub workers: u32,
    /// Whether their history is asked for.
    pub history: bool,
}

/// The report of a program.
#[derive(Drop)]
pub struct Solved {
    pub report: Report,
    /// The lines of the history, none where it is not asked for.
    pub history: String,
}

/// What finds the report of a program.
pub(crate) trait Solver {
    /// In which manners it does: for how many workers, and with their history or without.
    ghost serves: { Self → ℕ → Bool → Type 0 };

    /// The report of a program, with the history of its workers where it is asked for.
    fn solve(&self, alloc: Heap, analysis: Analysis, manner: Manner) -> Result<Solved, NoMemory>
        requires { serves self.now manner.workers manner.history }
        ensures { IfOk result (IsSolved (program_of analysis) manner.workers manner.history) };
}

/// The calling thread, which passes the tasks in turn: one worker, whose history is not told. It waits for no other
/// thread, so whatever calls it and has no handle is proved to return.
#[derive(Clone, Copy)]
pub(crate) struct Alone;

impl Solver for Alone {
    ghost use Rattle.analyser.specs.reading.Manners.{IsAlone};

    ghost serves = { λ _. IsAlone };

    fn solve(&self, alloc: Heap, analysis: Analysis, _manner: Manner) -> Result<Solved, NoMemory> {
        let report = least_report(alloc, &analysis)?;
        Ok(Solved {
            report,
            history: String::new(alloc),
        })
    }
}

/// Whether one worker works, whose history is not asked for.
fn is_alone(manner: Manner) -> bool
    ensures { IsTrue result → IsAlone manner.workers manner.history }
{
    !manner.history && manner.workers == 1
}

/// The lines of the history of a core, where they are asked for.
fn lines_of(alloc: Heap, core: &StoreCore<Analysis>, history: bool) -> Result<String, NoMemory>
    ensures { IfOk result (λ lines. AreLines history core.now.past (string_bytes lines)) }
{
    if history {
        history_lines(alloc, core.history())
    } else {
        Ok(String::new(alloc))
    }
}

/// What workers have worked out, with the lines of their history where they are asked for.
fn told_of(alloc: Heap, worked: WorkedOut, history: bool) -> Result<Solved, NoMemory>
    ensures report { IfOk result (λ solved. solved.report ≡ worked.report) }
    ensures lines { IfOk result (λ solved. AreLines history worked.core.past (string_bytes solved.history)) }
{
    let WorkedOut { report, core } = worked;
    let history = lines_of(alloc, &core, history)?;
    Ok(Solved { report, history })
}

/// Workers, by a call that has them solve a program: so the bounds by which it may wait are its own, and a function over
/// solvers has none.
#[derive(Clone, Copy)]
pub(crate) struct Workers<F> {
    pub(crate) solve: F,
}

impl<F: Fn(Analysis, u32, bool) -> Result<Solved, NoMemory>> Solver for Workers<F> {
    ghost use Rattle.std.specs.Prelude.{IfOk};
    ghost use Rattle.worker_solutions.specs.program_systems.ReadPrograms.{ReadProgram, program_of};
    ghost use Rattle.analyser.specs.reading.Replies.{IsSolved};

    ghost serves = { λ s workers history. (analysis : ReadProgram) → F.pre s.solve analysis workers history
        × ((r : _) → F.post s.solve analysis workers history r
        → IfOk r (IsSolved (program_of analysis) workers history)) };

    fn solve(&self, _alloc: Heap, analysis: Analysis, manner: Manner) -> Result<Solved, NoMemory> {
        (self.solve)(analysis, manner.workers, manner.history)
    }
}

/// The report of a program by 1 to 16 workers, who share a store; the gate is told of their passes. One worker whose
/// history is not asked for is the calling thread.
pub(crate) fn solved_by_workers<R: Threads + Wait + Sync, G: Gate>(
    rt: &R,
    alloc: Heap,
    analysis: Analysis,
    manner: Manner,
    gate: &G,
) -> Result<Solved, NoMemory>
    requires { AreFew manner.workers manner.history }
    ensures { IfOk result (IsSolved (program_of analysis) manner.workers manner.history) }
{
    if is_alone(manner) {
        return Alone.solve(alloc, analysis, manner);
    }
    let worked = report_by_workers(rt, alloc, analysis, manner.workers, gate)?;
    told_of(alloc, worked, manner.history)
}
