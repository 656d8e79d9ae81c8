//! Runs of tasks along their graphs.
ghost use Rattle.std.specs.Prelude.{◌≡◌, ℕ, ◌+◌, ◌<◌, ◌^◌, [], length, get_or, IfOk, IsTrue};
ghost use Rattle.tm_laid.specs.Layouts.{laid_tree};
ghost use Rattle.graph_positions.specs.declared.runs.Run.{Run};
ghost use Rattle.graph_positions.specs.Positions.{HasRoom};
ghost use Rattle.concrete_worlds.specs.Lawful.{HasWorlds, HasGraphs, task_count};
ghost use Rattle.concrete_worlds.specs.reading.Starts.{AreStarted};

use flow_graph::Graph;
use graph_positions::Run;
use std::alloc::Global;
use tm_laid::Laid;
use tm_lattice::NoMemory;

// Whether each run has room for one more answer.
pub(crate) fn have_room(runs: &[Run]) -> bool
    ensures { IsTrue result → (task : ℕ) (run : Run) → task < length runs.now
        → HasRoom (get_or runs.now task run).position }
{
    for run in runs {
        if run.position.used >= u64::MAX - 1 {
            return false;
        }
    }
    true
}

// How many tasks there are, the initial section counted where there is one.
fn count_of_tasks(laid: &Laid) -> usize
    requires { length laid.now.file.tasks.items < 2 ^ 32 }
    ensures { result ≡ task_count laid.now }
{
    match laid.file.main {
        None => laid.file.tasks.len(),
        Some(_) => laid.file.tasks.len() + 1,
    }
}

/// The runs of all tasks, and behind them that of the initial section, before any answer.
pub(crate) fn start_runs(alloc: Global, laid: &Laid, graphs: &[Graph]) -> Result<Vec<Run>, NoMemory>
    requires worlds { HasWorlds laid.now }
    requires graphs { HasGraphs laid.now graphs.now }
    ensures { IfOk result (λ v. AreStarted (laid_tree laid.now) graphs.now (task_count laid.now) v.items) }
{
    let mut runs = Vec::new(alloc);
    for task in 0..count_of_tasks(laid) {
        runs.push(Run::start(alloc, laid, &graphs[task])?)?;
    }
    Ok(runs)
}
