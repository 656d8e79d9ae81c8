//! The least solution of a program.
ghost use Rattle.std.specs.Prelude.{◌≡◌, IfOk};
ghost use Rattle.std.specs.Arc.{arc_value};
ghost use Rattle.thread_pass.specs.program_systems.ReadPrograms.{program_of};
ghost use Rattle.program_reports.specs.post_recheck.Pairs.{pair_of};
ghost use Rattle.program_solutions.specs.LeastReports.{IsLeastPair};
ghost use Rattle.program_solutions.specs.Tables.{AreLeastTables};

use crate::tables::completed;
use crate::turns::{Turns, passes_in_turn};
use interfere_set::Store;
use program_reports::{Solution, Table};
use std::alloc::Global;
use std::sync::Arc;
use thread_pass::Analysis;
use tm_lattice::NoMemory;

/// Least tables of all bodies, and a store that no pass raises, as the solution that they are. Nothing is checked: a
/// check would apply each edge once more, and it is a law that it finds them to be one (`least_tables_are_solutions`).
pub fn least_pair(analysis: &Analysis, tables: Vec<Table>, store: Arc<Store>) -> Solution
    requires { AreLeastTables (program_of analysis.now) (pair_of tables.items (arc_value store)) }
    ensures { IsLeastPair (program_of analysis.now) result }
{
    // The call tells that the program is one that can be analysed.
    let _parts = analysis.parts();
    Solution::new(tables, store)
}

/// The least solution of a program: the tables of its tasks and of its initial section, and its store.
pub fn solution(alloc: Global, analysis: &Analysis) -> Result<Solution, NoMemory>
    ensures { IfOk result (IsLeastPair (program_of analysis.now)) }
{
    let Turns {
        store,
        tables,
        starts: _,
        next: _,
        quiet: _,
    } = passes_in_turn(alloc, analysis)?;
    let all = completed(alloc, analysis, tables)?;
    Ok(least_pair(analysis, all, Arc::new(alloc, store)?))
}
