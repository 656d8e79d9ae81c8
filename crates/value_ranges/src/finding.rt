//! Ranges and dead places.
ghost use Rattle.std.specs.Prelude.{IfOk};
ghost use Rattle.program_reports.specs.post_recheck.program_equations.Solutions.{tables_of};
ghost use Rattle.program_reports.specs.post_recheck.program_systems.Analysable.{IsAnalysable};
ghost use Rattle.program_reports.specs.post_recheck.program_systems.ProgramFacts.{AreProgramFacts, program_with};
ghost use Rattle.program_reports.specs.post_recheck.Pairs.{FitsPair, lists_of, pair_of};
ghost use Rattle.value_ranges.specs.Ranges.{AreLeast, AreRanges, AreCellRanges};
ghost use Rattle.value_ranges.specs.Places.{AreDead};

use crate::bounds::listed;
use crate::grouped::grouped;
use crate::notes::noted_in;
use crate::object_bounds::{Grouping, ObjectBounds, Ranges};
use crate::places::dead_places;
use interfere_set::Store;
use mutex_configs::Program;
use program_reports::{ProgramFacts, Table};
use std::alloc::Global;
use tm_lattice::NoMemory;

/// The bounds of each object of which the tables and the store of the least solution tell a number: the least and the
/// greatest of the numbers that its integer cells hold before the program runs, of their own values in the states of
/// all nodes, and of their weak entries. And the dead places: those at which a load, a store, a lock or an unlock of a
/// body stands, and none that leaves a node with a state. In the least solution a cell holds more than at the nodes
/// before only at the first node of a body, at heads, and behind stores, clearings, locks and probes, so it is there
/// that tables are looked at.
pub fn least_ranges(
    alloc: Global,
    program: &Program,
    facts: &ProgramFacts,
    tables: &[Table],
    store: &Store,
) -> Result<Ranges, NoMemory>
    requires analysable { IsAnalysable program.now }
    requires facts { AreProgramFacts program.now facts.now }
    requires fits { FitsPair (program_with program.now facts.now) (pair_of tables.now store.now) }
    requires least { AreLeast (program_with program.now facts.now) (lists_of tables.now) store.now }
    ensures bounds { IfOk result (λ ranges. AreRanges (program_with program.now facts.now)
        (tables_of (lists_of tables.now)) store.now ranges.bounds.items) }
    ensures dead { IfOk result (λ ranges. AreDead (program_with program.now facts.now)
        (tables_of (lists_of tables.now)) ranges.dead.items) }
{
    let noted = noted_in(alloc, program, facts, Grouping::Objects, tables, store)?;
    let bounds = listed(alloc, &noted)?;
    let dead = dead_places(alloc, &program.graphs.graphs, &program.configured, tables)?;
    Ok(Ranges { bounds, dead })
}

/// For each abstract cell the bounds of the numbers that the tables and the store of the least solution tell of it, if
/// it is of integer type and of an object of static storage: of those that it holds before the program runs, of its own
/// values in the states of all nodes, and of its weak entries.
pub fn least_cell_ranges(
    alloc: Global,
    program: &Program,
    facts: &ProgramFacts,
    tables: &[Table],
    store: &Store,
) -> Result<Vec<Option<ObjectBounds>>, NoMemory>
    requires analysable { IsAnalysable program.now }
    requires facts { AreProgramFacts program.now facts.now }
    requires fits { FitsPair (program_with program.now facts.now) (pair_of tables.now store.now) }
    requires least { AreLeast (program_with program.now facts.now) (lists_of tables.now) store.now }
    ensures { IfOk result (λ bounds. AreCellRanges (program_with program.now facts.now)
        (tables_of (lists_of tables.now)) store.now bounds.items) }
{
    let bounds = noted_in(alloc, program, facts, Grouping::Cells, tables, store)?;
    Ok(bounds)
}

/// The same as `least_ranges`, of any tables and store, where the bounds of the abstract cells are found already: those
/// of an object are of its cells.
pub fn ranges_by_cells(
    alloc: Global,
    program: &Program,
    facts: &ProgramFacts,
    tables: &[Table],
    store: &Store,
    cells: &[Option<ObjectBounds>],
) -> Result<Ranges, NoMemory>
    requires analysable { IsAnalysable program.now }
    requires facts { AreProgramFacts program.now facts.now }
    requires fits { FitsPair (program_with program.now facts.now) (pair_of tables.now store.now) }
    requires cells { AreCellRanges (program_with program.now facts.now) (tables_of (lists_of tables.now)) store.now
        cells.now }
    ensures bounds { IfOk result (λ ranges. AreRanges (program_with program.now facts.now)
        (tables_of (lists_of tables.now)) store.now ranges.bounds.items) }
    ensures dead { IfOk result (λ ranges. AreDead (program_with program.now facts.now)
        (tables_of (lists_of tables.now)) ranges.dead.items) }
{
    let _store = store;
    let noted = grouped(alloc, &program.laid, cells)?;
    let bounds = listed(alloc, &noted)?;
    let dead = dead_places(alloc, &program.graphs.graphs, &program.configured, tables)?;
    Ok(Ranges { bounds, dead })
}
