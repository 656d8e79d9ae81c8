//! Least tables of the counting loop.
use crate::counting_loop::{CountingLoop, Level, LoopOver, passed};
use least_tables::{Settled, least_by_passes, least_table, warm_starts};
use std::alloc::Global;
use std::test::Fail;
use table_covers::{Uncovered, first_uncovered};
use tm_lattice::{NoMemory, Passer};

/// Whether the three nodes of a table have these levels.
fn has_levels(table: &[Option<Level>], levels: [u8; 3]) -> bool {
    let found = table
        .iter()
        .map(|level| level.map_or(99, |level| level.number()));
    found.eq(levels)
}

/// Whether the least table has these levels and covers all edges, and how many were applied for it.
fn ends_at(alloc: Global, system: &LoopOver<'_>, levels: [u8; 3]) -> Result<(bool, u64), NoMemory> {
    let Settled { table, visits } = least_table(alloc, system)?;
    let uncovered = first_uncovered(alloc, system, &table)?;
    Ok((uncovered.is_none() && has_levels(&table, levels), visits))
}

/// The first edge of a system that the least table of another one leaves open.
fn first_open(
    alloc: Global,
    system: &LoopOver<'_>,
    other: &LoopOver<'_>,
) -> Result<Option<usize>, NoMemory> {
    let Settled {
        table,
        visits: _visits,
    } = least_table(alloc, other)?;
    match first_uncovered(alloc, system, &table)? {
        Some(Uncovered::Edge(edge)) => Ok(Some(edge)),
        _ => Ok(None),
    }
}

/// A loop's mark, by how much each edge raises, the levels of the three nodes, and the first edge that the table of a
/// loop which does not count leaves open.
type Row = (u8, u8, [u8; 3], Option<usize>);

const ROWS: [Row; 4] = [
    (4, 1, [0, 9, 9], Some(0)),
    (4, 0, [0, 4, 4], None),
    (0, 0, [0, 0, 0], None),
    (9, 3, [0, 9, 9], None),
];

fn is_so(alloc: Global, row: &Row) -> Result<bool, NoMemory> {
    let (mark, by, levels, open) = *row;
    if by > 9 {
        return Ok(false);
    }
    let program = CountingLoop { mark };
    let store = Level(by);
    let system = LoopOver {
        program: &program,
        store: &store,
    };
    let idle = LoopOver {
        program: &program,
        store: &Level(0),
    };
    let (ends, visits) = ends_at(alloc, &system, levels)?;
    let (added, passed_visits) = passed(alloc, &system)?;
    let added = added.number();
    let given = program.pass(alloc, 0, &store)?.number();
    // Two nodes rise from bottom, each along an edge.
    let counted = visits >= 2 && passed_visits == visits;
    let adds = added == levels[1] && given == levels[1];
    Ok(ends && counted && adds && first_open(alloc, &system, &idle)? == open)
}

#[test]
fn loops_end_at_their_least_tables(rt: HostRuntime) -> Result<(), Fail> {
    for row in &ROWS {
        assert!(rt; is_so(rt.alloc(), row)?);
    }
    Ok(())
}

// The laws hold of this program: its premises can be met.
#[test]
fn passes_end_in_the_least_solution() {
    least_by_passes::<CountingLoop>();
    warm_starts::<CountingLoop>();
}
