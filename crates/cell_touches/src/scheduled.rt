//! The cells that a body's locks, unlocks, yields and probes carry.

use crate::cell_lists::{has_mutex, mutexes_at, push_all};
use cell_placings::{CellSet, cells_at};
use row_checks::Traces;
use std::alloc::Global;
use tm_lattice::NoMemory;

/// By mutex the cells that a lock of it carries, those that a probe that finds it free carries, and those that an
/// unlock of it carries.
#[derive(Drop)]
pub(crate) struct Scheduled {
    locks: Vec<CellSet>,
    probes: Vec<CellSet>,
    unlocks: Vec<CellSet>,
}

// The cells at which a mutex is in the set.
fn cells_with(alloc: Global, mutexes: &[u16], mutex: u32) -> Result<Vec<usize>, NoMemory> {
    let mut cells = Vec::new(alloc);
    for cell in 0..mutexes.len() {
        if has_mutex(mutexes_at(mutexes, cell), mutex) {
            cells.push(cell)?;
        }
    }
    Ok(cells)
}

// By mutex the cells at which it is in the set, and those of a list.
fn sets_by_mutex(alloc: Global, mutexes: &[u16], more: &[usize]) -> Result<Vec<CellSet>, NoMemory> {
    let mut sets = Vec::new(alloc);
    for mutex in 0..16 {
        let mut cells = cells_with(alloc, mutexes, mutex)?;
        push_all(&mut cells, more)?;
        sets.push(CellSet::from_cells(cells))?;
    }
    Ok(sets)
}

/// The cells that the scheduler's operations carry in a body with these traces, where others may hand cells over under
/// these mutexes.
pub(crate) fn scheduled_cells(
    alloc: Global,
    traces: &Traces,
    handed: &[u16],
) -> Result<Scheduled, NoMemory> {
    Ok(Scheduled {
        locks: sets_by_mutex(alloc, handed, traces.fresh.cells())?,
        probes: sets_by_mutex(alloc, handed, &[])?,
        unlocks: sets_by_mutex(alloc, &traces.pending, &[])?,
    })
}

impl Scheduled {
    /// The cells that a lock of a mutex carries: those that others may hand over, and those that may be fresh.
    pub(crate) fn locked(&self, mutex: u32) -> &[usize] {
        cells_at(&self.locks, mutex as usize)
    }

    /// The cells that a probe carries that finds the mutex free: those that others may hand over.
    pub(crate) fn found_free(&self, mutex: u32) -> &[usize] {
        cells_at(&self.probes, mutex as usize)
    }

    /// The cells that an unlock of a mutex carries: those at which it may be pending.
    pub(crate) fn unlocked(&self, mutex: u32) -> &[usize] {
        cells_at(&self.unlocks, mutex as usize)
    }
}
