//! Lists of cells.
ghost use Rattle.std.specs.Prelude.{◌≡◌};

use std::alloc::Global;
use tm_lattice::NoMemory;

/// Puts cells at the end of a list.
pub(crate) fn push_all(list: &mut Vec<usize>, cells: &[usize]) -> Result<(), NoMemory> {
    list.extend_from_slice(cells)?;
    Ok(())
}

/// The mutexes at a cell; none where there is no entry.
pub(crate) fn mutexes_at(entries: &[u16], cell: usize) -> u16 {
    match entries.get(cell) {
        None => 0,
        Some(mutexes) => *mutexes,
    }
}

/// Adds mutexes at a cell, where there is an entry.
pub(crate) fn add_mutexes(entries: &mut [u16], cell: usize, mutexes: u16) {
    if cell < entries.len() {
        entries[cell] |= mutexes;
    }
}

/// Whether a mutex is in a set of sixteen.
pub(crate) fn has_mutex(mutexes: u16, mutex: u32) -> bool {
    mutex < 16 && (mutexes >> mutex) % 2 == 1
}

/// No mutexes at so many cells.
pub(crate) fn no_mutexes(alloc: Global, cells: usize) -> Result<Vec<u16>, NoMemory> {
    let mut entries = Vec::new(alloc);
    for _ in 0..cells {
        entries.push(0)?;
    }
    Ok(entries)
}
