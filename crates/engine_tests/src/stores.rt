//! What a task sees of the others, and is handed by them.
ghost use Rattle.std.specs.Prelude.{IsTrue};
ghost use Rattle.interfere_set.specs.Stores.{HavePriorities};

use crate::made_states::{Entry, store};
use crate::numbers::{NONE, Numbers, numbers};
use interfere_set::{Store, seen_at_read, taken_at_lock};
use pointer_dom::AbsValue;
use std::alloc::Global;
use std::test::Fail;
use tm_lattice::{Lattice, NoMemory};

/// What was written to the cell 0, by the task, the mutexes held, the cell and the number.
const WRITTEN: [Entry; 4] = [
    (1, 0b00, 0, 0),
    (1, 0b01, 0, 3),
    (1, 0b10, 0, 8),
    (2, 0b00, 0, 20),
];

/// What was left there under the mutex 0.
const LEFT: [Entry; 2] = [(1, 0, 0, 5), (2, 0, 0, 30)];

/// A reader: its task, the mutexes that it holds and found free, the cell, whether that is fresh; and the hull of what
/// it sees.
type Row = (u32, u16, u16, u32, bool, Numbers);

/// Of the tasks 0, 1 and 2 the first two have the priorities 2 and 1, and the third has 2.
const ROWS: [Row; 9] = [
    (0, 0b00, 0b00, 0, false, (0, 20)),
    (0, 0b00, 0b00, 0, true, (20, 20)),
    (0, 0b01, 0b00, 0, false, (0, 20)),
    (1, 0b00, 0b00, 0, true, (20, 20)),
    (2, 0b11, 0b00, 0, false, (0, 0)),
    (2, 0b11, 0b00, 0, true, NONE),
    (2, 0b00, 0b11, 0, false, (0, 0)),
    (2, 0b01, 0b00, 0, false, (0, 8)),
    (0, 0b00, 0b00, 1, false, NONE),
];

/// Whether the least and the greatest number of a value are these.
fn has_ends(value: &AbsValue, row: Numbers) -> bool {
    if row.1 < row.0 {
        return value.is_nothing();
    }
    let set = value.numbers();
    value.below(&numbers(row)) && set.has(i128::from(row.0)) && set.has(i128::from(row.1))
}

/// Whether each task that wrote something is one of so many tasks.
pub(crate) fn have_priorities(store: &Store, tasks: usize) -> bool
    ensures { IsTrue result → HavePriorities store.now tasks }
{
    for (writer, _written) in store.weak().entries() {
        if *writer as usize >= tasks {
            return false;
        }
    }
    true
}

/// Whether what the reader of a row sees is as the row says.
fn is_seen(alloc: Global, store: &Store, row: &Row) -> Result<bool, NoMemory> {
    let priorities = [2, 1, 2];
    let (task, held, found, cell, fresh, wanted) = *row;
    if task >= 3 || !have_priorities(store, priorities.len()) {
        return Ok(false);
    }
    let seen = seen_at_read(alloc, store, task, held, found, cell, fresh, &priorities)?;
    Ok(has_ends(&seen, wanted))
}

fn are_seen(alloc: Global, store: &Store) -> Result<bool, NoMemory> {
    for row in &ROWS {
        if !is_seen(alloc, store, row)? {
            return Ok(false);
        }
    }
    Ok(true)
}

/// A task, a mutex that it locks, a cell; and the hull of what it is handed.
const HANDED: [(u32, u32, u32, Numbers); 5] = [
    (0, 0, 0, (5, 30)),
    (1, 0, 0, (30, 30)),
    (2, 0, 0, (5, 5)),
    (0, 1, 0, NONE),
    (0, 0, 1, NONE),
];

fn are_handed(alloc: Global, store: &Store) -> Result<bool, NoMemory> {
    for (task, mutex, cell, wanted) in &HANDED {
        let handed = taken_at_lock(alloc, store, *task, *mutex, *cell)?;
        if !has_ends(&handed, *wanted) {
            return Ok(false);
        }
    }
    Ok(true)
}

/// Whether all that is read and handed over is as the rows say.
fn is_shown(alloc: Global) -> Result<bool, NoMemory> {
    let store = store(alloc, &WRITTEN, &LEFT)?;
    is_shown_of(alloc, &store)
}

fn is_shown_of(alloc: Global, store: &Store) -> Result<bool, NoMemory> {
    Ok(are_seen(alloc, store)? && are_handed(alloc, store)?)
}

#[test]
fn what_is_seen_at_a_read_and_handed_at_a_lock(rt: HostRuntime) -> Result<(), Fail> {
    assert!(rt; is_shown(rt.alloc())?);
    Ok(())
}
