//! What a task sees of the store at a read, and takes from it at a lock.
ghost use Rattle.std.specs.Prelude.{◌≡◌, ◌<◌, ℕ, length, IfOk};
ghost use Rattle.std.specs.Option.{option_copied};
ghost use Rattle.interfere_set.specs.Stores.{HavePriorities, is_visible, seen_of_task, reader_of, visible, handed};
ghost use Rattle.interfere_set.specs.Stores.{left_at, value_or_none};
ghost use Rattle.pointer_dom.specs.Values.{joined_values};

use crate::stores::Store;
use pointer_dom::AbsValue;
use std::alloc::Global;
use strided_dom::Strided;
use tm_lattice::{Keyed, Lattice, NoMemory};

/// What a task with these mutexes held and found free (as bits) sees in a cell: the join of what other tasks wrote
/// under sets of mutexes apart from those held, by tasks that are at least as urgent; and, where the cell is not
/// fresh, by any under sets apart from those found free.
pub fn seen_at_read(
    alloc: Global,
    store: &Store,
    task: u32,
    held: u16,
    found: u16,
    cell: u32,
    fresh: bool,
    priorities: &[u8],
) -> Result<AbsValue, NoMemory>
    requires task { task < length priorities.now }
    requires writers { HavePriorities store.now (length priorities.now) }
    ensures { IfOk result (λ seen. seen ≡ visible (reader_of task held found priorities.now) fresh cell store.now) }
{
    let weak = store.weak();
    // The call tells that each entry is a value.
    let _known = Lattice::is_nothing(weak);
    let mut seen = AbsValue::from_numbers(Strided::empty());
    for (writer, written) in weak.entries() {
        seen = seen_with_task(
            alloc, &seen, written, *writer, task, held, found, cell, fresh, priorities,
        )?;
    }
    Ok(seen)
}

// A value joined with what a task sees in a cell of the weak entries of one task.
fn seen_with_task(
    alloc: Global,
    seen: &AbsValue,
    written: &Keyed<Keyed<AbsValue>>,
    writer: u32,
    task: u32,
    held: u16,
    found: u16,
    cell: u32,
    fresh: bool,
    priorities: &[u8],
) -> Result<AbsValue, NoMemory>
    requires task { task < length priorities.now }
    requires writer { writer < length priorities.now }
    ensures { IfOk result (λ both. both ≡ joined_values seen.now
        (seen_of_task (reader_of task held found priorities.now) fresh cell writer written.now)) }
{
    let more = seen_of_task(
        alloc, written, writer, task, held, found, cell, fresh, priorities,
    )?;
    seen.join(alloc, &more)
}

// What a task sees in a cell of the weak entries of one task, by held set and cell.
fn seen_of_task(
    alloc: Global,
    written: &Keyed<Keyed<AbsValue>>,
    writer: u32,
    task: u32,
    held: u16,
    found: u16,
    cell: u32,
    fresh: bool,
    priorities: &[u8],
) -> Result<AbsValue, NoMemory>
    requires task { task < length priorities.now }
    requires writer { writer < length priorities.now }
    ensures { IfOk result (λ seen.
        seen ≡ seen_of_task (reader_of task held found priorities.now) fresh cell writer written.now) }
{
    // The call tells that each entry is a value.
    let _known = Lattice::is_nothing(written);
    let mut seen = AbsValue::from_numbers(Strided::empty());
    for (under, cells) in written.entries() {
        if shows(*under, writer, task, held, found, fresh, priorities) {
            if let Some(value) = cells.get(cell) {
                seen = seen.join(alloc, value)?;
            }
        }
    }
    Ok(seen)
}

// Whether the task sees what `writer` wrote with these mutexes held.
fn shows(
    under: u32,
    writer: u32,
    task: u32,
    held: u16,
    found: u16,
    fresh: bool,
    priorities: &[u8],
) -> bool
    requires task { task < length priorities.now }
    requires writer { writer < length priorities.now }
    ensures { result ≡ is_visible (reader_of task held found priorities.now) fresh writer under }
{
    let urgent = priorities[writer as usize] >= priorities[task as usize];
    let apart = under & u32::from(held) == 0;
    let unfound = under & u32::from(found) == 0;
    writer != task && (apart && (urgent || (!fresh && unfound)))
}

/// What a task that locks a mutex takes over in a cell: the join of what the other tasks left there when they
/// unlocked it.
pub fn taken_at_lock(
    alloc: Global,
    store: &Store,
    task: u32,
    mutex: u32,
    cell: u32,
) -> Result<AbsValue, NoMemory>
    ensures { IfOk result (λ taken. taken ≡ handed task mutex cell store.now) }
{
    let sync = store.sync();
    // The call tells that each entry is a value.
    let _known = Lattice::is_nothing(sync);
    let mut taken = AbsValue::from_numbers(Strided::empty());
    for (other, left) in sync.entries() {
        if *other != task {
            if let Some(value) = left_there(left, mutex, cell) {
                taken = taken.join(alloc, value)?;
            }
        }
    }
    Ok(taken)
}

// What a task left in a cell under a mutex, of its entries.
fn left_there(left: &Keyed<Keyed<AbsValue>>, mutex: u32, cell: u32) -> Option<&AbsValue>
    ensures { value_or_none (option_copied result) ≡ left_at mutex cell left.now }
{
    match left.get(mutex) {
        None => None,
        Some(cells) => cells.get(cell),
    }
}
