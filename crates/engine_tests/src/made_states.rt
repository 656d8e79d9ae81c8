//! States and stores by hand.
use crate::numbers::{Numbers, numbers};
use cell_env::{CellState, State, TempState};
use interfere_set::Store;
use pointer_dom::{AbsValue, PointerSet};
use state_tree::Tree;
use std::alloc::Global;
use tm_laid::{Laid, object_at};
use tm_lattice::{Keyed, Lattice, NoMemory};

/// A temporary with numbers, and the cell of which it is a copy.
pub type Temp = (u32, Numbers, Option<u32>);

/// A cell: its own value, its pending mutexes, and whether it is fresh and stored.
pub type Cell = (u32, Numbers, u16, bool, bool);

/// A number that a task wrote to a cell with a set of mutexes held, or left there under a mutex.
pub type Entry = (u32, u16, u32, i32);

// The address of one of these objects, at an offset.
fn address(alloc: Global, laid: &Laid, places: &[(u32, u32)]) -> Result<AbsValue, NoMemory> {
    let mut all = PointerSet::new(alloc);
    for (object, offset) in places {
        let size = object_at(laid, *object).cells;
        if *offset <= size {
            let one = PointerSet::to(alloc, *object, size, *offset)?;
            all = all.join(alloc, &one)?;
        }
    }
    Ok(AbsValue::from_pointers(all))
}

fn put_temps(temps: &mut Keyed<TempState<AbsValue>>, rows: &[Temp]) -> Result<(), NoMemory> {
    for (temp, row, copy) in rows {
        let entry = TempState {
            value: numbers(*row),
            copy: *copy,
        };
        temps.put(*temp, entry)?;
    }
    Ok(())
}

fn cells(alloc: Global, rows: &[Cell]) -> Result<Tree<CellState<AbsValue>>, NoMemory> {
    let mut cells = Tree::new(alloc);
    for (cell, row, pending, fresh, stored) in rows {
        let entry = CellState {
            value: numbers(*row),
            pending: *pending,
            fresh: *fresh,
            stored: *stored,
        };
        cells.put(*cell, entry)?;
    }
    Ok(cells)
}

/// The state with these temporaries and cells.
pub fn state(
    alloc: Global,
    temps: &[Temp],
    cell_rows: &[Cell],
) -> Result<State<AbsValue>, NoMemory> {
    let mut live = Keyed::new(alloc);
    put_temps(&mut live, temps)?;
    let own = cells(alloc, cell_rows)?;
    Ok(State::new(live, own))
}

/// The same, where the temporary 0 is the address of the places.
pub fn state_at(
    alloc: Global,
    laid: &Laid,
    places: &[(u32, u32)],
    temps: &[Temp],
    cell_rows: &[Cell],
) -> Result<State<AbsValue>, NoMemory> {
    let pointed = TempState {
        value: address(alloc, laid, places)?,
        copy: None,
    };
    let mut live = Keyed::new(alloc);
    live.put(0, pointed)?;
    put_temps(&mut live, temps)?;
    let own = cells(alloc, cell_rows)?;
    Ok(State::new(live, own))
}

// What was written, or what was left under a mutex.
fn entry(alloc: Global, is_left: bool, row: &Entry) -> Result<Store, NoMemory> {
    let (task, held, cell, number) = *row;
    let value = numbers((number, number));
    if is_left {
        Store::left(alloc, task, u32::from(held), cell, value)
    } else {
        Store::written(alloc, task, held, cell, value)
    }
}

// A store with an entry more.
fn with_entry(alloc: Global, store: &Store, is_left: bool, row: &Entry) -> Result<Store, NoMemory> {
    let one = entry(alloc, is_left, row)?;
    store.join(alloc, &one)
}

/// The store of what was written, and of what was left.
pub fn store(alloc: Global, written: &[Entry], left: &[Entry]) -> Result<Store, NoMemory> {
    let mut all = Store::new(alloc);
    for (is_left, rows) in [(false, written), (true, left)] {
        for row in rows {
            all = with_entry(alloc, &all, is_left, row)?;
        }
    }
    Ok(all)
}
