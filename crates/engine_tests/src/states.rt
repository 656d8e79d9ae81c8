//! States of a task at a node.
use crate::made_states::{Cell, Temp, state};
use crate::numbers::{NONE, is_numbers};
use cell_env::State;
use pointer_dom::AbsValue;
use std::alloc::Global;
use std::test::Fail;
use tm_lattice::{Lattice, NoMemory};

/// Whether a state has such a temporary.
fn has_temp(state: &State<AbsValue>, temp: &Temp) -> bool {
    match state.temp(temp.0) {
        None => false,
        Some(found) => is_numbers(&found.value, temp.1) && found.copy == temp.2,
    }
}

fn has_temps(state: &State<AbsValue>, temps: &[Temp]) -> bool {
    for temp in temps {
        if !has_temp(state, temp) {
            return false;
        }
    }
    true
}

/// Whether a state has such a cell.
fn has_cell(state: &State<AbsValue>, cell: &Cell) -> bool {
    match state.cell(cell.0) {
        None => false,
        Some(found) => {
            is_numbers(&found.value, cell.1)
                && found.pending == cell.2
                && found.fresh == cell.3
                && found.stored == cell.4
        }
    }
}

fn has_cells(state: &State<AbsValue>, cells: &[Cell]) -> bool {
    for cell in cells {
        if !has_cell(state, cell) {
            return false;
        }
    }
    true
}

/// Whether a state lies above two others that differ.
fn lies_above(both: &State<AbsValue>, one: &State<AbsValue>, other: &State<AbsValue>) -> bool {
    one.below(both) && other.below(both) && !both.below(one) && !both.below(other)
}

/// Whether a state has no more than the temporaries 3 and 4 and the cells 7 and 8, and is not nothing all the same.
fn has_no_more(state: &State<AbsValue>) -> bool {
    !state.is_nothing() && state.temp(5).is_none() && state.cell(9).is_none()
}

/// Whether the join of two states has of each part what it should.
fn are_joined(
    alloc: Global,
    one: &State<AbsValue>,
    other: &State<AbsValue>,
) -> Result<bool, NoMemory> {
    let both = one.join(alloc, other)?;
    let temps = has_temps(&both, &[(3, (1, 2), Some(7)), (4, (0, 0), None)]);
    let cells = has_cells(
        &both,
        &[(7, (1, 2), 3, false, true), (8, (5, 5), 0, true, false)],
    );
    Ok(temps & cells & lies_above(&both, one, other) & has_no_more(&both))
}

/// The same with the other state made here.
fn joins_with_another(alloc: Global, one: &State<AbsValue>) -> Result<bool, NoMemory> {
    let other = state(
        alloc,
        &[(3, (2, 2), Some(7)), (4, (0, 0), Some(8))],
        &[(7, (2, 2), 2, false, true), (8, NONE, 0, true, true)],
    )?;
    are_joined(alloc, one, &other)
}

/// And the first one too.
fn join(alloc: Global) -> Result<bool, NoMemory> {
    let one = state(
        alloc,
        &[(3, (1, 1), Some(7)), (4, (0, 0), Some(7))],
        &[(7, (1, 1), 1, true, true), (8, (5, 5), 0, true, false)],
    )?;
    joins_with_another(alloc, &one)
}

#[test]
fn states_join_part_by_part(rt: HostRuntime) -> Result<(), Fail> {
    assert!(rt; join(rt.alloc())?);
    Ok(())
}
