//! To which objects cells of static storage point before a program runs.

use crate::groups::Groups;
use crate::holders::Holders;
use crate::pointees::Pointees;
use tm_laid::{Initial, Laid};
use tm_lattice::NoMemory;

// A cell of static storage points to an object.
fn add_initial(
    laid: &Laid,
    groups: &Groups,
    holders: &Holders,
    cell: usize,
    object: u32,
    pointees: &mut Pointees,
) -> Result<(), NoMemory> {
    let Some(laid_cell) = laid.cells.get(cell) else {
        return Ok(());
    };
    match groups.group_of(laid_cell.object, laid_cell.scalar) {
        None => Ok(()),
        Some(group) => pointees.put(holders.group(group), object),
    }
}

/// What cells of static storage hold before the program runs.
pub(crate) fn add_initials(
    laid: &Laid,
    groups: &Groups,
    holders: &Holders,
    pointees: &mut Pointees,
) -> Result<(), NoMemory> {
    for cell in 0..laid.initial.len() {
        if let Initial::To { object, .. } = laid.initial[cell] {
            add_initial(laid, groups, holders, cell, object, pointees)?;
        }
    }
    Ok(())
}
