//! The abstract cells of an object that have one type.

use indexmap::IndexSet;
use std::alloc::Global;
use tm_cint::IntType;
use tm_laid::{Laid, Scalar};
use tm_lattice::NoMemory;

// The type of a cell.
#[derive(Clone, Copy, PartialEq, Eq, Hash)]
enum CellType {
    Int(IntType),
    Pointer(u32),
}

// An object and a type.
#[derive(Clone, Copy, PartialEq, Eq, Hash)]
struct GroupKey {
    object: u32,
    of: CellType,
}

/// The abstract cells of a layout in groups, by object and type. The groups are numbered from 0.
#[derive(Drop)]
pub(crate) struct Groups {
    keys: IndexSet<GroupKey>,
    cells: Vec<Vec<usize>>,
}

fn key_of(object: u32, scalar: Scalar) -> GroupKey {
    match scalar {
        Scalar::Int(of) => GroupKey {
            object,
            of: CellType::Int(of),
        },
        Scalar::Pointer(class) => GroupKey {
            object,
            of: CellType::Pointer(class),
        },
    }
}

/// The groups of a layout.
pub(crate) fn groups_of(alloc: Global, laid: &Laid) -> Result<Groups, NoMemory> {
    let mut groups = Groups {
        keys: IndexSet::new(alloc),
        cells: Vec::new(alloc),
    };
    for number in 0..laid.abstract_cells.len() {
        let cell = laid.abstract_cells[number];
        groups.put(alloc, key_of(cell.object, cell.scalar), number)?;
    }
    Ok(groups)
}

impl Groups {
    // Puts a cell into the group of a key.
    fn put(&mut self, alloc: Global, key: GroupKey, cell: usize) -> Result<(), NoMemory> {
        let (group, is_new) = self.keys.insert_full(key)?;
        if is_new {
            self.cells.push(Vec::new(alloc))?;
        }
        if let Some(cells) = self.cells.get_mut(group) {
            cells.push(cell)?;
        }
        Ok(())
    }

    /// How many groups there are.
    pub(crate) fn count(&self) -> usize {
        self.keys.len()
    }

    /// The group of the cells of an object that have this type, if there are any.
    pub(crate) fn group_of(&self, object: u32, scalar: Scalar) -> Option<usize> {
        self.keys.get_index_of(&key_of(object, scalar))
    }

    /// The cells of a group, in rising order.
    pub(crate) fn cells(&self, group: usize) -> &[usize] {
        match self.cells.get(group) {
            None => &[],
            Some(cells) => cells.as_slice(),
        }
    }
}
