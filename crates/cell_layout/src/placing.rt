//! Where the cells of objects stand.
ghost use Rattle.std.specs.Prelude.{◌≡◌, ◌+◌, ◌≤◌, IfOk, OnOk, All};
ghost use Rattle.tm_typed.specs.TypedFiles.{typed_file_tree};
ghost use Rattle.tm_laid.specs.TypeCells.{cells_of_type, abstract_cells_of_type};
ghost use Rattle.tm_laid.specs.Objects.{objects_from, cells_from, abstracts_from};
ghost use Rattle.tm_laid.specs.Layouts.{summed_types};
ghost use Rattle.tm_laid.specs.Layable.{IsLayable};
ghost use Rattle.cell_layout.specs.reading.Parts.{AreCores};
ghost use Rattle.cell_layout.specs.reading.Placing.{IsSmallObject, HasObjects, AreCells};

use crate::cells::{Cells, lay_object};
use crate::tables::{abstract_column, cell_column};
use std::alloc::Global;
use tm_laid::{DeclaredObject, LaidObject};
use tm_lattice::NoMemory;
use tm_typed::TypedFile;

/// The objects with their cells and abstract cells one behind the other.
pub(crate) fn placed(
    alloc: Global,
    file: &TypedFile,
    declared: &[DeclaredObject],
) -> Result<Vec<LaidObject>, NoMemory>
    requires layable { IsLayable (typed_file_tree file.now) file.now.order.items }
    requires cells { summed_types (cells_of_type (typed_file_tree file.now)) declared.now ≤ 65536 }
    requires abstract_cells { summed_types (abstract_cells_of_type (typed_file_tree file.now)) declared.now ≤ 65536 }
    ensures { IfOk result (λ v. HasObjects (typed_file_tree file.now) declared.now v.items) }
{
    let mut objects = Vec::new(alloc);
    let mut cell = 0;
    let mut abstract_cell = 0;
    for object in declared {
        let cells = cell_column(file, object.of.number);
        let abstract_cells = abstract_column(file, object.of.number);
        objects.push(LaidObject {
            name: object.name,
            place: object.place,
            of: object.of,
            owner: object.owner,
            first_cell: cell,
            cells,
            first_abstract: abstract_cell,
            abstract_cells,
        })?;
        cell += cells;
        abstract_cell += abstract_cells;
    }
    Ok(objects)
}

/// The cells and abstract cells of objects.
pub(crate) fn laid_cells(
    alloc: Global,
    file: &TypedFile,
    cores: &[u32],
    objects: &[LaidObject],
) -> Result<Cells, NoMemory>
    requires layable { IsLayable (typed_file_tree file.now) file.now.order.items }
    requires cores { AreCores (typed_file_tree file.now) cores.now }
    requires small { All (IsSmallObject (typed_file_tree file.now)) objects.now }
    ensures { IfOk result (λ c. AreCells (typed_file_tree file.now) objects.now c) }
{
    let mut cells = Cells {
        cells: Vec::new(alloc),
        abstract_cells: Vec::new(alloc),
    };
    let mut number = 0;
    for object in objects {
        lay_object(
            alloc,
            file,
            cores,
            number,
            object.of.number,
            object.first_abstract,
            &mut cells,
        )?;
        number = next_object(number)?;
    }
    Ok(cells)
}

// The number of the next object. Where it would be 2^32, there is no memory for so many objects.
fn next_object(number: u32) -> Result<u32, NoMemory>
    ensures { IfOk result (λ n. n ≡ number + 1) }
{
    match number.checked_add(1) {
        Some(next) => Ok(next),
        None => Err(NoMemory),
    }
}
