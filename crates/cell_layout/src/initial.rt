//! What static cells hold before the program runs.
ghost use Rattle.std.specs.Prelude.{◌≡◌, ◌+◌, ◌≤◌, ◌++◌, ◌∷◌, [], map, IfOk, OnOk, get_or, slice_set};
ghost use Rattle.tm_typed.specs.TypedFiles.{typed_file_tree, typed_static_tree};
ghost use Rattle.tm_laid.specs.TypeCells.{cells_of_type, abstract_cells_of_type, type_cells, type_depth};
ghost use Rattle.tm_laid.specs.Objects.{nothing_given, value_given, with_given, initial_values, static_objects};
ghost use Rattle.tm_laid.specs.Layouts.{summed_types};
ghost use Rattle.tm_laid.specs.Layable.{IsLayable};
ghost use Rattle.cell_layout.specs.reading.Parts.{AreCores};

use crate::cells::{Cells, lay_object};
use std::alloc::Global;
use tm_laid::Initial;
use tm_lattice::NoMemory;
use tm_typed::{Scalar, StaticCell, StaticValue, TypedFile, TypedStatic};

// What a cell holds that is not given.
fn nothing(scalar: Scalar) -> Initial
    ensures { result ≡ nothing_given scalar }
{
    match scalar {
        Scalar::Int(_) => Initial::Number(0),
        Scalar::Pointer(_) => Initial::Null,
    }
}

// The number of an object of static storage.
fn number_at(numbers: &[u32], object: u32) -> u32
    ensures { result ≡ get_or numbers.now object 0 }
{
    match numbers.get(object as usize) {
        Some(number) => *number,
        None => 0,
    }
}

// What a cell holds that is given, where objects have these numbers.
fn given(numbers: &[u32], value: StaticValue) -> Initial
    ensures { result ≡ value_given numbers.now value }
{
    match value {
        StaticValue::Number(number) => Initial::Number(number),
        StaticValue::Null => Initial::Null,
        StaticValue::Address { object, cell } => Initial::To {
            object: number_at(numbers, object),
            offset: cell,
        },
    }
}

// The cells of an object of this type, of which none is given.
fn zeros(
    alloc: Global,
    file: &TypedFile,
    cores: &[u32],
    number: u32,
) -> Result<Vec<Initial>, NoMemory>
    requires layable { IsLayable (typed_file_tree file.now) file.now.order.items }
    requires cores { AreCores (typed_file_tree file.now) cores.now }
    requires cells { cells_of_type (typed_file_tree file.now) number ≤ 65536 }
    requires abstract_cells { abstract_cells_of_type (typed_file_tree file.now) number ≤ 65536 }
    ensures { IfOk result (λ v. v.items ≡ map (λ c. nothing_given c.scalar)
        (type_cells (typed_file_tree file.now) (type_depth (typed_file_tree file.now)) number 0)) }
{
    let mut cells = Cells {
        cells: Vec::new(alloc),
        abstract_cells: Vec::new(alloc),
    };
    lay_object(alloc, file, cores, 0, number, 0, &mut cells)?;
    let mut values = Vec::new(alloc);
    for cell in &cells.cells {
        values.push(nothing(cell.scalar))?;
    }
    Ok(values)
}

// A cell is given, where there is one.
fn put(values: &mut Vec<Initial>, cell: u32, value: Initial)
    ensures { values.new.items ≡ slice_set values.old.items cell value }
{
    if (cell as usize) < values.len() {
        values[cell as usize] = value;
    }
}

// Some cells are given.
fn put_all(values: &mut Vec<Initial>, numbers: &[u32], cells: &[StaticCell])
    ensures { values.new.items ≡ with_given numbers.now cells.now values.old.items }
{
    for cell in cells {
        put(values, cell.cell, given(numbers, cell.value));
    }
}

// The cells of an object of static storage stand behind the others, where it is defined.
fn push_initial(
    alloc: Global,
    file: &TypedFile,
    cores: &[u32],
    numbers: &[u32],
    object: &TypedStatic,
    held: &mut Vec<Initial>,
) -> Result<(), NoMemory>
    requires layable { IsLayable (typed_file_tree file.now) file.now.order.items }
    requires cores { AreCores (typed_file_tree file.now) cores.now }
    requires cells { summed_types (cells_of_type (typed_file_tree file.now))
        (static_objects (typed_static_tree object.now ∷ [])) ≤ 65536 }
    requires abstract_cells { summed_types (abstract_cells_of_type (typed_file_tree file.now))
        (static_objects (typed_static_tree object.now ∷ [])) ≤ 65536 }
    ensures { OnOk result (held.new.items ≡ held.old.items ++ initial_values (typed_file_tree file.now) numbers.now
        (typed_static_tree object.now ∷ [])) }
{
    if object.defined {
        let mut values = zeros(alloc, file, cores, object.of.number)?;
        put_all(&mut values, numbers, &object.given);
        held.extend_from_slice(&values)?;
        Ok(())
    } else {
        Ok(())
    }
}

/// What the cells of objects of static storage hold before the program runs.
pub(crate) fn initial_cells(
    alloc: Global,
    file: &TypedFile,
    cores: &[u32],
    numbers: &[u32],
) -> Result<Vec<Initial>, NoMemory>
    requires layable { IsLayable (typed_file_tree file.now) file.now.order.items }
    requires cores { AreCores (typed_file_tree file.now) cores.now }
    requires cells { summed_types (cells_of_type (typed_file_tree file.now))
        (static_objects (typed_file_tree file.now).statics) ≤ 65536 }
    requires abstract_cells { summed_types (abstract_cells_of_type (typed_file_tree file.now))
        (static_objects (typed_file_tree file.now).statics) ≤ 65536 }
    ensures { IfOk result (λ v. v.items ≡ initial_values (typed_file_tree file.now) numbers.now
        (typed_file_tree file.now).statics) }
{
    let mut held = Vec::new(alloc);
    for object in &file.statics {
        push_initial(alloc, file, cores, numbers, object, &mut held)?;
    }
    Ok(held)
}
