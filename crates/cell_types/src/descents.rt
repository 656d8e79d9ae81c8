//! Cells of types.
ghost use Rattle.std.specs.Prelude.{◌≡◌, ◌<◌, ◌≤◌, ◌*◌, ◌%◌, [], ◌∷◌, MatchOption, slice_get};
ghost use Rattle.tm_typed.specs.Scopes.{cells_of};
ghost use Rattle.tm_typed.specs.TypedFiles.{typed_file_tree};
ghost use Rattle.tm_laid.specs.TypeCells.{entry_of, cells_of_type};
ghost use Rattle.tm_laid.specs.Layable.{tables_of, IsLayable};
ghost use Rattle.tm_laid.specs.Layouts.{scalars_of_type};
ghost use Rattle.cell_types.specs.reading.Descents.{member_at, Leads};

use tm_laid::{members_of, structure_cells};
use tm_typed::{CType, Member, Scalar, TypeEntry, TypedFile};

/// A part of a type, and a cell of it.
#[derive(Clone, Copy)]
pub(crate) struct Inside {
    pub of: u32,
    pub cell: u32,
}

/// What one step down leads to: the scalar of the cell, if there is such a cell, or a part of the type.
#[derive(Clone, Copy)]
pub(crate) enum Down {
    Ends(Option<Scalar>),
    Goes(Inside),
}

/// The scalar cells of a type, by its column.
pub(crate) fn cells_of(file: &TypedFile, of: u32) -> u32
    ensures { result ≡ cells_of (tables_of (typed_file_tree file.now)) of }
{
    let entry = entry_at(file, of);
    match entry.ctype {
        CType::Struct(k) => structure_cells(file, k),
        _ => entry.cells,
    }
}

// A row of the table of types.
fn entry_at(file: &TypedFile, of: u32) -> TypeEntry
    ensures { result ≡ entry_of (typed_file_tree file.now) of }
{
    match file.types.get(of as usize) {
        Some(entry) => *entry,
        None => TypeEntry {
            ctype: CType::Void,
            class: 0,
            cells: 0,
            abstract_cells: 0,
            size: 0,
            tight_size: 0,
            alignment: 0,
            of_pointers: false,
        },
    }
}

// The member in which a cell stands, and the cell there.
fn member_at(file: &TypedFile, members: &[Member], cell: u32) -> Option<Inside>
    ensures { result ≡ member_at (cells_of (tables_of (typed_file_tree file.now))) members.now cell }
{
    let mut cell = cell;
    for member in members {
        let of = member.part.of.number;
        let count = cells_of(file, of);
        if cell < count {
            return Some(Inside { of, cell });
        }
        cell -= count;
    }
    None
}

// A cell of a scalar type: there is one.
fn only(scalar: Scalar, cell: u32) -> Option<Scalar>
    ensures { result ≡ slice_get (scalar ∷ []) cell }
{
    if cell == 0 { Some(scalar) } else { None }
}

// A cell of an array of `length` elements.
fn element_at(file: &TypedFile, element: u32, length: u32, cell: u32) -> Option<Inside>
    ensures { MatchOption result (length * cells_of (tables_of (typed_file_tree file.now)) element ≤ cell)
        (λ x. (cell < length * cells_of (tables_of (typed_file_tree file.now)) element) ×
        (x ≡ record { of = element; cell = cell % cells_of (tables_of (typed_file_tree file.now)) element })) }
{
    let count = cells_of(file, element);
    if u64::from(cell) < u64::from(length) * u64::from(count) {
        Some(Inside {
            of: element,
            cell: cell % count,
        })
    } else {
        None
    }
}

// One step down.
fn step_down(file: &TypedFile, part: Inside) -> Down
    requires layable { IsLayable (typed_file_tree file.now) file.now.order.items }
    requires small { cells_of_type (typed_file_tree file.now) part.of ≤ 65536 }
    ensures { Leads (typed_file_tree file.now) part result }
{
    let entry = entry_at(file, part.of);
    match entry.ctype {
        CType::Void => Down::Ends(None),
        CType::Int(of) => Down::Ends(only(Scalar::Int(of), part.cell)),
        CType::Pointer(_) => Down::Ends(only(Scalar::Pointer(entry.class), part.cell)),
        CType::Array { element, length } => match element_at(file, element, length, part.cell) {
            Some(next) => Down::Goes(next),
            None => Down::Ends(None),
        },
        CType::Struct(k) => match member_at(file, members_of(file, k), part.cell) {
            Some(next) => Down::Goes(next),
            None => Down::Ends(None),
        },
    }
}

/// The scalar of a cell of a type; none beyond its last one.
#[tactic(auto, using(crate::proofs::Steps::goes_on, crate::proofs::Steps::begins, crate::proofs::Steps::ends_at, crate::proofs::Steps::too_deep))]
pub fn scalar_of(file: &TypedFile, of: u32, cell: u32) -> Option<Scalar>
    requires layable { IsLayable (typed_file_tree file.now) file.now.order.items }
    requires small { cells_of_type (typed_file_tree file.now) of ≤ 65536 }
    ensures { result ≡ slice_get (scalars_of_type (typed_file_tree file.now) of) cell }
{
    let mut part = Inside { of, cell };
    for _step in 0..file.types.len() + file.structs.len() {
        match step_down(file, part) {
            Down::Ends(found) => return found,
            Down::Goes(next) => part = next,
        }
    }
    None
}
