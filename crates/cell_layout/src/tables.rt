//! What the layout reads of a typed file.
ghost use Rattle.std.specs.Prelude.{◌≡◌};
ghost use Rattle.tm_typed.specs.CallGraph.{calls_in};
ghost use Rattle.tm_typed.specs.Scopes.{structure, cells_of, abstract_cells_of};
ghost use Rattle.tm_typed.specs.TypedFiles.{typed_file_tree};
ghost use Rattle.tm_laid.specs.Layable.{tables_of};
ghost use Rattle.tm_laid.specs.Paths.{locals_of};
ghost use Rattle.tm_laid.specs.TypeCells.{entry_of};

use tm_laid::structure_cells;
use tm_typed::{CType, LocalEntry, TypedFile};

// The parameters and local objects of a function.
#[tactic(auto, using(crate::proofs::FileTables::reads))]
pub(crate) fn locals_in(file: &TypedFile, function: u32) -> &[LocalEntry]
    ensures { result.now ≡ locals_of (typed_file_tree file.now) function }
{
    match file.functions.get(function as usize) {
        Some(found) => match &found.body {
            Some(body) => body.locals.as_slice(),
            None => &[],
        },
        None => &[],
    }
}

// The functions that a function calls, in the order of the text.
#[tactic(auto, using(crate::proofs::FileTables::reads))]
pub(crate) fn calls_of(file: &TypedFile, function: u32) -> &[u32]
    ensures { result.now ≡ calls_in (typed_file_tree file.now).calls function }
{
    match file.calls.get(function as usize) {
        Some(callees) => callees.as_slice(),
        None => &[],
    }
}

// The abstract cells of a structure, by its column.
#[tactic(auto, using(crate::proofs::FileTables::reads))]
fn structure_abstract_cells(file: &TypedFile, k: u32) -> u32
    ensures { result ≡ (structure (tables_of (typed_file_tree file.now)) k).abstract_cells }
{
    match file.structs.get(k as usize) {
        Some(found) => found.abstract_cells,
        None => 0,
    }
}

// The scalar cells of a type, by its column.
#[tactic(auto, using(crate::proofs::FileTables::reads))]
pub(crate) fn cell_column(file: &TypedFile, number: u32) -> u32
    ensures { result ≡ cells_of (tables_of (typed_file_tree file.now)) number }
{
    match file.types.get(number as usize) {
        Some(entry) => match entry.ctype {
            CType::Struct(k) => structure_cells(file, k),
            _ => entry.cells,
        },
        None => 0,
    }
}

// The abstract cells of a type, by its column.
#[tactic(auto, using(crate::proofs::FileTables::reads))]
pub(crate) fn abstract_column(file: &TypedFile, number: u32) -> u32
    ensures { result ≡ abstract_cells_of (tables_of (typed_file_tree file.now)) number }
{
    match file.types.get(number as usize) {
        Some(entry) => match entry.ctype {
            CType::Struct(k) => structure_abstract_cells(file, k),
            _ => entry.abstract_cells,
        },
        None => 0,
    }
}

// The class of a type.
#[tactic(auto, using(crate::proofs::FileTables::reads))]
pub(crate) fn class_at(file: &TypedFile, number: u32) -> u32
    ensures { result ≡ (entry_of (typed_file_tree file.now) number).class }
{
    match file.types.get(number as usize) {
        Some(entry) => entry.class,
        None => 0,
    }
}
