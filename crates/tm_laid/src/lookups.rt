//! What stands in the tables of a layout and of its file, and what stands in place of an entry that there is not.
ghost use Rattle.std.specs.Prelude.{◌≡◌};
ghost use Rattle.tm_typed.specs.Scopes.{structure};
ghost use Rattle.tm_typed.specs.TypedFiles.{typed_file_tree};
ghost use Rattle.tm_laid.specs.Layable.{tables_of};
ghost use Rattle.tm_laid.specs.TypeCells.{entry_of, structure_in};
ghost use Rattle.tm_laid.specs.Layouts.{laid_tree, path_at, object_at, cell_at, abstract_at, first_path, callee};
ghost use Rattle.tm_laid.specs.Layouts.{is_same_scalar};

use crate::cells::{AbstractCell, LaidCell};
use crate::layouts::Laid;
use crate::objects::LaidObject;
use crate::paths::CallPath;
use tm_typed::{CType, Member, Name, Place, Qualified, Scalar, TypedFile, is_same_int};

/// What a type is, by its number; where there is none, `void`.
pub fn type_at(file: &TypedFile, number: u32) -> CType
    ensures { result ≡ (entry_of (typed_file_tree file.now) number).ctype }
{
    match file.types.get(number as usize) {
        Some(entry) => entry.ctype,
        None => CType::Void,
    }
}

/// The members of a structure; where there is none, none.
pub fn members_of(file: &TypedFile, structure: u32) -> &[Member]
    ensures { result.now ≡ (structure_in (typed_file_tree file.now) structure).members }
{
    match file.structs.get(structure as usize) {
        Some(entry) => entry.members.as_slice(),
        None => &[],
    }
}

/// The scalar cells of a structure, by its column; where there is none, 0.
pub fn structure_cells(file: &TypedFile, number: u32) -> u32
    ensures { result ≡ (structure (tables_of (typed_file_tree file.now)) number).cells }
{
    match file.structs.get(number as usize) {
        Some(entry) => entry.cells,
        None => 0,
    }
}

/// A call path; where there is none, one of the first body and the first function that no call leads to.
pub fn path_at(laid: &Laid, path: u32) -> CallPath
    ensures { result ≡ path_at (laid_tree laid.now) path }
{
    match laid.paths.get(path as usize) {
        Some(entry) => *entry,
        None => CallPath {
            body: 0,
            function: 0,
            caller: None,
            paths: 0,
        },
    }
}

/// The call path of a body, the first one where there is no such body.
pub fn first_path(laid: &Laid, body: u32) -> u32
    ensures { result ≡ first_path (laid_tree laid.now) body }
{
    match laid.first_paths.get(body as usize) {
        Some(path) => *path,
        None => 0,
    }
}

/// The path that goes on from a path by one of its calls, the first one where there is no such call.
pub fn callee(laid: &Laid, path: u32, site: u32) -> u32
    ensures { result ≡ callee (laid_tree laid.now) path site }
{
    match laid.callees.get(path as usize) {
        Some(callees) => match callees.get(site as usize) {
            Some(callee) => *callee,
            None => 0,
        },
        None => 0,
    }
}

/// An object; where there is none, one of static storage without cells.
pub fn object_at(laid: &Laid, object: u32) -> LaidObject
    ensures { result ≡ object_at (laid_tree laid.now) object }
{
    match laid.objects.get(object as usize) {
        Some(entry) => *entry,
        None => LaidObject {
            name: Name {
                start: 0,
                length: 0,
            },
            place: Place { line: 0, col: 0 },
            of: Qualified {
                number: 0,
                constant: false,
                volatile: false,
            },
            owner: None,
            first_cell: 0,
            cells: 0,
            first_abstract: 0,
            abstract_cells: 0,
        },
    }
}

/// A cell; where there is none, one of the first object that holds a pointer.
pub fn cell_at(laid: &Laid, cell: usize) -> LaidCell
    ensures { result ≡ cell_at (laid_tree laid.now) cell }
{
    match laid.cells.get(cell) {
        Some(entry) => *entry,
        None => LaidCell {
            object: 0,
            scalar: Scalar::Pointer(0),
            abstract_cell: 0,
        },
    }
}

/// An abstract cell; where there is none, the first one of the first object, which holds a pointer.
pub fn abstract_at(laid: &Laid, cell: u32) -> AbstractCell
    ensures { result ≡ abstract_at (laid_tree laid.now) cell }
{
    match laid.abstract_cells.get(cell as usize) {
        Some(entry) => *entry,
        None => AbstractCell {
            object: 0,
            offset: 0,
            scalar: Scalar::Pointer(0),
            smashed: false,
        },
    }
}

/// Whether two scalar types are the same, pointers but for `const`.
pub fn is_same_scalar(left: Scalar, right: Scalar) -> bool
    ensures { result ≡ is_same_scalar left right }
{
    match (left, right) {
        (Scalar::Int(left), Scalar::Int(right)) => is_same_int(left, right),
        (Scalar::Pointer(left), Scalar::Pointer(right)) => left == right,
        _ => false,
    }
}
