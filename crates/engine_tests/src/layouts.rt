//! Layouts by hand. One has static objects 0 and 1 of one `int` each, the local object 2 of task 0, the static array 3
//! of 65 elements, and the local object 4 of task 1: the abstract cell of each object has its number, and that of the
//! array is smashed. The others have one static object.
ghost use Rattle.std.specs.Prelude.{◌≡◌, ◌≤◌, length, IfOk};
ghost use Rattle.tm_typed.specs.TypedFiles.{typed_file_tree};
ghost use Rattle.tm_laid.specs.Layable.{IsLayable};

use std::alloc::Global;
use std::test::Fail;
use tm_cint::IntType;
use tm_laid::{AbstractCell, CallPath, Laid, LaidCell, LaidObject};
use tm_terms::{Name, Place};
use tm_typed::{Qualified, Scalar, TypedFile};

/// The type of all cells.
pub const INT: Scalar = Scalar::Int(IntType::Int);

/// The objects: the call path of each and how many cells it has.
const OBJECTS: [(Option<u32>, u32); 5] = [
    (None, 1),
    (None, 1),
    (Some(0), 1),
    (None, 65),
    (Some(1), 1),
];

// Nothing of the file is asked but that it can be laid out.
fn file(alloc: Global) -> TypedFile
    ensures { IsLayable (typed_file_tree result) result.order.items }
{
    TypedFile {
        types: Vec::new(alloc),
        structs: Vec::new(alloc),
        statics: Vec::new(alloc),
        functions: Vec::new(alloc),
        calls: Vec::new(alloc),
        tasks: Vec::new(alloc),
        mutexes: Vec::new(alloc),
        main: None,
        lengths: Vec::new(alloc),
        constants: Vec::new(alloc),
        labels: Vec::new(alloc),
        sizes: Vec::new(alloc),
        order: Vec::new(alloc),
    }
}

// The two tasks' own call paths.
fn paths(alloc: Global) -> Result<Vec<CallPath>, Fail> {
    let mut paths = Vec::new(alloc);
    for body in 0..2u32 {
        paths.push(CallPath {
            body,
            function: body,
            caller: None,
            paths: 1,
        })?;
    }
    Ok(paths)
}

// The object with this number, whose cells stand behind those of the objects before it.
fn object(number: u32, owner: Option<u32>, first_cell: u32, cells: u32) -> LaidObject {
    LaidObject {
        name: Name {
            start: 0,
            length: 0,
        },
        place: Place { line: 1, col: 1 },
        of: Qualified {
            number: 0,
            constant: false,
            volatile: false,
        },
        owner,
        first_cell,
        cells,
        first_abstract: number,
        abstract_cells: 1,
    }
}

fn objects(alloc: Global) -> Result<Vec<LaidObject>, Fail> {
    let mut objects = Vec::new(alloc);
    let mut number = 0u32;
    let mut first = 0u32;
    for (owner, cells) in &OBJECTS {
        objects.push(object(number, *owner, first, *cells))?;
        number = number.wrapping_add(1);
        first = first.wrapping_add(*cells);
    }
    Ok(objects)
}

fn push_cells(cells: &mut Vec<LaidCell>, object: u32, count: u32) -> Result<(), Fail> {
    for _cell in 0..count {
        cells.push(LaidCell {
            object,
            scalar: INT,
            abstract_cell: object,
        })?;
    }
    Ok(())
}

fn cells(alloc: Global) -> Result<Vec<LaidCell>, Fail> {
    let mut cells = Vec::new(alloc);
    let mut number = 0u32;
    for (_owner, count) in &OBJECTS {
        push_cells(&mut cells, number, *count)?;
        number = number.wrapping_add(1);
    }
    Ok(cells)
}

fn abstract_cells(alloc: Global) -> Result<Vec<AbstractCell>, Fail> {
    let mut cells = Vec::new(alloc);
    let mut object = 0u32;
    for (_owner, count) in &OBJECTS {
        cells.push(AbstractCell {
            object,
            offset: 0,
            scalar: INT,
            smashed: *count > 64,
        })?;
        object = object.wrapping_add(1);
    }
    Ok(cells)
}

// The layout of these parts, over a file in which nothing stands.
fn laid_of(
    alloc: Global,
    paths: Vec<CallPath>,
    objects: Vec<LaidObject>,
    cells: Vec<LaidCell>,
    abstract_cells: Vec<AbstractCell>,
) -> Laid
    ensures file { IsLayable (typed_file_tree result.file) result.file.order.items }
    ensures cells { result.abstract_cells.items ≡ abstract_cells.items }
{
    Laid {
        file: file(alloc),
        bodies: Vec::new(alloc),
        first_paths: Vec::new(alloc),
        paths,
        callees: Vec::new(alloc),
        first_objects: Vec::new(alloc),
        statics: Vec::new(alloc),
        objects,
        cells,
        abstract_cells,
        initial: Vec::new(alloc),
    }
}

/// The layout of the five objects.
pub fn laid(alloc: Global) -> Result<Laid, Fail>
    ensures { IfOk result (λ laid. IsLayable (typed_file_tree laid.file) laid.file.order.items) }
{
    let paths = paths(alloc)?;
    let objects = objects(alloc)?;
    let cells = cells(alloc)?;
    let abstract_cells = abstract_cells(alloc)?;
    Ok(laid_of(alloc, paths, objects, cells, abstract_cells))
}

fn static_cells(alloc: Global, count: u32) -> Result<Vec<AbstractCell>, Fail>
    ensures { IfOk result (λ v. length v.items ≡ count) }
{
    let mut cells = Vec::new(alloc);
    for offset in 0..count {
        cells.push(AbstractCell {
            object: 0,
            offset,
            scalar: INT,
            smashed: false,
        })?;
    }
    Ok(cells)
}

/// A layout of one static object with so many abstract cells.
pub fn laid_cells(alloc: Global, count: u32) -> Result<Laid, Fail>
    requires { count ≤ 65536 }
    ensures { IfOk result (λ laid. length laid.abstract_cells.items ≤ 65536) }
{
    let cells = static_cells(alloc, count)?;
    Ok(laid_of(
        alloc,
        Vec::new(alloc),
        Vec::new(alloc),
        Vec::new(alloc),
        cells,
    ))
}
