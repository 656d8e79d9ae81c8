//! The layout of a file.
ghost use Rattle.std.specs.Prelude.{◌≡◌, ◌≤◌, ◌^◌, All, IfOk, IfSome, length};
ghost use Rattle.tm_terms.specs.declared.refusals.Limit.TheVariants as Limits;
ghost use Rattle.tm_typed.specs.TypedFiles.{typed_file_tree};
ghost use Rattle.tm_laid.specs.declared.scales.Scale.TheVariants as Scales;
ghost use Rattle.tm_laid.specs.Paths.{bodies_of, paths_of};
ghost use Rattle.tm_laid.specs.Objects.{static_numbers, initial_values};
ghost use Rattle.tm_laid.specs.Layouts.{laid_tree, layout_of, laid_out, answer_of, declared_objects};
ghost use Rattle.tm_laid.specs.Layable.{IsLayable};
ghost use Rattle.cell_layout.specs.reading.Counts.{AreTotals};
ghost use Rattle.cell_layout.specs.reading.Limits.{IsAllWithin};
ghost use Rattle.cell_layout.specs.reading.Placing.{HasObjects, IsSmallObject, AreCells};
ghost use Rattle.cell_layout.specs.reading.Tables.{IsLayoutOf, AreTables};

use crate::cells::Cells;
use crate::cores::cores_of;
use crate::initial::initial_cells;
use crate::limits::{all_within, bodies};
use crate::objects::{count_of_statics, declared, first_objects, numbers_of_statics};
use crate::paths::{Numbered, call_paths, first_paths};
use crate::placing::{laid_cells, placed};
use std::alloc::Global;
use tm_laid::{CallPath, Initial, Laid, LaidObject, Scale};
use tm_lattice::NoMemory;
use tm_terms::Fail;
use tm_typed::TypedFile;

/// What a layout adds to its file.
#[derive(Drop)]
pub struct Tables {
    pub bodies: Vec<u32>,
    pub first_paths: Vec<u32>,
    pub numbered: Numbered,
    pub first_objects: Vec<u32>,
    pub statics: Vec<u32>,
    pub objects: Vec<LaidObject>,
    pub cells: Cells,
    pub initial: Vec<Initial>,
}

// What objects hold: their cells, the numbers of those of static storage, and what the cells of these hold before the
// program runs.
#[derive(Drop)]
struct Filled {
    cells: Cells,
    statics: Vec<u32>,
    initial: Vec<Initial>,
}

// The objects of a file that exceeds no limit of the large scale, with the places of their cells. There are no more than
// numbers: an object of a structure without members has no cell, so that no limit counts it, and where there are more
// there is no memory for them.
fn placed_objects(
    alloc: Global,
    file: &TypedFile,
    paths: &[CallPath],
) -> Result<Vec<LaidObject>, NoMemory>
    requires layable { IsLayable (typed_file_tree file.now) file.now.order.items }
    requires within { IsAllWithin Scales.Large (typed_file_tree file.now) }
    requires paths { paths.now ≡ paths_of (typed_file_tree file.now) }
    ensures objects { IfOk result (λ v. HasObjects (typed_file_tree file.now) (declared_objects (typed_file_tree file.now)
        (paths_of (typed_file_tree file.now))) v.items) }
    ensures numbered { IfOk result (λ v. length v.items ≤ 2 ^ 32) }
{
    let declared = declared(alloc, file, paths)?;
    let objects = placed(alloc, file, &declared)?;
    if objects.len() <= 4_294_967_296 {
        Ok(objects)
    } else {
        Err(NoMemory)
    }
}

// What the objects of a file hold that exceeds no limit of the large scale.
fn contents(alloc: Global, file: &TypedFile, objects: &[LaidObject]) -> Result<Filled, NoMemory>
    requires layable { IsLayable (typed_file_tree file.now) file.now.order.items }
    requires within { IsAllWithin Scales.Large (typed_file_tree file.now) }
    requires small { All (IsSmallObject (typed_file_tree file.now)) objects.now }
    ensures cells { IfOk result (λ c. AreCells (typed_file_tree file.now) objects.now c.cells) }
    ensures statics { IfOk result (λ c. c.statics.items ≡ static_numbers 0 (typed_file_tree file.now).statics) }
    ensures initial { IfOk result (λ c. c.initial.items ≡ initial_values (typed_file_tree file.now)
        (static_numbers 0 (typed_file_tree file.now).statics) (typed_file_tree file.now).statics) }
{
    let cores = cores_of(alloc, file)?;
    let cells = laid_cells(alloc, file, &cores, objects)?;
    let statics = numbers_of_statics(alloc, file)?;
    let initial = initial_cells(alloc, file, &cores, &statics)?;
    Ok(Filled {
        cells,
        statics,
        initial,
    })
}

// The tables of a file that exceeds no limit of the large scale, with its bodies and the totals of its call paths.
fn tables_of(
    alloc: Global,
    file: &TypedFile,
    bodies: Vec<u32>,
    totals: &[u32],
) -> Result<Tables, NoMemory>
    requires layable { IsLayable (typed_file_tree file.now) file.now.order.items }
    requires bodies { bodies.items ≡ bodies_of (typed_file_tree file.now) }
    requires within { IsAllWithin Scales.Large (typed_file_tree file.now) }
    requires totals { AreTotals (typed_file_tree file.now) Limits.Paths totals.now }
    ensures layout { IfOk result (λ t. IsLayoutOf (typed_file_tree file.now) t) }
    ensures numbered { IfOk result (λ t. length t.objects.items ≤ 2 ^ 32) }
{
    let count = count_of_statics(alloc, file)?;
    let numbered = call_paths(alloc, file, totals, &bodies)?;
    let first_paths = first_paths(alloc, file, totals, &bodies)?;
    let first_objects = first_objects(alloc, file, count, &numbered.paths)?;
    let objects = placed_objects(alloc, file, &numbered.paths)?;
    let Filled {
        cells,
        statics,
        initial,
    } = contents(alloc, file, &objects)?;
    Ok(Tables {
        bodies,
        first_paths,
        numbered,
        first_objects,
        statics,
        objects,
        cells,
        initial,
    })
}

// The tables of a file, or the first limit that it exceeds on a scale.
#[tactic(auto, using(crate::proofs::LimitCounts::all_within_large))]
fn checked_tables(alloc: Global, scale: Scale, file: &TypedFile) -> Result<Tables, Fail>
    requires layable { IsLayable (typed_file_tree file.now) file.now.order.items }
    ensures told { AreTables scale (typed_file_tree file.now) result }
    ensures numbered { IfOk result (λ t. length t.objects.items ≤ 2 ^ 32) }
{
    let bodies = match bodies(alloc, file) {
        Ok(bodies) => bodies,
        Err(NoMemory) => return Err(Fail::NoMemory),
    };
    let totals = match all_within(alloc, scale, file, &bodies) {
        Ok(totals) => totals,
        Err(fail) => return Err(fail),
    };
    match tables_of(alloc, file, bodies, &totals) {
        Ok(tables) => Ok(tables),
        Err(NoMemory) => Err(Fail::NoMemory),
    }
}

// A file with what a layout adds to it.
fn with_file(file: TypedFile, tables: Tables) -> Laid
    requires layout { IsLayoutOf (typed_file_tree file) tables }
    ensures layout { laid_tree result ≡ layout_of (typed_file_tree file) }
    ensures order { result.file.order.items ≡ file.order.items }
    ensures objects { result.objects.items ≡ tables.objects.items }
{
    let Tables {
        bodies,
        first_paths,
        numbered,
        first_objects,
        statics,
        objects,
        cells,
        initial,
    } = tables;
    let Numbered {
        paths,
        callees,
        waiting: _waiting,
    } = numbered;
    let Cells {
        cells,
        abstract_cells,
    } = cells;
    Laid {
        file,
        bodies,
        first_paths,
        paths,
        callees,
        first_objects,
        statics,
        objects,
        cells,
        abstract_cells,
        initial,
    }
}

/// The layout of a file, or the first of the limits tasks, mutexes, paths, cells and abstract that it exceeds on a
/// scale.
pub fn lay(alloc: Global, scale: Scale, typed: TypedFile) -> Result<Laid, Fail>
    requires layable { IsLayable (typed_file_tree typed) typed.order.items }
    ensures told { IfSome (answer_of result) (λ answer. laid_out scale (typed_file_tree typed) ≡ answer) }
    ensures order { IfOk result (λ laid. laid.file.order.items ≡ typed.order.items) }
    ensures numbered { IfOk result (λ laid. length laid.objects.items ≤ 2 ^ 32) }
{
    match checked_tables(alloc, scale, &typed) {
        Ok(tables) => Ok(with_file(typed, tables)),
        Err(fail) => Err(fail),
    }
}
