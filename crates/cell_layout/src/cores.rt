//! Types around one part that add nothing to it, as an array of one element and a structure with one member, are passed
//! over at once: a chain of them is walked when its file is laid out, and not again for each cell.
ghost use Rattle.std.specs.Prelude.{◌≡◌, IfOk, OnOk, get_or};
ghost use Rattle.tm_typed.specs.TypedFiles.{typed_file_tree};
ghost use Rattle.tm_laid.specs.Layable.{IsLayable};
ghost use Rattle.cell_layout.specs.reading.Parts.{IsSameType, AreCores};

use crate::cells::TypePart;
use std::alloc::Global;
use tm_laid::{members_of, type_at};
use tm_lattice::NoMemory;
use tm_typed::{CType, TypedFile};

// The only part of a type, or else the type itself.
fn only_part(file: &TypedFile, number: u32) -> u32
    requires layable { IsLayable (typed_file_tree file.now) file.now.order.items }
    ensures { IsSameType (typed_file_tree file.now) result number }
{
    match type_at(file, number) {
        CType::Array { element, length } => { if length == 1 { element } else { number } }
        CType::Struct(k) => match members_of(file, k) {
            [only] => only.part.of.number,
            _ => number,
        },
        _ => number,
    }
}

// What stands for a type.
fn core_at(cores: &[u32], number: u32) -> u32
    ensures { result ≡ get_or cores.now number number }
{
    match cores.get(number as usize) {
        Some(core) => *core,
        None => number,
    }
}

/// A part by what stands for its type.
pub(crate) fn cored(cores: &[u32], part: TypePart) -> TypePart
    ensures { result ≡ record part { number = get_or cores.now part.number part.number } }
{
    TypePart {
        number: core_at(cores, part.number),
        offset: part.offset,
        abstract_cell: part.abstract_cell,
        smashed: part.smashed,
        leading: part.leading,
    }
}

// For each type its only part.
fn only_parts(alloc: Global, file: &TypedFile) -> Result<Vec<u32>, NoMemory>
    requires layable { IsLayable (typed_file_tree file.now) file.now.order.items }
    ensures { IfOk result (λ v. AreCores (typed_file_tree file.now) v.items) }
{
    let Ok(count) = u32::try_from(file.types.len()) else {
        return Err(NoMemory);
    };
    let mut cores = Vec::new(alloc);
    for number in 0..count {
        cores.push(only_part(file, number))?;
    }
    Ok(cores)
}

// Each goes twice as far.
fn go_on(file: &TypedFile, cores: &mut [u32])
    requires cores { AreCores (typed_file_tree file.now) cores.old }
    ensures { AreCores (typed_file_tree file.now) cores.new }
{
    let _file = file;
    for number in 0..cores.len() {
        cores[number] = core_at(cores, cores[number]);
    }
}

/// For each type one that has its cells: chains of up to 2^18 types are passed over.
pub(crate) fn cores_of(alloc: Global, file: &TypedFile) -> Result<Vec<u32>, NoMemory>
    requires layable { IsLayable (typed_file_tree file.now) file.now.order.items }
    ensures { IfOk result (λ v. AreCores (typed_file_tree file.now) v.items) }
{
    let mut cores = only_parts(alloc, file)?;
    for round in 0..18u32 {
        let _round = round;
        go_on(file, &mut cores);
    }
    Ok(cores)
}
