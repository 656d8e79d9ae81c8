//! The cells of objects.
ghost use Rattle.std.specs.Prelude.{◌≡◌, ◌+◌, ◌≤◌, ◌<◌, ◌++◌, ◌∷◌, [], ◌^◌, reverse, IfOk, OnOk, cond, not, ◌&&◌, ◌||◌};
ghost use Rattle.std.specs.Prelude.{All};
ghost use Rattle.tm_typed.specs.Scopes.{abstract_cells_of};
ghost use Rattle.tm_typed.specs.TypedFiles.{typed_file_tree};
ghost use Rattle.tm_typed.specs.declared.types.CType.TheVariants as Types;
ghost use Rattle.tm_laid.specs.TypeCells.{entry_of, is_smashed, cells_of_type, abstract_cells_of_type};
ghost use Rattle.tm_laid.specs.Layable.{IsLayable, tables_of};
ghost use Rattle.cell_layout.specs.reading.Parts.{inner_parts, IsSmall, HasLaid, HasScalar, IsLaidOut, AreCores};

use crate::cores::cored;
use crate::tables::{abstract_column, cell_column, class_at};
use std::alloc::Global;
use tm_laid::{AbstractCell, LaidCell, members_of, type_at};
use tm_lattice::NoMemory;
use tm_typed::{CType, Scalar, TypedFile};

/// A part of an object: its type, where it begins, its first abstract cell, whether that is smashed, and whether the
/// part is the first with these abstract cells.
#[derive(Clone, Copy)]
pub struct TypePart {
    pub number: u32,
    pub offset: u32,
    pub abstract_cell: u32,
    pub smashed: bool,
    pub leading: bool,
}

/// The cells so far.
#[derive(Drop)]
pub struct Cells {
    pub cells: Vec<LaidCell>,
    pub abstract_cells: Vec<AbstractCell>,
}

// How many abstract cells the next element of an array is further on.
fn abstract_step(file: &TypedFile, element: u32, smashed: bool) -> u32
    ensures { result ≡ cond smashed 0 (abstract_cells_of (tables_of (typed_file_tree file.now)) element) }
{
    if smashed {
        0
    } else {
        abstract_column(file, element)
    }
}

// The part that stands so much behind another one.
fn behind(part: TypePart, cells: u32, abstract_cells: u32, leading: bool) -> TypePart
    requires cells { part.offset + cells < 2 ^ 32 }
    requires abstract_cells { part.abstract_cell + abstract_cells < 2 ^ 32 }
    ensures { result ≡ record {
      number = part.number;
      offset = part.offset + cells;
      abstract_cell = part.abstract_cell
          + abstract_cells;
      smashed = part.smashed;
      leading = leading;
    } }
{
    TypePart {
        number: part.number,
        offset: part.offset + cells,
        abstract_cell: part.abstract_cell + abstract_cells,
        smashed: part.smashed,
        leading,
    }
}

// The first element of an array, which is smashed or not.
fn first_element(part: TypePart, element: u32, is_smashed: bool) -> TypePart
    ensures { result ≡ record {
      number = element;
      offset = part.offset;
      abstract_cell = part.abstract_cell;
      smashed =
          part.smashed || is_smashed;
      leading = part.leading;
    } }
{
    TypePart {
        number: element,
        offset: part.offset,
        abstract_cell: part.abstract_cell,
        smashed: part.smashed || is_smashed,
        leading: part.leading,
    }
}

// Whether elements behind the first of an array have abstract cells of their own.
fn stays_leading(leading: bool, is_smashed: bool) -> bool
    ensures { result ≡ leading && not is_smashed }
{
    leading && !is_smashed
}

// Whether an array of this length is smashed.
fn is_long(length: u32) -> bool
    ensures { result ≡ is_smashed length }
{
    length >= 65
}

// The elements of a part that is an array of this length.
fn elements(
    alloc: Global,
    file: &TypedFile,
    part: TypePart,
    element: u32,
    length: u32,
) -> Result<Vec<TypePart>, NoMemory>
    requires layable { IsLayable (typed_file_tree file.now) file.now.order.items }
    requires small { IsSmall (typed_file_tree file.now) part }
    requires array { (entry_of (typed_file_tree file.now) part.number).ctype ≡ Types.Array element length }
    ensures { IfOk result (λ v. v.items ≡ inner_parts (typed_file_tree file.now) part (Types.Array element length)) }
{
    let smashed = is_long(length);
    let cells = cell_column(file, element);
    let abstract_cells = abstract_step(file, element, smashed);
    let later = stays_leading(part.leading, smashed);
    let mut parts = Vec::new(alloc);
    let mut next = first_element(part, element, smashed);
    for number in 0..length {
        let _number = number;
        parts.push(next)?;
        next = behind(next, cells, abstract_cells, later);
    }
    Ok(parts)
}

// The members of a part that is this structure.
fn members(
    alloc: Global,
    file: &TypedFile,
    part: TypePart,
    k: u32,
) -> Result<Vec<TypePart>, NoMemory>
    requires layable { IsLayable (typed_file_tree file.now) file.now.order.items }
    requires small { IsSmall (typed_file_tree file.now) part }
    requires structure { (entry_of (typed_file_tree file.now) part.number).ctype ≡ Types.Struct k }
    ensures { IfOk result (λ v. v.items ≡ inner_parts (typed_file_tree file.now) part (Types.Struct k)) }
{
    let mut parts = Vec::new(alloc);
    let mut next = part;
    for member in members_of(file, k) {
        next.number = member.part.of.number;
        parts.push(next)?;
        next = behind(
            next,
            cell_column(file, next.number),
            abstract_column(file, next.number),
            part.leading,
        );
    }
    Ok(parts)
}

// Parts wait behind the others, the first on top.
fn push_parts(
    alloc: Global,
    waiting: &mut Vec<TypePart>,
    parts: &[TypePart],
) -> Result<(), NoMemory>
    ensures { OnOk result (waiting.new.items ≡ waiting.old.items ++ reverse parts.now) }
{
    let turned = parts.iter().rev().copied().collect::<Vec<TypePart>>(alloc)?;
    waiting.extend_from_slice(&turned)?;
    Ok(())
}

// An abstract cell stands behind the others, where the part is leading.
fn push_abstract(
    cells: &mut Cells,
    object: u32,
    part: TypePart,
    scalar: Scalar,
) -> Result<(), NoMemory>
    ensures { OnOk result ((cells.new.cells ≡ cells.old.cells) × (cells.new.abstract_cells.items
        ≡ cells.old.abstract_cells.items ++ cond part.leading (record
        { object = object; offset = part.offset; scalar = scalar; smashed = part.smashed } ∷ []) [])) }
{
    if part.leading {
        cells.abstract_cells.push(AbstractCell {
            object,
            offset: part.offset,
            scalar,
            smashed: part.smashed,
        })?;
        Ok(())
    } else {
        Ok(())
    }
}

// A scalar cell stands behind the others.
fn push_scalar(
    cells: &mut Cells,
    object: u32,
    part: TypePart,
    scalar: Scalar,
) -> Result<(), NoMemory>
    ensures { OnOk result (HasScalar object part scalar cells.old cells.new) }
{
    cells.cells.push(LaidCell {
        object,
        scalar,
        abstract_cell: part.abstract_cell,
    })?;
    push_abstract(cells, object, part, scalar)
}

// A part is laid out, or what is inside it waits.
fn lay_part(
    alloc: Global,
    file: &TypedFile,
    object: u32,
    part: TypePart,
    cells: &mut Cells,
    waiting: &mut Vec<TypePart>,
) -> Result<(), NoMemory>
    requires layable { IsLayable (typed_file_tree file.now) file.now.order.items }
    requires small { IsSmall (typed_file_tree file.now) part }
    requires others { All (IsSmall (typed_file_tree file.now)) (reverse waiting.old.items) }
    ensures { OnOk result (HasLaid (typed_file_tree file.now) object part cells.old cells.new waiting.old.items
        waiting.new.items) }
{
    match type_at(file, part.number) {
        CType::Void => Ok(()),
        CType::Int(of) => {
            push_scalar(cells, object, part, Scalar::Int(of))?;
            Ok(())
        }
        CType::Pointer(_) => {
            push_scalar(
                cells,
                object,
                part,
                Scalar::Pointer(class_at(file, part.number)),
            )?;
            Ok(())
        }
        CType::Array { element, length } => {
            let parts = elements(alloc, file, part, element, length)?;
            push_parts(alloc, waiting, &parts)?;
            Ok(())
        }
        CType::Struct(k) => {
            let parts = members(alloc, file, part, k)?;
            push_parts(alloc, waiting, &parts)?;
            Ok(())
        }
    }
}

// An object of this type is laid out, whose abstract cells begin with this one.
pub(crate) fn lay_object(
    alloc: Global,
    file: &TypedFile,
    cores: &[u32],
    object: u32,
    number: u32,
    first: u32,
    cells: &mut Cells,
) -> Result<(), NoMemory>
    requires layable { IsLayable (typed_file_tree file.now) file.now.order.items }
    requires cores { AreCores (typed_file_tree file.now) cores.now }
    requires cells { cells_of_type (typed_file_tree file.now) number ≤ 65536 }
    requires abstract_cells { first + abstract_cells_of_type (typed_file_tree file.now) number ≤ 65536 }
    ensures { OnOk result (IsLaidOut (typed_file_tree file.now) object number first cells.old cells.new) }
{
    let mut waiting = Vec::new(alloc);
    waiting.push(TypePart {
        number,
        offset: 0,
        abstract_cell: first,
        smashed: false,
        leading: true,
    })?;
    while let Some(part) = waiting.pop() {
        let core = cored(cores, part);
        lay_part(alloc, file, object, core, cells, &mut waiting)?;
    }
    Ok(())
}
