//! What is wrong with the pointers that an operation follows or moves.
ghost use Rattle.std.specs.Prelude.{◌≡◌, ◌≢◌, ◌≤◌, ◌⊎◌, ◌↔◌, false, not, ℤ, pos, ◌<ℤ◌, length, get_or, Contains};
ghost use Rattle.std.specs.Prelude.{IfOk, OnOk, IsTrue};
ghost use Rattle.strided_dom.specs.Progression.{empty, Has};
ghost use Rattle.strided_dom.specs.Combinations.{IsProduct};
ghost use Rattle.pointer_dom.specs.OffsetSets.{AreEnds};
ghost use Rattle.pointer_dom.specs.PointerSets.{no_pointer, offsets_at};
ghost use Rattle.pointer_dom.specs.Advances.{directed};
ghost use Rattle.pointer_dom.specs.Values.{no_value};
ghost use Rattle.tm_laid.specs.tm_typed.TypedFiles.{typed_file_tree};
ghost use Rattle.tm_laid.specs.Layable.{IsLayable};
ghost use Rattle.tm_laid.specs.Layouts.{laid_tree, is_alive, stands_at};
ghost use Rattle.alarm_contexts.specs.declared.flaws.ObjectFlaw.{ObjectFlaw as AFlaw};
ghost use Rattle.alarm_contexts.specs.Flaws.{HasOffset, HasAdvanced, IsWrongToFollow, IsWrongToMove, IsWrong, HasFlaw};
ghost use Rattle.alarm_contexts.specs.reading.Noted.{IsNotedFlaw};

use crate::flaws::{Flaw, ObjectFlaw};
use cell_types::stands_at;
use flow_graph::Operation;
use pointer_dom::{AbsValue, Ends, Offsets, PointerSet};
use std::alloc::Global;
use strided_dom::Strided;
use tm_laid::{Laid, is_alive};
use tm_lattice::NoMemory;

// Whether it is one of the offsets, and the type does not stand there.
fn is_unfit(laid: &Laid, object: u32, target: u32, set: &Strided, offset: u32) -> bool
    requires layable { IsLayable (typed_file_tree laid.now.file) laid.now.file.order.items }
    requires few { length laid.now.cells.items ≤ 65536 }
    ensures { IsTrue result
        ↔ (Has set.now (pos offset) × (stands_at (laid_tree laid.now) object offset target ≡ false)) }
{
    set.has(i128::from(offset)) && !stands_at(laid, object, offset, target)
}

// Whether the type does not stand at one of the offsets, which lie from the first to the last.
fn has_unfit(laid: &Laid, object: u32, target: u32, offsets: &Offsets, ends: Ends) -> bool
    requires layable { IsLayable (typed_file_tree laid.now.file) laid.now.file.order.items }
    requires few { length laid.now.cells.items ≤ 65536 }
    requires ends { AreEnds offsets.now ends.first ends.last }
    ensures { IsTrue result
        ↔ HasOffset (λ offset. stands_at (laid_tree laid.now) object offset target ≡ false) offsets.now }
{
    let set = offsets.set();
    for offset in u64::from(ends.first)..u64::from(ends.last) + 1 {
        if is_unfit(laid, object, target, &set, offset as u32) {
            return true;
        }
    }
    false
}

// The number of cells, negative where the way is back.
fn signed_cells(cells: u32, minus: bool) -> i128
    ensures { result ≡ directed (not minus) cells }
{
    if minus {
        -i128::from(cells)
    } else {
        i128::from(cells)
    }
}

// Whether one of the pointers comes to stand before the object, where each is moved by each of these counts, times so
// many cells. A product that is too great for the type is as good as the greatest number.
fn goes_before(offsets: &Offsets, ends: Ends, counts: &Strided, cells: u32, minus: bool) -> bool
    requires ends { AreEnds offsets.now ends.first ends.last }
    requires some { counts.now ≢ empty }
    ensures { IsTrue result
        ↔ HasAdvanced (λ v. v <ℤ pos 0) (IsProduct counts.now (directed (not minus) cells)) offsets.now }
{
    let signed = signed_cells(cells, minus);
    let one = counts.lo().saturating_mul(signed);
    let other = counts.hi().saturating_mul(signed);
    let to_first = -i128::from(ends.first);
    one < to_first || other < to_first
}

// Whether one of them comes to stand behind the end of the object.
fn goes_behind(offsets: &Offsets, ends: Ends, counts: &Strided, cells: u32, minus: bool) -> bool
    requires ends { AreEnds offsets.now ends.first ends.last }
    requires some { counts.now ≢ empty }
    ensures { (let o = offsets.now in IsTrue result
        ↔ HasAdvanced (λ v. pos o.size <ℤ v) (IsProduct counts.now (directed (not minus) cells)) o) }
{
    let signed = signed_cells(cells, minus);
    let one = counts.lo().saturating_mul(signed);
    let other = counts.hi().saturating_mul(signed);
    let to_end = i128::from(offsets.size()) - i128::from(ends.last);
    to_end < one || to_end < other
}

// Adds what is wrong with pointers to an object, if it is.
fn add_if(flaws: &mut Vec<ObjectFlaw>, object: u32, flaw: Flaw, noted: bool) -> Result<(), NoMemory>
    ensures { OnOk result ((f : AFlaw) → Contains flaws.new.items f
        ↔ (Contains flaws.old.items f ⊎ IsNotedFlaw object flaw noted f)) }
{
    if noted {
        flaws.push(ObjectFlaw { object, flaw })?;
    }
    Ok(())
}

// Adds what is wrong with pointers to an object that are followed.
fn add_followed(
    laid: &Laid,
    path: u32,
    target: u32,
    object: u32,
    offsets: &Offsets,
    flaws: &mut Vec<ObjectFlaw>,
) -> Result<(), NoMemory>
    requires layable { IsLayable (typed_file_tree laid.now.file) laid.now.file.order.items }
    requires few { length laid.now.cells.items ≤ 65536 }
    ensures { OnOk result ((f : AFlaw) → Contains flaws.new.items f
        ↔ (Contains flaws.old.items f ⊎ ((f.object ≡ object)
        × IsWrongToFollow (λ offset. stands_at (laid_tree laid.now) object offset target ≡ false)
        (is_alive (laid_tree laid.now) path object ≡ false) offsets.now f.flaw))) }
{
    let Some(ends) = offsets.ends() else {
        return Ok(());
    };
    let unfit = has_unfit(laid, object, target, offsets, ends);
    add_if(flaws, object, Flaw::Gone, !is_alive(laid, path, object))?;
    add_if(flaws, object, Flaw::Offset, unfit)
}

// Adds what is wrong with pointers to an object that are moved.
fn add_moved(
    counts: &Strided,
    cells: u32,
    minus: bool,
    object: u32,
    offsets: &Offsets,
    flaws: &mut Vec<ObjectFlaw>,
) -> Result<(), NoMemory>
    ensures { OnOk result ((f : AFlaw) → Contains flaws.new.items f
        ↔ (Contains flaws.old.items f ⊎ ((f.object ≡ object)
        × IsWrongToMove (IsProduct counts.now (directed (not minus) cells)) offsets.now f.flaw))) }
{
    let Some(ends) = offsets.ends() else {
        return Ok(());
    };
    if counts.is_empty() {
        return Ok(());
    }
    let before = goes_before(offsets, ends, counts, cells, minus);
    let behind = goes_behind(offsets, ends, counts, cells, minus);
    add_if(flaws, object, Flaw::Before, before)?;
    add_if(flaws, object, Flaw::Behind, behind)
}

// Adds what is wrong with pointers to an object that the operation follows or moves.
#[tactic(auto, unfolding(crate::specs::Flaws::IsWrong))]
fn add_wrong(
    laid: &Laid,
    operation: Operation,
    counts: &Strided,
    object: u32,
    offsets: &Offsets,
    flaws: &mut Vec<ObjectFlaw>,
) -> Result<(), NoMemory>
    requires layable { IsLayable (typed_file_tree laid.now.file) laid.now.file.order.items }
    requires few { length laid.now.cells.items ≤ 65536 }
    ensures { OnOk result ((f : AFlaw) → Contains flaws.new.items f ↔ (Contains flaws.old.items f
        ⊎ ((f.object ≡ object) × IsWrong (laid_tree laid.now) operation counts.now object offsets.now f.flaw))) }
{
    match operation {
        Operation::Deref { target, path, .. } => {
            add_followed(laid, path, target, object, offsets, flaws)
        }
        Operation::Move { cells, minus, .. } => {
            add_moved(counts, cells, minus, object, offsets, flaws)
        }
        _ => Ok(()),
    }
}

// What is wrong with these pointers, where the operation follows or moves them.
fn flaws_among(
    alloc: Global,
    laid: &Laid,
    operation: Operation,
    counts: &Strided,
    pointers: &PointerSet,
) -> Result<Vec<ObjectFlaw>, NoMemory>
    requires layable { IsLayable (typed_file_tree laid.now.file) laid.now.file.order.items }
    requires few { length laid.now.cells.items ≤ 65536 }
    ensures { IfOk result (λ flaws. (f : AFlaw) → Contains flaws.items f
        ↔ IsWrong (laid_tree laid.now) operation counts.now f.object (offsets_at pointers.now f.object) f.flaw) }
{
    let mut flaws = Vec::new(alloc);
    for (object, offsets) in pointers.objects().entries() {
        add_wrong(laid, operation, counts, *object, offsets, &mut flaws)?;
    }
    Ok(flaws)
}

// The numbers of an operand; none where there is none.
fn numbers_at(operands: &[AbsValue], role: usize) -> Strided
    ensures { result ≡ (get_or operands.now role no_value).numbers }
{
    match operands.get(role) {
        None => Strided::empty(),
        Some(value) => value.numbers(),
    }
}

// The pointers of an operand, in the place of which `none` stands where there is none.
fn pointers_at<'a>(operands: &'a [AbsValue], role: usize, none: &'a PointerSet) -> &'a PointerSet
    requires { none.now ≡ no_pointer }
    ensures { result.now ≡ (get_or operands.now role no_value).pointers }
{
    match operands.get(role) {
        None => none,
        Some(value) => match value.pointers() {
            None => none,
            Some(pointers) => pointers,
        },
    }
}

/// What is wrong with the pointers among the operands of an operation.
pub(crate) fn flaws_of(
    alloc: Global,
    laid: &Laid,
    operation: Operation,
    operands: &[AbsValue],
) -> Result<Vec<ObjectFlaw>, NoMemory>
    requires layable { IsLayable (typed_file_tree laid.now.file) laid.now.file.order.items }
    requires few { length laid.now.cells.items ≤ 65536 }
    ensures { IfOk result (λ flaws. (f : AFlaw) → Contains flaws.items f
        ↔ HasFlaw (laid_tree laid.now) operation operands.now f) }
{
    let counts = numbers_at(operands, 1);
    let none = PointerSet::new(alloc);
    let pointers = pointers_at(operands, 0, &none);
    flaws_among(alloc, laid, operation, &counts, pointers)
}
