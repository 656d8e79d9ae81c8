//! MEMBER: pointers that leave the array into which they point, and ends that are compared with other objects.
ghost use Rattle.std.specs.Prelude.{◌≡◌, ◌⊎◌, ◌↔◌, ◌≤◌, ◌≢◌, ℤ, pos, not, length, IsTrue, IfOk};
ghost use Rattle.strided_dom.specs.Progression.{Has, empty};
ghost use Rattle.pointer_dom.specs.OffsetSets.{AreEnds};
ghost use Rattle.pointer_dom.specs.Advances.{IsInteger, IsShortStep};
ghost use Rattle.tm_laid.specs.tm_typed.TypedFiles.{typed_file_tree};
ghost use Rattle.tm_laid.specs.Layable.{IsLayable};
ghost use Rattle.post_recheck.specs.transfer_rows.StateForms.{value_of};
ghost use Rattle.operand_orders.specs.reading.Views.{solved};
ghost use Rattle.open_choices.specs.Members.{Meets};
ghost use Rattle.open_choices.specs.reading.Found.{LeavesArray, LeavesFrom, LeavesIn, MovesAway, IsMovedAway};
ghost use Rattle.open_choices.specs.reading.Found.{target_of, HasBegin, HasOtherBegin, IsMeeting};

use calculations::{numbers_of, pointers_of};
use cell_env::State;
use cell_types::stands_at;
use operand_orders::BodyView;
use part_extents::{Extent, array_at};
use path_origins::Form;
use pointer_dom::{AbsValue, Ends, Offsets, PointerSet, distances};
use std::alloc::Global;
use strided_dom::Strided;
use tm_lattice::NoMemory;

// Whether one of the steps from an offset leads out of an array, or to its end where nothing tells it from the next
// object.
fn leaves_array(
    view: BodyView<'_>,
    object: u32,
    target: u32,
    array: Extent,
    offset: u32,
    steps: &Strided,
) -> bool
    requires layable { IsLayable (typed_file_tree view.laid.now.file) view.laid.now.file.order.items }
    requires few { length view.laid.now.cells.items ≤ 65536 }
    requires short { (n : ℤ) → Has steps.now n → IsShortStep n }
    ensures { IsTrue result ↔ LeavesArray (solved view.entry) object target array offset (Has steps.now) }
{
    if steps.is_empty() {
        return false;
    }
    let at = i128::from(offset);
    let end = i128::from(array.end);
    if at + steps.lo() < i128::from(array.begin) {
        return true;
    }
    if end < at + steps.hi() {
        return true;
    }
    if !steps.has(end - at) {
        return false;
    }
    stands_at(view.laid, object, array.end, target)
}

// Whether one of the steps from an offset leads out of the array into which a pointer points there.
fn leaves_from(
    view: BodyView<'_>,
    object: u32,
    target: u32,
    offset: u32,
    steps: &Strided,
) -> Result<bool, NoMemory>
    requires layable { IsLayable (typed_file_tree view.laid.now.file) view.laid.now.file.order.items }
    requires few { length view.laid.now.cells.items ≤ 65536 }
    requires short { (n : ℤ) → Has steps.now n → IsShortStep n }
    ensures { IfOk result (λ is. IsTrue is ↔ LeavesFrom (solved view.entry) object target offset (Has steps.now)) }
{
    match array_at(view.laid, object, target, offset)? {
        Some(array) => Ok(leaves_array(view, object, target, array, offset, steps)),
        None => Ok(false),
    }
}

// The same from an offset, if it is one of these.
fn leaves_at(
    view: BodyView<'_>,
    object: u32,
    target: u32,
    set: &Strided,
    offset: u32,
    steps: &Strided,
) -> Result<bool, NoMemory>
    requires layable { IsLayable (typed_file_tree view.laid.now.file) view.laid.now.file.order.items }
    requires few { length view.laid.now.cells.items ≤ 65536 }
    requires short { (n : ℤ) → Has steps.now n → IsShortStep n }
    ensures { IfOk result (λ is. IsTrue is
        ↔ (Has set.now (pos offset) × LeavesFrom (solved view.entry) object target offset (Has steps.now))) }
{
    if !set.has(i128::from(offset)) {
        return Ok(false);
    }
    leaves_from(view, object, target, offset, steps)
}

// The same from one of the offsets from the first to the last.
fn leaves_within(
    view: BodyView<'_>,
    object: u32,
    target: u32,
    offsets: &Offsets,
    first: u32,
    last: u32,
    steps: &Strided,
) -> Result<bool, NoMemory>
    requires layable { IsLayable (typed_file_tree view.laid.now.file) view.laid.now.file.order.items }
    requires few { length view.laid.now.cells.items ≤ 65536 }
    requires short { (n : ℤ) → Has steps.now n → IsShortStep n }
    requires ends { AreEnds offsets.now first last }
    ensures { IfOk result (λ is. IsTrue is
        ↔ LeavesIn (solved view.entry) object target offsets.now.offsets (Has steps.now)) }
{
    let set = offsets.set();
    for offset in u64::from(first)..u64::from(last) + 1 {
        let leaves = leaves_at(view, object, target, &set, offset as u32, steps)?;
        if leaves {
            return Ok(true);
        }
    }
    Ok(false)
}

// The same from one of the offsets of an object.
fn leaves_in(
    view: BodyView<'_>,
    object: u32,
    target: u32,
    offsets: &Offsets,
    steps: &Strided,
) -> Result<bool, NoMemory>
    requires layable { IsLayable (typed_file_tree view.laid.now.file) view.laid.now.file.order.items }
    requires few { length view.laid.now.cells.items ≤ 65536 }
    requires short { (n : ℤ) → Has steps.now n → IsShortStep n }
    ensures { IfOk result (λ is. IsTrue is
        ↔ LeavesIn (solved view.entry) object target offsets.now.offsets (Has steps.now)) }
{
    match offsets.ends() {
        None => Ok(false),
        Some(Ends { first, last }) => {
            leaves_within(view, object, target, offsets, first, last, steps)
        }
    }
}

// The same from one of the objects of a pointer.
fn moves_away(
    view: BodyView<'_>,
    target: u32,
    pointers: &PointerSet,
    steps: &Strided,
) -> Result<bool, NoMemory>
    requires layable { IsLayable (typed_file_tree view.laid.now.file) view.laid.now.file.order.items }
    requires few { length view.laid.now.cells.items ≤ 65536 }
    requires short { (n : ℤ) → Has steps.now n → IsShortStep n }
    ensures { IfOk result (λ is. IsTrue is ↔ MovesAway (solved view.entry) target pointers.now (Has steps.now)) }
{
    for (object, offsets) in pointers.objects().entries() {
        let leaves = leaves_in(view, *object, target, offsets, steps)?;
        if leaves {
            return Ok(true);
        }
    }
    Ok(false)
}

// The type to which a pointer that is moved points.
fn target_of(form: Form) -> Option<u32>
    ensures { result ≡ target_of form }
{
    match form {
        Form::Move(target) => Some(target),
        _ => None,
    }
}

/// Whether a move may lead a pointer out of the array into which it points (C99 6.5.6p8).
pub(crate) fn is_moved_away(
    view: BodyView<'_>,
    edge: usize,
    state: &State<AbsValue>,
    source: u32,
    cells: u32,
    minus: bool,
    by: u32,
) -> Result<bool, NoMemory>
    requires layable { IsLayable (typed_file_tree view.laid.now.file) view.laid.now.file.order.items }
    requires few { length view.laid.now.cells.items ≤ 65536 }
    requires counted { (n : ℤ) → (let v = value_of state.now by in Has v.numbers n) → IsInteger n }
    ensures { IfOk result (λ is. IsTrue is ↔ IsMovedAway (solved view.entry) edge state.now source cells minus by) }
{
    let Some(target) = target_of(view.origin(edge).form) else {
        return Ok(false);
    };
    let none = PointerSet::new(view.alloc);
    let counts = numbers_of(state, by);
    let steps = distances(!minus, cells, &counts);
    moves_away(view, target, pointers_of(state, source, &none), &steps)
}

// Whether a pointer may be at offset 0 of an object.
fn begins_some(pointers: &PointerSet) -> bool
    ensures { IsTrue result ↔ HasBegin pointers.now }
{
    for (object, offsets) in pointers.objects().entries() {
        let _object = object;
        if offsets.set().has(0) {
            return true;
        }
    }
    false
}

// Whether an object is another one than this, and its offset 0 is among these.
fn is_other_begin(object: u32, other: u32, offsets: &Offsets) -> bool
    ensures { IsTrue result ↔ ((object ≢ other) × Has offsets.now.offsets (pos 0)) }
{
    if object == other {
        return false;
    }
    offsets.set().has(0)
}

// Whether a pointer may be at offset 0 of another object than this one.
fn begins_another(pointers: &PointerSet, object: u32) -> bool
    ensures { IsTrue result ↔ HasOtherBegin pointers.now object }
{
    for (other, offsets) in pointers.objects().entries() {
        if is_other_begin(object, *other, offsets) {
            return true;
        }
    }
    false
}

// Whether the end of an object is among these offsets, and a pointer may be at offset 0 of another one.
fn is_ending(object: u32, offsets: &Offsets, other: &PointerSet) -> bool
    ensures { IsTrue result
        ↔ (Has offsets.now.offsets (pos offsets.now.size) × HasOtherBegin other.now object) }
{
    if !offsets.set().has(i128::from(offsets.size())) {
        return false;
    }
    begins_another(other, object)
}

// Whether one pointer may be at the end of an object, and the other at offset 0 of another one. Where the other has one
// beginning, only the object of that one is not apart from it.
fn meets(one: &PointerSet, other: &PointerSet) -> bool
    ensures { IsTrue result ↔ Meets one.now other.now }
{
    if !begins_some(other) {
        return false;
    }
    for (object, offsets) in one.objects().entries() {
        if is_ending(*object, offsets, other) {
            return true;
        }
    }
    false
}

/// Whether one of two pointers that are compared may be at the end of an object, and the other at the beginning of
/// another one (C99 6.5.9p6).
pub(crate) fn is_meeting(alloc: Global, state: &State<AbsValue>, left: u32, right: u32) -> bool
    ensures { IsTrue result ↔ IsMeeting state.now left right }
{
    let none = PointerSet::new(alloc);
    let one = pointers_of(state, left, &none);
    let other = pointers_of(state, right, &none);
    meets(one, other) || meets(other, one)
}
