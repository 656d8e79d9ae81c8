//! Dereferences.
ghost use Rattle.std.specs.Prelude.{◌≡◌, ◌↔◌, ◌≤◌, IsTrue, IfOk, length, false};
ghost use Rattle.strided_dom.specs.Progression.{IsHull};
ghost use Rattle.pointer_dom.specs.OffsetSets.{IsOffsetsOf, AreEnds};
ghost use Rattle.pointer_dom.specs.Pointer.{Pointer};
ghost use Rattle.pointer_dom.specs.PointerSets.{IsPointer};
ghost use Rattle.pointer_dom.specs.Advances.{IsGiven};
ghost use Rattle.pointer_dom.specs.Selections.{IsHullOfPointers, IsTarget, Reaches, IsStanding, AllStand, IsStandingIn};
ghost use Rattle.pointer_dom.specs.Selections.{AllStandAt, AllStandIn};
ghost use Rattle.tm_laid.specs.tm_typed.TypedFiles.{typed_file_tree};
ghost use Rattle.tm_laid.specs.Layable.{IsLayable};
ghost use Rattle.tm_laid.specs.Layouts.{laid_tree, is_alive, stands_at};
ghost use Rattle.transfer_rows.specs.Actions.{dereferenced};
ghost use Rattle.calculations.specs.Given.{IsCalculated};
ghost use Rattle.calculations.specs.reading.Ends.{Alive, Stands};

use crate::values::{Calculated, no_classes, pointers_of};
use cell_env::State;
use cell_types::stands_at;
use pointer_dom::{AbsValue, Ends, ObjectTable, Offsets, PointerSet, Reached};
use std::alloc::Global;
use strided_dom::Strided;
use tm_laid::{Laid, is_alive};
use tm_lattice::{Lattice, NoMemory};
use transfer_int::Classes;

/// How a pointer is followed: to objects that are alive on a call path, where the cells of the type `target` stand.
#[derive(Clone, Copy)]
pub struct Followed<'a> {
    pub laid: &'a Laid,
    pub path: u32,
    pub target: u32,
}

// Of the offsets from the first to the last the least set with those at which the type stands, and whether it does at
// all of them.
fn standing_within(
    followed: &Followed,
    object: u32,
    offsets: &Offsets,
    first: u32,
    last: u32,
) -> (Strided, bool)
    requires layable { IsLayable (typed_file_tree followed.now.laid.now.file) followed.now.laid.now.file.order.items }
    requires few { length followed.now.laid.now.cells.items ≤ 65536 }
    requires ends { AreEnds offsets.now first last }
    ensures hull { IsHull (IsStanding (Stands followed.now object) offsets.now) result.0 }
    ensures all { IsTrue result.1 ↔ AllStand (Stands followed.now object) offsets.now }
{
    let set = offsets.set();
    let mut standing = Strided::empty();
    let mut all = true;
    for offset in u64::from(first)..u64::from(last) + 1 {
        if set.has(i128::from(offset)) {
            if stands_at(followed.laid, object, offset as u32, followed.target) {
                standing = standing.hull(&Strided::one(i128::from(offset)));
            } else {
                all = false;
            }
        }
    }
    (standing, all)
}

// Of some offsets the least set with those at which the type stands, and whether it does at all of them.
fn standing(followed: &Followed, object: u32, offsets: &Offsets) -> (Strided, bool)
    requires layable { IsLayable (typed_file_tree followed.now.laid.now.file) followed.now.laid.now.file.order.items }
    requires few { length followed.now.laid.now.cells.items ≤ 65536 }
    ensures hull { IsHull (IsStanding (Stands followed.now object) offsets.now) result.0 }
    ensures all { IsTrue result.1 ↔ AllStand (Stands followed.now object) offsets.now }
{
    match offsets.ends() {
        None => (Strided::empty(), true),
        Some(Ends { first, last }) => standing_within(followed, object, offsets, first, last),
    }
}

// Of the offsets in one object those at which a dereference finds cells, and whether it finds them at all.
fn standing_offsets(followed: &Followed, object: u32, offsets: &Offsets) -> (Offsets, bool)
    requires layable { IsLayable (typed_file_tree followed.now.laid.now.file) followed.now.laid.now.file.order.items }
    requires few { length followed.now.laid.now.cells.items ≤ 65536 }
    ensures offsets { IsOffsetsOf offsets.now.size
        (IsStandingIn (Alive followed.now) (Stands followed.now) object offsets.now) result.0 }
    ensures all { IsTrue result.1 ↔ AllStandAt (Alive followed.now) (Stands followed.now) object offsets.now }
{
    let size = offsets.size();
    let set = offsets.set();
    if !is_alive(followed.laid, followed.path, object) {
        return (Offsets::none(), set.is_empty());
    }
    let (standing, all) = standing(followed, object, offsets);
    (Offsets::within(size, &standing), all)
}

// Of the offsets in each object those at which a dereference finds cells, and whether it finds them at all.
fn standing_objects(
    alloc: Global,
    followed: &Followed,
    objects: &ObjectTable,
) -> Result<(ObjectTable, bool), NoMemory>
    requires layable { IsLayable (typed_file_tree followed.now.laid.now.file) followed.now.laid.now.file.order.items }
    requires few { length followed.now.laid.now.cells.items ≤ 65536 }
    ensures objects { IfOk result (λ r. IsGiven (IsStandingIn (Alive followed.now) (Stands followed.now)) objects.now
        r.0) }
    ensures all { IfOk result (λ r. IsTrue r.1 ↔ AllStandIn (Alive followed.now) (Stands followed.now) objects.now) }
{
    let mut reached = ObjectTable::new(alloc);
    let mut all = true;
    for (object, offsets) in objects.entries() {
        let (standing, whole) = standing_offsets(followed, *object, offsets);
        reached.join_at(*object, &standing)?;
        all = all & whole;
    }
    Ok((reached, all))
}

// The addresses that a dereference may reach, and whether the class of a dereference is not excluded.
fn reached(alloc: Global, followed: &Followed, pointers: &PointerSet) -> Result<Reached, NoMemory>
    requires layable { IsLayable (typed_file_tree followed.now.laid.now.file) followed.now.laid.now.file.order.items }
    requires few { length followed.now.laid.now.cells.items ≤ 65536 }
    ensures pointers { IfOk result (λ r. IsHullOfPointers
        (IsTarget (Alive followed.now) (Stands followed.now) pointers.now) pointers.now r.pointers) }
    ensures class { IfOk result (λ r. (r.may_fail ≡ false) ↔ ((x : Pointer)
        → IsPointer pointers.now x → Reaches (Alive followed.now) (Stands followed.now) x)) }
{
    let (objects, all) = standing_objects(alloc, followed, pointers.objects())?;
    Ok(Reached {
        pointers: PointerSet::from_parts(false, false, objects),
        may_fail: pointers.has_null() | pointers.has_invalid() | !all,
    })
}

/// A pointer that is followed: what it designates. Condition: the file can be laid out, and there are no more cells
/// than its limit.
pub fn dereferenced(
    alloc: Global,
    state: &State<AbsValue>,
    followed: &Followed,
    source: u32,
) -> Result<Calculated, NoMemory>
    requires layable { IsLayable (typed_file_tree followed.now.laid.now.file) followed.now.laid.now.file.order.items }
    requires few { length followed.now.laid.now.cells.items ≤ 65536 }
    ensures { IfOk result
        (λ given. IsCalculated (dereferenced (is_alive (laid_tree followed.now.laid.now) followed.now.path)
        (λ object offset. stands_at (laid_tree followed.now.laid.now) object offset followed.now.target) source)
        state.now given) }
{
    let none = PointerSet::new(alloc);
    let pointers = pointers_of(state, source, &none);
    let reached = reached(alloc, followed, pointers)?;
    // The calls tell that these are sets of pointers.
    let _ = pointers.objects();
    let _ = reached.pointers.objects();
    Ok(Calculated {
        value: AbsValue::from_pointers(reached.pointers),
        classes: Classes {
            deref: reached.may_fail,
            ..no_classes()
        },
    })
}
