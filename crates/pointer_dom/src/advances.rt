//! Pointers that advance within their objects.
ghost use Rattle.std.specs.Prelude.{◌≡◌, ◌↔◌, ℤ, IsTrue, IfOk};
ghost use Rattle.strided_dom.specs.Progression.{Has};
ghost use Rattle.pointer_dom.specs.Offset.{IsOffset};
ghost use Rattle.pointer_dom.specs.OffsetSets.{IsOffsetsOf};
ghost use Rattle.pointer_dom.specs.Advances.{IsShortStep, IsAdvanced, IsReached, IsGiven, StayInside};

use crate::offsets::Offsets;
use crate::pointer_set::{ObjectTable, PointerSet};
use std::alloc::Global;
use strided_dom::Strided;
use tm_lattice::NoMemory;

/// What an operation on pointers gives: the pointers, and whether its class of error is not excluded.
#[derive(Drop)]
pub struct Reached {
    /// The pointers.
    pub pointers: PointerSet,
    /// Whether the class is not excluded.
    pub may_fail: bool,
}

/// The offsets in all objects, each advanced by each of the steps, and whether all of them stay in their objects.
pub(crate) fn advanced_objects(
    alloc: Global,
    objects: &ObjectTable,
    steps: &Strided,
) -> Result<(ObjectTable, bool), NoMemory>
    requires { (n : ℤ) → Has steps.now n → IsShortStep n }
    ensures objects { IfOk result (λ r. IsGiven (λ object. IsReached (Has steps.now)) objects.now r.0) }
    ensures inside { IfOk result (λ r. IsTrue r.1 ↔ StayInside (Has steps.now) objects.now) }
{
    let mut reached = ObjectTable::new(alloc);
    let mut inside = true;
    for (object, offsets) in objects.entries() {
        let (moved, stay) = advanced(offsets, steps);
        reached.join_at(*object, &moved)?;
        inside = inside & stay;
    }
    Ok((reached, inside))
}

/// The offsets in one object, each advanced by each of the steps, and whether all of them stay in the object.
fn advanced(offsets: &Offsets, steps: &Strided) -> (Offsets, bool)
    requires { (n : ℤ) → Has steps.now n → IsShortStep n }
    ensures offsets { IsOffsetsOf offsets.now.size (IsReached (Has steps.now) offsets.now) result.0 }
    ensures inside { IsTrue result.1
        ↔ ((v : ℤ) → IsAdvanced (Has steps.now) offsets.now.offsets v → IsOffset offsets.now.size v) }
{
    let size = offsets.size();
    let sums = offsets.set().sum(steps);
    let reached = Offsets::within(size, &sums);
    let inside = sums.below(&reached.set());
    (reached, inside)
}
