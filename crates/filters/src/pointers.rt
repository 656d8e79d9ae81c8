//! Filters by comparisons of pointers.
ghost use Rattle.std.specs.Prelude.{IfOk};
ghost use Rattle.pointer_dom.specs.Selections.{IsHullOfPointers};
ghost use Rattle.filters.specs.PointerPartners.{MayBeUnequal, ArePointersAssumed};

use pointer_dom::{PointerSet, PointerValue};
use std::alloc::Global;
use tm_lattice::{Lattice, NoMemory};

/// What is left of `p` and `q` where `x == y` is known of a pointer x of `p` and a pointer y of `q`, or `x != y` where
/// `equal` is false (C99 6.5.9). Of `==` that is what both have. Of `!=`, where one side is null alone, or one object
/// at one offset, the other side loses it; what is left of its offsets is the least strided set. An invalid pointer
/// alone removes nothing: two invalid pointers are not told apart. Both are empty where one operand is.
pub fn assume_ptr(
    alloc: Global,
    equal: bool,
    p: &PointerSet,
    q: &PointerSet,
) -> Result<(PointerSet, PointerSet), NoMemory>
    ensures { IfOk result (λ r. ArePointersAssumed equal p.now q.now r.0 r.1) }
{
    if equal {
        let left = p.meet(alloc, q)?;
        let right = left.copied(alloc)?;
        return Ok((left, right));
    }
    let left = unequal_pointers(alloc, p, q)?;
    let right = unequal_pointers(alloc, q, p)?;
    Ok((left, right))
}

/// The least set with the pointers of `p` that may be unequal to some pointer of `q`.
fn unequal_pointers(alloc: Global, p: &PointerSet, q: &PointerSet) -> Result<PointerSet, NoMemory>
    ensures { IfOk result (λ others. IsHullOfPointers (MayBeUnequal p.now q.now) p.now others) }
{
    let _ = p.objects();
    if q.is_nothing() {
        return Ok(PointerSet::new(alloc));
    }
    match q.only() {
        None => p.copied(alloc),
        Some(PointerValue::Null) => p.without(alloc, PointerValue::Null),
        Some(PointerValue::Invalid) => p.copied(alloc),
        Some(PointerValue::To { object, offset }) => {
            p.without(alloc, PointerValue::To { object, offset })
        }
    }
}
