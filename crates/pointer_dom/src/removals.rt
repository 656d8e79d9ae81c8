//! Sets of pointers without one pointer.
ghost use Rattle.std.specs.Prelude.{IfOk};
ghost use Rattle.pointer_dom.specs.OffsetSets.{IsOffsetsOf};
ghost use Rattle.pointer_dom.specs.PointerForms.{pointer_of};
ghost use Rattle.pointer_dom.specs.Advances.{IsGiven};
ghost use Rattle.pointer_dom.specs.Selections.{IsHullOfPointers, IsOtherPointer, IsOtherOffset};

use crate::comparisons::PointerValue;
use crate::offsets::Offsets;
use crate::pointer_set::{ObjectTable, PointerSet};
use std::alloc::Global;
use tm_lattice::{Lattice, NoMemory};

impl PointerSet {
    /// The pointers other than this one; of offsets in its object, the least strided set with those that are left.
    pub fn without(&self, alloc: Global, pointer: PointerValue) -> Result<PointerSet, NoMemory>
        ensures { IfOk result (λ others.
            IsHullOfPointers (IsOtherPointer self.now (pointer_of pointer)) self.now others) }
    {
        let (null, invalid) = (self.has_null(), self.has_invalid());
        match pointer {
            PointerValue::Null => {
                let objects = self.objects().copied(alloc)?;
                Ok(PointerSet::from_parts(false, invalid, objects))
            }
            PointerValue::Invalid => {
                let objects = self.objects().copied(alloc)?;
                Ok(PointerSet::from_parts(null, false, objects))
            }
            PointerValue::To { object, offset } => {
                let objects = other_objects(alloc, self.objects(), object, offset)?;
                Ok(PointerSet::from_parts(null, invalid, objects))
            }
        }
    }
}

/// The offsets in all objects, without one offset in one object.
fn other_objects(
    alloc: Global,
    objects: &ObjectTable,
    object: u32,
    offset: u32,
) -> Result<ObjectTable, NoMemory>
    ensures { IfOk result (λ others. IsGiven (IsOtherOffset object offset) objects.now others) }
{
    let mut others = ObjectTable::new(alloc);
    for (key, offsets) in objects.entries() {
        others.join_at(*key, &other_offsets(*key, offsets, object, offset))?;
    }
    Ok(others)
}

/// The least set with the offsets in the object `key`, without one offset in one object.
fn other_offsets(key: u32, offsets: &Offsets, object: u32, offset: u32) -> Offsets
    ensures { IsOffsetsOf offsets.now.size (IsOtherOffset object offset key offsets.now) result }
{
    let size = offsets.size();
    let set = offsets.set();
    if key == object {
        Offsets::within(size, &set.without(i128::from(offset)))
    } else {
        *offsets
    }
}
