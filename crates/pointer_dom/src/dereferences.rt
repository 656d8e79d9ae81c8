//! Dereferences of pointers, over any layout of objects.
ghost use Rattle.std.specs.Prelude.{◌≡◌, ◌↔◌, ℕ, IsTrue, IfOk, false};
ghost use Rattle.strided_dom.specs.Progression.{IsHull};
ghost use Rattle.pointer_dom.specs.OffsetSets.{IsOffsetsOf};
ghost use Rattle.pointer_dom.specs.Pointer.{Pointer};
ghost use Rattle.pointer_dom.specs.PointerSets.{IsPointer};
ghost use Rattle.pointer_dom.specs.Advances.{IsGiven};
ghost use Rattle.pointer_dom.specs.Selections.{IsHullOfPointers, IsTarget, Reaches, IsStanding, AllStand, IsStandingIn};
ghost use Rattle.pointer_dom.specs.Selections.{AllStandAt, AllStandIn};

use crate::advances::Reached;
use crate::offsets::Offsets;
use crate::pointer_set::{ObjectTable, PointerSet};
use std::alloc::Global;
use strided_dom::Strided;
use tm_lattice::NoMemory;

/// What a dereference of a pointer to one type has to know of objects: which are alive, and at which offsets the scalar
/// cells of the pointed type stand in order.
pub trait Layout {
    // The object is alive.
    ghost alive: { Self → ℕ → Type 0 };

    // The cells of the pointed type stand in the object from this offset on.
    ghost stands: { Self → ℕ → ℕ → Type 0 };

    /// Whether an object is alive.
    fn is_alive(&self, object: u32) -> bool
        ensures { IsTrue result ↔ alive self.now object };

    /// The least strided set with those of the offsets at which the cells stand, and whether they stand at all of them.
    fn standing(&self, object: u32, offsets: &Offsets) -> (Strided, bool)
        ensures hull { IsHull (IsStanding (stands self.now object) offsets.now) result.0 }
        ensures all { IsTrue result.1 ↔ AllStand (stands self.now object) offsets.now };
}

impl PointerSet {
    /// The addresses of the cells that a dereference may reach, in each object that is alive the least strided set with
    /// them (C99 6.5.3.2). The class is DEREF: excluded exactly where each pointer leads to an object that is alive,
    /// and to an offset at which the cells of the pointed type stand.
    pub fn dereferenced<L: Layout>(&self, alloc: Global, layout: &L) -> Result<Reached, NoMemory>
        ensures pointers { IfOk result (λ r. IsHullOfPointers
            (IsTarget (L.alive layout.now) (L.stands layout.now) self.now) self.now r.pointers) }
        ensures class { IfOk result (λ r. (r.may_fail ≡ false) ↔ ((x : Pointer)
            → IsPointer self.now x → Reaches (L.alive layout.now) (L.stands layout.now) x)) }
    {
        let (objects, all) = standing_objects(alloc, self.objects(), layout)?;
        Ok(Reached {
            pointers: PointerSet::from_parts(false, false, objects),
            may_fail: self.has_null() | self.has_invalid() | !all,
        })
    }
}

/// Of the offsets in each object those at which a dereference finds cells, and whether it finds them at all.
fn standing_objects<L: Layout>(
    alloc: Global,
    objects: &ObjectTable,
    layout: &L,
) -> Result<(ObjectTable, bool), NoMemory>
    ensures objects { IfOk result (λ r. IsGiven
        (IsStandingIn (L.alive layout.now) (L.stands layout.now)) objects.now r.0) }
    ensures all { IfOk result (λ r. IsTrue r.1
        ↔ AllStandIn (L.alive layout.now) (L.stands layout.now) objects.now) }
{
    let mut reached = ObjectTable::new(alloc);
    let mut all = true;
    for (object, offsets) in objects.entries() {
        let (standing, whole) = standing_offsets(layout, *object, offsets);
        reached.join_at(*object, &standing)?;
        all = all & whole;
    }
    Ok((reached, all))
}

/// Of the offsets in one object those at which a dereference finds cells, and whether it finds them at all.
fn standing_offsets<L: Layout>(layout: &L, object: u32, offsets: &Offsets) -> (Offsets, bool)
    ensures offsets { IsOffsetsOf offsets.now.size
        (IsStandingIn (L.alive layout.now) (L.stands layout.now) object offsets.now) result.0 }
    ensures all { IsTrue result.1
        ↔ AllStandAt (L.alive layout.now) (L.stands layout.now) object offsets.now }
{
    let size = offsets.size();
    let set = offsets.set();
    if !layout.is_alive(object) {
        return (Offsets::none(), set.is_empty());
    }
    let (standing, all) = layout.standing(object, offsets);
    (Offsets::within(size, &standing), all)
}
