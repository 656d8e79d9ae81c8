//! Arithmetic on pointers, and the test that they may be compared.
ghost use Rattle.std.specs.Prelude.{◌≡◌, ◌↔◌, ℤ, pos, false, IfOk};
ghost use Rattle.strided_dom.specs.Progression.{Has, IsExactly};
ghost use Rattle.strided_dom.specs.Combinations.{IsProduct};
ghost use Rattle.pointer_dom.specs.Advances.{IsAdvance, IsSafeAdvance, IsInteger, IsShortStep, directed};
ghost use Rattle.pointer_dom.specs.Advances.{usable_pointers};

use crate::advances::{Reached, advanced_objects};
use crate::pointer_set::PointerSet;
use std::alloc::Global;
use strided_dom::Strided;
use tm_lattice::{Lattice, NoMemory};

impl PointerSet {
    /// The pointers with `counts` added, or subtracted where `forward` is false; a pointer goes by this many cells for
    /// each one counted (C99 6.5.6). The class is POINTER: excluded exactly where no pointer is null or invalid, and
    /// each one stays from 0 to the size of its object. What leaves an object reaches nothing; null and the invalid
    /// pointer are dropped.
    pub fn moved(
        &self,
        alloc: Global,
        forward: bool,
        cells: u32,
        counts: &Strided,
    ) -> Result<Reached, NoMemory>
        requires { (n : ℤ) → Has counts.now n → IsInteger n }
        ensures pointers { IfOk result
            (λ r. IsAdvance (IsProduct counts.now (directed forward cells)) self.now r.pointers) }
        ensures class { IfOk result (λ r. (r.may_fail ≡ false)
            ↔ IsSafeAdvance (IsProduct counts.now (directed forward cells)) self.now) }
    {
        let steps = distances(forward, cells, counts);
        let (objects, inside) = advanced_objects(alloc, self.objects(), &steps)?;
        Ok(Reached {
            pointers: PointerSet::from_parts(false, false, objects),
            may_fail: self.has_null() | self.has_invalid() | !inside,
        })
    }

    /// The pointers that may be compared: all but the invalid one. The class is POINTER: excluded exactly where that is
    /// not in the set (C99 6.5.9, 6.2.4).
    pub fn usable(&self, alloc: Global) -> Result<Reached, NoMemory>
        ensures pointers { IfOk result (λ r. r.pointers ≡ usable_pointers self.now) }
        ensures class { IfOk result (λ r. r.may_fail ≡ self.now.invalid) }
    {
        let objects = self.objects().copied(alloc)?;
        Ok(Reached {
            pointers: PointerSet::from_parts(self.has_null(), false, objects),
            may_fail: self.has_invalid(),
        })
    }
}

/// The distances in cells: `counts` times so many cells, forward or back.
pub fn distances(forward: bool, cells: u32, counts: &Strided) -> Strided
    requires { (n : ℤ) → Has counts.now n → IsInteger n }
    ensures distances { IsExactly (IsProduct counts.now (directed forward cells)) result }
    ensures short { (n : ℤ) → Has result n → IsShortStep n }
{
    counts.times(signed_cells(forward, cells))
}

/// The number of cells, negative where the way is back.
fn signed_cells(forward: bool, cells: u32) -> i128
    ensures { result ≡ directed forward cells }
{
    if forward {
        i128::from(cells)
    } else {
        -i128::from(cells)
    }
}
