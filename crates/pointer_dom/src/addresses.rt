//! Addresses of parts of objects.
ghost use Rattle.std.specs.Prelude.{◌≡◌, ◌↔◌, ℤ, pos, false, IfOk};
ghost use Rattle.strided_dom.specs.Progression.{Has, IsExactly};
ghost use Rattle.pointer_dom.specs.Advances.{IsAdvance, AreSubscripts, IsElementStep, IsSubscript, IsShortStep};

use crate::advances::{Reached, advanced_objects};
use crate::pointer_set::PointerSet;
use std::alloc::Global;
use strided_dom::Strided;
use tm_lattice::NoMemory;

impl PointerSet {
    /// The addresses of a part that begins this many cells into each object pointed to, such as a member of a structure
    /// (C99 6.5.2.3). No error is possible; null and the invalid pointer are dropped, for they are no addresses.
    pub fn offset(&self, alloc: Global, cells: u32) -> Result<PointerSet, NoMemory>
        ensures { IfOk result (λ parts. IsAdvance (λ step. step ≡ pos cells) self.now parts) }
    {
        let (objects, _) = advanced_objects(
            alloc,
            self.objects(),
            &Strided::one(i128::from(cells)),
        )?;
        Ok(PointerSet::from_parts(false, false, objects))
    }

    /// The addresses of the elements with these subscripts, of an array of `count` elements at each pointer, where an
    /// element has this many cells (C99 6.5.2.1). The class is INDEX: excluded exactly where each subscript lies from 0
    /// to `count` - 1. Other subscripts reach nothing; null and the invalid pointer are dropped, for they are no
    /// addresses.
    pub fn index(
        &self,
        alloc: Global,
        count: u32,
        cells: u32,
        subscripts: &Strided,
    ) -> Result<Reached, NoMemory>
        ensures pointers { IfOk result
            (λ r. IsAdvance (IsElementStep count cells subscripts.now) self.now r.pointers) }
        ensures class { IfOk result (λ r. (r.may_fail ≡ false) ↔ AreSubscripts count subscripts.now) }
    {
        let all = all_subscripts(count);
        let steps = element_steps(count, &all, cells, subscripts);
        let (objects, _) = advanced_objects(alloc, self.objects(), &steps)?;
        Ok(Reached {
            pointers: PointerSet::from_parts(false, false, objects),
            may_fail: !subscripts.below(&all),
        })
    }
}

/// The subscripts of an array of `count` elements.
fn all_subscripts(count: u32) -> Strided
    ensures { IsExactly (IsSubscript count) result }
{
    Strided::range(0, i128::from(count) - 1, 1)
}

/// How many cells lie between an array and its elements, where `all` has all subscripts.
fn element_steps(count: u32, all: &Strided, cells: u32, subscripts: &Strided) -> Strided
    requires { IsExactly (IsSubscript count) all.now }
    ensures steps { IsExactly (IsElementStep count cells subscripts.now) result }
    ensures short { (n : ℤ) → Has result n → IsShortStep n }
{
    subscripts.meet(all).times(i128::from(cells))
}
