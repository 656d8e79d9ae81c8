//! Sets of offsets in one object.
ghost use Rattle.std.specs.Prelude.{◌≡◌, ◌↔◌, ◌≤◌, IsTrue, IfOk, MatchOption, pos, min};
ghost use Rattle.strided_dom.specs.Progression.{empty, single, IsExactly};
ghost use Rattle.strided_dom.specs.Combinations.{IsInBoth};
ghost use Rattle.pointer_dom.specs.Offset.{IsOffset, IsOffsetAmong};
ghost use Rattle.pointer_dom.specs.OffsetSets.{IsOffsetSet, IsOffsetsOf, AreEnds, no_offset};

use std::alloc::Global;
use std::marker::Model;
use strided_dom::{Marks, Strided};
use tm_lattice::{Lattice, NoMemory};

/// The first and the last offset of a set.
#[derive(Clone, Copy)]
pub struct Ends {
    pub first: u32,
    pub last: u32,
}

/// A set of offsets in an object, with the size of the object. Both count scalar cells, and each offset lies from 0 to
/// the size: one past the last cell is an offset too (C99 6.5.6). The empty set has the size 0.
#[derive(Clone, Copy, PartialEq, Eq)]
pub struct Offsets {
    size: u32,
    set: Strided,
}

impl Model for Offsets {
    ghost use Rattle.pointer_dom.specs.OffsetSets.{OffsetSet, IsOffsetSet};

    ghost Value = { OffsetSet };

    ghost view = { λ a. record { size = a.size; offsets = a.set } };

    ghost invariant = { λ a. IsOffsetSet record { size = a.size; offsets = a.set } };

    ghost inverse = { λ o. record { size = o.size; set = o.offsets } };
}

impl Offsets {
    /// No offset.
    pub fn none() -> Offsets
        ensures { result ≡ no_offset }
    {
        Offsets {
            size: 0,
            set: Strided::empty(),
        }
    }

    /// One offset in an object of this size.
    pub fn one(size: u32, offset: u32) -> Offsets
        requires { offset ≤ size }
        ensures { result ≡ record { size = size; offsets = single (pos offset) } }
    {
        Offsets {
            size,
            set: Strided::one(i128::from(offset)),
        }
    }

    /// The members of `set` that are offsets in an object of this size.
    pub fn within(size: u32, set: &Strided) -> Offsets
        ensures { IsOffsetsOf size (IsOffsetAmong size set.now) result }
    {
        let offsets = set.meet(&all_offsets(size));
        if offsets.is_empty() {
            return Offsets::none();
        }
        Offsets { size, set: offsets }
    }

    /// The size of the object, 0 where there is no offset.
    pub fn size(&self) -> u32
        ensures { result ≡ self.now.size }
    {
        self.size
    }

    /// The offsets.
    pub fn set(&self) -> Strided
        ensures value { result ≡ self.now.offsets }
        ensures within { IsOffsetSet self.now }
    {
        self.set
    }

    /// The first and the last offset; None where there is none.
    pub fn ends(&self) -> Option<Ends>
        ensures { MatchOption result (self.now.offsets ≡ empty) (λ e. AreEnds self.now e.first e.last) }
    {
        // The calls tell that the size has 32 bits, and that each offset lies from 0 to it.
        let _size = self.size();
        let set = self.set();
        if set.is_empty() {
            return None;
        }
        Some(Ends {
            first: set.lo() as u32,
            last: set.hi() as u32,
        })
    }

    /// The offsets in both sets, with the lesser of the sizes.
    pub fn meet(&self, other: &Offsets) -> Offsets
        ensures { IsOffsetsOf (min self.now.size other.now.size) (IsInBoth self.now.offsets other.now.offsets) result }
    {
        let offsets = self.set.meet(&other.set);
        if offsets.is_empty() {
            return Offsets::none();
        }
        Offsets {
            size: self.size.min(other.size),
            set: offsets,
        }
    }
}

impl Lattice for Offsets {
    ghost use Rattle.pointer_dom.specs.OffsetSets.{IsOffsetSet, IsOffsetsBelow, HasNoOffset, joined_offsets};
    ghost use Rattle.pointer_dom.specs.OffsetSets.{rounded_offsets};
    ghost use Rattle.pointer_dom.specs.laws.OffsetLaws.{offsets_order, offsets_join, offsets_closure, offsets_nothing};

    type Marks = Marks;

    ghost is_value = { λ o. IsOffsetSet o };

    ghost is_marks = { λ _. Unit {0} };

    ghost leq = { λ o p. IsOffsetsBelow o p };

    ghost joined = { joined_offsets };

    ghost rounded = { rounded_offsets };

    ghost nothing = { HasNoOffset };

    fn is_nothing(&self) -> bool {
        self.set.is_empty()
    }

    fn below(&self, other: &Self) -> bool {
        if other.size < self.size {
            return false;
        }
        self.set.below(&other.set)
    }

    fn join(&self, _alloc: Global, other: &Self) -> Result<Self, NoMemory> {
        Ok(Offsets {
            size: self.size.max(other.size),
            set: self.set.hull(&other.set),
        })
    }

    fn round(&self, _alloc: Global, marks: &Marks) -> Result<Self, NoMemory> {
        Ok(Offsets {
            size: self.size,
            set: self.set.round(marks).meet(&all_offsets(self.size)),
        })
    }

    fn copied(&self, _alloc: Global) -> Result<Self, NoMemory> {
        Ok(*self)
    }

    ghost order = { offsets_order };

    ghost join_laws = { offsets_join };

    ghost closure = { offsets_closure };

    ghost nothing_laws = { offsets_nothing };
}

/// All offsets in an object of this size.
fn all_offsets(size: u32) -> Strided
    ensures { IsExactly (IsOffset size) result }
{
    Strided::range(0, i128::from(size), 1)
}
