//! Sets of pointers.
ghost use Rattle.std.specs.Prelude.{◌≡◌, ◌↔◌, ◌≤◌, IsTrue, IfOk, true, false};
ghost use Rattle.std.specs.Option.{option_copied};
ghost use Rattle.std.specs.FinMap as map;
ghost use Rattle.pointer_dom.specs.PointerSets.{IsPointers, IsMeet, IsTableMeet, no_pointer, pointer_to};

use crate::offsets::Offsets;
use shared_tables::SharedTable;
use std::alloc::Global;
use std::marker::Model;
use strided_dom::Marks;
use tm_lattice::{Lattice, NoMemory};

/// A table of objects by their numbers, with the offsets of the pointers to each. Copies of it share the entries.
pub type ObjectTable = SharedTable<Offsets>;

/// A set of pointers: whether the null pointer and the invalid pointer are there, and for some objects a set of offsets
/// that is not empty. Objects go by their numbers. An invalid pointer is what a pointer cell holds before it is stored.
#[derive(Drop)]
pub struct PointerSet {
    null: bool,
    invalid: bool,
    objects: ObjectTable,
}

impl Model for PointerSet {
    ghost use Rattle.pointer_dom.specs.PointerSets.{Pointers, IsPointers};
    ghost use Rattle.pointer_dom.specs.laws.Codes.{pointers_code};

    ghost Value = { Pointers };

    ghost coded = { pointers_code };

    ghost view = { λ a. record { null = a.null; invalid = a.invalid; objects = a.objects } };

    ghost invariant = { λ a. IsPointers record { null = a.null; invalid = a.invalid; objects = a.objects } };
}

impl PointerSet {
    /// No pointer. It takes no memory.
    pub fn new(alloc: Global) -> PointerSet
        ensures { result ≡ no_pointer }
    {
        PointerSet::from_parts(false, false, ObjectTable::new(alloc))
    }

    /// The null pointer alone (C99 6.3.2.3). It takes no memory.
    pub fn null(alloc: Global) -> PointerSet
        ensures { result ≡ record { null = true; invalid = false; objects = map.empty } }
    {
        PointerSet::from_parts(true, false, ObjectTable::new(alloc))
    }

    /// The invalid pointer alone. It takes no memory.
    pub fn invalid(alloc: Global) -> PointerSet
        ensures { result ≡ record { null = false; invalid = true; objects = map.empty } }
    {
        PointerSet::from_parts(false, true, ObjectTable::new(alloc))
    }

    /// The pointer to an object of this size, at this offset, alone.
    pub fn to(alloc: Global, object: u32, size: u32, offset: u32) -> Result<PointerSet, NoMemory>
        requires { offset ≤ size }
        ensures { IfOk result (λ set. set ≡ pointer_to object size offset) }
    {
        let mut objects = ObjectTable::new(alloc);
        objects.join_at(object, &Offsets::one(size, offset))?;
        Ok(PointerSet::from_parts(false, false, objects))
    }

    /// The set of these parts.
    pub fn from_parts(null: bool, invalid: bool, objects: ObjectTable) -> PointerSet
        ensures { result ≡ record { null = null; invalid = invalid; objects = objects } }
    {
        // The call tells that each entry of the table is a value, and that none is nothing.
        let _is_empty = objects.is_nothing();
        PointerSet {
            null,
            invalid,
            objects,
        }
    }

    /// Whether the null pointer is in the set.
    pub fn has_null(&self) -> bool
        ensures { result ≡ self.now.null }
    {
        self.null
    }

    /// Whether the invalid pointer is in the set.
    pub fn has_invalid(&self) -> bool
        ensures { result ≡ self.now.invalid }
    {
        self.invalid
    }

    /// The table of the objects to which a pointer is in the set, with their offsets.
    pub fn objects(&self) -> &ObjectTable
        ensures value { result.now ≡ self.now.objects }
        ensures within { IsPointers self.now }
    {
        &self.objects
    }

    /// The offsets of the pointers to an object, None where there is no such pointer.
    pub fn offsets_of(&self, object: u32) -> Option<&Offsets>
        ensures { option_copied result ≡ map.get self.now.objects object }
    {
        self.objects.get(object)
    }

    /// The pointers in both sets.
    pub fn meet(&self, alloc: Global, other: &PointerSet) -> Result<PointerSet, NoMemory>
        ensures { IfOk result (λ both. IsMeet self.now other.now both) }
    {
        let objects = common_offsets(alloc, &self.objects, &other.objects)?;
        Ok(PointerSet::from_parts(
            self.null & other.null,
            self.invalid & other.invalid,
            objects,
        ))
    }

    /// Whether the two sets have the same pointers, and the same sizes of objects.
    pub fn same(&self, other: &PointerSet) -> bool
        ensures { IsTrue result ↔ (self.now ≡ other.now) }
    {
        // Both are opened: sets below one another are equal only as values of the type.
        let _ = &self.objects;
        let _ = &other.objects;
        if !self.below(other) {
            return false;
        }
        other.below(self)
    }
}

impl Lattice for PointerSet {
    ghost use Rattle.pointer_dom.specs.PointerSets.{IsPointers, IsPointersBelow, no_pointer, joined_pointers};
    ghost use Rattle.pointer_dom.specs.PointerSets.{rounded_pointers};
    ghost use Rattle.pointer_dom.specs.laws.PointerLaws.{pointers_order, pointers_join, pointers_closure};
    ghost use Rattle.pointer_dom.specs.laws.PointerLaws.{pointers_nothing};

    type Marks = Marks;

    ghost is_value = { IsPointers };

    ghost is_marks = { λ _. Unit {0} };

    ghost leq = { λ p q. IsPointersBelow p q };

    ghost joined = { joined_pointers };

    ghost rounded = { rounded_pointers };

    ghost nothing = { λ p. p ≡ no_pointer };

    fn is_nothing(&self) -> bool {
        !(self.null | self.invalid) & self.objects.is_nothing()
    }

    fn below(&self, other: &Self) -> bool {
        if !implies(self.null, other.null) {
            return false;
        }
        if !implies(self.invalid, other.invalid) {
            return false;
        }
        self.objects.below(&other.objects)
    }

    fn join(&self, alloc: Global, other: &Self) -> Result<Self, NoMemory> {
        let objects = self.objects.join(alloc, &other.objects)?;
        Ok(PointerSet::from_parts(
            self.null | other.null,
            self.invalid | other.invalid,
            objects,
        ))
    }

    fn round(&self, alloc: Global, marks: &Marks) -> Result<Self, NoMemory> {
        let objects = self.objects.round(alloc, marks)?;
        Ok(PointerSet::from_parts(self.null, self.invalid, objects))
    }

    fn copied(&self, alloc: Global) -> Result<Self, NoMemory> {
        let objects = self.objects.copied(alloc)?;
        Ok(PointerSet::from_parts(self.null, self.invalid, objects))
    }

    ghost order = { pointers_order };

    ghost join_laws = { pointers_join };

    ghost closure = { pointers_closure };

    ghost nothing_laws = { pointers_nothing };
}

/// Whether the second holds if the first does.
fn implies(one: bool, other: bool) -> bool
    ensures { IsTrue result ↔ (IsTrue one → IsTrue other) }
{
    !one | other
}

/// The offsets in both tables, object by object.
fn common_offsets(
    alloc: Global,
    one: &ObjectTable,
    other: &ObjectTable,
) -> Result<ObjectTable, NoMemory>
    ensures { IfOk result (λ both. IsTableMeet one.now other.now both) }
{
    let mut both = ObjectTable::new(alloc);
    for (object, offsets) in one.entries() {
        if let Some(others) = other.get(*object) {
            both.join_at(*object, &offsets.meet(others))?;
        }
    }
    Ok(both)
}
