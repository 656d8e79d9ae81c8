//! Abstract values.
ghost use Rattle.std.specs.Prelude.{◌≡◌, ◌≢◌, ◌↔◌, IsTrue, IfOk, IfSome};
ghost use Rattle.std.specs.Option.{option_copied};
ghost use Rattle.strided_dom.specs.Progression.{empty, IsSubset};
ghost use Rattle.pointer_dom.specs.PointerSets.{no_pointer, IsPointersBelow};
ghost use Rattle.pointer_dom.specs.Values.{IsValuesMeet};
ghost use Rattle.pointer_dom.specs.Forms.{values_of, IsNormal, pointers_or_none};

use crate::pointer_set::PointerSet;
use std::alloc::Global;
use std::marker::Model;
use strided_dom::{Marks, Strided};
use tm_lattice::{Lattice, NoMemory};

/// The parts of an abstract value. An `Int` has no pointers and a `Ptr` no integers; only an `Int` may be empty.
#[derive(Drop)]
pub enum Parts {
    /// Integers alone, or nothing.
    Int(Strided),
    /// Pointers alone, at least one.
    Ptr(PointerSet),
    /// At least one integer, and at least one pointer.
    Both(Strided, PointerSet),
}

/// A set of integers and pointers: what a scalar cell may hold. The values of one cell are always of one kind; the
/// order, the join, the meet and the rounding go part by part for all pairs all the same.
#[derive(Drop)]
pub struct AbsValue {
    parts: Parts,
}

impl Model for AbsValue {
    ghost use Rattle.pointer_dom.specs.Values.{Values};
    ghost use Rattle.pointer_dom.specs.laws.Codes.{values_code};

    ghost Value = { Values };

    ghost coded = { values_code };

    ghost use Rattle.pointer_dom.specs.Forms.{values_of, IsNormal};

    ghost view = { λ a. values_of a.parts };

    ghost invariant = { λ a. IsNormal a.parts };
}

impl AbsValue {
    /// These integers and no pointer.
    pub fn from_numbers(numbers: Strided) -> AbsValue
        ensures { result ≡ record { numbers = numbers; pointers = no_pointer } }
    {
        AbsValue {
            parts: Parts::Int(numbers),
        }
    }

    /// These pointers and no integer.
    pub fn from_pointers(pointers: PointerSet) -> AbsValue
        ensures { result ≡ record { numbers = empty; pointers = pointers } }
    {
        AbsValue::from_parts(Strided::empty(), pointers)
    }

    /// These integers and these pointers.
    pub fn from_parts(numbers: Strided, pointers: PointerSet) -> AbsValue
        ensures { result ≡ record { numbers = numbers; pointers = pointers } }
    {
        if pointers.is_nothing() {
            return AbsValue::from_numbers(numbers);
        }
        if numbers.is_empty() {
            return AbsValue {
                parts: Parts::Ptr(pointers),
            };
        }
        AbsValue {
            parts: Parts::Both(numbers, pointers),
        }
    }

    /// The parts: one form for each value.
    pub fn parts(&self) -> &Parts
        ensures value { values_of result.now ≡ self.now }
        ensures form { IsNormal result.now }
    {
        &self.parts
    }

    /// The integers.
    pub fn numbers(&self) -> Strided
        ensures { result ≡ self.now.numbers }
    {
        match &self.parts {
            Parts::Int(numbers) => *numbers,
            Parts::Ptr(_) => Strided::empty(),
            Parts::Both(numbers, _) => *numbers,
        }
    }

    /// The pointers, None where there is none.
    pub fn pointers(&self) -> Option<&PointerSet>
        ensures value { pointers_or_none (option_copied result) ≡ self.now.pointers }
        ensures some { IfSome (option_copied result) (λ p. p ≢ no_pointer) }
    {
        match &self.parts {
            Parts::Int(_) => None,
            Parts::Ptr(pointers) => Some(pointers),
            Parts::Both(_, pointers) => Some(pointers),
        }
    }

    /// The integers in both values, and the pointers in both.
    pub fn meet(&self, alloc: Global, other: &AbsValue) -> Result<AbsValue, NoMemory>
        ensures { IfOk result (λ both. IsValuesMeet self.now other.now both) }
    {
        let numbers = self.numbers().meet(&other.numbers());
        let none = PointerSet::new(alloc);
        let pointers = self
            .pointers_or(&none)
            .meet(alloc, other.pointers_or(&none))?;
        Ok(AbsValue::from_parts(numbers, pointers))
    }

    /// The pointers, in the place of which `none` stands where there is none.
    fn pointers_or<'a>(&'a self, none: &'a PointerSet) -> &'a PointerSet
        requires { none.now ≡ no_pointer }
        ensures { result.now ≡ self.now.pointers }
    {
        match &self.parts {
            Parts::Int(_) => none,
            Parts::Ptr(pointers) => pointers,
            Parts::Both(_, pointers) => pointers,
        }
    }
}

impl Lattice for AbsValue {
    ghost use Rattle.pointer_dom.specs.Values.{IsValues, IsValuesBelow, no_value, joined_values, rounded_values};
    ghost use Rattle.pointer_dom.specs.laws.ValueLaws.{values_order, values_join, values_closure, values_nothing};

    type Marks = Marks;

    ghost is_value = { IsValues };

    ghost is_marks = { λ _. Unit {0} };

    ghost leq = { λ v w. IsValuesBelow v w };

    ghost joined = { joined_values };

    ghost rounded = { rounded_values };

    ghost nothing = { λ v. v ≡ no_value };

    fn is_nothing(&self) -> bool {
        match &self.parts {
            Parts::Int(numbers) => numbers.is_empty(),
            _ => false,
        }
    }

    fn below(&self, other: &Self) -> bool {
        // Comparisons of states spend their time here, and meet integers far more often than pointers.
        if let (Parts::Int(numbers), Parts::Int(others)) = (&self.parts, &other.parts) {
            return are_numbers_below(numbers, others);
        }
        if !self.numbers().below(&other.numbers()) {
            return false;
        }
        are_pointers_below(self.pointers(), other.pointers())
    }

    fn join(&self, alloc: Global, other: &Self) -> Result<Self, NoMemory> {
        let numbers = self.numbers().hull(&other.numbers());
        let none = PointerSet::new(alloc);
        let pointers = self
            .pointers_or(&none)
            .join(alloc, other.pointers_or(&none))?;
        Ok(AbsValue::from_parts(numbers, pointers))
    }

    fn round(&self, alloc: Global, marks: &Marks) -> Result<Self, NoMemory> {
        match &self.parts {
            Parts::Int(numbers) => Ok(AbsValue::from_numbers(numbers.round(marks))),
            Parts::Ptr(pointers) => Ok(AbsValue::from_pointers(pointers.round(alloc, marks)?)),
            Parts::Both(numbers, pointers) => Ok(AbsValue::from_parts(
                numbers.round(marks),
                pointers.round(alloc, marks)?,
            )),
        }
    }

    fn copied(&self, alloc: Global) -> Result<Self, NoMemory> {
        match &self.parts {
            Parts::Int(numbers) => Ok(AbsValue::from_numbers(*numbers)),
            Parts::Ptr(pointers) => Ok(AbsValue::from_pointers(pointers.copied(alloc)?)),
            Parts::Both(numbers, pointers) => Ok(AbsValue::from_parts(
                *numbers,
                pointers.copied(alloc)?,
            )),
        }
    }

    ghost order = { values_order };

    ghost join_laws = { values_join };

    ghost closure = { values_closure };

    ghost nothing_laws = { values_nothing };
}

/// Whether the one set of pointers is below the other, where None stands for the empty set.
fn are_pointers_below(one: Option<&PointerSet>, other: Option<&PointerSet>) -> bool
    ensures { IsTrue result ↔ IsPointersBelow (pointers_or_none (option_copied one.entry))
        (pointers_or_none (option_copied other.entry)) }
{
    match one {
        None => true,
        Some(pointers) => match other {
            None => pointers.is_nothing(),
            Some(others) => pointers.below(others),
        },
    }
}

/// Whether the one set of integers is below the other. Comparisons of states meet equal sets more often than others.
fn are_numbers_below(one: &Strided, other: &Strided) -> bool
    ensures { IsTrue result ↔ IsSubset one.now other.now }
{
    if one == other {
        return true;
    }
    one.below(other)
}
