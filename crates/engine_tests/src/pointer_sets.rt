//! Sets of pointers and abstract values, worked by hand: what a row of them is; and offsets, single pointers, joins,
//! meets, roundings and forms.
use crate::number_sets::{NONE, Numbers, marks, set};
use crate::pointer_operations::{is_equality, is_reached_by};
use crate::tables::{Row, assert_rows};
use pointer_dom::{AbsValue, ObjectTable, Offsets, Parts, PointerSet};
use std::alloc::Global;
use std::test::Fail;
use tm_lattice::{Lattice, NoMemory};

/// Whether null and the invalid pointer are there, and the offsets in object 1, of 10 cells, and in object 2, of 5
/// cells.
pub(crate) type Targets = (bool, bool, Numbers, Numbers);

pub(crate) const NO_POINTER: Targets = (false, false, NONE, NONE);

pub(crate) const NULL: Targets = (true, false, NONE, NONE);

/// What a set of pointers becomes.
pub(crate) enum Change {
    /// The join with another one.
    Join(Targets),
    Meet(Targets),
    /// The rounding onto the thresholds 0, 1 and 8.
    Round,
    /// The parts that begin so many cells behind the pointers.
    Part(u32),
}

/// What is done with pointers that leads to others, and may be an error.
pub(crate) enum Step {
    /// Forward, by how many cells for each count, and the counts.
    Move(bool, u32, Numbers),
    /// How many elements the array has, the cells of each, and the subscripts.
    Index(u32, u32, Numbers),
    /// As a value that is used.
    Use,
    /// The greatest object that is alive, and the greatest offset at which a cell stands.
    Dereference(u32, u32),
}

/// What operations on sets of pointers and on values give.
pub(crate) enum PointerRow {
    /// A size, some numbers, and those of them that are offsets in an object of this size.
    Within(u32, Numbers, Numbers),
    /// A set, and what it becomes.
    Changed(Targets, Change, Targets),
    /// Two values, by their numbers and pointers, and the letter of the form that their join has.
    Form(Numbers, Targets, Numbers, Targets, char),
    /// A set, where a step leads from it, and whether the class is not excluded.
    Reaches(Targets, Step, Targets, bool),
    /// Whether it is `==`, both sides, and the values of the comparison.
    Equal(bool, Targets, Targets, Numbers),
}

use Change::{Join, Meet, Part, Round};
use PointerRow::{Changed, Equal, Form, Reaches, Within};

pub(crate) fn offsets_within(size: u32, row: Numbers) -> Offsets {
    Offsets::within(size, &set(row))
}

pub(crate) fn pointers(alloc: Global, row: &Targets) -> Result<PointerSet, NoMemory> {
    let mut objects = ObjectTable::new(alloc);
    objects.join_at(1, &offsets_within(10, row.2))?;
    objects.join_at(2, &offsets_within(5, row.3))?;
    Ok(PointerSet::from_parts(row.0, row.1, objects))
}

/// Whether a set has these pointers. (What owns sets has one way out behind them: how they are let go is proved for
/// each way out.)
pub(crate) fn is_same(alloc: Global, set: &PointerSet, row: &Targets) -> Result<bool, NoMemory> {
    let wanted = pointers(alloc, row)?;
    Ok(set.same(&wanted))
}

fn join_with(alloc: Global, from: &PointerSet, with: &Targets) -> Result<PointerSet, NoMemory> {
    let other = pointers(alloc, with)?;
    from.join(alloc, &other)
}

fn meet_with(alloc: Global, from: &PointerSet, with: &Targets) -> Result<PointerSet, NoMemory> {
    let other = pointers(alloc, with)?;
    from.meet(alloc, &other)
}

fn round_onto(alloc: Global, from: &PointerSet, ends: &[i128]) -> Result<PointerSet, NoMemory> {
    let marks = marks(alloc, ends)?;
    from.round(alloc, &marks)
}

fn changed_by(alloc: Global, from: &PointerSet, by: &Change) -> Result<PointerSet, NoMemory> {
    match by {
        Join(with) => join_with(alloc, from, with),
        Meet(with) => meet_with(alloc, from, with),
        Round => round_onto(alloc, from, &[0, 1, 8]),
        Part(cells) => from.offset(alloc, *cells),
    }
}

fn is_changed_by(
    alloc: Global,
    from: &PointerSet,
    by: &Change,
    to: &Targets,
) -> Result<bool, NoMemory> {
    let changed = changed_by(alloc, from, by)?;
    is_same(alloc, &changed, to)
}

fn is_changed(alloc: Global, from: &Targets, by: &Change, to: &Targets) -> Result<bool, NoMemory> {
    let from = pointers(alloc, from)?;
    is_changed_by(alloc, &from, by, to)
}

fn is_reached(
    alloc: Global,
    from: &Targets,
    by: &Step,
    to: &Targets,
    may_fail: bool,
) -> Result<bool, NoMemory> {
    let from = pointers(alloc, from)?;
    is_reached_by(alloc, &from, by, to, may_fail)
}

fn value(alloc: Global, numbers: Numbers, row: &Targets) -> Result<AbsValue, NoMemory> {
    Ok(AbsValue::from_parts(set(numbers), pointers(alloc, row)?))
}

/// The letter of the form of a value.
fn letter_of(value: &AbsValue) -> char {
    match value.parts() {
        Parts::Int(_) => 'i',
        Parts::Ptr(_) => 'p',
        Parts::Both(_, _) => 'b',
    }
}

fn has_form(
    alloc: Global,
    one: &AbsValue,
    other: &AbsValue,
    letter: char,
) -> Result<bool, NoMemory> {
    let joined = one.join(alloc, other)?;
    Ok(letter_of(&joined) == letter)
}

fn has_form_with(
    alloc: Global,
    one: &AbsValue,
    numbers: Numbers,
    pointers: &Targets,
    letter: char,
) -> Result<bool, NoMemory> {
    let other = value(alloc, numbers, pointers)?;
    has_form(alloc, one, &other, letter)
}

impl Row for PointerRow {
    fn holds(&self, alloc: Global) -> Result<bool, NoMemory> {
        match self {
            Within(size, numbers, wanted) => Ok(
                offsets_within(*size, *numbers).set() == set(*wanted),
            ),
            Changed(from, by, to) => is_changed(alloc, from, by, to),
            Form(numbers, pointers, others, with, letter) => {
                let one = value(alloc, *numbers, pointers)?;
                has_form_with(alloc, &one, *others, with, *letter)
            }
            Reaches(from, by, to, may_fail) => is_reached(alloc, from, by, to, *may_fail),
            Equal(equal, left, right, wanted) => is_equality(alloc, *equal, left, right, *wanted),
        }
    }
}

/// The offsets in an object of the pointer to object 7, of 4 cells, at offset 1.
fn offsets_of_one(alloc: Global, object: u32) -> Result<Option<Offsets>, NoMemory> {
    let one = PointerSet::to(alloc, 7, 4, 1)?;
    Ok(one.offsets_of(object).copied())
}

/// Whether null is in the set, whether the invalid pointer is, and whether nothing is. (The set is let go here, and not
/// wherever this is called.)
fn flags(set: PointerSet) -> (bool, bool, bool) {
    (set.has_null(), set.has_invalid(), set.is_nothing())
}

static OFFSETS: [PointerRow; 4] = [
    Within(10, (-3, 12, 3), (0, 9, 3)),
    Within(10, (0, 10, 5), (0, 10, 5)),
    Within(10, (11, 20, 1), NONE),
    Within(0, (0, 3, 1), (0, 0, 1)),
];

#[test]
fn offsets_in_an_object(rt: HostRuntime) {
    assert_rows(&rt, rt.alloc(), &OFFSETS);
    assert!(rt; offsets_within(10, (11, 20, 1)).size() == 0);
    assert!(rt; offsets_within(10, (10, 10, 1)) == Offsets::one(10, 10));
}

#[test]
fn single_pointers(rt: HostRuntime) -> Result<(), Fail> {
    let alloc = rt.alloc();
    assert!(rt; flags(PointerSet::null(alloc)) == (true, false, false));
    assert!(rt; flags(PointerSet::invalid(alloc)) == (false, true, false));
    assert!(rt; flags(PointerSet::new(alloc)) == (false, false, true));
    assert!(rt; offsets_of_one(alloc, 7)? == Some(Offsets::one(4, 1)));
    assert!(rt; offsets_of_one(alloc, 1)? == None);
    Ok(())
}

static CHANGES: [PointerRow; 6] = [
    Changed(
        (true, false, (2, 2, 1), NONE),
        Join((false, true, (6, 8, 2), (4, 4, 1))),
        (true, true, (2, 8, 2), (4, 4, 1)),
    ),
    Changed(
        NO_POINTER,
        Join((true, false, NONE, (0, 5, 5))),
        (true, false, NONE, (0, 5, 5)),
    ),
    Changed(
        (true, true, (2, 8, 2), (0, 4, 2)),
        Meet((true, false, (3, 9, 3), (4, 4, 1))),
        (true, false, (6, 6, 1), (4, 4, 1)),
    ),
    Changed(
        (false, true, (0, 4, 4), (1, 3, 1)),
        Meet((true, true, (1, 1, 1), NONE)),
        (false, true, NONE, NONE),
    ),
    Changed(
        (true, false, (2, 5, 3), (2, 4, 1)),
        Round,
        (true, false, (2, 8, 3), (1, 5, 1)),
    ),
    Changed(
        (false, true, (9, 10, 1), (2, 2, 1)),
        Round,
        (false, true, (8, 10, 1), (2, 2, 1)),
    ),
];

#[test]
fn joins_meets_and_roundings(rt: HostRuntime) {
    assert_rows(&rt, rt.alloc(), &CHANGES);
}

static FORMS: [PointerRow; 3] = [
    Form(NONE, NO_POINTER, NONE, NO_POINTER, 'i'),
    Form((1, 2, 1), NO_POINTER, NONE, NULL, 'b'),
    Form(NONE, NULL, NONE, NULL, 'p'),
];

#[test]
fn forms(rt: HostRuntime) {
    assert_rows(&rt, rt.alloc(), &FORMS);
}
