//! Operations on strided sets, worked by hand.
use crate::number_sets::{NONE, Numbers, marks, set};
use crate::tables::{Row, assert_rows};
use std::alloc::Global;
use strided_dom::Strided;
use tm_lattice::NoMemory;

/// What operations on sets give.
enum SetRow {
    /// Two sets, their join and their intersection.
    Combined(Numbers, Numbers, Numbers, Numbers),
    /// A set, a number, and the set without the number.
    Without(Numbers, i32, Numbers),
    /// Two sets, and whether the first is below the second.
    Below(Numbers, Numbers, bool),
    /// A number, and whether 4 and 14 have it as a set.
    Member(i32, bool),
    /// Two sets, and their sum.
    Sum(Numbers, Numbers, Numbers),
    /// A set, a number, and the products of both.
    Product(Numbers, i32, Numbers),
    /// A set, and its rounding onto the marks of types.
    Rounded(Numbers, Numbers),
    /// A set that is rounded onto no marks, and so stays.
    Stays(Numbers),
}

use SetRow::{Below, Combined, Member, Product, Rounded, Stays, Sum, Without};

/// The sum of two sets.
fn sum_of(left: Numbers, right: Numbers) -> Strided {
    set(left).sum(&set(right))
}

/// The products of a set with `n`.
fn products_of(row: Numbers, n: i32) -> Strided {
    set(row).times(i128::from(n))
}

/// Whether two sets have this join and this intersection.
fn is_combined(left: &Strided, right: &Strided, join: Numbers, meet: Numbers) -> bool {
    let meet = set(meet);
    left.hull(right) == set(join) && left.meet(right) == meet && right.meet(left) == meet
}

/// The rounding of a set onto the marks at these numbers.
fn rounded(alloc: Global, row: Numbers, ends: &[i128]) -> Result<Strided, NoMemory> {
    let marks = marks(alloc, ends)?;
    Ok(set(row).round(&marks))
}

impl Row for SetRow {
    fn holds(&self, alloc: Global) -> Result<bool, NoMemory> {
        Ok(match self {
            Combined(left, right, join, meet) => {
                is_combined(&set(*left), &set(*right), *join, *meet)
            }
            Without(from, number, left) => set(*from).without(i128::from(*number)) == set(*left),
            Below(one, other, is_below) => set(*one).below(&set(*other)) == *is_below,
            Member(number, is_member) => set((4, 14, 10)).has(i128::from(*number)) == *is_member,
            Sum(left, right, sum) => sum_of(*left, *right) == set(*sum),
            Product(from, number, products) => products_of(*from, *number) == set(*products),
            Rounded(from, to) => rounded(alloc, *from, &TYPES)? == set(*to),
            Stays(from) => rounded(alloc, *from, &[])? == set(*from),
        })
    }
}

static JOINS_AND_MEETS: [SetRow; 13] = [
    Combined((0, 4, 4), (10, 10, 1), (0, 10, 2), NONE),
    Combined((0, 60, 6), (4, 54, 10), (0, 60, 2), (24, 54, 30)),
    Combined(NONE, (5, 5, 1), (5, 5, 1), NONE),
    Combined((5, 5, 1), NONE, (5, 5, 1), NONE),
    Combined((3, 3, 1), (3, 3, 1), (3, 3, 1), (3, 3, 1)),
    Combined((3, 3, 1), (7, 7, 1), (3, 7, 4), NONE),
    Combined((0, 9, 1), (20, 29, 1), (0, 29, 1), NONE),
    Combined((0, 9, 3), (0, 8, 2), (0, 9, 1), (0, 6, 6)),
    Combined((1, 10, 3), (0, 9, 3), (0, 10, 1), NONE),
    Combined((-10, 10, 5), (-6, 6, 3), (-10, 10, 1), (0, 0, 1)),
    Combined((2, 10, 4), (4, 8, 4), (2, 10, 2), NONE),
    Combined((0, 12, 4), (4, 8, 4), (0, 12, 4), (4, 8, 4)),
    Combined((-100, 100, 7), (-99, 99, 11), (-100, 99, 1), (-44, 33, 77)),
];

#[test]
fn joins_and_intersections(rt: HostRuntime) {
    assert_rows(&rt, rt.alloc(), &JOINS_AND_MEETS);
}

static RESTS: [SetRow; 8] = [
    Without((0, 10, 5), 0, (5, 10, 5)),
    Without((0, 5, 5), 5, (0, 0, 1)),
    Without((0, 2, 1), 1, (0, 2, 2)),
    Without((0, 2, 1), 2, (0, 1, 1)),
    Without((7, 7, 1), 7, NONE),
    Without((7, 7, 1), 8, (7, 7, 1)),
    Without((0, 9, 3), 3, (0, 9, 3)),
    Without((0, 4, 4), 2, (0, 4, 4)),
];

static INCLUSIONS: [SetRow; 7] = [
    Below((4, 8, 4), (0, 12, 4), true),
    Below((0, 4, 4), (0, 8, 8), false),
    Below((0, 8, 8), (0, 8, 4), true),
    Below((2, 6, 4), (0, 8, 4), false),
    Below(NONE, NONE, true),
    Below((0, 0, 1), NONE, false),
    Below((10, 10, 1), (0, 9, 1), false),
];

static MEMBERS: [SetRow; 5] = [
    Member(4, true),
    Member(6, false),
    Member(14, true),
    Member(24, false),
    Member(-6, false),
];

#[test]
fn parts_of_sets(rt: HostRuntime) {
    assert_rows(&rt, rt.alloc(), &RESTS);
    assert_rows(&rt, rt.alloc(), &INCLUSIONS);
    assert_rows(&rt, rt.alloc(), &MEMBERS);
}

static SUMS: [SetRow; 4] = [
    Sum((0, 4, 4), (10, 10, 1), (10, 14, 4)),
    Sum((0, 4, 2), (0, 3, 3), (0, 7, 1)),
    Sum((0, 6, 6), (0, 4, 4), (0, 10, 2)),
    Sum(NONE, (1, 1, 1), NONE),
];

static PRODUCTS: [SetRow; 5] = [
    Product((0, 2, 1), 3, (0, 6, 3)),
    Product((1, 2, 1), -2, (-4, -2, 2)),
    Product((1, 9, 4), 0, (0, 0, 1)),
    Product((-3, 4, 7), -1, (-4, 3, 7)),
    Product(NONE, 5, NONE),
];

#[test]
fn sums_and_products(rt: HostRuntime) {
    assert_rows(&rt, rt.alloc(), &SUMS);
    assert_rows(&rt, rt.alloc(), &PRODUCTS);
}

/// The ends of the integer types, and 0, 1 and -1.
static TYPES: [i128; 15] = [
    -0x8000_0000_0000_0000,
    -0x8000_0000,
    -0x8000,
    -128,
    -1,
    0,
    1,
    127,
    255,
    0x7fff,
    0xffff,
    0x7fff_ffff,
    0xffff_ffff,
    0x7fff_ffff_ffff_ffff,
    0xffff_ffff_ffff_ffff,
];

static ROUNDINGS: [SetRow; 9] = [
    Rounded((5, 17, 1), (1, 127, 1)),
    Rounded((5, 17, 3), (2, 125, 3)),
    Rounded((5, 5, 1), (5, 5, 1)),
    Rounded((-200, 300, 1), (-0x8000, 0x7fff, 1)),
    Rounded((0, 255, 1), (0, 255, 1)),
    Rounded((-1, 1, 2), (-1, 1, 2)),
    Rounded((-3, 3, 3), (-126, 126, 3)),
    Rounded(NONE, NONE),
    Stays((5, 17, 3)),
];

#[test]
fn rounding_onto_types(rt: HostRuntime) {
    assert_rows(&rt, rt.alloc(), &ROUNDINGS);
}
