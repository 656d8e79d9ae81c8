//! Filters, worked by hand.
use crate::number_sets::{NONE, Numbers, set};
use crate::pointer_sets::{NO_POINTER, NULL, Targets, is_same, pointers};
use crate::tables::{Row, assert_rows};
use filters::{assume, assume_ptr};
use pointer_dom::PointerSet;
use std::alloc::Global;
use strided_dom::Strided;
use tm_cint::BinOp::{self, Add, Eq, Ge, Gt, Le, Lt, Ne};
use tm_lattice::NoMemory;

/// What a comparison leaves of its sides.
enum Filter {
    /// A comparison, its two sides, and what it leaves of them.
    Assumed(BinOp, Numbers, Numbers, Numbers, Numbers),
    /// The same of pointers, by whether it is `==`.
    AssumedPointers(bool, Targets, Targets, Targets, Targets),
}

use Filter::{Assumed, AssumedPointers};

/// What a comparison leaves.
fn left_by(op: BinOp, a: &Strided, b: &Strided) -> Option<(Strided, Strided)> {
    match op {
        Lt | Le | Gt | Ge | Eq | Ne => Some(assume(op, a, b)),
        _ => None,
    }
}

fn are_left(
    alloc: Global,
    given: &(PointerSet, PointerSet),
    left: &Targets,
    right: &Targets,
) -> Result<bool, NoMemory> {
    Ok(is_same(alloc, &given.0, left)? & is_same(alloc, &given.1, right)?)
}

/// The two sides of a comparison of pointers.
type Sides<'a> = (&'a Targets, &'a Targets);

fn are_left_of(
    alloc: Global,
    equal: bool,
    left: &PointerSet,
    right: &PointerSet,
    wanted: Sides<'_>,
) -> Result<bool, NoMemory> {
    let given = assume_ptr(alloc, equal, left, right)?;
    are_left(alloc, &given, wanted.0, wanted.1)
}

fn are_left_beside(
    alloc: Global,
    equal: bool,
    left: &PointerSet,
    right: &Targets,
    wanted: Sides<'_>,
) -> Result<bool, NoMemory> {
    let right = pointers(alloc, right)?;
    are_left_of(alloc, equal, left, &right, wanted)
}

impl Row for Filter {
    fn holds(&self, alloc: Global) -> Result<bool, NoMemory> {
        match self {
            Assumed(op, a, b, left, right) => {
                Ok(left_by(*op, &set(*a), &set(*b)) == Some((set(*left), set(*right))))
            }
            AssumedPointers(equal, a, b, left, right) => {
                let one = pointers(alloc, a)?;
                are_left_beside(alloc, *equal, &one, b, (left, right))
            }
        }
    }
}

static COMPARISONS: [Filter; 20] = [
    Assumed(Lt, (0, 10, 1), (3, 5, 2), (0, 4, 1), (3, 5, 2)),
    Assumed(Lt, (5, 20, 5), (0, 12, 4), (5, 10, 5), (8, 12, 4)),
    Assumed(Lt, (12, 20, 4), (0, 12, 4), NONE, NONE),
    Assumed(Lt, (-10, 10, 5), (-6, 6, 3), (-10, 5, 5), (-6, 6, 3)),
    Assumed(Le, (12, 20, 4), (0, 12, 4), (12, 12, 1), (12, 12, 1)),
    Assumed(Le, (3, 9, 1), (0, 5, 5), (3, 5, 1), (5, 5, 1)),
    Assumed(Gt, (0, 12, 4), (5, 20, 5), (8, 12, 4), (5, 10, 5)),
    Assumed(Ge, (0, 12, 4), (12, 20, 4), (12, 12, 1), (12, 12, 1)),
    Assumed(Ge, (0, 9, 3), (4, 4, 1), (6, 9, 3), (4, 4, 1)),
    Assumed(Eq, (0, 60, 6), (4, 54, 10), (24, 54, 30), (24, 54, 30)),
    Assumed(Eq, (0, 8, 2), (1, 9, 2), NONE, NONE),
    Assumed(Ne, (0, 2, 1), (1, 1, 1), (0, 2, 2), (1, 1, 1)),
    Assumed(Ne, (0, 0, 1), (0, 9, 3), (0, 0, 1), (3, 9, 3)),
    Assumed(Ne, (0, 9, 3), (3, 3, 1), (0, 9, 3), (3, 3, 1)),
    Assumed(Ne, (4, 4, 1), (4, 4, 1), NONE, NONE),
    Assumed(Ne, (1, 2, 1), (1, 2, 1), (1, 2, 1), (1, 2, 1)),
    Assumed(Lt, NONE, (0, 9, 1), NONE, NONE),
    Assumed(Ge, (0, 9, 1), NONE, NONE, NONE),
    Assumed(Eq, NONE, (0, 9, 1), NONE, NONE),
    Assumed(Ne, (0, 9, 1), NONE, NONE, NONE),
];

#[test]
fn comparisons(rt: HostRuntime) {
    assert_rows(&rt, rt.alloc(), &COMPARISONS);
    assert!(rt; left_by(Add, &set(NONE), &set(NONE)) == None);
}

const INVALID: Targets = (false, true, NONE, NONE);

static POINTER_COMPARISONS: [Filter; 6] = [
    AssumedPointers(
        true,
        (true, true, (0, 8, 2), NONE),
        (true, false, (4, 4, 1), NONE),
        (true, false, (4, 4, 1), NONE),
        (true, false, (4, 4, 1), NONE),
    ),
    AssumedPointers(
        false,
        (true, false, (0, 8, 2), NONE),
        NULL,
        (false, false, (0, 8, 2), NONE),
        NULL,
    ),
    AssumedPointers(
        false,
        (true, false, (0, 2, 1), NONE),
        (false, false, (1, 1, 1), NONE),
        (true, false, (0, 2, 2), NONE),
        (false, false, (1, 1, 1), NONE),
    ),
    AssumedPointers(
        false,
        (true, true, (0, 2, 1), NONE),
        INVALID,
        (true, true, (0, 2, 1), NONE),
        INVALID,
    ),
    AssumedPointers(false, NULL, NULL, NO_POINTER, NO_POINTER),
    AssumedPointers(
        false,
        (true, false, (0, 2, 1), NONE),
        NO_POINTER,
        NO_POINTER,
        NO_POINTER,
    ),
];

#[test]
fn comparisons_of_pointers(rt: HostRuntime) {
    assert_rows(&rt, rt.alloc(), &POINTER_COMPARISONS);
}
