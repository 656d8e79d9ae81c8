//! Operations on pointers that were worked by hand: moves, subscripts, parts, uses, dereferences and comparisons.
ghost use Rattle.std.specs.Prelude.{◌≢◌, ◌≤◌, ℕ};

use crate::number_sets::{NONE, Numbers, set};
use crate::pointer_sets::Change::Part;
use crate::pointer_sets::PointerRow::{self, Changed, Equal, Reaches};
use crate::pointer_sets::Step::{self, Dereference, Index, Move, Use};
use crate::pointer_sets::{NO_POINTER, Targets, pointers};
use crate::tables::assert_rows;
use pointer_dom::{Layout, Offsets, PointerSet, Reached, equality};
use std::alloc::Global;
use strided_dom::Strided;
use tm_lattice::NoMemory;

/// Objects up to the one of this number are alive, and a cell of the pointed type stands at each offset up to this one.
#[derive(Drop)]
struct Flat {
    objects: u32,
    offsets: u32,
}

impl Layout for Flat {
    ghost alive = { λ layout object. object ≤ layout.objects };

    ghost stands = { λ layout object offset. offset ≤ layout.offsets };

    fn is_alive(&self, object: u32) -> bool {
        object <= self.objects
    }

    fn standing(&self, _object: u32, offsets: &Offsets) -> (Strided, bool) {
        let all = offsets.set();
        let standing = all.meet(&Strided::range(0, i128::from(self.offsets), 1));
        (standing, all.below(&standing))
    }
}

fn led_to(alloc: Global, from: &PointerSet, by: &Step) -> Result<Reached, NoMemory> {
    match by {
        Move(forward, cells, counts) => from.moved(alloc, *forward, *cells, &set(*counts)),
        Index(count, cells, subscripts) => from.index(alloc, *count, *cells, &set(*subscripts)),
        Use => from.usable(alloc),
        Dereference(objects, offsets) => {
            let layout = Flat {
                objects: *objects,
                offsets: *offsets,
            };
            from.dereferenced(alloc, &layout)
        }
    }
}

/// Whether what was reached are these pointers, and its class is not excluded where `may_fail` says so.
fn are(alloc: Global, reached: &Reached, to: &Targets, may_fail: bool) -> Result<bool, NoMemory> {
    let wanted = pointers(alloc, to)?;
    Ok(reached.pointers.same(&wanted) & (reached.may_fail == may_fail))
}

/// Whether a step leads there.
pub(crate) fn is_reached_by(
    alloc: Global,
    from: &PointerSet,
    by: &Step,
    to: &Targets,
    may_fail: bool,
) -> Result<bool, NoMemory> {
    let reached = led_to(alloc, from, by)?;
    are(alloc, &reached, to, may_fail)
}

fn is_equality_with(
    alloc: Global,
    equal: bool,
    left: &PointerSet,
    right: &Targets,
    wanted: Numbers,
) -> Result<bool, NoMemory> {
    let right = pointers(alloc, right)?;
    Ok(equality(equal, left, &right) == set(wanted))
}

/// Whether the comparison of two sets has these values.
pub(crate) fn is_equality(
    alloc: Global,
    equal: bool,
    left: &Targets,
    right: &Targets,
    wanted: Numbers,
) -> Result<bool, NoMemory> {
    let left = pointers(alloc, left)?;
    is_equality_with(alloc, equal, &left, right, wanted)
}

static MOVES: [PointerRow; 7] = [
    Reaches(
        (false, false, (2, 2, 1), NONE),
        Move(true, 1, (0, 2, 1)),
        (false, false, (2, 4, 1), NONE),
        false,
    ),
    Reaches(
        (false, false, (4, 6, 2), NONE),
        Move(true, 2, (1, 3, 1)),
        (false, false, (6, 10, 2), NONE),
        true,
    ),
    Reaches(
        (false, false, (3, 9, 3), NONE),
        Move(true, 3, (-1, -1, 1)),
        (false, false, (0, 6, 3), NONE),
        false,
    ),
    Reaches(
        (false, false, (10, 10, 1), NONE),
        Move(true, 1, (1, 1, 1)),
        NO_POINTER,
        true,
    ),
    Reaches(
        (false, false, (2, 2, 1), NONE),
        Move(false, 1, (0, 3, 1)),
        (false, false, (0, 2, 1), NONE),
        true,
    ),
    Reaches(
        (false, false, (2, 2, 1), NONE),
        Move(true, 1, NONE),
        NO_POINTER,
        false,
    ),
    // Null does not move.
    Reaches(
        (true, false, (1, 1, 1), NONE),
        Move(true, 1, (1, 1, 1)),
        (false, false, (2, 2, 1), NONE),
        true,
    ),
];

#[test]
fn arithmetic(rt: HostRuntime) {
    assert_rows(&rt, rt.alloc(), &MOVES);
}

static SUBSCRIPTS: [PointerRow; 5] = [
    Reaches(
        (false, false, (0, 0, 1), NONE),
        Index(4, 2, (0, 3, 1)),
        (false, false, (0, 6, 2), NONE),
        false,
    ),
    Reaches(
        (false, false, (0, 0, 1), NONE),
        Index(4, 2, (2, 5, 1)),
        (false, false, (4, 6, 2), NONE),
        true,
    ),
    Reaches(
        (false, false, (0, 0, 1), NONE),
        Index(3, 1, (3, 3, 1)),
        NO_POINTER,
        true,
    ),
    Reaches(
        (false, false, (0, 4, 4), NONE),
        Index(2, 3, (1, 1, 1)),
        (false, false, (3, 7, 4), NONE),
        false,
    ),
    // Null has no part.
    Changed(
        (true, false, (0, 6, 2), NONE),
        Part(3),
        (false, false, (3, 9, 2), NONE),
    ),
];

#[test]
fn subscripts(rt: HostRuntime) {
    assert_rows(&rt, rt.alloc(), &SUBSCRIPTS);
}

static COMPARISONS: [PointerRow; 7] = [
    Equal(
        true,
        (false, false, (2, 2, 1), NONE),
        (false, false, (2, 2, 1), NONE),
        (1, 1, 1),
    ),
    Equal(
        true,
        (false, false, (2, 8, 2), NONE),
        (false, false, (4, 4, 1), NONE),
        (0, 1, 1),
    ),
    Equal(
        true,
        (false, false, (2, 8, 2), NONE),
        (false, false, (3, 9, 2), NONE),
        (0, 0, 1),
    ),
    Equal(
        false,
        (false, false, (2, 2, 1), NONE),
        (false, false, (2, 2, 1), NONE),
        (0, 0, 1),
    ),
    Equal(
        false,
        (false, false, (2, 8, 2), NONE),
        (false, false, (3, 9, 2), NONE),
        (1, 1, 1),
    ),
    Equal(false, NO_POINTER, (false, false, (3, 9, 2), NONE), NONE),
    // The invalid pointer is not used.
    Reaches(
        (false, true, (1, 2, 1), NONE),
        Use,
        (false, false, (1, 2, 1), NONE),
        true,
    ),
];

#[test]
fn comparisons(rt: HostRuntime) {
    assert_rows(&rt, rt.alloc(), &COMPARISONS);
}

static ACCESSES: [PointerRow; 5] = [
    Reaches(
        (false, false, (0, 8, 2), NONE),
        Dereference(1, 9),
        (false, false, (0, 8, 2), NONE),
        false,
    ),
    Reaches(
        (false, false, (0, 8, 2), NONE),
        Dereference(1, 5),
        (false, false, (0, 4, 2), NONE),
        true,
    ),
    Reaches(
        (false, false, (6, 8, 2), NONE),
        Dereference(1, 5),
        NO_POINTER,
        true,
    ),
    Reaches(
        (false, false, (0, 8, 2), NONE),
        Dereference(0, 9),
        NO_POINTER,
        true,
    ),
    // Null has no cell.
    Reaches(
        (true, false, (1, 1, 1), NONE),
        Dereference(1, 9),
        (false, false, (1, 1, 1), NONE),
        true,
    ),
];

#[test]
fn dereferences(rt: HostRuntime) {
    assert_rows(&rt, rt.alloc(), &ACCESSES);
}
