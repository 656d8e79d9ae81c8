//! What single edges of task 0 do. The tasks 0, 1 and 2 have the priorities 2, 1 and 2: task 1 is less urgent than task
//! 0, and task 2 as urgent.
ghost use Rattle.tm_typed.specs.TypedFiles.{typed_file_tree};
ghost use Rattle.tm_laid.specs.Layable.{IsLayable};

use crate::edges::applied;
use crate::layouts::{INT, laid};
use crate::made_states::{Cell, Entry, Temp, state_at, store};
use crate::numbers::Numbers;
use crate::tables::assert_text;
use cell_env::State;
use edge_actions::EdgeView;
use flow_graph::{Into, Operation, Test};
use pointer_dom::AbsValue;
use std::alloc::Global;
use std::process::Abort;
use std::test::Fail;
use tm_cint::{BinOp, IntType};
use tm_laid::Laid;
use tm_terms::Place;

const PLACE: Place = Place { line: 1, col: 1 };

/// The value of temporary 1 is stored where temporary 0 points.
const STORE: Operation = Operation::Store {
    address: 0,
    value: 1,
    scalar: INT,
    into: Into::Pointed,
    place: PLACE,
};

/// Temporary 1 becomes what stands where temporary 0 points.
const LOAD: Operation = Operation::Load {
    to: 1,
    address: 0,
    scalar: INT,
    place: PLACE,
};

/// Control goes on where temporary 1 is equal to temporary 2.
const IS_EQUAL: Operation = Operation::Assume {
    test: Test::Numbers {
        operator: BinOp::Eq,
        of: IntType::Int,
        left: 1,
        right: 2,
    },
};

/// Control goes on where temporary 1 is greater than temporary 2.
const IS_GREATER: Operation = Operation::Assume {
    test: Test::Numbers {
        operator: BinOp::Gt,
        of: IntType::Int,
        left: 1,
        right: 2,
    },
};

const LOCK: Operation = Operation::Lock {
    mutex: 0,
    place: PLACE,
};

const UNLOCK: Operation = Operation::Unlock {
    mutex: 0,
    place: PLACE,
};

/// Temporary 1 tells whether the mutex 0 is held.
const PROBE: Operation = Operation::Probe {
    to: 1,
    mutex: 0,
    place: PLACE,
};

/// What an open `int` holds.
const OPEN: Numbers = (-2_147_483_648, 2_147_483_647);

/// An operation; the mutexes held and found free, as bits, and the answer of a probe; where temporary 0 points, as
/// objects and offsets; the other temporaries and the cells; what was written, as task, held set, cell and number; what
/// was left, as task, mutex, cell and number; and what the edge does.
type Row = (
    Operation,
    (u16, u16, bool),
    &'static [(u32, u32)],
    &'static [Temp],
    &'static [Cell],
    &'static [Entry],
    &'static [Entry],
    &'static str,
);

static ROWS: [Row; 31] = [
    // a single shared target becomes the value and is fresh, the held set replaces what was pending; its copies end,
    // those of other cells stay; the value is added under the task and the held set
    (
        STORE,
        (0b01, 0b00, false),
        &[(0, 0)],
        &[
            (1, (5, 5), None),
            (2, (7, 7), Some(0)),
            (3, (3, 3), Some(1)),
        ],
        &[
            (0, (7, 7), 0b10, false, false),
            (1, (3, 3), 0b00, false, false),
        ],
        &[],
        &[],
        "t1=5 t2=7 t3=3~1 c0=5:1f c1=3:0 | w0/1/0=5 | 0 |",
    ),
    // a temporary without a value: nothing stands in the target afterwards, and nothing is added
    (
        STORE,
        (0b01, 0b00, false),
        &[(0, 0)],
        &[(2, (7, 7), Some(0))],
        &[(0, (7, 7), 0b10, false, false)],
        &[],
        &[],
        "t2=7 c0=none:1f | | 0 |",
    ),
    // a single local target is stored and fresh; nothing is pending there, and nothing is added
    (
        STORE,
        (0b01, 0b00, false),
        &[(2, 0)],
        &[(1, (5, 5), None)],
        &[(2, OPEN, 0b00, false, false)],
        &[],
        &[],
        "t1=5 c2=5:0fs | | 2 |",
    ),
    // each of two targets is joined with the value and none is overwritten: 7 with 5, and 3 with 5; the held set is
    // pending besides what was; what was fresh stays so, and copies of both end
    (
        STORE,
        (0b01, 0b00, false),
        &[(0, 0), (1, 0)],
        &[
            (1, (5, 5), None),
            (2, (7, 7), Some(0)),
            (3, (3, 3), Some(1)),
        ],
        &[
            (0, (7, 7), 0b10, true, false),
            (1, (3, 3), 0b00, false, false),
        ],
        &[],
        &[],
        "t1=5 t2=7 t3=3 c0=5..7 by 2:3f c1=3..5 by 2:1 | w0/1/0=5 w0/1/1=5 | 0 1 |",
    ),
    // a smashed cell stands for many: it is joined with the value, though it is the only target
    (
        STORE,
        (0b00, 0b00, false),
        &[(3, 0)],
        &[(1, (5, 5), None), (2, (0, 0), Some(3))],
        &[(3, (0, 0), 0b00, false, false)],
        &[],
        &[],
        "t1=5 t2=0 c3=0..5 by 5:0 | w0/0/3=5 | 3 |",
    ),
    // one past the end of the object is no cell: control does not go on, and nothing is added
    (
        STORE,
        (0b00, 0b00, false),
        &[(0, 1)],
        &[(1, (5, 5), None)],
        &[(0, (7, 7), 0b00, false, false)],
        &[],
        &[],
        "nowhere | | |",
    ),
    // an open local cell may give another value at each read: no copy is made
    (
        LOAD,
        (0b00, 0b00, false),
        &[(2, 0)],
        &[],
        &[(2, OPEN, 0b00, false, false)],
        &[],
        &[],
        "t1=-2147483648..2147483647 by 1 c2=-2147483648..2147483647 by 1:0 | | 2 |",
    ),
    // so the test of what was read leaves the cell as it is, with its 0: v > 0 refines the temporary alone
    (
        IS_GREATER,
        (0b00, 0b00, false),
        &[],
        &[(1, OPEN, None), (2, (0, 0), None)],
        &[(2, OPEN, 0b00, false, false)],
        &[],
        &[],
        "t1=1..2147483647 by 1 t2=0 c2=-2147483648..2147483647 by 1:0 | | |",
    ),
    // a local cell that was stored: the temporary becomes a copy
    (
        LOAD,
        (0b00, 0b00, false),
        &[(2, 0)],
        &[],
        &[(2, (0, 9), 0b00, false, true)],
        &[],
        &[],
        "t1=0..9 by 1~2 c2=0..9 by 1:0s | | 2 |",
    ),
    // so the test refines the cell with the temporary: 1 to 9 are above 0
    (
        IS_GREATER,
        (0b00, 0b00, false),
        &[],
        &[(1, (0, 9), Some(2)), (2, (0, 0), None)],
        &[(2, (0, 9), 0b00, false, true)],
        &[],
        &[],
        "t1=1..9 by 1~2 t2=0 c2=1..9 by 1:0s | | |",
    ),
    // of two targets no copy is made, and the value is the join of 5 and 8
    (
        LOAD,
        (0b00, 0b00, false),
        &[(0, 0), (1, 0)],
        &[],
        &[
            (0, (5, 5), 0b00, false, false),
            (1, (8, 8), 0b00, false, false),
        ],
        &[],
        &[],
        "t1=5..8 by 3 c0=5:0 c1=8:0 | | 0 1 |",
    ),
    // one past the end of the object is no cell: control does not go on
    (
        LOAD,
        (0b00, 0b00, false),
        &[(0, 1)],
        &[],
        &[(0, (5, 5), 0b00, false, false)],
        &[],
        &[],
        "nowhere | | |",
    ),
    // the local object of another task is no target
    (
        LOAD,
        (0b00, 0b00, false),
        &[(4, 0)],
        &[],
        &[(0, (5, 5), 0b00, false, false)],
        &[],
        &[],
        "nowhere | | |",
    ),
    // 2 is all that is known of the local cell of which the temporary is a copy, and 1 is left of the temporary: no
    // run comes here
    (
        IS_EQUAL,
        (0b00, 0b00, false),
        &[],
        &[(1, (1, 2), Some(2)), (2, (1, 1), None)],
        &[(2, (2, 2), 0b00, false, true)],
        &[],
        &[],
        "nowhere | | |",
    ),
    // the 1 came from another task: nothing is left of the own value of the shared cell, and control goes on
    (
        IS_EQUAL,
        (0b00, 0b00, false),
        &[],
        &[(1, (1, 2), Some(0)), (2, (1, 1), None)],
        &[(0, (2, 2), 0b00, false, false)],
        &[],
        &[],
        "t1=1~0 t2=1 c0=none:0 | | |",
    ),
    // nothing is left of the temporary: control does not go on
    (
        IS_EQUAL,
        (0b00, 0b00, false),
        &[],
        &[(1, (2, 2), Some(0)), (2, (1, 1), None)],
        &[(0, (2, 2), 0b00, false, false)],
        &[],
        &[],
        "nowhere | | |",
    ),
    // fresh: task 1 is less urgent and cannot have run since the store of 1, so its 8 is not seen
    (
        LOAD,
        (0b00, 0b00, false),
        &[(0, 0)],
        &[],
        &[(0, (1, 1), 0b00, true, false)],
        &[(1, 0b00, 0, 8)],
        &[],
        "t1=1~0 c0=1:0f | | 0 |",
    ),
    // fresh: task 2 is as urgent and may have run, so its 6 is seen besides
    (
        LOAD,
        (0b00, 0b00, false),
        &[(0, 0)],
        &[],
        &[(0, (1, 1), 0b00, true, false)],
        &[(1, 0b00, 0, 8), (2, 0b00, 0, 6)],
        &[],
        "t1=1..6 by 5~0 c0=1:0f | | 0 |",
    ),
    // a task that waits lets the others run: no cell is fresh, and all else stays
    (
        Operation::Yield,
        (0b01, 0b10, false),
        &[],
        &[(1, (1, 1), Some(0))],
        &[
            (0, (1, 1), 0b01, true, false),
            (2, (4, 4), 0b00, true, true),
        ],
        &[(1, 0b00, 0, 8)],
        &[(1, 0, 0, 9)],
        "t1=1~0 c0=1:1 c2=4:0s | | |",
    ),
    // so the less urgent task 1 may have run behind the wait: its 8 is seen
    (
        LOAD,
        (0b00, 0b00, false),
        &[(0, 0)],
        &[],
        &[(0, (1, 1), 0b00, false, false)],
        &[(1, 0b00, 0, 8)],
        &[],
        "t1=1..8 by 7~0 c0=1:0 | | 0 |",
    ),
    // the reader holds mutex 0, so what is written under it does not stand there meanwhile: 8 is not seen, and 4,
    // under mutex 1, is
    (
        LOAD,
        (0b01, 0b00, false),
        &[(0, 0)],
        &[],
        &[(0, (1, 1), 0b00, false, false)],
        &[(1, 0b01, 0, 8), (1, 0b10, 0, 4)],
        &[],
        "t1=1..4 by 3~0 c0=1:0 | | 0 |",
    ),
    // mutex 0 was found free: the less urgent task 1 cannot take it, so its 8 under it is hidden; the 6 of task 2,
    // which is as urgent, is seen
    (
        LOAD,
        (0b00, 0b01, false),
        &[(0, 0)],
        &[],
        &[(0, (5, 5), 0b00, false, false)],
        &[(1, 0b01, 0, 8), (2, 0b01, 0, 6)],
        &[],
        "t1=5..6 by 1~0 c0=5:0 | | 0 |",
    ),
    // what task 1 wrote under no mutex is hidden by none that was found free: 8 is seen
    (
        LOAD,
        (0b00, 0b01, false),
        &[(0, 0)],
        &[],
        &[(0, (5, 5), 0b00, false, false)],
        &[(1, 0b00, 0, 8)],
        &[],
        "t1=5..8 by 3~0 c0=5:0 | | 0 |",
    ),
    // mutex 0 is held: an error, and control does not go on
    (
        LOCK,
        (0b01, 0b00, false),
        &[],
        &[],
        &[(0, (5, 5), 0b00, false, false)],
        &[],
        &[(1, 0, 0, 4)],
        "nowhere | | |LOCK",
    ),
    // 5 is joined with the 4 that task 1 left under mutex 0, not with the own 9, the 6 under mutex 1 or the weak 8; a
    // local cell takes nothing; no cell is fresh, and copies end
    (
        LOCK,
        (0b10, 0b00, false),
        &[],
        &[(1, (5, 5), Some(0)), (2, (1, 1), Some(2))],
        &[
            (0, (5, 5), 0b10, true, false),
            (2, (1, 1), 0b00, true, true),
        ],
        &[(1, 0b00, 0, 8)],
        &[(0, 0, 0, 9), (1, 0, 0, 4), (2, 1, 0, 6), (1, 0, 2, 3)],
        "t1=5 t2=1 c0=4..5 by 1:2 c2=1:0s | | |",
    ),
    // mutex 0 is not held, only mutex 1 is: an error, and control does not go on
    (
        UNLOCK,
        (0b10, 0b00, false),
        &[],
        &[],
        &[(0, (5, 5), 0b01, false, false)],
        &[],
        &[],
        "nowhere | | |LOCK",
    ),
    // mutex 0 is pending at the cells 0 and 1: each is added to its sync entry and is pending there no longer; mutex 1
    // stays pending, freshness and copies stay
    (
        UNLOCK,
        (0b11, 0b00, false),
        &[],
        &[(1, (5, 5), Some(0))],
        &[
            (0, (5, 5), 0b11, true, false),
            (1, (3, 3), 0b01, false, false),
            (3, (8, 8), 0b10, false, false),
        ],
        &[],
        &[],
        "t1=5~0 c0=5:2f c1=3:0 c3=8:2 | s0/0/0=5 s0/0/1=3 | |",
    ),
    // mutex 0 is pending nowhere: nothing is added
    (
        UNLOCK,
        (0b01, 0b00, false),
        &[],
        &[],
        &[
            (0, (5, 5), 0b10, false, false),
            (2, (1, 1), 0b00, false, true),
        ],
        &[],
        &[],
        "c0=5:2 c2=1:0s | | |",
    ),
    // the answer that mutex 0 is held: 1, and nothing is taken over
    (
        PROBE,
        (0b00, 0b00, true),
        &[],
        &[(2, (5, 5), Some(0))],
        &[(0, (5, 5), 0b00, true, false)],
        &[],
        &[(1, 0, 0, 4)],
        "t1=1 t2=5~0 c0=5:0f | | |",
    ),
    // the answer that it is free: 0, and 5 is joined with the 4 that was left under it; the cell stays fresh, and
    // copies end
    (
        PROBE,
        (0b00, 0b00, false),
        &[],
        &[(2, (5, 5), Some(0))],
        &[(0, (5, 5), 0b00, true, false)],
        &[(1, 0b00, 0, 8)],
        &[(1, 0, 0, 4)],
        "t1=0 t2=5 c0=4..5 by 1:0f | | |",
    ),
    // the task holds mutex 0 itself: it is not free, so control does not go on, and that is no error
    (
        PROBE,
        (0b01, 0b00, false),
        &[],
        &[],
        &[(0, (5, 5), 0b00, true, false)],
        &[],
        &[(1, 0, 0, 4)],
        "nowhere | | |",
    ),
];

// What the edge of a row does in a state.
fn told_in(alloc: Global, laid: &Laid, state: &State<AbsValue>, row: &Row) -> Result<String, Fail>
    requires { IsLayable (typed_file_tree laid.now.file) laid.now.file.order.items }
{
    let (held, found, answer) = row.1;
    // The temporary 0 is not live where the edges lead.
    let view = EdgeView {
        operation: row.0,
        task: 0,
        held,
        found,
        tests_pointer: false,
        answer,
        laid,
        priorities: &[2, 1, 2],
        live: &[1, 2, 3],
    };
    let store = store(alloc, row.5, row.6)?;
    applied(alloc, &view, state, &store)
}

// What the edge of a row does.
fn row_told(alloc: Global, laid: &Laid, row: &Row) -> Result<String, Fail>
    requires { IsLayable (typed_file_tree laid.now.file) laid.now.file.order.items }
{
    let state = state_at(alloc, laid, row.2, row.3, row.4)?;
    told_in(alloc, laid, &state, row)
}

// Each row has its text.
fn are_told(rt: &impl Abort, alloc: Global, laid: &Laid) -> Result<(), Fail>
    requires { IsLayable (typed_file_tree laid.now.file) laid.now.file.order.items }
{
    for row in ROWS.iter() {
        let told = row_told(alloc, laid, row)?;
        assert_text(rt, &told, row.7);
    }
    Ok(())
}

#[test]
fn rows(rt: HostRuntime) -> Result<(), Fail> {
    let laid = laid(rt.alloc())?;
    are_told(&rt, rt.alloc(), &laid)
}
