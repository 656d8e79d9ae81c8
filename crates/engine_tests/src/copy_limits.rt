//! Graphs at the limits and one above.

use crate::copy_pictures::{counted, program};
use crate::made_graphs::in_a_row;
use crate::tables::assert_text;
use flow_graph::Graph;
use std::alloc::Global;
use std::process::Abort;
use std::test::Fail;
use tm_laid::Scale;

// Edges before the fork, whether there is one, places behind it, abstract cells, and the answer. Behind a fork each
// place has two nodes: the mutex is held or not.
static ROWS: [(u32, bool, u32, u32, &str); 6] = [
    (0, false, 20000, 400, "nodes 20000 copies 19999"),
    (0, false, 20001, 1, "refused nodes 20000"),
    (0, false, 20000, 401, "refused work 8000000"),
    (1, true, 9998, 400, "nodes 20000 copies 19999"),
    (0, true, 9999, 1, "refused nodes 20000"),
    (1, true, 9998, 401, "refused work 8000000"),
];

// The same on the large scale.
static LARGE_ROWS: [(u32, bool, u32, u32, &str); 3] = [
    (0, false, 200000, 64000, "nodes 200000 copies 199999"),
    (0, false, 200001, 1, "refused nodes 200000"),
    (0, false, 200000, 64001, "refused work 12800000000"),
];

// What configuring the graph of a row answers. (It owns the answer, with one way out behind it: how a program is let go
// is proved for each way out.)
fn answered(
    rt: &impl Abort,
    alloc: Global,
    scale: Scale,
    graph: Graph,
    cells: u32,
) -> Result<String, Fail> {
    let answer = program(rt, alloc, scale, graph, cells)?;
    counted(alloc, scale, &answer)
}

fn row_answered(
    rt: &impl Abort,
    alloc: Global,
    scale: Scale,
    row: &(u32, bool, u32, u32, &str),
) -> Result<String, Fail> {
    let graph = in_a_row(alloc, row.0, row.1, row.2)?;
    answered(rt, alloc, scale, graph, row.3)
}

fn are_answered(
    rt: &impl Abort,
    alloc: Global,
    scale: Scale,
    rows: &[(u32, bool, u32, u32, &str)],
) -> Result<(), Fail> {
    for row in rows {
        let told = row_answered(rt, alloc, scale, row)?;
        assert_text(rt, &told, row.4);
    }
    Ok(())
}

#[test]
fn limits(rt: HostRuntime) -> Result<(), Fail> {
    are_answered(&rt, rt.alloc(), Scale::Usual, &ROWS)
}

#[test]
fn limits_of_the_large_scale(rt: HostRuntime) -> Result<(), Fail> {
    are_answered(&rt, rt.alloc(), Scale::Large, &LARGE_ROWS)
}
