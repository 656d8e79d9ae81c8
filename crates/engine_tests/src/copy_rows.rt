//! Small graphs, their nodes and where the copies of their edges lead.

use crate::copy_pictures::pictured_graph;
use crate::made_graphs::operation;
use crate::tables::assert_text;
use flow_graph::{Edge, Graph};
use std::alloc::Global;
use std::test::Fail;

// Edges as place, place, letter and mutex; the number of places; and nodes and copies.
static ROWS: [(&[(u32, u32, u8, u32)], u32, &str); 7] = [
    // what is held, what a probe finds, and an unlock of a mutex that is not held
    (
        &[
            (0, 1, b'L', 0),
            (1, 2, b'P', 1),
            (2, 3, b'U', 0),
            (3, 4, b'Y', 0),
            (4, 5, b'U', 0),
        ],
        6,
        "0/0/0 1/1/0 2/1/0 2/1/2 3/0/0 3/0/2 4/0/0 0:0>1 1:1>2 1:1>3 2:2>4 2:3>5 3:4>6 3:5>6 4:6> ",
    ),
    // a mutex that is held already
    (
        &[(0, 1, b'L', 0), (1, 2, b'L', 0)],
        3,
        "0/0/0 1/1/0 0:0>1 1:1> ",
    ),
    // a mutex that is held is not found free
    (
        &[(0, 1, b'L', 3), (1, 2, b'P', 3)],
        3,
        "0/0/0 1/8/0 2/8/0 0:0>1 1:1>2 1:1> ",
    ),
    // a lock waits: what was found before says nothing more
    (
        &[(0, 1, b'P', 0), (1, 2, b'L', 1)],
        3,
        "0/0/0 1/0/0 1/0/1 2/2/0 0:0>1 0:0>2 1:1>3 1:2>3 ",
    ),
    // sixteen mutexes
    (
        &[(0, 1, b'L', 15), (1, 2, b'L', 0), (2, 3, b'U', 15)],
        4,
        "0/0/0 1/32768/0 2/32769/0 3/1/0 0:0>1 1:1>2 2:2>3 ",
    ),
    // a loop whose body locks and unlocks, and a place that nothing reaches
    (
        &[
            (0, 1, b'S', 0),
            (1, 2, b'T', 0),
            (1, 3, b'F', 0),
            (2, 4, b'L', 0),
            (4, 5, b'U', 0),
            (5, 1, b'S', 0),
            (6, 3, b'S', 0),
        ],
        7,
        "0/0/0 1/0/0 2/0/0 3/0/0 4/1/0 5/0/0 0:0>1 1:1>2 2:1>3 3:2>4 4:4>5 5:5>1 ",
    ),
    // a loop that locks each time round: the second time leads nowhere
    (
        &[(0, 1, b'S', 0), (1, 2, b'L', 0), (2, 1, b'C', 0)],
        3,
        "0/0/0 1/0/0 1/1/0 2/1/0 0:0>1 1:1>3 1:2> 2:3>2 ",
    ),
];

// Edges by their places, letters and mutexes.
fn push_listed(edges: &mut Vec<Edge>, listed: &[(u32, u32, u8, u32)]) -> Result<(), Fail> {
    for (from, to, letter, mutex) in listed {
        edges.push(Edge {
            from: *from,
            to: *to,
            op: operation(*letter, *mutex),
        })?;
    }
    Ok(())
}

fn listed_graph(alloc: Global, listed: &[(u32, u32, u8, u32)], nodes: u32) -> Result<Graph, Fail> {
    let mut edges = Vec::new(alloc);
    push_listed(&mut edges, listed)?;
    Ok(Graph {
        body: 0,
        nodes,
        edges,
    })
}

#[test]
fn rows(rt: HostRuntime) -> Result<(), Fail> {
    let alloc = rt.alloc();
    for (edges, nodes, picture) in ROWS.iter() {
        let graph = listed_graph(alloc, *edges, *nodes)?;
        let told = pictured_graph(&rt, alloc, graph)?;
        assert_text(&rt, &told, *picture);
    }
    Ok(())
}
