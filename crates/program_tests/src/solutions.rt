//! The least solutions of sources, as `certify` writes them: the states of all bodies, and the store. The states and
//! stores of the first table are worked by hand.

use crate::alone::expect_alone;
use crate::certificates::certificate_of;
use crate::forms::{joined, push_form};
use crate::solution_tables::{LOOPS, MUTEXES, TYPES};
use std::alloc::Global;
use std::process::Abort;
use std::test::Fail;

// A more urgent task that stores and reads, and a less urgent one that stores.
const FRESH: &str =
    "int x;int r;__task(2) void hi(void){x=1;if(x!=1)r=2;}__task(1) void lo(void){x=0;}";

const YIELDED: &str =
    "int x;int r;__task(2) void hi(void){x=1;__yield();if(x!=1)r=2;}__task(1) void lo(void){x=0;}";

// Two stores under a mutex, and a read under it.
const PENDING: &str = "__mutex m;int x;int y;__task(1) void a(void){__lock(m);x=1;x=2;__unlock(m);}\
__task(1) void b(void){__lock(m);y=x;__unlock(m);}";

// A mutex that is found free.
const FREE: &str = "__mutex m;int x=1;int r;__task(2) void hi(void){if(!__islocked(m))r=10+x;}\
__task(1) void lo(void){__lock(m);x=0;x=1;__unlock(m);}";

const AS_URGENT: &str = "__mutex m;int x=1;int r;__task(1) void hi(void){if(!__islocked(m))r=10+x;}\
__task(1) void lo(void){__lock(m);x=0;x=1;__unlock(m);}";

const WAITED: &str =
    "__mutex m;int x=1;int r;__task(2) void hi(void){if(!__islocked(m)){__yield();r=10+x;}}\
__task(1) void lo(void){__lock(m);x=0;x=1;__unlock(m);}";

// A loop up to a threshold, and one that goes on beyond it.
const COUNTS: &str = "int i;__task(1) void t(void){while(i<10)i=i+1;}";

const STRIDES: &str = "int i;__task(1) void t(void){while(i<10)i=i+3;}";

// An initial section that ends, and one that does not.
const BEGUN: &str = "int x;int r;int main(void){x=5;return 0;}__task(1) void t(void){r=10/x;}";

const ENDLESS: &str = "int x;int main(void){while(1);return 0;}__task(1) void t(void){x=1;}";

// The states of the task before the division.
const BEFORE_THE_DIVISION: &str = "task 0\n\
node 0\nc 0 i 5 5 0\nc 1 i 0 0 0\n\
node 1\nt 0 p 0 0 1 0 0 0\nc 0 i 5 5 0\nc 1 i 0 0 0\n\
node 2\nt 0 p 0 0 1 0 0 0\nt 1 i 10 10 0\nc 0 i 5 5 0\nc 1 i 0 0 0\n\
node 3\nt 0 p 0 0 1 0 0 0\nt 1 i 10 10 0\nt 2 p 0 0 0 0 0 0\nc 0 i 5 5 0\nc 1 i 0 0 0\n\
node 4\nt 0 p 0 0 1 0 0 0\nt 1 i 10 10 0\nt 3 i 5 5 0\nc 0 i 5 5 0\nc 1 i 0 0 0\nk 3 0\n";

// Two tasks of which each reads what the other writes: through a local object that the test refines, and through a
// shared one that it does not.
const MUTUAL: &str = "int x;int y;__task(1) void a(void){int v;v=y;if(v<10)x=v+1;}\
__task(1) void b(void){int v;v=x;if(v<10)y=v+1;}";

const REREAD: &str = "int x;int y;__task(1) void a(void){if(y<10)x=y+1;}\
__task(1) void b(void){if(x<10)y=x+1;}";

/// A source, the first lines of its tables, as many as stand here, and all lines of its store.
static SOLUTIONS: [(&str, &str, &str); 12] = [
    (FRESH, "", "w 0 0 0 i 1 1 0\nw 1 0 0 i 0 0 0\n"),
    (
        YIELDED,
        "",
        "w 0 0 0 i 1 1 0\nw 0 0 1 i 2 2 0\nw 1 0 0 i 0 0 0\n",
    ),
    (
        PENDING,
        "",
        "w 0 1 0 i 1 2 1\nw 1 1 1 i 0 2 2\ny 0 0 0 i 2 2 0\ny 1 0 1 i 0 2 2\n",
    ),
    (
        FREE,
        "",
        "w 0 0 1 i 11 11 0\nw 1 1 0 i 0 1 1\ny 1 0 0 i 1 1 0\n",
    ),
    (
        AS_URGENT,
        "",
        "w 0 0 1 i 10 11 1\nw 1 1 0 i 0 1 1\ny 1 0 0 i 1 1 0\n",
    ),
    (
        WAITED,
        "",
        "w 0 0 1 i 10 11 1\nw 1 1 0 i 0 1 1\ny 1 0 0 i 1 1 0\n",
    ),
    // The head behind the way into the loop.
    (
        COUNTS,
        "task 0\nnode 0\nc 0 i 0 0 0\nnode 1\nc 0 i 0 10 1\n",
        "w 0 0 0 i 1 10 1\n",
    ),
    (
        STRIDES,
        "task 0\nnode 0\nc 0 i 0 0 0\nnode 1\nc 0 i 0 126 3\n",
        "w 0 0 0 i 3 126 3\n",
    ),
    (BEGUN, BEFORE_THE_DIVISION, "w 0 0 1 i 2 2 0\n"),
    // No state of the task.
    (ENDLESS, "task 0\ntask 1\n", ""),
    (MUTUAL, "", "w 0 0 0 i 1 10 1\nw 1 0 1 i 1 10 1\n"),
    (
        REREAD,
        "",
        "w 0 0 0 i 1 2147483647 1\nw 1 0 1 i 1 2147483647 1\n",
    ),
];

/// The front of the certificate of a source, with the first lines of its tables.
fn front_of(alloc: Global, source: &str, lines: &str) -> Result<String, Fail> {
    let mut front = String::new(alloc);
    push_form(alloc, &mut front, "tmcert 1\nsource #\n", &[source.len()])?;
    joined(alloc, &[front.as_str(), source, "\n", lines])
}

/// The certificate of a source begins with these lines of its tables, and ends with these of its store.
fn expect_solution(
    rt: &impl Abort,
    alloc: Global,
    source: &str,
    lines: &str,
    store: &str,
) -> Result<(), Fail> {
    let certificate = certificate_of(rt, alloc, source)?;
    let front = front_of(alloc, source, lines)?;
    let back = joined(alloc, &["\nstore\n", store, "end\n"])?;
    assert!(rt; certificate.taken().starts_with(front.as_bytes()));
    assert!(rt; certificate.taken().ends_with(back.as_bytes()));
    Ok(())
}

#[test]
fn solutions(rt: HostRuntime) -> Result<(), Fail> {
    let alloc = rt.alloc();
    for (source, lines, store) in &SOLUTIONS {
        expect_solution(&rt, alloc, source, lines, store)?;
    }
    Ok(())
}

/// These are all lines of the solution of each source.
fn expect_whole(rt: &impl Abort, alloc: Global, rows: &[(&str, &str)]) -> Result<(), Fail> {
    for (source, lines) in rows {
        let front = front_of(alloc, source, lines)?;
        let text = joined(alloc, &[front.as_str(), "end\n"])?;
        expect_alone(
            rt,
            alloc,
            &["certify"],
            source.as_bytes(),
            0,
            text.as_bytes(),
        )?;
    }
    Ok(())
}

#[test]
fn whole_solutions(rt: HostRuntime) -> Result<(), Fail> {
    let alloc = rt.alloc();
    expect_whole(&rt, alloc, &MUTEXES)?;
    expect_whole(&rt, alloc, &LOOPS)?;
    expect_whole(&rt, alloc, &TYPES)
}
