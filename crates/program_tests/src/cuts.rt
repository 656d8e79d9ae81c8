//! What `check` answers to certificates of which states are missing, or the entries of the store: the first edge that is
//! not covered, by the number of its body and its own, where 0 is the entry; or the store. `check` takes each certificate
//! itself, so that its states are a solution.

use crate::alone::expect_alone;
use std::alloc::Global;
use std::process::Abort;
use std::test::Fail;

/// Of two tasks under a mutex.
const PENDING_CERTIFICATE: &str =
    "tmcert 1\nsource 126\n__mutex m;int x;int y;__task(1) void a(void){__lock(m);x=1;x=2;__unlock(m);}__task(1) void \
b(void){__lock(m);y=x;__unlock(m);}\ntask 0\nnode 0\nc 0 i 0 0 0\nc 1 i 0 0 0\nnode 1\nc 0 i 0 0 0\nc 1 i 0 2 2\nnode \
2\nt 0 p 0 0 0 0 0 0\nc 0 i 0 0 0\nc 1 i 0 2 2\nnode 3\nt 0 p 0 0 0 0 0 0\nt 1 i 1 1 0\nc 0 i 0 0 0\nc 1 i 0 2 2\nnode \
4\nc 0 i 1 1 0\nc 1 i 0 2 2\np 0 1\nf 0\nnode 5\nt 2 p 0 0 0 0 0 0\nc 0 i 1 1 0\nc 1 i 0 2 2\np 0 1\nf 0\nnode 6\nt 2 \
p 0 0 0 0 0 0\nt 3 i 2 2 0\nc 0 i 1 1 0\nc 1 i 0 2 2\np 0 1\nf 0\nnode 7\nc 0 i 2 2 0\nc 1 i 0 2 2\np 0 1\nf 0\nnode \
8\nc 0 i 2 2 0\nc 1 i 0 2 2\nf 0\ntask 1\nnode 0\nc 0 i 0 0 0\nc 1 i 0 0 0\nnode 1\nc 0 i 0 2 2\nc 1 i 0 0 0\nnode 2\n\
t 0 p 0 0 1 0 0 0\nc 0 i 0 2 2\nc 1 i 0 0 0\nnode 3\nt 0 p 0 0 1 0 0 0\nt 1 p 0 0 0 0 0 0\nc 0 i 0 2 2\nc 1 i 0 0 0\n\
node 4\nt 0 p 0 0 1 0 0 0\nt 2 i 0 2 2\nc 0 i 0 2 2\nc 1 i 0 0 0\nk 2 0\nnode 5\nc 0 i 0 2 2\nc 1 i 0 2 2\np 1 1\nf 1\n\
node 6\nc 0 i 0 2 2\nc 1 i 0 2 2\nf 1\nstore\nw 0 1 0 i 1 2 1\nw 1 1 1 i 0 2 2\ny 0 0 0 i 2 2 0\ny 1 0 1 i 0 2 2\nend\n";

/// Of two tasks of which each reads what the other writes.
const MUTUAL_CERTIFICATE: &str =
    "tmcert 1\nsource 108\nint x;int y;__task(1) void a(void){int v;v=y;if(v<10)x=v+1;}__task(1) void b(void){int \
v;v=x;if(v<10)y=v+1;}\ntask 0\nnode 0\nc 0 i 0 0 0\nc 1 i 0 0 0\nc 2 i -2147483648 2147483647 1\nnode 1\nc 0 i 0 0 0\n\
c 1 i 0 0 0\nc 2 i -2147483648 2147483647 1\nnode 2\nt 0 p 0 0 2 0 0 0\nc 0 i 0 0 0\nc 1 i 0 0 0\nc 2 i -2147483648 \
2147483647 1\nnode 3\nt 0 p 0 0 2 0 0 0\nt 1 p 0 0 1 0 0 0\nc 0 i 0 0 0\nc 1 i 0 0 0\nc 2 i -2147483648 2147483647 1\n\
node 4\nt 0 p 0 0 2 0 0 0\nt 2 i 0 10 1\nc 0 i 0 0 0\nc 1 i 0 0 0\nc 2 i -2147483648 2147483647 1\nk 2 1\nnode 5\nc 0 \
i 0 0 0\nc 1 i 0 0 0\nc 2 i 0 10 1\nf 2\ns 2\nnode 6\nt 3 p 0 0 2 0 0 0\nc 0 i 0 0 0\nc 1 i 0 0 0\nc 2 i 0 10 1\nf 2\n\
s 2\nnode 7\nt 4 i 0 10 1\nc 0 i 0 0 0\nc 1 i 0 0 0\nc 2 i 0 10 1\nf 2\ns 2\nk 4 2\nnode 8\nt 4 i 0 10 1\nt 5 i 10 10 \
0\nc 0 i 0 0 0\nc 1 i 0 0 0\nc 2 i 0 10 1\nf 2\ns 2\nk 4 2\nnode 9\nc 0 i 0 0 0\nc 1 i 0 0 0\nc 2 i 0 9 1\nf 2\ns 2\n\
node 10\nc 0 i 0 0 0\nc 1 i 0 0 0\nc 2 i 10 10 0\nf 2\ns 2\nnode 11\nt 6 p 0 0 0 0 0 0\nc 0 i 0 0 0\nc 1 i 0 0 0\nc 2 \
i 0 9 1\nf 2\ns 2\nnode 12\nt 6 p 0 0 0 0 0 0\nt 7 p 0 0 2 0 0 0\nc 0 i 0 0 0\nc 1 i 0 0 0\nc 2 i 0 9 1\nf 2\ns 2\n\
node 13\nt 6 p 0 0 0 0 0 0\nt 8 i 0 9 1\nc 0 i 0 0 0\nc 1 i 0 0 0\nc 2 i 0 9 1\nf 2\ns 2\nk 8 2\nnode 14\nt 6 p 0 0 0 \
0 0 0\nt 8 i 0 9 1\nt 9 i 1 1 0\nc 0 i 0 0 0\nc 1 i 0 0 0\nc 2 i 0 9 1\nf 2\ns 2\nk 8 2\nnode 15\nt 6 p 0 0 0 0 0 0\nt \
10 i 1 10 1\nc 0 i 0 0 0\nc 1 i 0 0 0\nc 2 i 0 9 1\nf 2\ns 2\nnode 16\nc 0 i 1 10 1\nc 1 i 0 0 0\nc 2 i 0 9 1\nf 0\nf \
2\ns 2\nnode 17\nc 0 i 0 10 1\nc 1 i 0 0 0\nc 2 i 0 10 1\nf 2\ns 2\ntask 1\nnode 0\nc 0 i 0 0 0\nc 1 i 0 0 0\nc 3 i \
-2147483648 2147483647 1\nnode 1\nc 0 i 0 0 0\nc 1 i 0 0 0\nc 3 i -2147483648 2147483647 1\nnode 2\nt 0 p 0 0 3 0 0 0\n\
c 0 i 0 0 0\nc 1 i 0 0 0\nc 3 i -2147483648 2147483647 1\nnode 3\nt 0 p 0 0 3 0 0 0\nt 1 p 0 0 0 0 0 0\nc 0 i 0 0 0\nc \
1 i 0 0 0\nc 3 i -2147483648 2147483647 1\nnode 4\nt 0 p 0 0 3 0 0 0\nt 2 i 0 10 1\nc 0 i 0 0 0\nc 1 i 0 0 0\nc 3 i \
-2147483648 2147483647 1\nk 2 0\nnode 5\nc 0 i 0 0 0\nc 1 i 0 0 0\nc 3 i 0 10 1\nf 3\ns 3\nnode 6\nt 3 p 0 0 3 0 0 0\n\
c 0 i 0 0 0\nc 1 i 0 0 0\nc 3 i 0 10 1\nf 3\ns 3\nnode 7\nt 4 i 0 10 1\nc 0 i 0 0 0\nc 1 i 0 0 0\nc 3 i 0 10 1\nf 3\ns \
3\nk 4 3\nnode 8\nt 4 i 0 10 1\nt 5 i 10 10 0\nc 0 i 0 0 0\nc 1 i 0 0 0\nc 3 i 0 10 1\nf 3\ns 3\nk 4 3\nnode 9\nc 0 i \
0 0 0\nc 1 i 0 0 0\nc 3 i 0 9 1\nf 3\ns 3\nnode 10\nc 0 i 0 0 0\nc 1 i 0 0 0\nc 3 i 10 10 0\nf 3\ns 3\nnode 11\nt 6 p \
0 0 1 0 0 0\nc 0 i 0 0 0\nc 1 i 0 0 0\nc 3 i 0 9 1\nf 3\ns 3\nnode 12\nt 6 p 0 0 1 0 0 0\nt 7 p 0 0 3 0 0 0\nc 0 i 0 0 \
0\nc 1 i 0 0 0\nc 3 i 0 9 1\nf 3\ns 3\nnode 13\nt 6 p 0 0 1 0 0 0\nt 8 i 0 9 1\nc 0 i 0 0 0\nc 1 i 0 0 0\nc 3 i 0 9 1\n\
f 3\ns 3\nk 8 3\nnode 14\nt 6 p 0 0 1 0 0 0\nt 8 i 0 9 1\nt 9 i 1 1 0\nc 0 i 0 0 0\nc 1 i 0 0 0\nc 3 i 0 9 1\nf 3\ns \
3\nk 8 3\nnode 15\nt 6 p 0 0 1 0 0 0\nt 10 i 1 10 1\nc 0 i 0 0 0\nc 1 i 0 0 0\nc 3 i 0 9 1\nf 3\ns 3\nnode 16\nc 0 i 0 \
0 0\nc 1 i 1 10 1\nc 3 i 0 9 1\nf 1\nf 3\ns 3\nnode 17\nc 0 i 0 0 0\nc 1 i 0 10 1\nc 3 i 0 10 1\nf 3\ns 3\nstore\nw 0 \
0 0 i 1 10 1\nw 1 0 1 i 1 10 1\nend\n";

/// Of an initial section before a task.
const BEGUN_CERTIFICATE: &str =
    "tmcert 1\nsource 72\nint x;int r;int main(void){x=5;return 0;}__task(1) void t(void){r=10/x;}\ntask 0\nnode 0\nc \
0 i 5 5 0\nc 1 i 0 0 0\nnode 1\nt 0 p 0 0 1 0 0 0\nc 0 i 5 5 0\nc 1 i 0 0 0\nnode 2\nt 0 p 0 0 1 0 0 0\nt 1 i 10 10 0\n\
c 0 i 5 5 0\nc 1 i 0 0 0\nnode 3\nt 0 p 0 0 1 0 0 0\nt 1 i 10 10 0\nt 2 p 0 0 0 0 0 0\nc 0 i 5 5 0\nc 1 i 0 0 0\nnode \
4\nt 0 p 0 0 1 0 0 0\nt 1 i 10 10 0\nt 3 i 5 5 0\nc 0 i 5 5 0\nc 1 i 0 0 0\nk 3 0\nnode 5\nt 0 p 0 0 1 0 0 0\nt 4 i 2 \
2 0\nc 0 i 5 5 0\nc 1 i 0 0 0\nnode 6\nc 0 i 5 5 0\nc 1 i 2 2 0\nf 1\ntask 1\nnode 0\nc 0 i 0 0 0\nc 1 i 0 0 0\nnode \
1\nt 0 p 0 0 0 0 0 0\nc 0 i 0 0 0\nc 1 i 0 0 0\nnode 2\nt 0 p 0 0 0 0 0 0\nt 1 i 5 5 0\nc 0 i 0 0 0\nc 1 i 0 0 0\nnode \
3\nc 0 i 5 5 0\nc 1 i 0 0 0\nf 0\nnode 4\nt 2 i 0 0 0\nc 0 i 5 5 0\nc 1 i 0 0 0\nf 0\nnode 5\nc 0 i 5 5 0\nc 1 i 0 0 \
0\nf 0\nnode 6\nc 0 i 5 5 0\nc 1 i 0 0 0\nf 0\nstore\nw 0 0 1 i 2 2 0\nend\n";

/// Of an initial section before two tasks, of which the second reads what the first writes.
const BEGUN_TWICE_CERTIFICATE: &str =
    "tmcert 1\nsource 108\nint x;int y;int r;int main(void){x=5;return 0;}__task(1) void t(void){y=10/x;}__task(2) \
void u(void){r=y+x;}\ntask 0\nnode 0\nc 0 i 5 5 0\nc 1 i 0 0 0\nc 2 i 0 0 0\nnode 1\nt 0 p 0 0 1 0 0 0\nc 0 i 5 5 0\nc \
1 i 0 0 0\nc 2 i 0 0 0\nnode 2\nt 0 p 0 0 1 0 0 0\nt 1 i 10 10 0\nc 0 i 5 5 0\nc 1 i 0 0 0\nc 2 i 0 0 0\nnode 3\nt 0 p \
0 0 1 0 0 0\nt 1 i 10 10 0\nt 2 p 0 0 0 0 0 0\nc 0 i 5 5 0\nc 1 i 0 0 0\nc 2 i 0 0 0\nnode 4\nt 0 p 0 0 1 0 0 0\nt 1 i \
10 10 0\nt 3 i 5 5 0\nc 0 i 5 5 0\nc 1 i 0 0 0\nc 2 i 0 0 0\nk 3 0\nnode 5\nt 0 p 0 0 1 0 0 0\nt 4 i 2 2 0\nc 0 i 5 5 \
0\nc 1 i 0 0 0\nc 2 i 0 0 0\nnode 6\nc 0 i 5 5 0\nc 1 i 2 2 0\nc 2 i 0 0 0\nf 1\ntask 1\nnode 0\nc 0 i 5 5 0\nc 1 i 0 \
0 0\nc 2 i 0 0 0\nnode 1\nt 0 p 0 0 2 0 0 0\nc 0 i 5 5 0\nc 1 i 0 0 0\nc 2 i 0 0 0\nnode 2\nt 0 p 0 0 2 0 0 0\nt 1 p 0 \
0 1 0 0 0\nc 0 i 5 5 0\nc 1 i 0 0 0\nc 2 i 0 0 0\nnode 3\nt 0 p 0 0 2 0 0 0\nt 2 i 0 2 2\nc 0 i 5 5 0\nc 1 i 0 0 0\nc \
2 i 0 0 0\nk 2 1\nnode 4\nt 0 p 0 0 2 0 0 0\nt 2 i 0 2 2\nt 3 p 0 0 0 0 0 0\nc 0 i 5 5 0\nc 1 i 0 0 0\nc 2 i 0 0 0\nk \
2 1\nnode 5\nt 0 p 0 0 2 0 0 0\nt 2 i 0 2 2\nt 4 i 5 5 0\nc 0 i 5 5 0\nc 1 i 0 0 0\nc 2 i 0 0 0\nk 2 1\nk 4 0\nnode 6\n\
t 0 p 0 0 2 0 0 0\nt 5 i 5 7 2\nc 0 i 5 5 0\nc 1 i 0 0 0\nc 2 i 0 0 0\nnode 7\nc 0 i 5 5 0\nc 1 i 0 0 0\nc 2 i 5 7 2\n\
f 2\ntask 2\nnode 0\nc 0 i 0 0 0\nc 1 i 0 0 0\nc 2 i 0 0 0\nnode 1\nt 0 p 0 0 0 0 0 0\nc 0 i 0 0 0\nc 1 i 0 0 0\nc 2 i \
0 0 0\nnode 2\nt 0 p 0 0 0 0 0 0\nt 1 i 5 5 0\nc 0 i 0 0 0\nc 1 i 0 0 0\nc 2 i 0 0 0\nnode 3\nc 0 i 5 5 0\nc 1 i 0 0 \
0\nc 2 i 0 0 0\nf 0\nnode 4\nt 2 i 0 0 0\nc 0 i 5 5 0\nc 1 i 0 0 0\nc 2 i 0 0 0\nf 0\nnode 5\nc 0 i 5 5 0\nc 1 i 0 0 \
0\nc 2 i 0 0 0\nf 0\nnode 6\nc 0 i 5 5 0\nc 1 i 0 0 0\nc 2 i 0 0 0\nf 0\nstore\nw 0 0 1 i 2 2 0\nw 1 0 2 i 5 9 2\nend\n";

/// A certificate, and its report.
static WHOLE: [(&str, u8, &str); 4] = [
    (PENDING_CERTIFICATE, 0, "alarms 0\ncertified\n"),
    (
        MUTUAL_CERTIFICATE,
        1,
        "1:44 RACE\n1:55 RACE\n1:92 RACE\n1:103 RACE\nalarms 4\ncertified\n",
    ),
    (BEGUN_CERTIFICATE, 0, "alarms 0\ncertified\n"),
    (
        BEGUN_TWICE_CERTIFICATE,
        1,
        "1:72 RACE\n1:104 RACE\nalarms 2\ncertified\n",
    ),
];

/// A certificate, what is taken away from it where that stands for the first time, and what is not covered then.
static CUTS: [(&str, &str, &str); 6] = [
    (
        PENDING_CERTIFICATE,
        "node 8\nc 0 i 2 2 0\nc 1 i 0 2 2\nf 0\n",
        "uncovered 0 8\n",
    ),
    (
        PENDING_CERTIFICATE,
        "w 0 1 0 i 1 2 1\nw 1 1 1 i 0 2 2\ny 0 0 0 i 2 2 0\ny 1 0 1 i 0 2 2\n",
        "uncovered store\n",
    ),
    (
        MUTUAL_CERTIFICATE,
        "node 1\nc 0 i 0 0 0\nc 1 i 0 0 0\nc 3 i -2147483648 2147483647 1\n",
        "uncovered 1 1\n",
    ),
    (
        MUTUAL_CERTIFICATE,
        "w 0 0 0 i 1 10 1\nw 1 0 1 i 1 10 1\n",
        "uncovered store\n",
    ),
    (
        BEGUN_CERTIFICATE,
        "node 3\nc 0 i 5 5 0\nc 1 i 0 0 0\nf 0\n",
        "uncovered 1 3\n",
    ),
    (
        BEGUN_TWICE_CERTIFICATE,
        "node 0\nc 0 i 0 0 0\nc 1 i 0 0 0\nc 2 i 0 0 0\n",
        "uncovered 2 0\n",
    ),
];

/// The same of two parts, of which the second is taken away behind the first.
static TWO_CUTS: [(&str, &str, &str, &str); 2] = [
    (
        MUTUAL_CERTIFICATE,
        "node 1\nc 0 i 0 0 0\nc 1 i 0 0 0\nc 3 i -2147483648 2147483647 1\n",
        "node 2\nt 0 p 0 0 2 0 0 0\nc 0 i 0 0 0\nc 1 i 0 0 0\nc 2 i -2147483648 2147483647 1\n",
        "uncovered 0 2\n",
    ),
    (
        BEGUN_TWICE_CERTIFICATE,
        "node 0\nc 0 i 0 0 0\nc 1 i 0 0 0\nc 2 i 0 0 0\n",
        "node 3\nt 0 p 0 0 2 0 0 0\nt 2 i 0 2 2\nc 0 i 5 5 0\nc 1 i 0 0 0\nc 2 i 0 0 0\nk 2 1\n",
        "uncovered 1 3\n",
    ),
];

/// The text has this answer of `check`.
fn expect_checked(
    rt: &impl Abort,
    alloc: Global,
    certificate: &str,
    number: u8,
    text: &str,
) -> Result<(), Fail> {
    expect_alone(
        rt,
        alloc,
        &["check"],
        certificate.as_bytes(),
        number,
        text.as_bytes(),
    )
}

/// A certificate without a part has this answer.
fn expect_cut(
    rt: &impl Abort,
    alloc: Global,
    certificate: &str,
    cut: &str,
    text: &str,
) -> Result<(), Fail> {
    let left = certificate.replacen(alloc, cut, "", 1)?;
    expect_checked(rt, alloc, &left, 1, text)
}

/// One without two parts has it.
fn expect_two_cuts(
    rt: &impl Abort,
    alloc: Global,
    certificate: &str,
    one: &str,
    other: &str,
    text: &str,
) -> Result<(), Fail> {
    let left = certificate.replacen(alloc, one, "", 1)?;
    expect_cut(rt, alloc, &left, other, text)
}

#[test]
fn cuts(rt: HostRuntime) -> Result<(), Fail> {
    let alloc = rt.alloc();
    for (certificate, number, report) in &WHOLE {
        expect_checked(&rt, alloc, certificate, *number, report)?;
    }
    for (certificate, cut, text) in &CUTS {
        expect_cut(&rt, alloc, certificate, cut, text)?;
    }
    for (certificate, one, other, text) in &TWO_CUTS {
        expect_two_cuts(&rt, alloc, certificate, one, other, text)?;
    }
    Ok(())
}
