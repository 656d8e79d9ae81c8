//! Small sources, and how many call paths, objects, cells and abstract cells they have.

use crate::stations::{Way, rows_are_so};
use std::test::Fail;

// A source, and what its layout has.
static ROWS: [(&str, &str); 14] = [
    ("int x;", "paths 0 objects 1 cells 1 abstract 1"),
    (
        "extern int x;int y;",
        "paths 0 objects 1 cells 1 abstract 1",
    ),
    (
        "extern int x;void f(void){x=1;}int x;",
        "paths 0 objects 1 cells 1 abstract 1",
    ),
    ("int a[64];", "paths 0 objects 1 cells 64 abstract 64"),
    ("int a[65];", "paths 0 objects 1 cells 65 abstract 1"),
    ("int a[65][2];", "paths 0 objects 1 cells 130 abstract 2"),
    ("int a[2][65];", "paths 0 objects 1 cells 130 abstract 2"),
    (
        "struct S{char c;int a[3];struct S*next;}s[2];",
        "paths 0 objects 1 cells 10 abstract 10",
    ),
    // a function that no body calls has no paths
    (
        "void f(int n){int m;}",
        "paths 0 objects 0 cells 0 abstract 0",
    ),
    (
        "__task(1) void t(void){int u;}__task(2) void v(void){int w[2];}",
        "paths 2 objects 2 cells 3 abstract 3",
    ),
    (
        "void f(int n){int m;}__task(1) void t(void){f(1);f(2);}",
        "paths 3 objects 4 cells 4 abstract 4",
    ),
    // a call below `sizeof` is none
    (
        "int f(int n){return n;}__task(1) void t(void){int x;x=sizeof(f(1));}",
        "paths 1 objects 1 cells 1 abstract 1",
    ),
    (
        "void f(void){static int n;}__task(1) void t(void){f();f();}",
        "paths 3 objects 1 cells 1 abstract 1",
    ),
    (
        "struct P{int x;char y;};struct P a[2];int c[65];int*p=&c[3];void g(int k){}\
void f(int n){int m;g(1);g(2);}__task(1) void t(void){f(1);g(3);}",
        "paths 5 objects 8 cells 75 abstract 11",
    ),
];

#[test]
fn rows(rt: HostRuntime) -> Result<(), Fail> {
    rows_are_so(&rt, rt.alloc(), Way::Laid, &ROWS)
}
