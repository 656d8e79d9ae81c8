//! Sources and what typing answers them: rows of each kind with their places, and sources that are typed.

use crate::stations::{Way, rows_are_so};
use std::test::Fail;

// A source, and what typing answers it.
static ROWS: [(&str, &str); 60] = [
    ("int x;char x;", "1:12 refused Redeclared\n"),
    ("__task(256) void t(void){}", "1:1 refused BadTask\n"),
    ("__task(-1) void t(void){}", "1:1 refused BadTask\n"),
    (
        "int f(void);\n__task(1) void t(void){f();}",
        "2:24 refused NoBody\n",
    ),
    ("__task(1) void t(void){1=2;}", "1:25 refused NotLvalue\n"),
    ("int f(int n){return f(n-1);}", "1:5 refused Recursive\n"),
    ("int x=y;", "1:7 refused Undeclared\n"),
    ("int y;int x=y;", "1:13 refused NotConstant\n"),
    ("typedef int f(void);", "1:13 refused Mismatch\n"),
    ("typedef int T=1;", "1:13 refused Mismatch\n"),
    (
        "struct S{int a;};struct S s,r;void f(void){s=r;}",
        "1:45 refused Unsupported\n",
    ),
    (
        "int*p,*q;int f(void){return p<q;}",
        "1:30 refused Unsupported\n",
    ),
    ("int*p;void f(void){1=p;}", "1:21 refused Mismatch\n"),
    ("int x;char x[];", "1:12 refused Redeclared\n"),
    ("int a[3];void f(void){a=0;}", "1:24 refused NotLvalue\n"),
    ("enum{A=2147483647,B};", "1:19 refused NotConstant\n"),
    (
        "int f(void){return __input(2,1);}",
        "1:20 refused NotConstant\n",
    ),
    ("char*c=(int*)0;", "1:8 refused Mismatch\n"),
    ("int x;int x;int x=1;", "typed"),
    ("extern int x;void f(void){x=1;}", "1:27 refused NoBody\n"),
    ("extern int x;", "typed"),
    ("int f(void){return sizeof(f());}", "typed"),
    (
        "int f(void);int g(void){return 0&&f();}",
        "1:35 refused NoBody\n",
    ),
    ("struct S{int a;}s;void f(void){s;(void)s;}", "typed"),
    ("int x={1};", "1:7 refused Mismatch\n"),
    ("int m[2][2]={0};", "typed"),
    ("int m[2][2]={1};", "1:14 refused Mismatch\n"),
    (
        "void f(unsigned u){switch(u){case -1:case 4294967295u:;}}",
        "1:38 refused Redeclared\n",
    ),
    (
        "void f(int u){switch(u){default:default:;}}",
        "1:33 refused Redeclared\n",
    ),
    (
        "void f(int u){switch(u){case u:;}}",
        "1:30 refused NotConstant\n",
    ),
    (
        "__task(1) void t(void){}void f(void){t;}",
        "1:38 refused Unsupported\n",
    ),
    ("struct S s;struct S{int a;};", "1:10 refused Mismatch\n"),
    (
        "void f(struct Q*p);void f(struct Q*p){}",
        "1:25 refused Redeclared\n",
    ),
    ("int f(int*);int f(const int*a){return*a;}", "typed"),
    ("void f(void){break;}", "1:14 refused Mismatch\n"),
    ("void f(void){continue;}", "1:14 refused Mismatch\n"),
    (
        "void f(int u){switch(u){case 1:continue;}}",
        "1:32 refused Mismatch\n",
    ),
    ("void f(void){return 1;}", "1:14 refused Mismatch\n"),
    ("int f(void){return;}", "1:13 refused Mismatch\n"),
    ("void f(void){{int x;}x=1;}", "1:22 refused Undeclared\n"),
    ("__mutex m;void f(void){__lock(m);__unlock(m);}", "typed"),
    ("int m;void f(void){__lock(m);}", "1:27 refused Mismatch\n"),
    ("void f(void){__lock(m);}", "1:21 refused Undeclared\n"),
    (
        "int f(void);int f(void){return g();}int g(void){return f();}",
        "1:32 refused Undeclared\n",
    ),
    (
        "int g(void);int f(void){return g();}int g(void){return f();}",
        "1:17 refused Recursive\n",
    ),
    ("int x;int x(void);", "1:11 refused Redeclared\n"),
    (
        "int f(void){return 1;}int f(void){return 2;}",
        "1:27 refused Redeclared\n",
    ),
    ("void f(int a,int a){}", "1:18 refused Redeclared\n"),
    ("void f(void v){}", "1:13 refused Mismatch\n"),
    (
        "struct S{int a;};void f(struct S s){}",
        "1:34 refused Unsupported\n",
    ),
    ("void f(int a){int a;}", "1:19 refused Redeclared\n"),
    ("__mutex m;__mutex m;", "1:19 refused Redeclared\n"),
    ("int a[0];", "1:7 refused NotConstant\n"),
    ("int a[65537];", "1:7 refused NotConstant\n"),
    ("int a[65536];", "typed"),
    ("void*p;", "1:6 refused Unsupported\n"),
    ("int*volatile p;", "1:14 refused Unsupported\n"),
    ("static int*p=&a;int a;", "1:15 refused Undeclared\n"),
    ("int a[3];int*p=&a[2],*q=a+3;", "typed"),
    ("int a[3];int*p=a+4;", "1:17 refused NotConstant\n"),
];

#[test]
fn rows(rt: HostRuntime) -> Result<(), Fail> {
    rows_are_so(&rt, rt.alloc(), Way::Typed, &ROWS)
}
