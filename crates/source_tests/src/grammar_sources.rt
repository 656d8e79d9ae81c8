//! Whole sources: those that the grammar takes, each production and each word of the language in at least one, and
//! those that it refuses.

use crate::stations::{Way, answers, rows_are_so};
use std::test::Fail;

// Plain C, which gcc takes too: vectors/sources.sh asks it. All of them in turn are one source.
static PLAIN: [&str; 45] = [
    "int x; short y; long z; char c; signed char d; unsigned e;",
    "static const volatile unsigned long flags = 0x1FuL, mask = 017u, none = 0;",
    "extern signed short counters[4];",
    "long long wide = 10ll; unsigned long long widest = 0XFFULL;",
    "_Bool ready = 1; char letter = 'a', quote = '\\'', line_end = '\\n', coded = '\\x41', octal = '\\101';",
    "typedef unsigned char byte_t; byte_t buffer[8] = {1, 2, 3,};",
    "struct point { int x, y; const char *label; }; struct point origin = {0, 0, 0}, *here = &origin;",
    "struct { int only; } nameless;",
    "struct node { struct node *next; byte_t value[2]; }; struct node list = {&list, {1, 2}};",
    "enum color { RED, GREEN = 2, BLUE, }; enum color paint = BLUE;",
    "enum { LOW, HIGH = LOW + 1 };",
    "int (*rows)[4], *columns[4], **twice, *const fixed = 0, (inside);",
    "int table[2][3] = {{1, 2, 3}, {4, 5, 6}};",
    "int from_values[] = {1, 2};",
    "int *restrict alone;",
    "typedef struct point *point_p; typedef int row_t[3], number_t; row_t row; number_t number;",
    "static int helper(int a, int *const b);",
    "void unnamed(int, char *, const int *, struct point *);",
    "int nothing(void) { return 0; }",
    "int empty_list() { return 1; }",
    "void no_value(void) { return; }",
    "static inline int squared(register int v) { return v * v; }",
    "static int helper(int a, int *const b) { *b = a; return *b; }",
    "int *address(void) { static int kept = 1; extern int x; return &kept; }",
    "void steps(void) { int i, j = 0; auto int k; ; i = 0; { int i; i = j; } k = i; i = k, j = k; }",
    "int choose(int a, int b) { if (a) return b; if (b) a = 1; else a = 2; return a; }",
    "int nearest(int a, int b) { if (a) if (b) return 1; else return 2; return a; }",
    "int chained(int n) { if (n < 0) { n = 0; } else if (n > 9) { n = 9; } else { n++; } return n; }",
    "int looping(int n) { while (n > 0) n--; do { n += 2; } while (n < 10); do n++; while (0); return n; }",
    "int counting(int n) { for (;;) break; for (n = 0; n < 3; n++) continue; return n; }",
    "int declaring(int n) { for (int k = 0, m = 1; k < m; ++k) n = k; return n; }",
    "int cases(int v) { switch (v) { case 1: case RED + 3: v = 2; break; default: v = 0; } return v; }",
    "int no_cases(int v) { switch (v) { } return v; }",
    "int arithmetic(int a, int b) { return a * b / 3 % 5 + a - b << 1 >> 2; }",
    "int compared(int a, int b) { return (a < b) + (a > b) + (a <= b) + (a >= b) + (a == b) + (a != b); }",
    "int logical(int a, int b) { return (a & b) | (a ^ b) && a || b ? a : b ? 1 : 2; }",
    "void assigned(int a) { a = 1; a *= 2; a /= 2; a %= 3; a += 1; a -= 1; }",
    "void masked(int a) { a <<= 1; a >>= 1; a &= 7; a ^= 1; a |= 2; }",
    "int unary(int a, int *p) { ++a; --a; a++; a--; return -a + +a - ~a + !a + *p + *&a; }",
    "int postfix(struct node *n, int (*m)[4]) { return n->next->value[1] + (*n).value[0] + m[1][2]; }",
    "int called(void) { return nothing() + squared(3) + choose(1, 2 + 3); }",
    "unsigned sizes(int a) { return sizeof a + sizeof(int) + sizeof(struct point *) + sizeof (a) * 2; }",
    "int casts(int a) { return (int)(unsigned char)a + (byte_t)-a + *(int *)&a + (int)sizeof(const char **); }",
    "# 1 \"other.c\"",
    "#pragma once upon a time",
];

// Sources and their answers: with the analyser's own words, with empty parts of a file, or with what typing refuses.
static OWN: [(&str, &str); 8] = [
    (
        "__mutex m; int s; __task(1) void low(void) { __lock(m); s = __input(0, 10); __unlock(m); __yield(); }",
        "taken",
    ),
    ("__task(2 + 1) void high(void) { }", "taken"),
    (
        "__mutex m; int f(void) { return __islocked(m) ? 1 : __input(-1, +1); }",
        "taken",
    ),
    (";", "taken"),
    ("int x;;", "taken"),
    ("", "taken"),
    ("typedef int T; T T_to_int(T t) { return (T)t; }", "taken"),
    ("int *volatile restless;", "taken"),
];

// Sources that are refused, and the lines that say so.
static REFUSED: [(&str, &str); 29] = [
    ("__task(1) void t(void){", "1:23 refused Syntax\n"),
    ("int x=1+;", "1:9 refused Syntax\n"),
    ("int x", "1:5 refused Syntax\n"),
    (
        "int a[2]={1,2,};int f(int,char*b),c;",
        "1:34 refused Syntax\n",
    ),
    ("typedef int T;int T;", "1:19 refused Syntax\n"),
    ("void f(void){if(1)else;}", "1:19 refused Syntax\n"),
    (
        "void f(void){switch(1){case 1:{case 2:;}}}",
        "1:32 refused Syntax\n",
    ),
    ("void f(void){typedef int T;}", "1:26 refused Syntax\n"),
    ("float x;", "1:1 refused Unsupported\n"),
    ("/* x", "1:1 refused Lexical\n"),
    ("int x=f(1,);", "1:11 refused Syntax\n"),
    ("int x=(1+2;", "1:11 refused Syntax\n"),
    ("int x=a[1;", "1:10 refused Syntax\n"),
    ("int x=a.1;", "1:9 refused Syntax\n"),
    ("int x=a?b;", "1:10 refused Syntax\n"),
    ("int x=a?b:;", "1:11 refused Syntax\n"),
    ("int x=(int;", "1:11 refused Syntax\n"),
    ("int x=(int)*;", "1:13 refused Syntax\n"),
    ("int x=sizeof;", "1:13 refused Syntax\n"),
    ("int x=__input(1);", "1:16 refused Syntax\n"),
    ("void f(void){x=1}", "1:17 refused Syntax\n"),
    ("void f(void){for(;;}", "1:20 refused Syntax\n"),
    ("void f(void){do ; while(1)}", "1:27 refused Syntax\n"),
    ("void f(void){return 1+*;}", "1:24 refused Syntax\n"),
    ("struct s{int;};", "1:13 refused Syntax\n"),
    ("enum e{};", "1:8 refused Syntax\n"),
    ("int a[]={};", "1:10 refused Syntax\n"),
    ("int unsigned char x;", "1:19 refused Syntax\n"),
    ("__mutex 1;", "1:9 refused Syntax\n"),
];

// The texts of `PLAIN`, one behind the other.
fn push_whole(source: &mut Vec<u8>) -> Result<(), Fail> {
    for text in PLAIN.iter() {
        source.extend_from_slice(text.as_bytes())?;
        source.push(b'\n')?;
    }
    Ok(())
}

#[test]
fn sources(rt: HostRuntime) -> Result<(), Fail> {
    let mut whole = Vec::new(rt.alloc());
    push_whole(&mut whole)?;
    answers(&rt, rt.alloc(), Way::Taken, "plain C", &whole, "taken")?;
    rows_are_so(&rt, rt.alloc(), Way::Taken, &OWN)?;
    rows_are_so(&rt, rt.alloc(), Way::Taken, &REFUSED)
}
