//! Sources and their answers: two tables over one driver, and sources at the bounds of the large scale.

use crate::commands::expect;
use source_programs::source_program_on;
use std::alloc::Global;
use std::test::Fail;
use tm_laid::Scale;
use tm_terms::{Fail as Refused, Limit};

/// A source, the number with which the program ends on it, and the text that it writes.
static SOURCES: [(&[u8], u8, &[u8]); 33] = [
    // Reports: one task.
    (b"", 0, b"alarms 0\n"),
    (
        b"int x;\n__task(1) void t(void){x=1/x;}",
        1,
        b"2:27 DIV\nalarms 1\n",
    ),
    (
        b"int x;\n__task(1) void t(void){x=2147483647;}",
        0,
        b"alarms 0\n",
    ),
    (
        b"int x=2147483647;\n__task(1) void t(void){x=x+1;}",
        1,
        b"2:27 OVERFLOW\nalarms 1\n",
    ),
    (
        b"# 1 \"a.c\"\nint x; // zero\n/* t */ __task(1) void t(void){x=1/x;}",
        1,
        b"3:35 DIV\nalarms 1\n",
    ),
    (
        b"int a[4];\n__task(1) void t(void){int i;for(i=0;i<=4;i++)a[i]=i;}",
        1,
        b"2:48 INDEX\nalarms 1\n",
    ),
    (
        b"int x;__task(1) void t(void){int *p;p=&x;p=p+2;*p=1;}",
        1,
        b"1:45 POINTER\nalarms 1\n",
    ),
    (
        b"__mutex m;\n__task(1) void t(void){__lock(m);__lock(m);}",
        1,
        b"2:34 LOCK\nalarms 1\n",
    ),
    // The initial section sets up what the task reads.
    (
        b"int x;int r;int main(void){x=5;return 0;}\n__task(1) void t(void){r=10/x;}",
        0,
        b"alarms 0\n",
    ),
    // Two tasks: a race, and a zero that the less urgent one reads between two stores of the other.
    (
        b"int n;int q;\n__task(2) void fast(void){n=0;}\n__task(1) void slow(void){int d;d=n;q=100/d;}",
        1,
        b"2:28 RACE\n3:35 RACE\n3:42 DIV\nalarms 3\n",
    ),
    (
        b"__mutex m;int n=4;int q;\n\
__task(2) void fast(void){__lock(m);n=0;n=4;__unlock(m);}\n\
__task(1) void slow(void){int d;__lock(m);d=n;__unlock(m);q=100/d;}",
        0,
        b"alarms 0\n",
    ),
    // A mutex that was found free: the less urgent task cannot take it, and one of equal priority can.
    (
        b"__mutex m;int x=1;int r;\n\
__task(2) void hi(void){if(!__islocked(m))r=10/x;}\n\
__task(1) void lo(void){__lock(m);x=0;x=1;__unlock(m);}",
        0,
        b"alarms 0\n",
    ),
    (
        b"__mutex m;int x=1;int r;\n\
__task(1) void hi(void){if(!__islocked(m))r=10/x;}\n\
__task(1) void lo(void){__lock(m);x=0;x=1;__unlock(m);}",
        1,
        b"2:47 DIV\n2:48 RACE\n3:36 RACE\n3:40 RACE\nalarms 4\n",
    ),
    // The first refusal is the source's.
    (b"/* x", 2, b"1:1 refused Lexical\n"),
    (b"float x;", 2, b"1:1 refused Unsupported\n"),
    (b"int x", 2, b"1:5 refused Syntax\n"),
    (
        b"int x;__task(256) void t(void){x=1;}",
        2,
        b"1:7 refused BadTask\n",
    ),
    (
        b"__task(1) void t(void){x=1;}",
        2,
        b"1:24 refused Undeclared\n",
    ),
    (
        b"int x;__task(1) void x(void){}",
        2,
        b"1:22 refused Redeclared\n",
    ),
    (b"char a[65537];", 2, b"1:8 refused NotConstant\n"),
    (b"char a[65536],b;", 2, b"refused Limit cells 65536\n"),
    (b"char a[65536];", 0, b"alarms 0\n"),
    (b"int x;\0", 2, b"1:7 refused Lexical\n"),
    (b"int x=0x;", 2, b"1:7 refused Lexical\n"),
    (b"int x='\\400';", 2, b"1:7 refused Lexical\n"),
    (
        b"int x=170141183460469231731687303715884105728;",
        2,
        b"1:7 refused Lexical\n",
    ),
    (b"__task(1) void t(void){", 2, b"1:23 refused Syntax\n"),
    // Declarations, conversions, loops and calls.
    (b"int x;int x;", 0, b"alarms 0\n"),
    (b"int x=2147483648;", 0, b"alarms 0\n"),
    (b"int x;__task(1) void t(void){x=1;x=2;}", 0, b"alarms 0\n"),
    (
        b"typedef struct N N;struct N{int v;N*next;};",
        0,
        b"alarms 0\n",
    ),
    (
        b"int x;__task(1) void t(void){while(1){x=x+1;}}",
        1,
        b"1:42 OVERFLOW\nalarms 1\n",
    ),
    (
        b"int f(int n){return 8/n;}int r;__task(1) void t(void){r=f(2);r=f(0);}",
        1,
        b"1:22 DIV\nalarms 1\n",
    ),
];

/// A front, a middle, how often it stands, a back, and the same of the source that these make: texts at the bounds.
static LONG_SOURCES: [(&[u8], &[u8], usize, &[u8], u8, &[u8]); 12] = [
    (b"", b" ", 1_048_576, b"", 0, b"alarms 0\n"),
    (
        b"",
        b" ",
        1_048_577,
        b"",
        2,
        b"refused Limit source 1048576\n",
    ),
    (b"", b";", 200_000, b"", 0, b"alarms 0\n"),
    (b"", b";", 200_001, b"", 2, b"refused Limit tokens 200000\n"),
    (
        b"",
        b"(",
        1_048_576,
        b"",
        2,
        b"refused Limit tokens 200000\n",
    ),
    (b"int x=", b"(", 201, b"", 2, b"1:207 refused Deep\n"),
    (
        b"void f(void){",
        b"if(1)",
        40_000,
        b"",
        2,
        b"1:2498 refused Syntax\n",
    ),
    (
        b"void f(void){}__task(1) void t(void){",
        b"f();",
        4_095,
        b"}",
        0,
        b"alarms 0\n",
    ),
    (
        b"void f(void){}__task(1) void t(void){",
        b"f();",
        4_096,
        b"}",
        2,
        b"refused Limit paths 4096\n",
    ),
    (
        b"__task(1) void t(void){",
        b"__yield();",
        19_999,
        b"}",
        0,
        b"alarms 0\n",
    ),
    (
        b"__task(1) void t(void){",
        b"__yield();",
        20_000,
        b"}",
        2,
        b"refused Limit nodes 20000\n",
    ),
    (
        b"int x;__task(1) void t(void){int i;for(i=0;i<9;i++){",
        b"x=i;",
        400,
        b"}}",
        0,
        b"alarms 0\n",
    ),
];

/// A byte, how often it stands, and the limit by which the large scale refuses the source of these, if it does.
static LARGE_SOURCES: [(u8, usize, Option<Limit>); 4] = [
    (b' ', 16_777_216, None),
    (b' ', 16_777_217, Some(Limit::Source)),
    (b';', 4_000_000, None),
    (b';', 4_000_001, Some(Limit::Tokens)),
];

#[test]
fn sources(rt: HostRuntime) -> Result<(), Fail> {
    let alloc = rt.alloc();
    for (source, number, text) in &SOURCES {
        expect(&rt, alloc, &["analyse"], source, *number, text)?;
    }
    Ok(())
}

/// The source of a row of the long ones.
fn repeated(
    alloc: Global,
    front: &[u8],
    middle: &[u8],
    count: usize,
    back: &[u8],
) -> Result<Vec<u8>, Fail> {
    let mut source = front.to_vec(alloc)?;
    for _i in 0..count {
        source.extend_from_slice(middle)?;
    }
    source.extend_from_slice(back)?;
    Ok(source)
}

#[test]
fn long_sources(rt: HostRuntime) -> Result<(), Fail> {
    let alloc = rt.alloc();
    for (front, middle, count, back, number, text) in &LONG_SOURCES {
        let source = repeated(alloc, front, middle, *count, back)?;
        expect(&rt, alloc, &["analyse"], &source, *number, text)?;
    }
    Ok(())
}

/// Whether the large scale has a program of the source, or refuses it by this limit.
fn is_answered(alloc: Global, source: &[u8], limit: Option<Limit>) -> bool {
    match source_program_on(alloc, Scale::Large, source, &[]) {
        Ok(_) => limit.is_none(),
        Err(Refused::Refused(refusal)) => limit.is_some() && refusal.limit == limit,
        Err(Refused::NoMemory) => false,
    }
}

#[test]
fn large_sources(rt: HostRuntime) -> Result<(), Fail> {
    let alloc = rt.alloc();
    for (byte, count, limit) in &LARGE_SOURCES {
        let source = vec![in alloc; *byte; *count]?;
        assert!(rt; is_answered(alloc, &source, *limit));
    }
    Ok(())
}
