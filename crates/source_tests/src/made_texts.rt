//! Sources that are made: those that are long, deep, or at a limit and one above.

use crate::forms::push_number;
use crate::stations::{Way, answers};
use std::alloc::Global;
use std::process::Abort;
use std::test::Fail;

// A front, a link and how often it stands, a back, and the answer. Of a link each `#` stands for the number of links
// before it, and each `@` for the number of itself.
type Chain = (&'static str, &'static str, u32, &'static str, &'static str);

// At the limits of the front end.
static PARSED: [Chain; 9] = [
    ("", ";", 200_000, "", "taken"),
    ("", ";", 200_001, "", "refused Limit tokens 200000\n"),
    ("", "(", 1_048_576, "", "refused Limit tokens 200000\n"),
    ("", "(", 1_048_575, "@", "1:1048576 refused Lexical\n"),
    ("int x=", "(", 201, "1;", "1:207 refused Deep\n"),
    ("int x=1", "+1", 496, ";", "taken"),
    ("int x=1", "+1", 497, ";", "1:1002 refused Syntax\n"),
    ("int x=1", "+1", 599, ";", "1:1006 refused Syntax\n"),
    (
        "void f(void){",
        "if(1)",
        40_000,
        "",
        "1:2498 refused Syntax\n",
    ),
];

// Comments and skipped lines of a million bytes. A reader that looked at all that follows from each of their bytes anew
// would not be done in the time that a test has.
static LINES: [Chain; 10] = [
    ("//", "    ", 250_000, "", "taken"),
    ("//", "\\ \\ ", 250_000, "", "taken"),
    ("//", "??/ ", 250_000, "", "taken"),
    ("/*", "*\\ \n", 250_000, "", "1:1 refused Lexical\n"),
    ("/*", "*\\ \r", 250_000, "", "1:1 refused Lexical\n"),
    ("/**", "??/\n", 250_000, "", "1:1 refused Lexical\n"),
    ("/*", "****", 250_000, "", "1:1 refused Lexical\n"),
    ("/* *\\", "    ", 250_000, "", "1:1 refused Lexical\n"),
    ("#pragma ", "\\ \" ", 250_000, "", "taken"),
    ("#pragma ", "/**/", 250_000, "", "taken"),
];

// Types that are deep, and sources that are long: each is typed, on the stack of the main thread.
static TYPED: [Chain; 5] = [
    (
        "typedef int T0;",
        "typedef T# T@;",
        39_000,
        "T39000 x;",
        "typed",
    ),
    (
        "struct S0{int x;};",
        "struct S@{struct S# s;};",
        22_000,
        "struct S22000 s;",
        "typed",
    ),
    (
        "void f0(){}",
        "void f@(){f#();}",
        19_000,
        "__task(1) void t(void){f19000();}",
        "typed",
    ),
    (
        "void f(int x){switch(x){",
        "case @:",
        60_000,
        "x=1;}}",
        "typed",
    ),
    ("int ", "*", 190_000, "x;", "typed"),
];

// At the limits of layouts, and with many calls. Tasks come before cells, and cells before abstract cells.
static LAID: [Chain; 12] = [
    (
        "char a[65536];",
        "",
        0,
        "",
        "paths 0 objects 1 cells 65536 abstract 1",
    ),
    (
        "char a[65536];char b;",
        "",
        0,
        "",
        "refused Limit cells 65536\n",
    ),
    (
        "char a[65536];int b[64][64];int c;",
        "",
        0,
        "",
        "refused Limit cells 65536\n",
    ),
    (
        "",
        "__task(1) void t@(void){}",
        32,
        "",
        "paths 32 objects 0 cells 0 abstract 0",
    ),
    (
        "",
        "__task(1) void t@(void){}",
        33,
        "",
        "refused Limit tasks 32\n",
    ),
    (
        "",
        "__mutex m@;",
        16,
        "",
        "paths 0 objects 0 cells 0 abstract 0",
    ),
    ("", "__mutex m@;", 17, "", "refused Limit mutexes 16\n"),
    (
        "",
        "int a@[64];",
        64,
        "",
        "paths 0 objects 64 cells 4096 abstract 4096",
    ),
    (
        "",
        "int a@[64];",
        64,
        "int z;",
        "refused Limit abstract 4096\n",
    ),
    (
        "void f(void){}__task(1) void t(void){",
        "f();",
        4_095,
        "}",
        "paths 4096 objects 0 cells 0 abstract 0",
    ),
    (
        "void f(void){}__task(1) void t(void){",
        "f();",
        4_096,
        "}",
        "refused Limit paths 4096\n",
    ),
    (
        "void f0(void){}",
        "void f@(void){f#();f#();}",
        90,
        "__task(1) void t(void){f90();}",
        "refused Limit paths 4096\n",
    ),
];

fn push_link(alloc: Global, source: &mut String, link: &str, before: u32) -> Result<(), Fail> {
    for sign in link.chars() {
        match sign {
            '#' => push_number(alloc, source, before as i128)?,
            '@' => push_number(alloc, source, before as i128 + 1)?,
            _ => source.push(sign)?,
        }
    }
    Ok(())
}

fn push_chain(alloc: Global, source: &mut String, chain: &Chain) -> Result<(), Fail> {
    source.push_str(chain.0)?;
    let is_numbered = chain.1.as_bytes().contains(&b'@');
    for before in 0..chain.2 {
        if is_numbered {
            push_link(alloc, source, chain.1, before)?;
        } else {
            source.push_str(chain.1)?;
        }
    }
    source.push_str(chain.3)?;
    Ok(())
}

fn chain_is_so(rt: &impl Abort, alloc: Global, way: Way, chain: &Chain) -> Result<(), Fail> {
    let mut source = String::new(alloc);
    push_chain(alloc, &mut source, chain)?;
    answers(rt, alloc, way, chain.1, source.as_bytes(), chain.4)
}

fn chains_are_so(rt: &impl Abort, alloc: Global, way: Way, chains: &[Chain]) -> Result<(), Fail> {
    for chain in chains {
        chain_is_so(rt, alloc, way, chain)?;
    }
    Ok(())
}

#[test]
fn parsed(rt: HostRuntime) -> Result<(), Fail> {
    chains_are_so(&rt, rt.alloc(), Way::Taken, &PARSED)
}

#[test]
fn lines(rt: HostRuntime) -> Result<(), Fail> {
    chains_are_so(&rt, rt.alloc(), Way::Taken, &LINES)
}

#[test]
fn typed(rt: HostRuntime) -> Result<(), Fail> {
    chains_are_so(&rt, rt.alloc(), Way::Typed, &TYPED)
}

#[test]
fn laid(rt: HostRuntime) -> Result<(), Fail> {
    chains_are_so(&rt, rt.alloc(), Way::Laid, &LAID)
}
