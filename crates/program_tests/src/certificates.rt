//! What `certify` and `check` answer: tables over one driver. Each text is worked by hand from the source and the
//! grammar of certificates. `benches/forged.py` has many more certificates in which something is changed.

use crate::alone::{expect_alone, number_alone, owned};
use crate::forms::joined;
use std::alloc::Global;
use std::process::Abort;
use std::test::Fail;
use tm_io::{MemorySink, MemorySource};

/// Divides by what is 0 at the start.
const DIVISION: &str = "int x;\n__task(1) void t(void){x=1/x;}";

/// Its certificate: nothing comes to the division's result, and at node 4 the temporary 3 is a copy of `x`.
const DIVISION_CERTIFICATE: &str = "tmcert 1\nsource 37\nint x;\n__task(1) void t(void){x=1/x;}\n\
task 0\n\
node 0\nc 0 i 0 0 0\n\
node 1\nt 0 p 0 0 0 0 0 0\nc 0 i 0 0 0\n\
node 2\nt 0 p 0 0 0 0 0 0\nt 1 i 1 1 0\nc 0 i 0 0 0\n\
node 3\nt 0 p 0 0 0 0 0 0\nt 1 i 1 1 0\nt 2 p 0 0 0 0 0 0\nc 0 i 0 0 0\n\
node 4\nt 0 p 0 0 0 0 0 0\nt 1 i 1 1 0\nt 3 i 0 0 0\nc 0 i 0 0 0\nk 3 0\n\
store\nend\n";

const DIVISION_CHECKED: &str = "2:27 DIV\nalarms 1\ncertified\n";

/// Stores once.
const STORED: &str = "int x;\n__task(1) void t(void){x=1;}";

/// Its certificate: behind the store the cell is fresh, and others may see 1 there.
const STORED_CERTIFICATE: &str = "tmcert 1\nsource 35\nint x;\n__task(1) void t(void){x=1;}\n\
task 0\n\
node 0\nc 0 i 0 0 0\n\
node 1\nt 0 p 0 0 0 0 0 0\nc 0 i 0 0 0\n\
node 2\nt 0 p 0 0 0 0 0 0\nt 1 i 1 1 0\nc 0 i 0 0 0\n\
node 3\nc 0 i 1 1 0\nf 0\n\
store\nw 0 0 0 i 1 1 0\nend\n";

/// The certificate of no source.
const EMPTY_CERTIFICATE: &str = "tmcert 1\nsource 0\n\nstore\nend\n";

const CHECKED: &str = "alarms 0\ncertified\n";

const NONE: &str = "refused certificate\n";

const USAGE: &str = "usage: COMMAND [OPTIONS] < source\n";

/// The words, the input, the number with which the program ends on them, and the text that it writes.
static CERTIFICATES: [(&[&str], &str, u8, &str); 16] = [
    // What is written.
    (&["certify"], "", 0, EMPTY_CERTIFICATE),
    (&["certify"], DIVISION, 0, DIVISION_CERTIFICATE),
    (&["certify"], STORED, 0, STORED_CERTIFICATE),
    (&["certify"], "int x", 2, "1:5 refused Syntax\n"),
    (&["certify"], "int x;/* x", 2, "1:7 refused Lexical\n"),
    (
        &["certify"],
        "char a[65536],b;",
        2,
        "refused Limit cells 65536\n",
    ),
    (&["certify", "--"], DIVISION, 3, USAGE),
    (&["certify", "--json"], DIVISION, 3, USAGE),
    (&["certify", "--workers", "2"], DIVISION, 3, USAGE),
    // What it certifies.
    (&["check"], EMPTY_CERTIFICATE, 0, CHECKED),
    (&["check"], DIVISION_CERTIFICATE, 1, DIVISION_CHECKED),
    (&["check"], STORED_CERTIFICATE, 0, CHECKED),
    (&["check", "check"], DIVISION_CERTIFICATE, 3, USAGE),
    // No state at the entry of a task.
    (
        &["check"],
        "tmcert 1\nsource 24\n__task(1) void t(void){}\ntask 0\nstore\nend\n",
        1,
        "uncovered 0 0\n",
    ),
    // No head; and a source that is refused, before what is told of its program is read.
    (&["check"], "tmcert 2\n", 2, NONE),
    (
        &["check"],
        "tmcert 1\nsource 5\nint x\nstore\nend\n",
        2,
        "1:5 refused Syntax\n",
    ),
];

/// A certificate, what stands in it for the first time, what stands there in its place, the number with which `check`
/// ends on that, and the text that it writes.
static CHANGES: [(&str, &str, &str, u8, &str); 13] = [
    // A number in another spelling, a node that comes twice, a byte behind the end, and an offset beyond its object.
    (DIVISION_CERTIFICATE, "c 0 i 0", "c 0 i 00", 2, NONE),
    (DIVISION_CERTIFICATE, "node 4", "node 3", 2, NONE),
    (DIVISION_CERTIFICATE, "end\n", "end\nx", 2, NONE),
    (
        DIVISION_CERTIFICATE,
        "p 0 0 0 0 0 0",
        "p 0 0 0 2 2 0",
        2,
        NONE,
    ),
    // What tells less than the least solution is a solution too.
    (DIVISION_CERTIFICATE, "k 3 0\n", "", 1, DIVISION_CHECKED),
    // The fourth edge loads the 1 that comes to node 3; and what a task stores is kept from the others.
    (
        DIVISION_CERTIFICATE,
        "t 2 p 0 0 0 0 0 0\nc 0 i 0 0 0\n",
        "t 2 p 0 0 0 0 0 0\nc 0 i 0 1 1\n",
        1,
        "uncovered 0 4\n",
    ),
    (
        STORED_CERTIFICATE,
        "w 0 0 0 i 1 1 0\n",
        "",
        1,
        "uncovered store\n",
    ),
    // Of the states of the task one is missing, or two that follow each other.
    (
        STORED_CERTIFICATE,
        "node 0\nc 0 i 0 0 0\n",
        "",
        1,
        "uncovered 0 0\n",
    ),
    (
        STORED_CERTIFICATE,
        "node 1\nt 0 p 0 0 0 0 0 0\nc 0 i 0 0 0\n",
        "",
        1,
        "uncovered 0 1\n",
    ),
    (
        STORED_CERTIFICATE,
        "node 2\nt 0 p 0 0 0 0 0 0\nt 1 i 1 1 0\nc 0 i 0 0 0\n",
        "",
        1,
        "uncovered 0 2\n",
    ),
    (
        STORED_CERTIFICATE,
        "node 3\nc 0 i 1 1 0\nf 0\n",
        "",
        1,
        "uncovered 0 3\n",
    ),
    (
        STORED_CERTIFICATE,
        "node 1\nt 0 p 0 0 0 0 0 0\nc 0 i 0 0 0\n\
node 2\nt 0 p 0 0 0 0 0 0\nt 1 i 1 1 0\nc 0 i 0 0 0\n",
        "",
        1,
        "uncovered 0 1\n",
    ),
    (
        STORED_CERTIFICATE,
        "node 2\nt 0 p 0 0 0 0 0 0\nt 1 i 1 1 0\nc 0 i 0 0 0\n\
node 3\nc 0 i 1 1 0\nf 0\n",
        "",
        1,
        "uncovered 0 2\n",
    ),
];

/// Sources that are certified, the number with which the program ends on each, and its report.
static CERTIFIED: [(&str, u8, &str); 4] = [
    // A loop, and an initial section that does not end.
    (
        "int i;__task(1) void t(void){while(i<10)i=i+1;}",
        0,
        "alarms 0\n",
    ),
    (
        "int x;int main(void){while(1);return 0;}__task(1) void t(void){x=1;}",
        0,
        "alarms 0\n",
    ),
    (
        "__mutex m;int x=1;int r;\n\
__task(2) void hi(void){if(!__islocked(m))r=10/x;}\n\
__task(1) void lo(void){__lock(m);x=0;x=1;__unlock(m);}",
        0,
        "alarms 0\n",
    ),
    (
        "__mutex m;int buf[10];int n;\n\
__task(1) void a(void){if(n<10){buf[n]=1;n=n+1;}}\n\
__task(1) void b(void){if(n<10){buf[n]=1;n=n+1;}}",
        1,
        "2:27 RACE\n2:36 INDEX\n2:37 RACE\n2:39 RACE\n2:43 RACE\n2:44 RACE\n2:45 OVERFLOW\n\
3:27 RACE\n3:36 INDEX\n3:37 RACE\n3:39 RACE\n3:43 RACE\n3:44 RACE\n3:45 OVERFLOW\nalarms 14\n",
    ),
];

#[test]
fn certificates(rt: HostRuntime) -> Result<(), Fail> {
    let alloc = rt.alloc();
    for (words, input, number, text) in &CERTIFICATES {
        expect_alone(
            &rt,
            alloc,
            words,
            input.as_bytes(),
            *number,
            text.as_bytes(),
        )?;
    }
    for (certificate, old, new, number, text) in &CHANGES {
        let changed = certificate.replacen(alloc, *old, new, 1)?;
        expect_alone(
            &rt,
            alloc,
            &["check"],
            changed.as_bytes(),
            *number,
            text.as_bytes(),
        )?;
    }
    Ok(())
}

/// What `certify` writes of a source.
pub fn certificate_of(rt: &impl Abort, alloc: Global, source: &str) -> Result<MemorySink, Fail> {
    let words = owned(alloc, &["certify"])?;
    certified_by(rt, alloc, &words, source)
}

fn certified_by(
    rt: &impl Abort,
    alloc: Global,
    words: &[String],
    source: &str,
) -> Result<MemorySink, Fail> {
    let mut out = MemorySink::new(alloc, 512, Vec::new(alloc));
    write_certificate(rt, alloc, words, source, &mut out)?;
    Ok(out)
}

fn write_certificate(
    rt: &impl Abort,
    alloc: Global,
    words: &[String],
    source: &str,
    out: &mut MemorySink,
) -> Result<(), Fail> {
    let mut input = MemorySource::new(source.as_bytes().to_vec(alloc)?, 512, Vec::new(alloc));
    let number = number_alone(rt, alloc, words, &mut input, out)?;
    assert!(rt; number == 0);
    Ok(())
}

/// What `certify` writes of a source, `check` certifies with the report.
fn expect_certified(
    rt: &impl Abort,
    alloc: Global,
    source: &str,
    number: u8,
    report: &str,
) -> Result<(), Fail> {
    let certificate = certificate_of(rt, alloc, source)?;
    let text = joined(alloc, &[report, "certified\n"])?;
    expect_alone(
        rt,
        alloc,
        &["check"],
        certificate.taken(),
        number,
        text.as_bytes(),
    )
}

#[test]
fn written_certificates(rt: HostRuntime) -> Result<(), Fail> {
    let alloc = rt.alloc();
    for (source, number, report) in &CERTIFIED {
        expect_certified(&rt, alloc, source, *number, report)?;
    }
    Ok(())
}
