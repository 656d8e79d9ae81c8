//! Words, sources and their answers: a table over one driver.

use crate::alone::{assert_answer, expect_words_alone, owned};
use analyser::{analyse, asks_workers};
use std::alloc::Global;
use std::process::Abort;
use std::sync::Wait;
use std::test::Fail;
use std::thread::Threads;
use tm_io::{OpenGate, SureSink, SureSource};

/// Divides by what is 0 at the start.
const DIVISION: &[u8] = b"int x;\n__task(1) void t(void){x=1/x;}";

/// Two tasks that fill a buffer under a mutex, and the same without it.
const GUARDED: &[u8] = b"__mutex m;int buf[10];int n;\n\
__task(1) void a(void){__lock(m);if(n<10){buf[n]=1;n=n+1;}__unlock(m);}\n\
__task(1) void b(void){__lock(m);if(n<10){buf[n]=1;n=n+1;}__unlock(m);}";

const UNGUARDED: &[u8] = b"int buf[10];int n;\n\
__task(1) void a(void){if(n<10){buf[n]=1;n=n+1;}}\n\
__task(1) void b(void){if(n<10){buf[n]=1;n=n+1;}}";

const FOURTEEN: &[u8] =
    b"2:27 RACE\n2:36 INDEX\n2:37 RACE\n2:39 RACE\n2:43 RACE\n2:44 RACE\n2:45 OVERFLOW\n\
3:27 RACE\n3:36 INDEX\n3:37 RACE\n3:39 RACE\n3:43 RACE\n3:44 RACE\n3:45 OVERFLOW\nalarms 14\n";

/// Overflows where 17 is no threshold.
const SCALED: &[u8] = b"int x;int r;\n__task(1) void w(void){x=__input(0,12)+5;}\n\
__task(1) void q(void){r=x*19000000;}";

/// Choices behind sources: a stop, races, and a run to its end.
const STOPPED: &[u8] = b"int x;\n__task(1) void t(void){x=1/x;}\n#replay\nwake 0\nrun 0 0\nrun 0 0";

const RACING: &[u8] = b"int x;int r;\n__task(2) void hi(void){x=5;r=10/x;}\n\
__task(1) void lo(void){x=0;}\n#replay\nwake 1\nrun 1 0\nwake 0\nrun 0 0\nrun 0 0\nrun 0 0";

const WHOLE: &[u8] = b"int x;int r;\nint main(void){x=5;return 0;}\n\
__task(1) void t(void){r=10/x;}\n#replay\nrun 1 0\nwake 0\nrun 0 0\nrun 0 0\n";

const USAGE: &[u8] = b"usage: COMMAND [OPTIONS] < source\n";

/// The words, a source, the number with which the program ends on them, and the text that it writes.
static COMMANDS: [(&[&str], &[u8], u8, &[u8]); 33] = [
    // How many workers there are does not show.
    (&["analyse", "--workers", "1"], GUARDED, 0, b"alarms 0\n"),
    (&["analyse", "--workers", "4"], GUARDED, 0, b"alarms 0\n"),
    (&["analyse", "--workers=16"], GUARDED, 0, b"alarms 0\n"),
    (&["analyse", "--workers=1"], UNGUARDED, 1, FOURTEEN),
    (&["analyse", "--workers=4"], UNGUARDED, 1, FOURTEEN),
    (&["analyse", "--workers", "16"], UNGUARDED, 1, FOURTEEN),
    (&["analyse", "--workers", "8"], b"", 0, b"alarms 0\n"),
    // The history of one worker, and none where there is no task.
    (
        &["analyse", "--history"],
        DIVISION,
        1,
        b"read 0 0 0\npublish 0 0 0 0\n2:27 DIV\nalarms 1\n",
    ),
    (
        &["analyse", "--json", "--history"],
        DIVISION,
        1,
        b"read 0 0 0\npublish 0 0 0 0\n{\"alarms\":[{\"class\":\"DIV\",\"col\":27,\"line\":2}],\"count\":1}\n",
    ),
    (
        &["analyse", "--history"],
        b"int x;__task(1) void t(void){x=1;}",
        0,
        b"read 0 0 0\npublish 0 0 0 1\nread 0 0 1\npublish 0 0 1 1\nalarms 0\n",
    ),
    (&["analyse", "--history"], b"int x;", 0, b"alarms 0\n"),
    (
        &["analyse", "--history"],
        b"int x",
        2,
        b"1:5 refused Syntax\n",
    ),
    // JSON.
    (
        &["analyse", "--json"],
        DIVISION,
        1,
        b"{\"alarms\":[{\"class\":\"DIV\",\"col\":27,\"line\":2}],\"count\":1}\n",
    ),
    (
        &["analyse", "--json"],
        b"",
        0,
        b"{\"alarms\":[],\"count\":0}\n",
    ),
    (&["analyse", "--json"], b"int x", 2, b"1:5 refused Syntax\n"),
    // Thresholds.
    (
        &["analyse"],
        SCALED,
        1,
        b"2:25 RACE\n3:26 RACE\n3:27 OVERFLOW\nalarms 3\n",
    ),
    (
        &["analyse", "17"],
        SCALED,
        1,
        b"2:25 RACE\n3:26 RACE\nalarms 2\n",
    ),
    (
        &["analyse", "--", "17"],
        SCALED,
        1,
        b"2:25 RACE\n3:26 RACE\nalarms 2\n",
    ),
    // Runs by choices.
    (&["replay"], STOPPED, 1, b"stopped 3 2:27 DIV\n"),
    (&["replay"], RACING, 1, b"2:26 RACE\n3:26 RACE\nran 6\n"),
    (&["replay"], WHOLE, 0, b"ran 4\n"),
    (
        &["replay"],
        b"int x;\n__task(1) void t(void){x=1/x;}\n#replay\nrun 0 0",
        1,
        b"notallowed 1\n",
    ),
    (&["replay"], b"int x;", 2, b"refused replay\n"),
    (&["replay"], b"int x\n#replay\n", 2, b"1:5 refused Syntax\n"),
    // Words that are no command.
    (&["replay", "0"], STOPPED, 3, USAGE),
    (&[], DIVISION, 3, USAGE),
    (&["analyse", "--workers", "17"], DIVISION, 3, USAGE),
    (&["analyse", "--json", "--json"], DIVISION, 3, USAGE),
    (&["analyse", "-5"], DIVISION, 3, USAGE),
    (&["generate", "0"], DIVISION, 3, USAGE),
    // Large sources.
    (&["demo", "1"], b"", 1, b"source 496 bytes\nalarms 4\n"),
    (
        &["demo", "--workers", "4", "1"],
        b"",
        1,
        b"source 496 bytes\nalarms 4\n",
    ),
    (&["demo", "2"], b"", 1, b"source 547 bytes\nalarms 4\n"),
];

/// Words, and whether they ask for workers.
static ASKING: [(&[&str], bool); 10] = [
    (&[], false),
    (&["analyse"], false),
    (&["analyse", "--workers", "1", "--json"], false),
    (&["analyse", "--workers", "17"], false),
    (&["analyse", "--workers=2"], true),
    (&["analyse", "--history"], true),
    (&["replay"], false),
    (&["generate", "2"], false),
    (&["demo", "1"], false),
    (&["demo", "--workers", "2", "1"], true),
];

/// The words have this answer to the source by workers, where they ask for some.
pub fn expect_words<R: Abort + Threads + Wait + Sync>(
    rt: &R,
    alloc: Global,
    words: &[String],
    bytes: &[u8],
    number: u8,
    text: &[u8],
) -> Result<(), Fail> {
    let mut source = SureSource::new(bytes.to_vec(alloc)?);
    let mut out = SureSink::new(alloc);
    let status = analyse(rt, alloc, words, &mut source, &mut out, &OpenGate);
    assert_answer(rt, out.taken(), text, status.number(), number);
    Ok(())
}

// The words have this answer, also on the calling thread alone where they ask for no workers.
fn expect_both<R: Abort + Threads + Wait + Sync>(
    rt: &R,
    alloc: Global,
    words: &[String],
    bytes: &[u8],
    number: u8,
    text: &[u8],
) -> Result<(), Fail> {
    expect_words(rt, alloc, words, bytes, number, text)?;
    if asks_workers(alloc, words)? {
        Ok(())
    } else {
        expect_words_alone(rt, alloc, words, bytes, number, text)
    }
}

/// The same of words that are given as texts.
pub fn expect<R: Abort + Threads + Wait + Sync>(
    rt: &R,
    alloc: Global,
    given: &[&str],
    bytes: &[u8],
    number: u8,
    text: &[u8],
) -> Result<(), Fail> {
    let words = owned(alloc, given)?;
    expect_both(rt, alloc, &words, bytes, number, text)
}

fn do_ask(alloc: Global, given: &[&str]) -> Result<bool, Fail> {
    let words = owned(alloc, given)?;
    Ok(asks_workers(alloc, &words)?)
}

#[test]
fn asking(rt: HostRuntime) -> Result<(), Fail> {
    let alloc = rt.alloc();
    for (given, asks) in &ASKING {
        let asked = do_ask(alloc, given)?;
        assert!(rt; asked == *asks);
    }
    Ok(())
}

#[test]
fn commands(rt: HostRuntime) -> Result<(), Fail> {
    let alloc = rt.alloc();
    for (words, source, number, text) in &COMMANDS {
        expect(&rt, alloc, words, source, *number, text)?;
    }
    Ok(())
}
