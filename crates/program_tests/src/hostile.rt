//! Devices that fail at each of their calls, give and take one byte a call, and a source that is cut off at each byte.

use crate::alone::{assert_answer, owned};
use crate::forms::push_form;
use analyser::analyse;
use std::alloc::Global;
use std::process::Abort;
use std::sync::Wait;
use std::test::Fail;
use std::thread::Threads;
use tm_io::{MemorySink, MemorySource, OpenGate};

/// Divides by what is 0 at the start: 37 bytes.
const DIVISION: &[u8] = b"int x;\n__task(1) void t(void){x=1/x;}";

/// The source that `generate 1` writes: 496 bytes.
const GENERATED: &[u8] = b"__mutex m;\nint n;\nint b[16];\n\
int f0(int v){if(v>0)return v-0;return 0;}\n\
__task(1) void t0(void){int z;z=0;while(1){__lock(m);z=f0(z);if(n<16){b[n]=z;n=n+1;}__unlock(m);__yield();}}\n\
__task(1) void t1(void){int z;z=1;while(1){__lock(m);if(n<16){b[n]=z;n=n+1;}__unlock(m);__yield();}}\n\
__task(1) void t2(void){int z;z=2;while(1){__lock(m);if(n<16){b[n]=z;n=n+1;}__unlock(m);__yield();}}\n\
__task(1) void t3(void){int z;z=3;while(1){__lock(m);if(n<16){b[n]=z;n=n+1;}__unlock(m);if(n==3)z=0;__yield();}}\n";

/// A controller of three tasks under two mutexes.
const CONTROLLER: &[u8] = b"# 1 \"ctl.c\"\n\
typedef unsigned char uint8_t;\n\
typedef unsigned short uint16_t;\n\
typedef int int32_t;\n\
__mutex io; __mutex cfg;\n\
static uint16_t raw; static int32_t gain = 4, out, log_buf[16];\n\
static uint8_t log_n;\n\
static void push(int32_t v) {\n\
  if (log_n < 16) { log_buf[log_n] = v; log_n++; }\n\
}\n\
__task(3) void sample(void) {\n\
  while (1) { __lock(io); raw = (uint16_t)__input(0, 4095); __unlock(io); __yield(); }\n\
}\n\
__task(2) void control(void) {\n\
  uint16_t r; int32_t g;\n\
  while (1) {\n\
    __lock(io); r = raw; __unlock(io);\n\
    __lock(cfg); g = gain; __unlock(cfg);\n\
    out = r / g;\n\
    __lock(io); push(out); __unlock(io); __yield();\n\
  }\n\
}\n\
__task(1) void tune(void) {\n\
  while (1) { __lock(cfg); gain = __input(1, 8); __unlock(cfg); __yield(); }\n\
}";

/// Words, whether they read the source, the number with which the program ends, and its text.
static ANSWERS: [(&[&str], bool, u8, &[u8]); 7] = [
    (&["analyse"], true, 1, b"2:27 DIV\nalarms 1\n"),
    (
        &["analyse", "--workers", "2"],
        true,
        1,
        b"2:27 DIV\nalarms 1\n",
    ),
    (
        &["analyse", "--history"],
        true,
        1,
        b"read 0 0 0\npublish 0 0 0 0\n2:27 DIV\nalarms 1\n",
    ),
    (
        &["analyse", "--json"],
        true,
        1,
        b"{\"alarms\":[{\"class\":\"DIV\",\"col\":27,\"line\":2}],\"count\":1}\n",
    ),
    (&["generate", "1"], false, 0, GENERATED),
    (&["demo", "1"], false, 1, b"source 496 bytes\nalarms 4\n"),
    (
        &["analyse", "analyse"],
        false,
        3,
        b"usage: COMMAND [OPTIONS] < source\n",
    ),
];

/// The number with which the program ends on the words and the source, and what its sink has taken. Both devices give
/// or take one byte a call, and fail at the call with the given number, at none where it is 0.
fn answer<R: Threads + Wait + Sync>(
    rt: &R,
    alloc: Global,
    given: &[&str],
    source: &[u8],
    source_fails: u64,
    sink_fails: u64,
) -> Result<(u8, Vec<u8>), Fail> {
    let words = owned(alloc, given)?;
    let fails = vec![in alloc; source_fails]?;
    answer_to_words(rt, alloc, &words, source, fails, sink_fails)
}

fn answer_to_words<R: Threads + Wait + Sync>(
    rt: &R,
    alloc: Global,
    words: &[String],
    source: &[u8],
    source_fails: Vec<u64>,
    sink_fails: u64,
) -> Result<(u8, Vec<u8>), Fail> {
    let mut source = MemorySource::new(source.to_vec(alloc)?, 1, source_fails);
    answer_to(rt, alloc, words, &mut source, sink_fails)
}

fn answer_to<R: Threads + Wait + Sync>(
    rt: &R,
    alloc: Global,
    words: &[String],
    source: &mut MemorySource,
    sink_fails: u64,
) -> Result<(u8, Vec<u8>), Fail> {
    let mut out = MemorySink::new(alloc, 1, vec![in alloc; sink_fails]?);
    let status = analyse(rt, alloc, words, source, &mut out, &OpenGate);
    Ok((status.number(), out.taken().to_vec(alloc)?))
}

#[test]
fn each_read_fails(rt: HostRuntime) -> Result<(), Fail> {
    let alloc = rt.alloc();
    for (words, reads, number, text) in &ANSWERS {
        if *reads {
            // A fault of the source is told before one of the sink.
            let (got, taken) = answer(&rt, alloc, words, DIVISION, 3, 1)?;
            assert_answer(&rt, &taken, b"", got, 4);
        }
        // The last call that finds the end is the 38th.
        for call in 1..40 {
            let (got, taken) = answer(&rt, alloc, words, DIVISION, call, 0)?;
            if *reads && call < 39 {
                assert_answer(&rt, &taken, b"", got, 4);
            } else {
                assert_answer(&rt, &taken, text, got, *number);
            }
        }
    }
    Ok(())
}

#[test]
fn each_write_fails(rt: HostRuntime) -> Result<(), Fail> {
    let alloc = rt.alloc();
    for (words, _reads, number, text) in &ANSWERS {
        for (before, _byte) in text.iter().enumerate() {
            let (got, taken) = answer(&rt, alloc, words, DIVISION, 0, before as u64 + 1)?;
            assert_answer(&rt, &taken, &text[..before], got, 5);
        }
        let (got, taken) = answer(&rt, alloc, words, DIVISION, 0, 1000)?;
        assert_answer(&rt, &taken, text, got, *number);
    }
    Ok(())
}

/// How many lines the text has.
fn lines_of(text: &[u8]) -> usize {
    text.iter().filter(|byte| **byte == b'\n').count()
}

/// Whether the text is the line of a refusal.
fn is_refusal(text: &[u8]) -> bool {
    let mut told = false;
    for word in text.split(|byte| *byte == b' ') {
        told = told || word == b"refused".as_slice();
    }
    told && lines_of(text) == 1 && text.ends_with(b"\n")
}

/// Whether the text is a report with this number of lines besides the last.
fn is_report(alloc: Global, text: &[u8], alarms: usize) -> Result<bool, Fail> {
    let mut last = String::new(alloc);
    push_form(alloc, &mut last, "alarms #\n", &[alarms])?;
    Ok(text.ends_with(last.as_bytes()))
}

/// The text is the line of a refusal or a whole report, as the number says.
fn is_whole<R: Abort>(rt: &R, alloc: Global, number: u8, text: &[u8]) -> Result<(), Fail> {
    let alarms = lines_of(text).saturating_sub(1);
    match number {
        0 => {
            assert!(rt; text == b"alarms 0\n".as_slice());
        }
        1 => {
            assert!(rt; alarms > 0);
            assert!(rt; is_report(alloc, text, alarms)?);
        }
        _ => {
            assert!(rt; number == 2);
            assert!(rt; is_refusal(text));
        }
    }
    Ok(())
}

#[test]
fn each_front_of_a_source(rt: HostRuntime) -> Result<(), Fail> {
    let alloc = rt.alloc();
    for (length, _byte) in CONTROLLER.iter().enumerate() {
        let (got, taken) = answer(&rt, alloc, &["analyse"], &CONTROLLER[..length], 0, 0)?;
        is_whole(&rt, alloc, got, &taken)?;
    }
    let (got, taken) = answer(&rt, alloc, &["analyse"], CONTROLLER, 0, 0)?;
    assert!(rt; got == 0);
    is_whole(&rt, alloc, got, &taken)?;
    Ok(())
}
