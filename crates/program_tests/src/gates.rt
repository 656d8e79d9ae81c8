//! Workers beside each other, as a gate sees them.

use crate::alone::{assert_answer, owned};
use crate::forms::push_form;
use analyser::analyse;
use held_passes::HoldsTheFirst;
use std::alloc::Global;
use std::sync::Wait;
use std::test::Fail;
use std::thread::Threads;
use tm_io::{SureSink, SureSource};

/// Two tasks that fill a buffer under a mutex.
const GUARDED: &[u8] = b"__mutex m;int buf[10];int n;\n\
__task(1) void a(void){__lock(m);if(n<10){buf[n]=1;n=n+1;}__unlock(m);}\n\
__task(1) void b(void){__lock(m);if(n<10){buf[n]=1;n=n+1;}__unlock(m);}";

/// How many lines of a text begin with these bytes.
pub fn lines_with(text: &[u8], front: &[u8]) -> u64 {
    let mut count: u64 = 0;
    for line in text.split(|byte| *byte == b'\n') {
        if line.starts_with(front) {
            count = count.saturating_add(1);
        }
    }
    count
}

/// Whether as many passes began as the text has lines with the front of their reading.
fn is_counted(gate: &HoldsTheFirst, worker: u32, task: u32, text: &[u8], front: &[u8]) -> bool {
    gate.passes(worker, task) == Some(lines_with(text, front))
}

#[test]
fn two_passes_begin_before_the_first_ends(rt: HostRuntime) -> Result<(), Fail> {
    let alloc = rt.alloc();
    let words = owned(alloc, &["analyse", "--workers", "2", "--history"])?;
    let mut source = SureSource::new(GUARDED.to_vec(alloc)?);
    let mut out = SureSink::new(alloc);
    let gate = HoldsTheFirst::after(0);
    let status = analyse(&rt, alloc, &words, &mut source, &mut out, &gate);
    assert!(rt; status.number() == 0);
    assert!(rt; gate.begun_before_an_end() > 1);
    let text = out.taken();
    assert!(rt;
        is_counted(&gate, 0, 0, text, b"read 0 0 ") & is_counted(&gate, 0, 1, text, b"read 0 1 ")
    );
    assert!(rt;
        is_counted(&gate, 1, 0, text, b"read 1 0 ") & is_counted(&gate, 1, 1, text, b"read 1 1 ")
    );
    assert!(rt; gate.begun() == lines_with(text, b"read "));
    // Both workers stand in the history.
    assert!(rt; lines_with(text, b"read 0 ") > 0);
    assert!(rt; lines_with(text, b"read 1 ") > 0);
    assert!(rt; lines_with(text, b"publish ") == lines_with(text, b"read "));
    assert!(rt; lines_with(text, b"alarms 0") == 1);
    Ok(())
}

/// Words that ask for two workers, and not for their history.
static BESIDE: [&[&str]; 3] = [
    &["analyse", "--workers", "2"],
    &["analyse", "--json", "--workers=2"],
    &["demo", "--workers", "2", "1"],
];

/// The number of the status of these words, and how many passes began before the first ended.
fn begun_beside<R: Threads + Wait + Sync>(
    rt: &R,
    alloc: Global,
    given: &[&str],
) -> Result<(u8, u64), Fail> {
    let words = owned(alloc, given)?;
    let mut source = SureSource::new(GUARDED.to_vec(alloc)?);
    let mut out = SureSink::new(alloc);
    let gate = HoldsTheFirst::after(0);
    let status = analyse(rt, alloc, &words, &mut source, &mut out, &gate);
    Ok((status.number(), gate.begun_before_an_end()))
}

#[test]
fn two_workers_work_where_no_history_is_asked_for(rt: HostRuntime) -> Result<(), Fail> {
    for given in &BESIDE {
        let (number, begun) = begun_beside(&rt, rt.alloc(), given)?;
        assert!(rt; number < 2);
        assert!(rt; begun > 1);
    }
    Ok(())
}

/// Sixteen tasks, each of which stores to one object: a line each, from the second on.
fn sixteen_tasks(alloc: Global) -> Result<String, Fail> {
    let mut text = String::from_str(alloc, "int x;\n")?;
    for number in 10..26 {
        push_form(
            alloc,
            &mut text,
            "__task(1) void t#(void){x=1;}\n",
            &[number],
        )?;
    }
    Ok(text)
}

/// Each of these stores races.
fn sixteen_races(alloc: Global) -> Result<String, Fail> {
    let mut text = String::new(alloc);
    for line in 2..18 {
        push_form(alloc, &mut text, "#:27 RACE\n", &[line])?;
    }
    text.push_str("alarms 16\n")?;
    Ok(text)
}

#[test]
fn sixteen_passes_begin_before_the_first_ends(rt: HostRuntime) -> Result<(), Fail> {
    let alloc = rt.alloc();
    let races = sixteen_races(alloc)?;
    let text = sixteen_tasks(alloc)?;
    let words = owned(alloc, &["analyse", "--workers", "16"])?;
    let mut source = SureSource::new(text.as_bytes().to_vec(alloc)?);
    let mut out = SureSink::new(alloc);
    let gate = HoldsTheFirst::until(16);
    let status = analyse(&rt, alloc, &words, &mut source, &mut out, &gate);
    assert!(rt; gate.begun_before_an_end() > 15);
    assert_answer(&rt, out.taken(), races.as_bytes(), status.number(), 1);
    Ok(())
}
