//! Sources and answers at size. Want of memory is the one answer without a cause, so no clause refuses a body that
//! gives up on what is large: only a call that has to come to its answer does. Each text is told by how its source is
//! made.

use crate::alone::{expect_alone, owned};
use crate::commands::expect_words;
use crate::forms::{push_form, push_number};
use crate::gates::lines_with;
use analyser::analyse;
use std::alloc::Global;
use std::test::Fail;
use tm_io::{OpenGate, SureSink, SureSource};

/// How many lines with an alarm there are.
const DIVISIONS: usize = 150;

/// How many pairs of locks each of two tasks has.
const PAIRS: usize = 60;

/// How many objects there are that no run stores to.
const OBJECTS: usize = 120;

/// The number up to which two tasks count.
const TOP: usize = 100;

/// So many blanks.
fn push_blanks(text: &mut String, count: usize) -> Result<(), Fail> {
    for _blank in 0..count {
        text.push_str(" ")?;
    }
    Ok(())
}

/// A line for each division, by what may be 0, each a column further than the one before: the first is line 3, and has
/// its division at column 4.
fn divisions(alloc: Global) -> Result<String, Fail> {
    let mut text = String::from_str(alloc, "int r;\n__task(1) void t(void){\n")?;
    for at in 0..DIVISIONS {
        push_blanks(&mut text, at)?;
        text.push_str("r=1/__input(0,9);\n")?;
    }
    text.push_str("}")?;
    Ok(text)
}

/// The report of these: `LINE:COL DIV` for each.
fn divisions_report(alloc: Global) -> Result<String, Fail> {
    let mut text = String::new(alloc);
    for at in 0..DIVISIONS {
        let line = at.saturating_add(3);
        let col = at.saturating_add(4);
        push_form(alloc, &mut text, "#:# DIV\n", &[line, col])?;
    }
    push_form(alloc, &mut text, "alarms #\n", &[DIVISIONS])?;
    Ok(text)
}

/// The same as JSON.
fn divisions_json(alloc: Global) -> Result<String, Fail> {
    let mut text = String::from_str(alloc, "{\"alarms\":[")?;
    for at in 0..DIVISIONS {
        if at > 0 {
            text.push_str(",")?;
        }
        let line = at.saturating_add(3);
        let col = at.saturating_add(4);
        push_form(
            alloc,
            &mut text,
            "{\"class\":\"DIV\",\"col\":#,\"line\":#}",
            &[col, line],
        )?;
    }
    push_form(alloc, &mut text, "],\"count\":#}\n", &[DIVISIONS])?;
    Ok(text)
}

#[test]
fn many_alarms(rt: HostRuntime) -> Result<(), Fail> {
    let alloc = rt.alloc();
    let source = divisions(alloc)?;
    assert!(rt; source.len() > 10_000);
    let bytes = source.as_bytes();
    let report = divisions_report(alloc)?;
    expect_alone(&rt, alloc, &["analyse"], bytes, 1, report.as_bytes())?;
    let json = divisions_json(alloc)?;
    expect_alone(
        &rt,
        alloc,
        &["analyse", "--json"],
        bytes,
        1,
        json.as_bytes(),
    )?;
    Ok(())
}

/// Two tasks that take two mutexes in opposite orders on each of their lines.
fn crossings(alloc: Global) -> Result<String, Fail> {
    let mut text = String::from_str(alloc, "__mutex m;__mutex n;\n__task(1) void a(void){\n")?;
    for at in 0..PAIRS {
        push_blanks(&mut text, at)?;
        text.push_str("__lock(m);__lock(n);__unlock(n);__unlock(m);\n")?;
    }
    text.push_str("}\n__task(1) void b(void){\n")?;
    for at in 0..PAIRS {
        push_blanks(&mut text, at)?;
        text.push_str("__lock(n);__lock(m);__unlock(m);__unlock(n);\n")?;
    }
    text.push_str("}")?;
    Ok(text)
}

/// The second lock of each line: the lines of the first task begin at 3, those of the other one two lines behind them.
fn crossings_waits(alloc: Global) -> Result<String, Fail> {
    let mut text = String::new(alloc);
    for first in [3, PAIRS.saturating_add(5)] {
        for at in 0..PAIRS {
            let line = at.saturating_add(first);
            let col = at.saturating_add(11);
            push_form(alloc, &mut text, "#:# WAIT\n", &[line, col])?;
        }
    }
    let places = PAIRS.saturating_mul(2);
    push_form(alloc, &mut text, "waits #\n", &[places])?;
    Ok(text)
}

/// Objects that a task would store to behind tests that never hold.
fn unreached_stores(alloc: Global) -> Result<String, Fail> {
    let mut text = String::from_str(alloc, "int x;\n")?;
    for at in 0..OBJECTS {
        let number = at.saturating_add(100);
        push_form(alloc, &mut text, "int o#;\n", &[number])?;
    }
    text.push_str("__task(1) void t(void){\nx=__input(0,9);\n")?;
    for at in 0..OBJECTS {
        let number = at.saturating_add(100);
        push_blanks(&mut text, at)?;
        push_form(alloc, &mut text, "if(x>20)o#=1;\n", &[number])?;
    }
    text.push_str("}")?;
    Ok(text)
}

/// The objects stand on the lines from 2 on, the stores on those behind them and two more.
fn unreached_ranges(alloc: Global) -> Result<String, Fail> {
    let mut text = String::from_str(alloc, "1:5 x 0 9\n")?;
    for at in 0..OBJECTS {
        let line = at.saturating_add(2);
        let number = at.saturating_add(100);
        push_form(alloc, &mut text, "#:5 o# 0 0\n", &[line, number])?;
    }
    for at in 0..OBJECTS {
        let line = at.saturating_add(OBJECTS.saturating_add(4));
        let col = at.saturating_add(13);
        push_form(alloc, &mut text, "#:# DEAD\n", &[line, col])?;
    }
    push_form(alloc, &mut text, "dead #\n", &[OBJECTS])?;
    Ok(text)
}

#[test]
fn many_findings(rt: HostRuntime) -> Result<(), Fail> {
    let alloc = rt.alloc();
    let crossed = crossings(alloc)?;
    let waits = crossings_waits(alloc)?;
    expect_alone(
        &rt,
        alloc,
        &["waits"],
        crossed.as_bytes(),
        1,
        waits.as_bytes(),
    )?;
    let unreached = unreached_stores(alloc)?;
    let ranges = unreached_ranges(alloc)?;
    expect_alone(
        &rt,
        alloc,
        &["ranges"],
        unreached.as_bytes(),
        0,
        ranges.as_bytes(),
    )?;
    Ok(())
}

/// Two tasks that count: each stores one more than what the other one has stored, as far as the top.
const COUNTING: &[u8] = b"int x;int y;\n\
__task(1) void a(void){int v;v=y;if(v<100)x=v+1;}\n\
__task(1) void b(void){int v;v=x;if(v<100)y=v+1;}";

const COUNTING_REPORT: &str = "2:32 RACE\n2:44 RACE\n3:32 RACE\n3:44 RACE\nalarms 4\n";

/// The words of an analysis by so many workers that tells their history, with each number up to the top as a threshold:
/// so no pass raises a bound by more than one.
fn counting_words(alloc: Global, workers: &str) -> Result<Vec<String>, Fail> {
    let mut words = owned(alloc, &["analyse", "--history", "--workers", workers])?;
    push_thresholds(alloc, &mut words)?;
    Ok(words)
}

/// Each number up to the top, as a word.
fn push_thresholds(alloc: Global, words: &mut Vec<String>) -> Result<(), Fail> {
    for number in 0..TOP {
        let mut word = String::new(alloc);
        push_number(alloc, &mut word, number.saturating_add(1))?;
        words.push(word)?;
    }
    Ok(())
}

/// The events of one worker: the tasks take turns, each pass adds one number, up to the top for both; then each task
/// adds nothing more.
fn counting_history(alloc: Global) -> Result<String, Fail> {
    let mut text = String::new(alloc);
    let last = TOP.saturating_add(1);
    for version in 0..last {
        let task = version % 2;
        let next = version.saturating_add(1);
        push_form(
            alloc,
            &mut text,
            "read 0 # #\npublish 0 # # #\n",
            &[task, version, task, version, next],
        )?;
    }
    for task in [1, 0] {
        push_form(
            alloc,
            &mut text,
            "read 0 # #\npublish 0 # # #\n",
            &[task, last, task, last, last],
        )?;
    }
    Ok(text)
}

#[test]
fn a_long_history(rt: HostRuntime) -> Result<(), Fail> {
    let alloc = rt.alloc();
    let mut text = counting_history(alloc)?;
    text.push_str(COUNTING_REPORT)?;
    let words = counting_words(alloc, "1")?;
    expect_words(&rt, alloc, &words, COUNTING, 1, text.as_bytes())
}

#[test]
fn a_long_history_of_several_workers(rt: HostRuntime) -> Result<(), Fail> {
    let alloc = rt.alloc();
    let words = counting_words(alloc, "4")?;
    let mut source = SureSource::new(COUNTING.to_vec(alloc)?);
    let mut out = SureSink::new(alloc);
    let status = analyse(&rt, alloc, &words, &mut source, &mut out, &OpenGate);
    let text = out.taken();
    // In whatever order they come, each number takes a pass of its own.
    let readings = lines_with(text, b"read ");
    assert!(rt; readings >= TOP as u64);
    assert!(rt; lines_with(text, b"publish ") == readings);
    assert!(rt; text.ends_with(COUNTING_REPORT.as_bytes()));
    assert!(rt; status.number() == 1);
    Ok(())
}
