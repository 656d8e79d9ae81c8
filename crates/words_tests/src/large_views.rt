//! A report with 100,000 alarms, over a text with as many lines.

use report_views::{Form, view};
use std::test::Fail;

/// How many alarms.
const ALARMS: usize = 100_000;

#[test]
fn large(rt: HostRuntime) -> Result<(), Fail> {
    let alloc = rt.alloc();
    let mut report = String::from_str(alloc, "{\"alarms\":[")?;
    let mut text = String::from_str(alloc, "# 11 \"b.h\"\n")?;
    for i in 0..ALARMS {
        if 0 < i {
            report.push(',')?;
        }
        let line = i + 2;
        write!(report, "{{\"class\":\"DIV\",\"col\":1,\"line\":{line}}}")?;
        text.push_str("x\n")?;
    }
    write!(report, "],\"count\":{ALARMS}}}")?;
    let Ok(reply) = view(
        alloc,
        Form::Lines,
        b"a.c",
        report.as_bytes(),
        text.as_bytes(),
    ) else {
        return Err(Fail::from(std::alloc::AllocError));
    };
    let last = "b.h:100010:1: warning: the divisor may be zero [DIV]\nalarms 100000\n";
    assert!(rt; reply.has_alarm);
    assert!(rt; reply.text.as_slice().ends_with(last.as_bytes()));
    Ok(())
}
