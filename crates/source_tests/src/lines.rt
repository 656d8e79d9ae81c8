//! The lines of reports and refusals.

use crate::texts::assert_text;
use std::alloc::Global;
use std::process::Abort;
use std::test::Fail;
use tm_cint::Class;
use tm_terms::{Alarm, Kind, Limit, Place, Refusal, Report, plain, refusal_line, usage_line};

// A refusal and its line.
static REFUSALS: [(Kind, Option<Limit>, &str); 5] = [
    (
        Kind::Limit,
        Some(Limit::Source),
        "refused Limit source 1048576\n",
    ),
    (
        Kind::Limit,
        Some(Limit::Abstract),
        "refused Limit abstract 4096\n",
    ),
    (
        Kind::Limit,
        Some(Limit::Work),
        "refused Limit work 8000000\n",
    ),
    (Kind::Lexical, None, "12:7 refused Lexical\n"),
    (Kind::NotLvalue, None, "12:7 refused NotLvalue\n"),
];

fn is_refused(
    rt: &impl Abort,
    alloc: Global,
    kind: Kind,
    limit: Option<Limit>,
    line: &str,
) -> Result<(), Fail> {
    let place = Place { line: 12, col: 7 };
    let given = refusal_line(alloc, &Refusal { kind, place, limit })?;
    assert_text(rt, line, &given, line);
    Ok(())
}

fn is_reported(
    rt: &impl Abort,
    alloc: Global,
    alarms: Vec<Alarm>,
    lines: &str,
) -> Result<(), Fail> {
    let given = plain(alloc, &Report { alarms })?;
    assert_text(rt, lines, &given, lines);
    Ok(())
}

#[test]
fn lines(rt: HostRuntime) -> Result<(), Fail> {
    let alloc = rt.alloc();
    for (kind, limit, line) in REFUSALS.iter() {
        is_refused(&rt, alloc, *kind, *limit, *line)?;
    }
    let race = Alarm {
        place: Place { line: 1, col: 30 },
        class: Class::Race,
    };
    let div = Alarm {
        place: Place { line: 2, col: 27 },
        class: Class::Div,
    };
    is_reported(&rt, alloc, Vec::new(alloc), "alarms 0\n")?;
    let two = vec![in alloc; race, div]?;
    is_reported(&rt, alloc, two, "1:30 RACE\n2:27 DIV\nalarms 2\n")?;
    assert_text(
        &rt,
        "usage",
        usage_line(),
        "usage: COMMAND [OPTIONS] < source\n",
    );
    Ok(())
}
