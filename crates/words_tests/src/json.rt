//! Reports as JSON.

use report_json::report_json;
use std::alloc::Global;
use std::process::Abort;
use std::test::Fail;
use tm_cint::Class;
use tm_terms::{Alarm, Place};

fn alarm(line: u32, col: u32, class: Class) -> Alarm {
    Alarm {
        place: Place { line, col },
        class,
    }
}

fn is_written(rt: &impl Abort, alloc: Global, alarms: &[Alarm], line: &str) -> Result<(), Fail> {
    let given = report_json(alloc, alarms)?;
    assert_eq!(rt; given.as_str(), line);
    Ok(())
}

#[test]
fn reports(rt: HostRuntime) -> Result<(), Fail> {
    let alloc = rt.alloc();
    is_written(&rt, alloc, &[], "{\"alarms\":[],\"count\":0}\n")?;
    let div = alarm(2, 27, Class::Div);
    let one = "{\"alarms\":[{\"class\":\"DIV\",\"col\":27,\"line\":2}],\"count\":1}\n";
    is_written(&rt, alloc, &[div], one)?;
    let race = alarm(1048576, 1, Class::Race);
    let two = "{\"alarms\":[{\"class\":\"DIV\",\"col\":27,\"line\":2},\
        {\"class\":\"RACE\",\"col\":1,\"line\":1048576}],\"count\":2}\n";
    is_written(&rt, alloc, &[div, race], two)?;
    Ok(())
}
