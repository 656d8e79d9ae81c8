//! The report as a JSON value, and its text.

ghost use Rattle.std.specs.Prelude.{◌≡◌, IfOk, Some, map, string_bytes};
ghost use Rattle.serde_json.specs.Read.{read};
ghost use Rattle.serde_json.specs.View.{view};
ghost use Rattle.report_json.specs.JsonReports.{alarm_data, json_text, report_data, report_object};

use serde_json::{Value, json};
use std::alloc::{AllocError, Global};
use tm_lattice::NoMemory;
use tm_terms::{Alarm, class_word};

/// An alarm as a JSON object.
fn alarm_value(alloc: Global, alarm: Alarm) -> Result<Value, AllocError>
    ensures { IfOk result (λ value. view value ≡ alarm_data alarm) }
{
    let class = class_word(alarm.class);
    let col = alarm.place.col;
    let line = alarm.place.line;
    json!(in alloc; {"class": class, "col": col, "line": line})
}

/// The alarms as JSON objects, in their order.
fn alarm_values(alloc: Global, alarms: &[Alarm]) -> Result<Vec<Value>, AllocError>
    ensures { IfOk result (λ values. map view values.items ≡ map alarm_data alarms.now) }
{
    let mut values = Vec::with_capacity(alloc, alarms.len())?;
    for alarm in alarms {
        let value = alarm_value(alloc, *alarm)?;
        values.push(value)?;
    }
    Ok(values)
}

/// A report as a JSON object.
fn report_value(alloc: Global, alarms: &[Alarm]) -> Result<Value, AllocError>
    ensures { IfOk result (λ value. view value ≡ report_data alarms.now) }
{
    let values = alarm_values(alloc, alarms)?;
    let count = alarms.len();
    json!(in alloc; {"alarms": Value::Array(values), "count": count})
}

/// The text of a report as a JSON object.
fn report_line(alloc: Global, alarms: &[Alarm]) -> Result<String, AllocError>
    ensures text { IfOk result (λ text. string_bytes text ≡ json_text alarms.now) }
    ensures read { IfOk result (λ text. read (report_object alarms.now) ≡ Some (report_data alarms.now)) }
{
    let value = report_value(alloc, alarms)?;
    let mut text = value.to_string(alloc)?;
    text.push('\n')?;
    Ok(text)
}

/// The report as JSON, in one line without spaces, the members of each object in the order of their names.
pub fn report_json(alloc: Global, alarms: &[Alarm]) -> Result<String, NoMemory>
    // The text, byte for byte.
    ensures text { IfOk result (λ text. string_bytes text ≡ json_text alarms.now) }

    // A reader of JSON takes the line for the value of these alarms.
    ensures read { IfOk result (λ text. read (report_object alarms.now) ≡ Some (report_data alarms.now)) }
{
    match report_line(alloc, alarms) {
        Ok(text) => Ok(text),
        Err(_) => Err(NoMemory),
    }
}
