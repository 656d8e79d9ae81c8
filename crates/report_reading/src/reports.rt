//! A text as a report.

ghost use Rattle.std.specs.Prelude.{◌≡◌, ◌≤◌, ◌↔◌, Some, None, IfOk, IsErrOf, IsTrue, IsUtf8, MatchOption};
ghost use Rattle.serde_json.specs.Data.{Data, depth};
ghost use Rattle.serde_json.specs.Read.{max_depth, read};
ghost use Rattle.serde_json.specs.View.{view};
ghost use Rattle.report_json.specs.JsonReports.{report_data};
ghost use Rattle.report_reading.specs.Reports.{IsNoReport};

use crate::alarms::alarms_in;
use report_json::report_json;
use serde_json::Value;
use std::alloc::{AllocError, Global};
use tm_terms::{Alarm, Report};

/// Why a text is no report.
#[derive(Clone, Copy, PartialEq, Eq)]
pub enum ReadFail {
    /// It is no JSON.
    NotJson,
    /// It is JSON, and not the value of a report.
    NotReport,
    /// Memory ran out.
    NoMemory,
}

/// Whether a value is that of the report with these alarms.
fn is_report(alloc: Global, value: &Value, alarms: &[Alarm]) -> Result<bool, AllocError>
    requires { depth (view value.now) ≤ max_depth }
    ensures { IfOk result (λ same. IsTrue same ↔ (view value.now ≡ report_data alarms.now)) }
{
    let mut written = value.to_string(alloc)?;
    written.push('\n')?;
    match report_json(alloc, alarms) {
        Ok(line) => Ok(written.as_str() == line.as_str()),
        Err(_) => Err(AllocError),
    }
}

/// The report whose value this is, if it is one.
fn report_of(alloc: Global, value: &Value) -> Result<Option<Report>, AllocError>
    requires { depth (view value.now) ≤ max_depth }
    ensures { IfOk result (λ found. MatchOption found (IsNoReport (view value.now))
        (λ report. view value.now ≡ report_data report.alarms.items)) }
{
    let found = alarms_in(alloc, value)?;
    match found {
        Some(alarms) => {
            let same = is_report(alloc, value, &alarms)?;
            if same {
                Ok(Some(Report { alarms }))
            } else {
                Ok(None)
            }
        }
        None => Ok(None),
    }
}

/// The report that a text is.
pub fn read_report(alloc: Global, text: &[u8]) -> Result<Report, ReadFail>
    // The text is JSON, in UTF-8, and its value is that of this report.
    ensures ok { IfOk result (λ report. IsUtf8 text.now × (read text.now ≡ Some (report_data report.alarms.items))) }

    // No text of JSON has these bytes.
    ensures not_json { IsErrOf result ReadFail.NotJson → IsUtf8 text.now → read text.now ≡ None }

    // The text has a value, which is that of no report.
    ensures not_report { IsErrOf result ReadFail.NotReport →
        (value : Data) × (read text.now ≡ Some value) × IsNoReport value }
{
    let value = match Value::from_slice(alloc, text) {
        Ok(value) => value,
        Err(error) => {
            return Err(if error.is_memory() {
                ReadFail::NoMemory
            } else {
                ReadFail::NotJson
            });
        }
    };
    match report_of(alloc, &value) {
        Ok(Some(report)) => Ok(report),
        Ok(None) => Err(ReadFail::NotReport),
        Err(_) => Err(ReadFail::NoMemory),
    }
}
