//! The alarms that a JSON value has, whatever else it has.

ghost use Rattle.std.specs.Prelude.{◌≡◌, map, IfOk};
ghost use Rattle.serde_json.specs.View.{view};
ghost use Rattle.report_reading.specs.reading.Found.{alarm_in, alarms_in, alarms_of, class_in, class_of};
ghost use Rattle.report_reading.specs.reading.Found.{items_in, number_in};
ghost use Rattle.report_reading.specs.reading.Seen.{items_seen, alarms_seen};

use serde_json::Value;
use std::alloc::{AllocError, Global};
use tm_cint::Class;
use tm_terms::{Alarm, Place};

/// The class of this word.
pub fn class_of(word: &str) -> Option<Class>
    ensures { result ≡ class_of word.now }
{
    match word {
        "OVERFLOW" => Some(Class::Overflow),
        "DIV" => Some(Class::Div),
        "SHIFT" => Some(Class::Shift),
        "INDEX" => Some(Class::Index),
        "POINTER" => Some(Class::Pointer),
        "DEREF" => Some(Class::Deref),
        "LOCK" => Some(Class::Lock),
        "RACE" => Some(Class::Race),
        _ => None,
    }
}

/// The number of 32 bits that an object has under a key.
fn number_in(value: &Value, key: &str) -> Option<u32>
    ensures { result ≡ number_in key.now (view value.now) }
{
    let number = value.get(key)?.as_u64()?;
    if number <= u64::from(u32::MAX) {
        Some(number as u32)
    } else {
        None
    }
}

/// The class that an object has.
fn class_in(value: &Value) -> Option<Class>
    ensures { result ≡ class_in (view value.now) }
{
    let word = value.get("class")?.as_str()?;
    class_of(word)
}

/// The alarm that an object has.
fn alarm_in(value: &Value) -> Option<Alarm>
    ensures { result ≡ alarm_in (view value.now) }
{
    let class = class_in(value)?;
    let col = number_in(value, "col")?;
    let line = number_in(value, "line")?;
    Some(Alarm {
        place: Place { line, col },
        class,
    })
}

/// The items that an object has under `alarms`.
fn items_in(value: &Value) -> Option<&Vec<Value>>
    ensures { items_seen result ≡ items_in (view value.now) }
{
    value.get("alarms")?.as_array()
}

/// The alarms of items, if each has one.
fn alarms_of(alloc: Global, items: &[Value]) -> Result<Option<Vec<Alarm>>, AllocError>
    ensures { IfOk result (λ found. alarms_seen found ≡ alarms_of (map view items.now)) }
{
    let mut alarms = Vec::with_capacity(alloc, items.len())?;
    for item in items {
        match alarm_in(item) {
            Some(alarm) => alarms.push(alarm)?,
            None => return Ok(None),
        }
    }
    Ok(Some(alarms))
}

/// The alarms that a value has, if each of its items has one.
pub fn alarms_in(alloc: Global, value: &Value) -> Result<Option<Vec<Alarm>>, AllocError>
    ensures { IfOk result (λ found. alarms_seen found ≡ alarms_in (view value.now)) }
{
    match items_in(value) {
        Some(items) => alarms_of(alloc, items),
        None => Ok(None),
    }
}
