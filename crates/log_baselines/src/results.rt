//! What a result becomes.

ghost use Rattle.std.specs.Prelude.{◌≡◌, ◌++◌, ◌∷◌, [], ℕ, List, map, length, slice_get, option_map, IfOk, OnOk, string_bytes};
ghost use Rattle.serde_json.specs.View.{view};
ghost use Rattle.log_baselines.specs.Results.{absents, found, partner, state_of, told, told_absent, told_by};
ghost use Rattle.log_baselines.specs.Results.{with_list, with_member};
ghost use Rattle.log_baselines.specs.reading.Seen.{AreOlds, IsIndex, text_seen, value_seen};

use crate::suppressions::{all_suppressions, found_suppressions};
use serde_json::{Value, put};
use std::alloc::{AllocError, Global};
use std::collections::HashMap;

/// An object with another value under a key.
fn with_member(alloc: Global, object: Value, key: &str, value: Value) -> Result<Value, AllocError>
    ensures { IfOk result (λ changed. view changed ≡ with_member key.now (view value) (view object)) }
{
    match object {
        Value::Object(mut members) => {
            put(&mut members, alloc, key, value)?;
            Ok(Value::Object(members))
        }
        other => Ok(other),
    }
}

/// An object with other values under a key.
pub fn with_list(
    alloc: Global,
    object: Value,
    key: &str,
    values: Vec<Value>,
) -> Result<Value, AllocError>
    ensures { IfOk result (λ changed. view changed ≡ with_list key.now (map view values.items) (view object)) }
{
    with_member(alloc, object, key, Value::Array(values))
}

/// A result with its state, where there is one, and its suppressions.
fn told(
    alloc: Global,
    found: &Value,
    state: Option<&str>,
    suppressions: Vec<Value>,
) -> Result<Value, AllocError>
    ensures { IfOk result (λ value. view value
        ≡ told (option_map text_seen state.entry) (map view suppressions.items) (view found.now)) }
{
    let suppressed = with_list(alloc, found.clone()?, "suppressions", suppressions)?;
    match state {
        Some(state) => {
            let word = Value::try_from_str(alloc, state)?;
            with_member(alloc, suppressed, "baselineState", word)
        }
        None => Ok(suppressed),
    }
}

/// The state of a result by its partner in the old log, where there is an old log.
fn state_of(compared: bool, partner: Option<&Value>) -> Option<&'static str>
    ensures { option_map text_seen result ≡ state_of compared (option_map value_seen partner.entry) }
{
    if !compared {
        return None;
    }
    match partner {
        Some(_) => Some("unchanged"),
        None => Some("new"),
    }
}

/// A result, by a remark on it and its partner.
fn told_by(
    alloc: Global,
    compared: bool,
    partner: Option<&Value>,
    remark: &Value,
    found: &Value,
) -> Result<Value, AllocError>
    ensures { IfOk result (λ value. view value
        ≡ told_by compared (option_map value_seen partner.entry) (view remark.now) (view found.now)) }
{
    let suppressions = found_suppressions(alloc, partner, remark)?;
    let state = state_of(compared, partner);
    told(alloc, found, state, suppressions)
}

/// Old results with their keys, and where each key stands first.
#[derive(Clone, Copy)]
pub struct Olds<'v, 'k, 'i> {
    pub results: &'i [&'v Value],
    pub keys: &'k [String],
    pub index: &'i HashMap<&'k str, usize>,
}

/// The result at a place.
fn at_place<'v>(results: &[&'v Value], at: usize) -> Option<&'v Value>
    ensures { result ≡ slice_get results.now at }
{
    results.get(at).copied()
}

/// The old result with this key.
fn partner<'v>(olds: Olds<'v, '_, '_>, key: &str) -> Option<&'v Value>
    requires { AreOlds olds.keys.now olds.results.now olds.index.now }
    ensures { option_map value_seen result
        ≡ partner key.now (map string_bytes olds.entry.keys.now) (map value_seen olds.entry.results.now) }
{
    match olds.index.get(key) {
        Some(at) => at_place(olds.results, *at),
        None => None,
    }
}

/// The results that were found, each by its key and the remark on it.
pub fn found(
    alloc: Global,
    compared: bool,
    olds: Olds<'_, '_, '_>,
    keys: &[String],
    remarks: &[Value],
    results: &[&Value],
) -> Result<Vec<Value>, AllocError>
    requires old { AreOlds olds.keys.now olds.results.now olds.index.now }
    requires keys { length keys.now ≡ length results.now }
    requires remarks { length remarks.now ≡ length results.now }
    ensures { IfOk result (λ values. map view values.items
        ≡ found compared (map string_bytes olds.entry.keys.now) (map value_seen olds.entry.results.now)
        (map string_bytes keys.now) (map view remarks.now) (map value_seen results.now)) }
{
    let mut values = Vec::with_capacity(alloc, results.len())?;
    for i in 0..results.len() {
        let partner = partner(olds, keys[i].as_str());
        let value = told_by(alloc, compared, partner, &remarks[i], results[i])?;
        values.push(value)?;
    }
    Ok(values)
}

/// An old result that was found no more.
fn told_absent(alloc: Global, old: &Value) -> Result<Value, AllocError>
    ensures { IfOk result (λ value. view value ≡ told_absent (view old.now)) }
{
    let suppressions = all_suppressions(alloc, old)?;
    told(alloc, old, Some("absent"), suppressions)
}

/// Adds an old result, unless its key is one of those in the index.
fn push_absent(
    alloc: Global,
    values: &mut Vec<Value>,
    index: &HashMap<&str, usize>,
    key: &str,
    old: &Value,
) -> Result<(), AllocError>
    ensures { OnOk result ((keys : List (List ℕ)) → IsIndex index.now keys → map view values.new.items
        ≡ map view values.old.items ++ absents keys (key.now ∷ []) (view old.now ∷ [])) }
{
    if index.contains_key(key) {
        return Ok(());
    }
    let value = told_absent(alloc, old)?;
    values.push(value)?;
    Ok(())
}

/// Adds the old results that were found no more: those whose keys are none of those in the index.
pub fn push_absents(
    alloc: Global,
    values: &mut Vec<Value>,
    keys: &[String],
    index: &HashMap<&str, usize>,
    old_keys: &[String],
    olds: &[&Value],
) -> Result<(), AllocError>
    requires indexed { IsIndex index.now (map string_bytes keys.now) }
    requires many { length old_keys.now ≡ length olds.now }
    ensures { OnOk result (map view values.new.items ≡ map view values.old.items
        ++ absents (map string_bytes keys.now) (map string_bytes old_keys.now) (map value_seen olds.now)) }
{
    for i in 0..olds.len() {
        push_absent(alloc, values, index, old_keys[i].as_str(), olds[i])?;
    }
    Ok(())
}
