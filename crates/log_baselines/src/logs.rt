//! The results of a log.

ghost use Rattle.std.specs.Prelude.{◌≡◌, map, not, filter, option_map, IfOk};
ghost use Rattle.serde_json.specs.View.{view};
ghost use Rattle.log_baselines.specs.Logs.{is_absent, is_own, print_of, prints_of, results_of, run_of};
ghost use Rattle.log_baselines.specs.reading.Seen.{text_seen, value_seen};

use crate::values::{has_text, list_at, text_at};
use serde_json::Value;
use std::alloc::{AllocError, Global};

/// The run of a log, which has one.
pub fn run_of(log: &Value) -> Option<&Value>
    ensures { option_map value_seen result ≡ run_of (view log.now) }
{
    match list_at(log, "runs")? {
        [run] => Some(run),
        _ => None,
    }
}

/// Whether a run is one of this tool.
pub fn is_own(run: &Value) -> bool
    ensures { result ≡ is_own (view run.now) }
{
    let Some(tool) = run.get("tool") else {
        return false;
    };
    match tool.get("driver") {
        Some(driver) => has_text(driver, "name", "Cedratcleat"),
        None => false,
    }
}

/// Whether a baseline had a result that was found no more.
pub fn is_absent(found: &Value) -> bool
    ensures { result ≡ is_absent (view found.now) }
{
    has_text(found, "baselineState", "absent")
}

/// Those of the results that were found.
fn present<'v>(alloc: Global, results: &'v [Value]) -> Result<Vec<&'v Value>, AllocError>
    ensures { IfOk result (λ found. map value_seen found.items
        ≡ filter (λ value. not (is_absent value)) (map view results.now)) }
{
    let mut found = Vec::new(alloc);
    for value in results {
        if !is_absent(value) {
            found.push(value)?;
        }
    }
    Ok(found)
}

/// The results that a run has found, if it has results.
pub fn results_of(alloc: Global, run: &Value) -> Result<Option<Vec<&Value>>, AllocError>
    ensures { IfOk result (λ found. option_map (λ results. map value_seen results.items) found
        ≡ results_of (view run.now)) }
{
    match list_at(run, "results") {
        Some(results) => Ok(Some(present(alloc, results)?)),
        None => Ok(None),
    }
}

/// The fingerprint of a result.
fn print_of(found: &Value) -> Option<&str>
    ensures { option_map text_seen result ≡ print_of (view found.now) }
{
    text_at(found.get("partialFingerprints")?, "cedratcleat/v1")
}

/// The fingerprints of results, if each has one.
pub fn prints_of<'v>(
    alloc: Global,
    results: &[&'v Value],
) -> Result<Option<Vec<&'v str>>, AllocError>
    ensures { IfOk result (λ found. option_map (λ prints. map text_seen prints.items) found
        ≡ prints_of (map value_seen results.now)) }
{
    let mut prints = Vec::with_capacity(alloc, results.len())?;
    for value in results {
        match print_of(*value) {
            Some(print) => prints.push(print)?,
            None => return Ok(None),
        }
    }
    Ok(Some(prints))
}
