//! What suppresses a result.

ghost use Rattle.std.specs.Prelude.{◌≡◌, ◌++◌, Some, map, option_map, IfOk, OnOk};
ghost use Rattle.std.specs.List.{list_all};
ghost use Rattle.serde_json.specs.View.{view};
ghost use Rattle.log_baselines.specs.Suppressions.{by_comment, comment_data, has_reason, in_source, is_kept, is_reasoned};
ghost use Rattle.log_baselines.specs.Suppressions.{kept_from, kept_of, suppressions_of};
ghost use Rattle.log_baselines.specs.reading.Seen.{value_seen};

use crate::values::{has_text, list_at, text_at};
use serde_json::{Value, json};
use std::alloc::{AllocError, Global};

/// The suppressions of a result.
pub fn suppressions_of(found: &Value) -> &[Value]
    ensures { map view result.now ≡ suppressions_of (view found.now) }
{
    match list_at(found, "suppressions") {
        Some(suppressions) => suppressions,
        None => &[],
    }
}

/// Whether a suppression stands in a log alone, and is accepted.
fn is_kept(suppression: &Value) -> bool
    ensures { result ≡ is_kept (view suppression.now) }
{
    if !has_text(suppression, "kind", "external") {
        return false;
    }
    match text_at(suppression, "status") {
        Some(status) => status == "accepted",
        None => true,
    }
}

/// Adds the suppressions of a result that are kept.
fn push_kept(suppressions: &mut Vec<Value>, found: &Value) -> Result<(), AllocError>
    ensures { OnOk result (map view suppressions.new.items
        ≡ map view suppressions.old.items ++ kept_of (view found.now)) }
{
    let all = suppressions_of(found);
    for suppression in all {
        if is_kept(suppression) {
            suppressions.push(suppression.clone()?)?;
        }
    }
    Ok(())
}

/// Whether a suppression says why.
fn has_reason(suppression: &Value) -> bool
    ensures { result ≡ has_reason (view suppression.now) }
{
    match text_at(suppression, "justification") {
        Some(reason) => !reason.is_empty(),
        None => false,
    }
}

/// Whether the suppressions of a result that are kept all say why.
fn is_reasoned(found: &Value) -> bool
    ensures { result ≡ is_reasoned (view found.now) }
{
    let all = suppressions_of(found);
    for suppression in all {
        if is_kept(suppression) && !has_reason(suppression) {
            return false;
        }
    }
    true
}

/// Whether all that is kept of the suppressions of results says why.
pub fn are_reasoned(results: &[&Value]) -> bool
    ensures { result ≡ list_all is_reasoned (map value_seen results.now) }
{
    for found in results {
        if !is_reasoned(*found) {
            return false;
        }
    }
    true
}

/// A suppression by a comment of the source.
fn comment_value(alloc: Global, reason: &str) -> Result<Value, AllocError>
    ensures { IfOk result (λ value. view value ≡ comment_data reason.now) }
{
    json!(in alloc; {"justification": reason, "kind": "inSource"})
}

/// What a comment suppresses by a reason, where this is not empty.
fn by_reason(alloc: Global, reason: &str) -> Result<Vec<Value>, AllocError>
    ensures { IfOk result (λ values. map view values.items ≡ by_comment (Some reason.now)) }
{
    let mut values = Vec::new(alloc);
    if !reason.is_empty() {
        values.push(comment_value(alloc, reason)?)?;
    }
    Ok(values)
}

/// The suppressions in the source, by a remark.
fn in_source(alloc: Global, remark: &Value) -> Result<Vec<Value>, AllocError>
    ensures { IfOk result (λ values. map view values.items ≡ in_source (view remark.now)) }
{
    match remark.as_str() {
        Some(reason) => by_reason(alloc, reason),
        None => Ok(Vec::new(alloc)),
    }
}

/// The suppressions of a result that was found: in the source, and those that its partner in the old log keeps.
pub fn found_suppressions(
    alloc: Global,
    partner: Option<&Value>,
    remark: &Value,
) -> Result<Vec<Value>, AllocError>
    ensures { IfOk result (λ values. map view values.items
        ≡ in_source (view remark.now) ++ kept_from (option_map value_seen partner.entry)) }
{
    let mut suppressions = in_source(alloc, remark)?;
    match partner {
        Some(old) => {
            push_kept(&mut suppressions, old)?;
            Ok(suppressions)
        }
        None => Ok(suppressions),
    }
}

/// All suppressions of a result.
pub fn all_suppressions(alloc: Global, found: &Value) -> Result<Vec<Value>, AllocError>
    ensures { IfOk result (λ values. map view values.items ≡ suppressions_of (view found.now)) }
{
    let mut values = Vec::new(alloc);
    let all = suppressions_of(found);
    for suppression in all {
        values.push(suppression.clone()?)?;
    }
    Ok(values)
}
