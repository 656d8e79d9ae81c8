//! Where the results of a log stand.

ghost use Rattle.std.specs.Prelude.{◌≡◌, ◌++◌, map, IfOk, OnOk, string_bytes};
ghost use Rattle.std.specs.List.{list_any};
ghost use Rattle.serde_json.specs.View.{view};
ghost use Rattle.log_baselines.specs.Standings.{count_of, counts_line, is_problem, is_same, stands, word_of};
ghost use Rattle.log_baselines.specs.Standings.{standing_line, standing_lines, standing_of, standings_text};

use crate::logs::is_absent;
use crate::suppressions::suppressions_of;
use crate::values::has_text;
use serde_json::Value;
use std::alloc::{AllocError, Global};

/// Where a result stands.
#[derive(Clone, Copy)]
pub enum Standing {
    /// The old log has none that matches it, or there is no old log.
    New,
    /// The old log has one that matches it.
    Unchanged,
    /// The old log has it, and the new one none that matches it.
    Absent,
    /// It was found, and is suppressed.
    Suppressed,
}

/// Where a result stands.
fn standing_of(found: &Value) -> Standing
    ensures { result ≡ standing_of (view found.now) }
{
    if is_absent(found) {
        Standing::Absent
    } else if !suppressions_of(found).is_empty() {
        Standing::Suppressed
    } else if has_text(found, "baselineState", "unchanged") {
        Standing::Unchanged
    } else {
        Standing::New
    }
}

/// Whether a standing is this one.
fn is_same(wanted: Standing, standing: Standing) -> bool
    ensures { result ≡ is_same wanted standing }
{
    match (wanted, standing) {
        (Standing::New, Standing::New) => true,
        (Standing::Unchanged, Standing::Unchanged) => true,
        (Standing::Absent, Standing::Absent) => true,
        (Standing::Suppressed, Standing::Suppressed) => true,
        _ => false,
    }
}

/// Whether a result is to be mended, and no mere note, nor one that a human is to look at, which has no level.
fn is_problem(found: &Value) -> bool
    ensures { result ≡ is_problem (view found.now) }
{
    !has_text(found, "level", "note") && !has_text(found, "level", "none")
}

/// Whether a result that is to be mended stands so.
fn stands(standing: Standing, found: &Value) -> bool
    ensures { result ≡ stands standing (view found.now) }
{
    is_same(standing, standing_of(found)) && is_problem(found)
}

/// How many results that are to be mended stand so.
fn count_of(standing: Standing, results: &[Value]) -> usize
    ensures { result ≡ count_of standing (map view results.now) }
{
    let mut count: usize = 0;
    for found in results {
        if stands(standing, found) {
            count += 1;
        }
    }
    count
}

/// Whether a result that is to be mended is new and not suppressed.
pub fn is_worse(results: &[Value]) -> bool
    ensures { result ≡ list_any (stands Standing.New) (map view results.now) }
{
    for found in results {
        if stands(Standing::New, found) {
            return true;
        }
    }
    false
}

/// The word of a standing.
fn word_of(standing: Standing) -> &'static str
    ensures { result.now ≡ word_of standing }
{
    match standing {
        Standing::New => "new",
        Standing::Unchanged => "unchanged",
        Standing::Absent => "absent",
        Standing::Suppressed => "suppressed",
    }
}

/// Adds the line of a result.
fn push_line(text: &mut Vec<u8>, found: &Value) -> Result<(), AllocError>
    ensures { OnOk result (text.new.items ≡ text.old.items ++ standing_line (view found.now)) }
{
    text.extend_from_slice(word_of(standing_of(found)).as_bytes())?;
    text.push(b'\n')?;
    Ok(())
}

/// A line for each result.
fn lines(alloc: Global, results: &[Value]) -> Result<Vec<u8>, AllocError>
    ensures { IfOk result (λ text. text.items ≡ standing_lines (map view results.now)) }
{
    let mut text = Vec::new(alloc);
    for found in results {
        push_line(&mut text, found)?;
    }
    Ok(text)
}

/// The line of four numbers.
fn counts_line(
    alloc: Global,
    new: usize,
    unchanged: usize,
    absent: usize,
    suppressed: usize,
) -> Result<String, AllocError>
    ensures { IfOk result (λ line. string_bytes line ≡ counts_line new unchanged absent suppressed) }
{
    format!(in alloc; "new {new} unchanged {unchanged} absent {absent} suppressed {suppressed}\n")
}

/// A line for each result, and then how many of those that are to be mended stand how.
pub fn standings_text(alloc: Global, results: &[Value]) -> Result<Vec<u8>, AllocError>
    ensures { IfOk result (λ text. text.items ≡ standings_text (map view results.now)) }
{
    let mut text = lines(alloc, results)?;
    let new = count_of(Standing::New, results);
    let unchanged = count_of(Standing::Unchanged, results);
    let absent = count_of(Standing::Absent, results);
    let suppressed = count_of(Standing::Suppressed, results);
    let line = counts_line(alloc, new, unchanged, absent, suppressed)?;
    text.extend_from_slice(line.as_bytes())?;
    Ok(text)
}
