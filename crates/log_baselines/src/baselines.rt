//! The log that comes out of a log by an old one.

ghost use Rattle.std.specs.Prelude.{◌≡◌, ℕ, List, Some, None, false, true, length, map, option_map, IfOk, IfSome, IsErrOf, IsTrue, string_bytes};
ghost use Rattle.std.specs.List.{list_all};
ghost use Rattle.serde_json.specs.Data.{Data};
ghost use Rattle.serde_json.specs.View.{view};
ghost use Rattle.log_baselines.specs.Baselines.{IsBaseline, IsLineOf, IsOutcome, IsParts, IsWrittenBy, all_results, with_results};
ghost use Rattle.log_baselines.specs.Causes.{HasFlaw, IsCause, IsFlaw, IsValueOf, values_of};
ghost use Rattle.log_baselines.specs.declared.causes.Cause.{Cause as CauseOf};
ghost use Rattle.log_baselines.specs.declared.causes.Flaw.{Flaw as FlawOf};
ghost use Rattle.log_baselines.specs.Suppressions.{is_reasoned};
ghost use Rattle.log_baselines.specs.reading.Seen.{IsOldCause, new_fail, old_fail, text_seen, value_seen};

use crate::causes::{Cause, Flaw};
use crate::keys::{index_of, keys_of};
use crate::logs::{is_own, prints_of, results_of, run_of};
use crate::results::{Olds, found, push_absents, with_list};
use crate::standings::{is_worse, standings_text};
use crate::suppressions::are_reasoned;
use serde_json::Value;
use std::alloc::{AllocError, Global};

/// The most bytes of a log.
pub const LONGEST_LOG: usize = 67_108_864;

/// The log that comes out, where its results stand, and whether one that is to be mended is new and not suppressed.
#[derive(Drop)]
pub struct Outcome {
    pub log: Vec<u8>,
    pub standings: Vec<u8>,
    pub is_worse: bool,
}

/// Why there is no log.
#[derive(Clone, Copy)]
pub enum BaselineFail {
    /// What was read is refused.
    Refused(Cause),
    /// Memory ran out.
    NoMemory,
}

/// Why bytes are no log.
#[derive(Clone, Copy)]
enum Unread {
    /// This is wrong with them.
    Flawed(Flaw),
    /// Memory ran out.
    NoMemory,
}

/// A log: its run, the results that this has found, and their keys.
#[derive(Drop)]
struct Parts<'v> {
    run: &'v Value,
    results: Vec<&'v Value>,
    keys: Vec<String>,
}

/// The value of bytes.
fn value_of(alloc: Global, bytes: &[u8]) -> Result<Value, Unread>
    ensures ok { IfOk result (λ value. IsValueOf bytes.now (view value)) }
    ensures flawed { (flaw : FlawOf) → IsErrOf result (Unread.Flawed flaw) → IsFlaw bytes.now flaw }
    ensures none { (flaw : FlawOf) (value : Data) → IsErrOf result (Unread.Flawed flaw) → IsValueOf bytes.now value → ⊥ }
{
    if bytes.len() > LONGEST_LOG {
        return Err(Unread::Flawed(Flaw::Long));
    }
    match Value::from_slice(alloc, bytes) {
        Ok(value) => Ok(value),
        Err(error) => Err(if error.is_memory() {
            Unread::NoMemory
        } else {
            Unread::Flawed(Flaw::NotJson)
        }),
    }
}

/// The parts of a log.
fn parts_of(alloc: Global, log: &Value) -> Result<Parts<'_>, Unread>
    ensures ok { IfOk result (λ parts. IsParts (view log.now) (value_seen parts.run) (map value_seen parts.results.items)
        (map string_bytes parts.keys.items)) }
    ensures flawed { (flaw : FlawOf) → IsErrOf result (Unread.Flawed flaw) → HasFlaw (view log.now) flaw }
{
    let Some(run) = run_of(log) else {
        return Err(Unread::Flawed(Flaw::NotLog));
    };
    if !is_own(run) {
        return Err(Unread::Flawed(Flaw::OtherTool));
    }
    let results = match results_of(alloc, run) {
        Ok(Some(results)) => results,
        Ok(None) => return Err(Unread::Flawed(Flaw::NotLog)),
        Err(_) => return Err(Unread::NoMemory),
    };
    let prints = match prints_of(alloc, &results) {
        Ok(Some(prints)) => prints,
        Ok(None) => return Err(Unread::Flawed(Flaw::NoFingerprint)),
        Err(_) => return Err(Unread::NoMemory),
    };
    match keys_of(alloc, &prints) {
        Ok(keys) => Ok(Parts { run, results, keys }),
        Err(_) => Err(Unread::NoMemory),
    }
}

/// The results of the log that comes out.
fn all_results(
    alloc: Global,
    compared: bool,
    new: &Parts<'_>,
    remarks: &[Value],
    old_keys: &[String],
    olds: &[&Value],
) -> Result<Vec<Value>, AllocError>
    requires remarks { length remarks.now ≡ length new.now.results.items }
    requires keys { length new.now.keys.items ≡ length new.now.results.items }
    requires old { length old_keys.now ≡ length olds.now }
    ensures { IfOk result (λ values. map view values.items
        ≡ all_results compared (map string_bytes new.now.keys.items) (map view remarks.now)
        (map value_seen new.now.results.items) (map string_bytes old_keys.now) (map value_seen olds.now)) }
{
    let old_index = index_of(alloc, old_keys)?;
    let index = index_of(alloc, &new.keys)?;
    let others = Olds {
        results: olds,
        keys: old_keys,
        index: &old_index,
    };
    let mut values = found(alloc, compared, others, &new.keys, remarks, &new.results)?;
    push_absents(alloc, &mut values, &new.keys, &index, old_keys, olds)?;
    Ok(values)
}

/// A log with other results.
fn with_results(
    alloc: Global,
    log: &Value,
    run: &Value,
    results: Vec<Value>,
) -> Result<Value, AllocError>
    ensures { IfOk result (λ changed. view changed
        ≡ with_results (view log.now) (view run.now) (map view results.items)) }
{
    let run = with_list(alloc, run.clone()?, "results", results)?;
    let mut runs = Vec::new(alloc);
    runs.push(run)?;
    with_list(alloc, log.clone()?, "runs", runs)
}

/// A value as a line.
fn value_line(alloc: Global, value: &Value) -> Result<Vec<u8>, AllocError>
    ensures { IfOk result (λ line. IsLineOf line.items (view value.now)) }
{
    let mut line = value.to_vec(alloc)?;
    line.push(b'\n')?;
    Ok(line)
}

/// What comes out with these results.
fn outcome_of(
    alloc: Global,
    log: &Value,
    run: &Value,
    results: Vec<Value>,
) -> Result<Outcome, AllocError>
    ensures { IfOk result (λ outcome. IsWrittenBy (view log.now) (view run.now) (map view results.items)
        outcome.log.items outcome.standings.items outcome.is_worse) }
{
    let standings = standings_text(alloc, &results)?;
    let is_worse = is_worse(&results);
    let changed = with_results(alloc, log, run, results)?;
    let log = value_line(alloc, &changed)?;
    Ok(Outcome {
        log,
        standings,
        is_worse,
    })
}

/// The same, with want of memory told as one of what may come in place of a log.
fn told(
    alloc: Global,
    log: &Value,
    run: &Value,
    results: Vec<Value>,
) -> Result<Outcome, BaselineFail>
    ensures ok { IfOk result (λ outcome. IsWrittenBy (view log.now) (view run.now) (map view results.items)
        outcome.log.items outcome.standings.items outcome.is_worse) }
    ensures no_memory { (cause : CauseOf) → IsErrOf result (BaselineFail.Refused cause) → ⊥ }
{
    match outcome_of(alloc, log, run, results) {
        Ok(outcome) => Ok(outcome),
        Err(_) => Err(BaselineFail::NoMemory),
    }
}

/// What comes out of a log by old results.
fn compared(
    alloc: Global,
    is_compared: bool,
    log: &Value,
    new: &Parts<'_>,
    remarks: &[Value],
    old_keys: &[String],
    olds: &[&Value],
) -> Result<Outcome, BaselineFail>
    requires remarks { length remarks.now ≡ length new.now.results.items }
    requires keys { length new.now.keys.items ≡ length new.now.results.items }
    requires old { length old_keys.now ≡ length olds.now }
    ensures ok { IfOk result (λ outcome. IsWrittenBy (view log.now) (value_seen new.now.run)
        (all_results is_compared (map string_bytes new.now.keys.items) (map view remarks.now)
        (map value_seen new.now.results.items) (map string_bytes old_keys.now) (map value_seen olds.now))
        outcome.log.items outcome.standings.items outcome.is_worse) }
    ensures no_memory { (cause : CauseOf) → IsErrOf result (BaselineFail.Refused cause) → ⊥ }
{
    match all_results(alloc, is_compared, new, remarks, old_keys, olds) {
        Ok(results) => told(alloc, log, new.run, results),
        Err(_) => Err(BaselineFail::NoMemory),
    }
}

/// The values of an array.
fn values_of(value: &Value) -> Option<&[Value]>
    ensures { option_map (λ values. map view values.now) result ≡ values_of (view value.now) }
{
    match value.as_array() {
        Some(values) => Some(values.as_slice()),
        None => None,
    }
}

/// The remarks on results: as many as there are results.
fn remarks_in<'v>(remarks: &'v Value, count: usize) -> Option<&'v [Value]>
    ensures some { IfSome result (λ values. (values_of (view remarks.now) ≡ Some (map view values.now))
        × (length values.now ≡ count)) }
    ensures none { result ≡ None → (values : List Data) → values_of (view remarks.now) ≡ Some values
        → length values ≡ count → ⊥ }
{
    match values_of(remarks) {
        Some(values) => {
            if values.len() == count {
                Some(values)
            } else {
                None
            }
        }
        None => None,
    }
}

/// Why there is no log, where this is wrong with the new one.
fn new_fail(unread: Unread) -> BaselineFail
    ensures { result ≡ new_fail unread }
{
    match unread {
        Unread::Flawed(flaw) => BaselineFail::Refused(Cause::New(flaw)),
        Unread::NoMemory => BaselineFail::NoMemory,
    }
}

/// Why there is no log, where this is wrong with the old one.
fn old_fail(unread: Unread) -> BaselineFail
    ensures { result ≡ old_fail unread }
{
    match unread {
        Unread::Flawed(flaw) => BaselineFail::Refused(Cause::Old(flaw)),
        Unread::NoMemory => BaselineFail::NoMemory,
    }
}

/// What comes out of a log by the parts of an old one.
fn by_old_parts(
    alloc: Global,
    log: &Value,
    new: &Parts<'_>,
    remarks: &[Value],
    olds: &Parts<'_>,
) -> Result<Outcome, BaselineFail>
    requires remarks { length remarks.now ≡ length new.now.results.items }
    requires keys { length new.now.keys.items ≡ length new.now.results.items }
    requires old { length olds.now.keys.items ≡ length olds.now.results.items }
    ensures ok { IfOk result (λ outcome. IsTrue (list_all is_reasoned (map value_seen olds.now.results.items))
        × IsWrittenBy (view log.now) (value_seen new.now.run)
        (all_results true (map string_bytes new.now.keys.items) (map view remarks.now)
        (map value_seen new.now.results.items) (map string_bytes olds.now.keys.items)
        (map value_seen olds.now.results.items)) outcome.log.items outcome.standings.items outcome.is_worse) }
    ensures refused { (cause : CauseOf) → IsErrOf result (BaselineFail.Refused cause) → (cause ≡ Cause.NoReason)
        × (list_all is_reasoned (map value_seen olds.now.results.items) ≡ false) }
{
    if !are_reasoned(&olds.results) {
        return Err(BaselineFail::Refused(Cause::NoReason));
    }
    compared(alloc, true, log, new, remarks, &olds.keys, &olds.results)
}

/// What comes out of a log by an old one. (Here and below each function owns one thing, with one way out behind it: how
/// a value and the parts of a log are let go is proved for each way out.)
fn by_old_log(
    alloc: Global,
    log: &Value,
    new: &Parts<'_>,
    remarks: &[Value],
    old_log: &Value,
) -> Result<Outcome, BaselineFail>
    requires remarks { length remarks.now ≡ length new.now.results.items }
    requires keys { length new.now.keys.items ≡ length new.now.results.items }
    ensures ok { IfOk result (λ outcome. (old : List ℕ) → IsValueOf old (view old_log.now) → IsOutcome (view log.now)
        (value_seen new.now.run) (map string_bytes new.now.keys.items) (map view remarks.now)
        (map value_seen new.now.results.items) (Some old) outcome.log.items outcome.standings.items outcome.is_worse) }
    ensures refused { (cause : CauseOf) → IsErrOf result (BaselineFail.Refused cause) → (old : List ℕ) →
        IsValueOf old (view old_log.now) → IsOldCause old cause }
{
    match parts_of(alloc, old_log) {
        Ok(olds) => by_old_parts(alloc, log, new, remarks, &olds),
        Err(unread) => Err(old_fail(unread)),
    }
}

/// What comes out of a log by the bytes of an old one.
fn by_old(
    alloc: Global,
    log: &Value,
    new: &Parts<'_>,
    remarks: &[Value],
    old: &[u8],
) -> Result<Outcome, BaselineFail>
    requires remarks { length remarks.now ≡ length new.now.results.items }
    requires keys { length new.now.keys.items ≡ length new.now.results.items }
    ensures ok { IfOk result (λ outcome. IsOutcome (view log.now) (value_seen new.now.run)
        (map string_bytes new.now.keys.items) (map view remarks.now) (map value_seen new.now.results.items)
        (Some old.now) outcome.log.items outcome.standings.items outcome.is_worse) }
    ensures refused { (cause : CauseOf) → IsErrOf result (BaselineFail.Refused cause) → IsOldCause old.now cause }
{
    match value_of(alloc, old) {
        Ok(old_log) => by_old_log(alloc, log, new, remarks, &old_log),
        Err(unread) => Err(old_fail(unread)),
    }
}

/// What comes out of a log, by an old one where there is one.
fn by_any(
    alloc: Global,
    log: &Value,
    new: &Parts<'_>,
    remarks: &[Value],
    old: Option<&[u8]>,
) -> Result<Outcome, BaselineFail>
    requires remarks { length remarks.now ≡ length new.now.results.items }
    requires keys { length new.now.keys.items ≡ length new.now.results.items }
    ensures ok { IfOk result (λ outcome. IsOutcome (view log.now) (value_seen new.now.run)
        (map string_bytes new.now.keys.items) (map view remarks.now) (map value_seen new.now.results.items)
        (option_map text_seen old.entry) outcome.log.items outcome.standings.items outcome.is_worse) }
    ensures refused { (cause : CauseOf) → IsErrOf result (BaselineFail.Refused cause) →
        (bytes : List ℕ) × (option_map text_seen old.entry ≡ Some bytes) × IsOldCause bytes cause }
{
    match old {
        Some(old) => by_old(alloc, log, new, remarks, old),
        None => compared(alloc, false, log, new, remarks, &[], &[]),
    }
}

/// What comes out of a log with remarks on its results, by an old log, where there is one.
fn by_remarks(
    alloc: Global,
    log: &Value,
    new: &Parts<'_>,
    remarks: &Value,
    old: Option<&[u8]>,
) -> Result<Outcome, BaselineFail>
    requires parts { IsParts (view log.now) (value_seen new.now.run) (map value_seen new.now.results.items)
        (map string_bytes new.now.keys.items) }
    ensures ok { IfOk result (λ outcome. (text told : List ℕ) → IsValueOf text (view log.now) →
        IsValueOf told (view remarks.now) → IsBaseline text told (option_map text_seen old.entry)
        outcome.log.items outcome.standings.items outcome.is_worse) }
    ensures refused { (cause : CauseOf) → IsErrOf result (BaselineFail.Refused cause) → (text told : List ℕ) →
        IsValueOf text (view log.now) → IsValueOf told (view remarks.now) →
        IsCause text told (option_map text_seen old.entry) cause }
{
    match remarks_in(remarks, new.results.len()) {
        Some(remarks) => by_any(alloc, log, new, remarks, old),
        None => Err(BaselineFail::Refused(Cause::OtherRemarks)),
    }
}

/// The same, by the bytes of the remarks.
fn by_parts(
    alloc: Global,
    log: &Value,
    new: &Parts<'_>,
    remarks: &[u8],
    old: Option<&[u8]>,
) -> Result<Outcome, BaselineFail>
    requires parts { IsParts (view log.now) (value_seen new.now.run) (map value_seen new.now.results.items)
        (map string_bytes new.now.keys.items) }
    ensures ok { IfOk result (λ outcome. (text : List ℕ) → IsValueOf text (view log.now) →
        IsBaseline text remarks.now (option_map text_seen old.entry)
        outcome.log.items outcome.standings.items outcome.is_worse) }
    ensures refused { (cause : CauseOf) → IsErrOf result (BaselineFail.Refused cause) → (text : List ℕ) →
        IsValueOf text (view log.now) → IsCause text remarks.now (option_map text_seen old.entry) cause }
{
    match value_of(alloc, remarks) {
        Ok(told) => by_remarks(alloc, log, new, &told, old),
        Err(Unread::Flawed(_)) => Err(BaselineFail::Refused(Cause::OtherRemarks)),
        Err(Unread::NoMemory) => Err(BaselineFail::NoMemory),
    }
}

/// The same, of any log.
fn by_log(
    alloc: Global,
    log: &Value,
    remarks: &[u8],
    old: Option<&[u8]>,
) -> Result<Outcome, BaselineFail>
    ensures ok { IfOk result (λ outcome. (text : List ℕ) → IsValueOf text (view log.now) →
        IsBaseline text remarks.now (option_map text_seen old.entry)
        outcome.log.items outcome.standings.items outcome.is_worse) }
    ensures refused { (cause : CauseOf) → IsErrOf result (BaselineFail.Refused cause) → (text : List ℕ) →
        IsValueOf text (view log.now) → IsCause text remarks.now (option_map text_seen old.entry) cause }
{
    match parts_of(alloc, log) {
        Ok(parts) => by_parts(alloc, log, &parts, remarks, old),
        Err(unread) => Err(new_fail(unread)),
    }
}

/// The log, in the format SARIF 2.1.0, that comes out of a log with remarks on its results, by an old log, where there is
/// one.
pub fn baseline(
    alloc: Global,
    new: &[u8],
    remarks: &[u8],
    old: Option<&[u8]>,
) -> Result<Outcome, BaselineFail>
    // The results are those of the new log in their order, each as it was but for its state and its suppressions, and
    // then those of the old log that were found no more.
    ensures ok { IfOk result (λ outcome. IsBaseline new.now remarks.now (option_map (λ bytes. bytes.now) old.entry)
        outcome.log.items outcome.standings.items outcome.is_worse) }

    // What is refused has its cause.
    ensures refused { (cause : CauseOf) → IsErrOf result (BaselineFail.Refused cause) →
        IsCause new.now remarks.now (option_map (λ bytes. bytes.now) old.entry) cause }
{
    match value_of(alloc, new) {
        Ok(log) => by_log(alloc, &log, remarks, old),
        Err(unread) => Err(new_fail(unread)),
    }
}
