//! Logs in the format SARIF 2.1.0. A log is written from its front to its end: no part of it stands as a value of JSON,
//! which takes some thirty times the memory of its text.

ghost use Rattle.std.specs.Prelude.{◌≡◌, [], ◌∷◌, ◌++◌, true, ℕ, List, length, map, IfOk, OnOk, string_bytes};
ghost use Rattle.json.specs.Print.{print};
ghost use Rattle.serde_json.specs.Data.{array};
ghost use Rattle.serde_json.specs.View.{items_of};
ghost use Rattle.tm_terms.specs.Texts.{line_of};
ghost use Rattle.place_details.specs.reading.Seen.{bytes_seen};
ghost use Rattle.report_views.specs.Shares.{cut};
ghost use Rattle.report_views.specs.reading.Seen.{spot_seen};
ghost use Rattle.report_logs.specs.Sarif.{artifact_data, exit_code, file_of, found_data, invocation_data, is_problem};
ghost use Rattle.report_logs.specs.Sarif.{log_data, problems, sarif_text, told_of};
ghost use Rattle.report_logs.specs.Uris.{distinct, uri_text, with_file};
ghost use Rattle.report_logs.specs.reading.Seen.{AreAsMany, AreSharedOut, HasFiles, way_told_seen};
ghost use Rattle.report_logs.specs.reading.Written.{Appends, AppendsValue, back_tokens, front_tokens};
ghost use Rattle.report_logs.specs.reading.Written.{invocation_tokens};

use crate::places::{LastFile, no_file, turn_to, write_file};
use crate::results::write_results;
use crate::stacks::Ways;
use crate::tool::write_driver;
use crate::uris::uri;
use crate::writing::{write_number, write_string};
use json::Writer;
use place_details::Details;
use report_views::{Rule, Spot};
use std::alloc::{AllocError, Global};
use std::collections::HashMap;

/// Adds the files of places.
fn push_files<'s>(
    alloc: Global,
    files: &mut Vec<String>,
    last: &mut LastFile<'s>,
    spots: &[Spot<'s>],
) -> Result<(), AllocError>
    ensures { OnOk result (map string_bytes files.new.items
        ≡ map string_bytes files.old.items ++ map file_of (map spot_seen spots.now)) }
{
    for spot in spots {
        turn_to(alloc, last, *spot)?;
        files.push(String::from_str(alloc, last.uri.as_str())?)?;
    }
    Ok(())
}

/// The files of findings and of what is told of them, behind the file that is analysed.
fn files_of<'s>(
    alloc: Global,
    name: &[u8],
    spots: &[Spot<'s>],
    sites: &[Spot<'s>],
) -> Result<Vec<String>, AllocError>
    ensures { IfOk result (λ files. map string_bytes files.items
        ≡ uri_text name.now ∷ map file_of (map spot_seen spots.now ++ map spot_seen sites.now)) }
{
    let mut last = no_file(alloc);
    let mut files = Vec::new(alloc);
    files.push(uri(alloc, name)?)?;
    push_files(alloc, &mut files, &mut last, spots)?;
    push_files(alloc, &mut files, &mut last, sites)?;
    Ok(files)
}

/// Adds a file, unless it was seen.
fn push_file<'a>(
    found: &mut Vec<&'a str>,
    seen: &mut HashMap<&'a str, bool>,
    file: &'a str,
) -> Result<(), AllocError>
    ensures { OnOk result ((files : List (List ℕ)) → HasFiles files found.old.items seen.old
        → HasFiles (with_file files file.now) found.new.items seen.new) }
{
    if seen.contains_key(file) {
        return Ok(());
    }
    seen.insert(file, true)?;
    found.push(file)?;
    Ok(())
}

/// The files, each once.
fn distinct_of<'a>(alloc: Global, files: &'a [String]) -> Result<Vec<&'a str>, AllocError>
    ensures { IfOk result (λ found. map bytes_seen found.items ≡ distinct (map string_bytes files.now)) }
{
    let mut found = Vec::new(alloc);
    let mut seen: HashMap<&str, bool> = HashMap::new(alloc);
    for file in files {
        push_file(&mut found, &mut seen, file.as_str())?;
    }
    Ok(found)
}

/// Writes a file that is analysed, or in which results stand.
fn write_artifact(out: &mut Writer, file: &str) -> Result<(), AllocError>
    ensures { OnOk result (AppendsValue out.old out.new (artifact_data file.now)) }
{
    out.begin_object()?;
    out.key("location")?;
    write_file(out, file)?;
    out.end_object()
}

/// Writes files.
fn write_artifacts(out: &mut Writer, files: &[&str]) -> Result<(), AllocError>
    ensures { OnOk result (AppendsValue out.old out.new
        (array (items_of (map artifact_data (map bytes_seen files.now))))) }
{
    out.begin_array()?;
    for i in 0..files.len() {
        write_artifact(out, files[i])?;
    }
    out.end_array()
}

/// Whether what a rule finds is to be mended.
fn is_problem(rule: Rule) -> bool
    ensures { result ≡ is_problem rule }
{
    match rule {
        Rule::Alarm(_) => true,
        Rule::Wait => true,
        Rule::Dead => false,
        Rule::Assumption(_) => false,
    }
}

/// How many findings are to be mended.
fn problems(spots: &[Spot<'_>]) -> usize
    ensures { result ≡ problems (map spot_seen spots.now) }
{
    let mut count: usize = 0;
    for spot in spots {
        if is_problem(spot.rule) {
            count += 1;
        }
    }
    count
}

/// The status with which the analysis ends.
fn exit_code(spots: &[Spot<'_>]) -> usize
    ensures { result ≡ exit_code (map spot_seen spots.now) }
{
    if problems(spots) == 0 { 0 } else { 1 }
}

/// Writes the front of a log, with the files, each once, up to the analysis.
pub fn write_front(alloc: Global, out: &mut Writer, files: &[String]) -> Result<(), AllocError>
    ensures { OnOk result (Appends out.old out.new (front_tokens (map string_bytes files.now))) }
{
    let files = distinct_of(alloc, files)?;
    out.begin_object()?;
    write_string(
        out,
        "$schema",
        "https://json.schemastore.org/sarif-2.1.0.json",
    )?;
    out.key("runs")?;
    out.begin_array()?;
    out.begin_object()?;
    out.key("artifacts")?;
    write_artifacts(out, &files)?;
    write_string(out, "columnKind", "utf16CodeUnits")?;
    out.key("invocations")?;
    out.begin_array()
}

/// Writes the front of the analysis, up to what it tells of itself.
pub fn write_invocation_front(
    out: &mut Writer,
    successful: bool,
    code: usize,
) -> Result<(), AllocError>
    ensures { OnOk result (Appends out.old out.new (invocation_tokens successful code)) }
{
    out.begin_object()?;
    out.key("executionSuccessful")?;
    out.boolean(successful)?;
    write_number(out, "exitCode", code as u64)?;
    out.key("toolExecutionNotifications")?;
    out.begin_array()
}

/// Writes the analysis that came to its results.
fn write_invocation(out: &mut Writer, code: usize) -> Result<(), AllocError>
    ensures { OnOk result (AppendsValue out.old out.new (invocation_data true code [])) }
{
    write_invocation_front(out, true, code)?;
    out.end_array()?;
    out.end_object()
}

/// Writes what stands behind the results.
pub fn write_back(alloc: Global, out: &mut Writer, documents: &[u8]) -> Result<(), AllocError>
    ensures { OnOk result (Appends out.old out.new (back_tokens documents.now)) }
{
    out.key("tool")?;
    out.begin_object()?;
    out.key("driver")?;
    write_driver(alloc, out, documents)?;
    out.end_object()?;
    out.end_object()?;
    out.end_array()?;
    write_string(out, "version", "2.1.0")?;
    out.end_object()
}

/// What was written, in one line.
pub fn written_line(out: Writer) -> Result<Vec<u8>, AllocError>
    ensures { IfOk result (λ text. text.items ≡ line_of (out.before ++ print out.tokens)) }
{
    let mut text = out.into_inner();
    text.push(b'\n')?;
    Ok(text)
}

/// Writes the log of findings, and of what is told of them.
fn write_found<'s>(
    alloc: Global,
    out: &mut Writer,
    documents: &[u8],
    name: &[u8],
    spots: &[Spot<'s>],
    details: &Details<'_>,
    sites: &[Spot<'s>],
    ways: Ways<'_, 's, '_>,
) -> Result<(), AllocError>
    requires details { AreAsMany (length spots.now) details.now.regions.items details.now.functions.items
        details.now.fingerprints.items }
    requires ways { AreSharedOut (length spots.now) ways.counts.now (length ways.told.now) }
    ensures { OnOk result (AppendsValue out.old out.new (log_data (found_data documents.now name.now
        (map spot_seen spots.now) (map spot_seen sites.now) (told_of (map spot_seen spots.now)
        details.now.regions.items (map bytes_seen details.now.functions.items)
        (map string_bytes details.now.fingerprints.items)
        (cut ways.entry.counts.now (map way_told_seen ways.entry.told.now)))))) }
{
    let files = files_of(alloc, name, spots, sites)?;
    write_front(alloc, out, &files)?;
    write_invocation(out, exit_code(spots))?;
    out.end_array()?;
    out.key("results")?;
    write_results(alloc, out, spots, details, ways)?;
    write_back(alloc, out, documents)
}

/// The log of findings, and of what is told of them, in one line.
pub fn sarif_log<'s>(
    alloc: Global,
    documents: &[u8],
    name: &[u8],
    spots: &[Spot<'s>],
    details: &Details<'_>,
    sites: &[Spot<'s>],
    ways: Ways<'_, 's, '_>,
) -> Result<Vec<u8>, AllocError>
    requires details { AreAsMany (length spots.now) details.now.regions.items details.now.functions.items
        details.now.fingerprints.items }
    requires ways { AreSharedOut (length spots.now) ways.counts.now (length ways.told.now) }
    ensures { IfOk result (λ text. text.items ≡ sarif_text documents.now name.now (map spot_seen spots.now)
        (map spot_seen sites.now) (told_of (map spot_seen spots.now) details.now.regions.items
        (map bytes_seen details.now.functions.items) (map string_bytes details.now.fingerprints.items)
        (cut ways.entry.counts.now (map way_told_seen ways.entry.told.now)))) }
{
    let mut out = Writer::new(Vec::new(alloc));
    write_found(
        alloc, &mut out, documents, name, spots, details, sites, ways,
    )?;
    written_line(out)
}
