//! Results: findings in their files, in the format SARIF 2.1.0.

ghost use Rattle.std.specs.Prelude.{◌≡◌, ◌+◌, ◌^◌, ◌<◌, ◌≤◌, drop, length, map, take, OnOk, string_bytes};
ghost use Rattle.serde_json.specs.Data.{array};
ghost use Rattle.serde_json.specs.View.{items_of};
ghost use Rattle.tm_terms.specs.Alarms.{class_number};
ghost use Rattle.place_details.specs.reading.Seen.{bytes_seen};
ghost use Rattle.report_views.specs.Shares.{cut};
ghost use Rattle.report_views.specs.reading.Seen.{spot_seen};
ghost use Rattle.report_logs.specs.Sarif.{is_review, kind_number, marks_data, result_data, rule_number, told_of};
ghost use Rattle.report_logs.specs.reading.Seen.{AreAsMany, AreSharedOut, told_seen, way_told_seen};
ghost use Rattle.report_logs.specs.reading.Written.{Appends, AppendsValue, kind_tokens, locations_tokens};

use crate::places::{LastFile, no_file, turn_to, write_location};
use crate::stacks::{WayTold, Ways, write_related, write_stacks};
use crate::writing::{write_number, write_string, write_text};
use json::Writer;
use place_details::{Details, Region};
use report_reading::AssumptionKind;
use report_views::{Rule, Spot, level, rule_sentence, rule_word};
use std::alloc::{AllocError, Global};
use tm_cint::Class;

/// A finding in its file, with what is told of it.
#[derive(Clone, Copy)]
struct Told<'s, 'f, 'p, 'w, 't> {
    spot: Spot<'s>,
    region: Region,
    function: &'f [u8],
    fingerprint: &'p str,
    ways: &'w [WayTold<'s, 't>],
}

/// The position of a class among all.
fn class_number(class: Class) -> usize
    ensures { result ≡ class_number class }
{
    match class {
        Class::Overflow => 0,
        Class::Div => 1,
        Class::Shift => 2,
        Class::Index => 3,
        Class::Pointer => 4,
        Class::Deref => 5,
        Class::Lock => 6,
        Class::Race => 7,
    }
}

/// The position of a kind among all.
fn kind_number(kind: AssumptionKind) -> usize
    ensures number { result ≡ kind_number kind }
    ensures few { result < 11 }
{
    match kind {
        AssumptionKind::Const => 0,
        AssumptionKind::Enum => 1,
        AssumptionKind::Implementation => 2,
        AssumptionKind::Layout => 3,
        AssumptionKind::Lifetime => 4,
        AssumptionKind::Member => 5,
        AssumptionKind::Order => 6,
        AssumptionKind::Pragma => 7,
        AssumptionKind::Reserved => 8,
        AssumptionKind::Restrict => 9,
        AssumptionKind::Unset => 10,
    }
}

/// The position of a rule among all.
fn rule_number(rule: Rule) -> usize
    ensures { result ≡ rule_number rule }
{
    match rule {
        Rule::Alarm(class) => class_number(class),
        Rule::Wait => 8,
        Rule::Dead => 9,
        Rule::Assumption(kind) => 10 + kind_number(kind),
    }
}

/// Whether a rule finds what a human is to look at.
fn is_review(rule: Rule) -> bool
    ensures { result ≡ is_review rule }
{
    match rule {
        Rule::Alarm(_) => false,
        Rule::Wait => false,
        Rule::Dead => false,
        Rule::Assumption(_) => true,
    }
}

/// Writes that a human is to look at a result, where it is so.
fn write_kind(out: &mut Writer, rule: Rule) -> Result<(), AllocError>
    ensures { OnOk result (Appends out.old out.new (kind_tokens (is_review rule))) }
{
    if is_review(rule) {
        write_string(out, "kind", "review")
    } else {
        Ok(())
    }
}

/// Writes the place of a result.
fn write_locations<'s>(
    alloc: Global,
    out: &mut Writer,
    last: &mut LastFile<'s>,
    told: Told<'s, '_, '_, '_, '_>,
) -> Result<(), AllocError>
    ensures { OnOk result (Appends out.old out.new (locations_tokens (told_seen told.entry))) }
{
    turn_to(alloc, last, told.spot)?;
    out.key("locations")?;
    out.begin_array()?;
    write_location(
        alloc,
        out,
        last.uri.as_str(),
        told.spot.origin.line,
        told.region,
        told.function,
    )?;
    out.end_array()
}

/// Writes what marks a finding in later logs.
fn write_marks(out: &mut Writer, fingerprint: &str) -> Result<(), AllocError>
    ensures { OnOk result (AppendsValue out.old out.new (marks_data fingerprint.now)) }
{
    out.begin_object()?;
    write_string(out, "cedratcleat/v1", fingerprint)?;
    out.end_object()
}

/// Writes a result.
fn write_result<'s>(
    alloc: Global,
    out: &mut Writer,
    last: &mut LastFile<'s>,
    told: Told<'s, '_, '_, '_, '_>,
) -> Result<(), AllocError>
    ensures { OnOk result (AppendsValue out.old out.new (result_data (told_seen told.entry))) }
{
    let rule = told.spot.rule;
    out.begin_object()?;
    write_kind(out, rule)?;
    write_string(out, "level", level(rule))?;
    write_locations(alloc, out, last, told)?;
    out.key("message")?;
    write_text(out, rule_sentence(rule))?;
    out.key("partialFingerprints")?;
    write_marks(out, told.fingerprint)?;
    out.key("relatedLocations")?;
    write_related(alloc, out, last, told.ways)?;
    write_string(out, "ruleId", rule_word(rule))?;
    write_number(out, "ruleIndex", rule_number(rule) as u64)?;
    out.key("stacks")?;
    write_stacks(alloc, out, last, told.ways)?;
    out.end_object()
}

/// A finding with what is told of it.
fn told_of<'s, 'f, 'p, 'w, 't>(
    spot: Spot<'s>,
    region: Region,
    function: &'f [u8],
    fingerprint: &'p String,
    ways: &'w [WayTold<'s, 't>],
) -> Told<'s, 'f, 'p, 'w, 't>
    ensures { told_seen result ≡ record {
      spot = spot_seen spot.entry;
      region = region;
      function = function.now;
      fingerprint = string_bytes fingerprint.now;
      ways = map way_told_seen ways.now;
    } }
{
    Told {
        spot,
        region,
        function,
        fingerprint: fingerprint.as_str(),
        ways,
    }
}

/// So many things that are told, behind so many others.
fn own_of<'w, 's, 't>(
    told: &'w [WayTold<'s, 't>],
    start: usize,
    count: usize,
) -> &'w [WayTold<'s, 't>]
    requires { start + count ≤ length told.now }
    ensures value { result.now ≡ take count (drop start told.now) }
    ensures fits { start + count < 2 ^ 64 }
{
    let behind = &told[start..];
    &behind[..count]
}

/// Writes the findings, of which each takes its own of what is told.
pub fn write_results<'s>(
    alloc: Global,
    out: &mut Writer,
    spots: &[Spot<'s>],
    details: &Details<'_>,
    ways: Ways<'_, 's, '_>,
) -> Result<(), AllocError>
    requires details { AreAsMany (length spots.now) details.now.regions.items details.now.functions.items
        details.now.fingerprints.items }
    requires ways { AreSharedOut (length spots.now) ways.counts.now (length ways.told.now) }
    ensures { OnOk result (AppendsValue out.old out.new (array (items_of (map result_data
        (told_of (map spot_seen spots.now) details.now.regions.items (map bytes_seen details.now.functions.items)
        (map string_bytes details.now.fingerprints.items)
        (cut ways.entry.counts.now (map way_told_seen ways.entry.told.now))))))) }
{
    let mut last = no_file(alloc);
    let mut start: usize = 0;
    out.begin_array()?;
    for i in 0..spots.len() {
        let own = own_of(ways.told, start, ways.counts[i]);
        let told = told_of(
            spots[i],
            details.regions[i],
            details.functions[i],
            &details.fingerprints[i],
            own,
        );
        write_result(alloc, out, &mut last, told)?;
        start += ways.counts[i];
    }
    out.end_array()
}
