//! The log of a report, of its waits, of its dead places and of the assumptions, and of what is told of its alarms.

ghost use Rattle.std.specs.Prelude.{◌≡◌, ◌++◌, ℕ, List, Some, length, map, IfOk, IsErrOf, string_bytes};
ghost use Rattle.source_marks.specs.reading.Seen.{origin_seen};
ghost use Rattle.place_details.specs.Details.{AreDetails, region_of};
ghost use Rattle.place_details.specs.reading.Seen.{bytes_seen, sight_seen};
ghost use Rattle.report_reading.specs.Ways.{Way as AWay};
ghost use Rattle.report_reading.specs.reading.Told.{way_seen};
ghost use Rattle.report_views.specs.declared.causes.Cause.{Cause as CauseOf};
ghost use Rattle.report_views.specs.Causes.{Answers as TheAnswers, AreAssumptionsOf, AreFindings, AreWaysOf};
ghost use Rattle.report_views.specs.Causes.{IsListingOf, IsLogCause, IsMisplaced, all_findings, text_of};
ghost use Rattle.report_views.specs.Shares.{site_of};
ghost use Rattle.report_views.specs.Spots.{spots_of};
ghost use Rattle.report_views.specs.reading.Seen.{spot_seen};
ghost use Rattle.report_logs.specs.Logs.{IsLog, IsLogged, IsWritten, sight_of, sights_of};
ghost use Rattle.report_logs.specs.reading.Seen.{AreSharedOut, answers_seen, told_at, way_told_seen};

use crate::sarif::sarif_log;
use crate::stacks::{WayTold, Ways, ways_told};
use place_details::{Details, Region, Sight, details_of, regions_in};
use report_reading::{
    Assumption, Listing, ListingFail, Way, read_assumptions, read_places, read_ways,
};
use report_views::{
    Cause, Finding, LONGEST_REPORT, Rule, Spot, ViewFail, findings_of, name_in, placed,
    push_assumptions, push_places, push_sites, read, rule_word, shared, traced,
};
use source_marks::Origin;
use std::alloc::{AllocError, Global};
use tm_lattice::NoMemory;
use tm_terms::{Alarm, Place};

/// The places that the bytes list.
fn listed(alloc: Global, text: &[u8], listing: Listing) -> Result<Vec<Place>, ViewFail>
    ensures ok { IfOk result (λ places. IsListingOf listing text.now places.items) }
    ensures refused { (cause : CauseOf) → IsErrOf result (ViewFail.Refused cause) →
        (name other : List ℕ) (answers : TheAnswers) → text_of listing answers ≡ text.now
        → IsLogCause name answers other cause }
{
    if text.len() > LONGEST_REPORT {
        return Err(ViewFail::Refused(Cause::LongListing(listing)));
    }
    match read_places(alloc, text, listing) {
        Ok(places) => Ok(places),
        Err(ListingFail::NotListing) => Err(ViewFail::Refused(Cause::NotListing(listing))),
        Err(ListingFail::NoMemory) => Err(ViewFail::NoMemory),
    }
}

/// The assumptions that the bytes list.
fn assumed(alloc: Global, text: &[u8]) -> Result<Vec<Assumption>, ViewFail>
    ensures ok { IfOk result (λ assumptions. AreAssumptionsOf text.now assumptions.items) }
    ensures refused { (cause : CauseOf) → IsErrOf result (ViewFail.Refused cause) →
        (name other : List ℕ) (answers : TheAnswers) → answers.assumptions ≡ text.now
        → IsLogCause name answers other cause }
{
    if text.len() > LONGEST_REPORT {
        return Err(ViewFail::Refused(Cause::LongAssumptions));
    }
    match read_assumptions(alloc, text) {
        Ok(assumptions) => Ok(assumptions),
        Err(ListingFail::NotListing) => Err(ViewFail::Refused(Cause::NotAssumptions)),
        Err(ListingFail::NoMemory) => Err(ViewFail::NoMemory),
    }
}

/// What the bytes tell of alarms.
fn told(alloc: Global, text: &[u8]) -> Result<Vec<Way<'_>>, ViewFail>
    ensures ok { IfOk result (λ ways. AreWaysOf text.now (map way_seen ways.items)) }
    ensures refused { (cause : CauseOf) → IsErrOf result (ViewFail.Refused cause) →
        (name other : List ℕ) (answers : TheAnswers) → answers.ways ≡ text.now → IsLogCause name answers other cause }
{
    if text.len() > LONGEST_REPORT {
        return Err(ViewFail::Refused(Cause::LongWays));
    }
    match read_ways(alloc, text) {
        Ok(ways) => Ok(ways),
        Err(ListingFail::NotListing) => Err(ViewFail::Refused(Cause::NotWays)),
        Err(ListingFail::NoMemory) => Err(ViewFail::NoMemory),
    }
}

/// All findings, in their order.
fn joined(
    alloc: Global,
    alarms: &[Alarm],
    waits: &[Place],
    dead: &[Place],
    assumptions: &[Assumption],
) -> Result<Vec<Finding>, AllocError>
    ensures { IfOk result (λ findings.
        findings.items ≡ all_findings alarms.now waits.now dead.now assumptions.now) }
{
    let mut findings = findings_of(alloc, alarms)?;
    push_places(&mut findings, waits, Rule::Wait)?;
    push_places(&mut findings, dead, Rule::Dead)?;
    push_assumptions(&mut findings, assumptions)?;
    Ok(findings)
}

/// The answers of the analyser from which a log is made, as bytes: the report, as JSON, what `waits` answers, what
/// `ranges` answers behind the bounds of objects, the list of the assumptions, and what is told of alarms.
#[derive(Clone, Copy)]
pub struct Answers<'a> {
    pub report: &'a [u8],
    pub waits: &'a [u8],
    pub dead: &'a [u8],
    pub assumptions: &'a [u8],
    pub ways: &'a [u8],
}

/// All findings that the answers tell of.
fn all_found(alloc: Global, answers: Answers<'_>) -> Result<Vec<Finding>, ViewFail>
    ensures ok { IfOk result (λ findings. AreFindings (answers_seen answers.entry) findings.items) }
    ensures refused { (cause : CauseOf) → IsErrOf result (ViewFail.Refused cause) →
        (name text : List ℕ) → IsLogCause name (answers_seen answers.entry) text cause }
{
    let read = read(alloc, answers.report)?;
    let waits = listed(alloc, answers.waits, Listing::Waits)?;
    let dead = listed(alloc, answers.dead, Listing::Dead)?;
    let assumptions = assumed(alloc, answers.assumptions)?;
    match joined(alloc, &read.alarms, &waits, &dead, &assumptions) {
        Ok(findings) => Ok(findings),
        Err(_) => Err(ViewFail::NoMemory),
    }
}

/// What is asked of a place.
fn sight_of<'a>(finding: Finding, spot: Spot<'a>) -> Sight<'a>
    ensures { sight_seen result ≡ sight_of finding (spot_seen spot.entry) }
{
    Sight {
        place: finding.place,
        name: spot.origin.name,
        word: rule_word(finding.rule),
    }
}

/// What is asked of each place.
fn sights_of<'a>(
    alloc: Global,
    findings: &[Finding],
    spots: &[Spot<'a>],
) -> Result<Vec<Sight<'a>>, AllocError>
    requires { length findings.now ≡ length spots.now }
    ensures { IfOk result (λ sights. map sight_seen sights.items ≡ sights_of findings.now (map spot_seen spots.now)) }
{
    let mut sights = Vec::with_capacity(alloc, spots.len())?;
    for i in 0..spots.len() {
        let sight = sight_of(findings[i], spots[i]);
        sights.push(sight)?;
    }
    Ok(sights)
}

/// What a log says of itself and is written from: the folder of the documents that explain rules, and the folder from
/// which names of files are seen, both as line marks spell them; the name of the file from which the first line of the
/// text comes; the text; and the lines of the files from which its lines come, as far as these are at hand.
#[derive(Clone, Copy)]
pub struct Frame<'w, 't> {
    pub documents: &'w [u8],
    pub folder: &'w [u8],
    pub name: &'w [u8],
    pub text: &'t [u8],
    pub lines: &'t [u8],
}

/// What is told of places.
pub fn details_in<'a>(
    alloc: Global,
    folder: &[u8],
    text: &'a [u8],
    lines: &'a [u8],
    sights: &[Sight<'_>],
) -> Result<Details<'a>, AllocError>
    ensures { IfOk result (λ details. AreDetails folder.now text.now lines.now (map sight_seen sights.now)
        details.regions.items (map bytes_seen details.functions.items)
        (map string_bytes details.fingerprints.items)) }
{
    match details_of(alloc, folder, text, lines, sights) {
        Ok(details) => Ok(details),
        Err(NoMemory) => Err(AllocError),
    }
}

/// The regions of places.
fn regions_of(
    alloc: Global,
    text: &[u8],
    lines: &[u8],
    sights: &[Sight<'_>],
) -> Result<Vec<Region>, AllocError>
    ensures { IfOk result (λ regions. regions.items
        ≡ map (region_of text.now lines.now) (map sight_seen sights.now)) }
{
    match regions_in(alloc, text, lines, sights) {
        Ok(regions) => Ok(regions),
        Err(NoMemory) => Err(AllocError),
    }
}

/// What is told of alarms, at these places.
fn told_at<'s, 't>(
    alloc: Global,
    text: &[u8],
    lines: &[u8],
    ways: &[Way<'t>],
    found: &[Finding],
    sites: &[Spot<'s>],
) -> Result<Vec<WayTold<'s, 't>>, AllocError>
    requires found { found.now ≡ map site_of (map way_seen ways.now) }
    requires sites { length found.now ≡ length sites.now }
    ensures { IfOk result (λ told. map way_told_seen told.items
        ≡ told_at text.now lines.now (map way_seen ways.now) (map spot_seen sites.now)) }
{
    let sights = sights_of(alloc, found, sites)?;
    let regions = regions_of(alloc, text, lines, &sights)?;
    ways_told(alloc, ways, sites, &regions)
}

/// What is told of alarms, with the places at which it stands.
#[derive(Drop)]
struct Sites<'s, 't> {
    spots: Vec<Spot<'s>>,
    told: Vec<WayTold<'s, 't>>,
}

/// Where that stands which is told of alarms.
fn found_sites(alloc: Global, ways: &[Way<'_>]) -> Result<Vec<Finding>, ViewFail>
    ensures ok { IfOk result (λ found. found.items ≡ map site_of (map way_seen ways.now)) }
    ensures refused { (cause : CauseOf) → IsErrOf result (ViewFail.Refused cause) → ⊥ }
{
    let mut found = Vec::new(alloc);
    match push_sites(&mut found, ways) {
        Ok(()) => Ok(found),
        Err(_) => Err(ViewFail::NoMemory),
    }
}

/// What is told of alarms, by the origins of the lines of their text.
fn sited<'s, 't>(
    alloc: Global,
    text: &[u8],
    lines: &[u8],
    origins: &[Origin<'s>],
    ways: &[Way<'t>],
) -> Result<Sites<'s, 't>, ViewFail>
    ensures placed { IfOk result (λ sited. spots_of (map origin_seen origins.now)
        (map site_of (map way_seen ways.now)) ≡ Some (map spot_seen sited.spots.items)) }
    ensures told { IfOk result (λ sited. map way_told_seen sited.told.items
        ≡ told_at text.now lines.now (map way_seen ways.now) (map spot_seen sited.spots.items)) }
    ensures refused { (cause : CauseOf) → IsErrOf result (ViewFail.Refused cause) →
        IsMisplaced (map origin_seen origins.now) (map site_of (map way_seen ways.now)) cause }
{
    let found = found_sites(alloc, ways)?;
    let sites = placed(alloc, origins, &found)?;
    match told_at(alloc, text, lines, ways, &found, &sites) {
        Ok(told) => Ok(Sites { spots: sites, told }),
        Err(_) => Err(ViewFail::NoMemory),
    }
}

/// The text of the log of findings in their files, and of what is told of them.
fn written<'s>(
    alloc: Global,
    frame: Frame<'_, '_>,
    findings: &[Finding],
    spots: &[Spot<'s>],
    sites: &[Spot<'s>],
    ways: Ways<'_, 's, '_>,
) -> Result<Vec<u8>, AllocError>
    requires spots { length findings.now ≡ length spots.now }
    requires ways { AreSharedOut (length spots.now) ways.counts.now (length ways.told.now) }
    ensures { IfOk result (λ log. (list : List AWay)
        → map way_told_seen ways.entry.told.now ≡ told_at frame.entry.text.now frame.entry.lines.now list
        (map spot_seen sites.now)
        → IsWritten frame.entry.documents.now frame.entry.folder.now frame.entry.name.now frame.entry.text.now
        frame.entry.lines.now findings.now list ways.entry.counts.now (map spot_seen spots.now)
        (map spot_seen sites.now) log.items) }
{
    let sights = sights_of(alloc, findings, spots)?;
    let folder = name_in(alloc, frame.folder)?;
    let documents = name_in(alloc, frame.documents)?;
    let name = name_in(alloc, frame.name)?;
    let details = details_in(alloc, &folder, frame.text, frame.lines, &sights)?;
    sarif_log(alloc, &documents, &name, spots, &details, sites, ways)
}

/// The log of findings and of what is told of them, by the origins of the lines of their text, where each finding has so
/// many of these.
fn logged(
    alloc: Global,
    frame: Frame<'_, '_>,
    origins: &[Origin<'_>],
    findings: &[Finding],
    ways: &[Way<'_>],
    counts: &[usize],
) -> Result<Vec<u8>, ViewFail>
    requires { AreSharedOut (length findings.now) counts.now (length ways.now) }
    ensures ok { IfOk result (λ log. IsLogged frame.entry.documents.now frame.entry.folder.now frame.entry.name.now
        frame.entry.text.now frame.entry.lines.now (map origin_seen origins.now) findings.now
        (map way_seen ways.now) counts.now log.items) }
    ensures refused { (cause : CauseOf) → IsErrOf result (ViewFail.Refused cause) →
        IsMisplaced (map origin_seen origins.now) (findings.now ++ map site_of (map way_seen ways.now)) cause }
{
    let spots = placed(alloc, origins, findings)?;
    let sited = sited(alloc, frame.text, frame.lines, origins, ways)?;
    let told = Ways {
        told: &sited.told,
        counts,
    };
    match written(alloc, frame, findings, &spots, &sited.spots, told) {
        Ok(log) => Ok(log),
        Err(_) => Err(ViewFail::NoMemory),
    }
}

/// The log, in the format SARIF 2.1.0, of a report, as JSON, of what `waits` lists, of the dead places that `ranges`
/// lists, of the assumptions, and of what is told of alarms, over the text that they are of.
pub fn log(alloc: Global, frame: Frame<'_, '_>, answers: Answers<'_>) -> Result<Vec<u8>, ViewFail>
    // Each alarm of the report once, then each lock that the waits list, then each dead place, then each assumption, at
    // the places that the line marks give; and what is told of an alarm at this alarm, all of it and in its order.
    ensures ok { IfOk result (λ log. IsLog frame.entry.documents.now frame.entry.folder.now frame.entry.name.now
        (answers_seen answers.entry) frame.entry.text.now frame.entry.lines.now log.items) }

    // What is refused has its cause.
    ensures refused { (cause : CauseOf) → IsErrOf result (ViewFail.Refused cause) →
        IsLogCause frame.entry.name.now (answers_seen answers.entry) frame.entry.text.now cause }
{
    let findings = all_found(alloc, answers)?;
    let ways = told(alloc, answers.ways)?;
    let counts = shared(alloc, &findings, &ways)?;
    let origins = traced(alloc, frame.name, frame.text)?;
    logged(alloc, frame, &origins, &findings, &ways, &counts)
}
