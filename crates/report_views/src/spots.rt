//! Findings at their places in the files that they stand in.

ghost use Rattle.std.specs.Prelude.{◌≡◌, ◌++◌, None, Some, map, option_map, Contains, IfOk, IsErrOf, OnOk};
ghost use Rattle.tm_terms.specs.declared.places.Place.{Place as PlaceOf};
ghost use Rattle.source_marks.specs.reading.Seen.{origin_seen};
ghost use Rattle.report_views.specs.Spots.{IsOutside, assumed_by, finding_of, found_by, spot_of, spots_of};
ghost use Rattle.report_views.specs.reading.Seen.{spot_seen};

use crate::sentences::Rule;
use report_reading::Assumption;
use source_marks::Origin;
use std::alloc::{AllocError, Global};
use tm_terms::{Alarm, Place};

/// What is found at a place of the text, by a rule.
#[derive(Clone, Copy)]
pub struct Finding {
    pub place: Place,
    pub rule: Rule,
}

/// A finding in the file that it stands in.
#[derive(Clone, Copy)]
pub struct Spot<'a> {
    pub origin: Origin<'a>,
    pub col: u32,
    pub rule: Rule,
}

/// Why findings have no places.
#[derive(Clone, Copy)]
pub enum SpotFail {
    /// The finding at this place of the text stands in no line of a file.
    Outside(Place),
    /// Memory ran out.
    NoMemory,
}

/// What alarms are: each is found by the rule of its class.
pub fn findings_of(alloc: Global, alarms: &[Alarm]) -> Result<Vec<Finding>, AllocError>
    ensures { IfOk result (λ findings. findings.items ≡ map finding_of alarms.now) }
{
    let mut findings = Vec::new(alloc);
    for alarm in alarms {
        findings.push(Finding {
            place: alarm.place,
            rule: Rule::Alarm(alarm.class),
        })?;
    }
    Ok(findings)
}

/// Adds what a rule finds at places.
pub fn push_places(
    findings: &mut Vec<Finding>,
    places: &[Place],
    rule: Rule,
) -> Result<(), AllocError>
    ensures { OnOk result (findings.new.items ≡ findings.old.items ++ map (found_by rule) places.now) }
{
    for place in places {
        findings.push(Finding {
            place: *place,
            rule,
        })?;
    }
    Ok(())
}

/// Adds assumptions: each is found by the rule of its kind.
pub fn push_assumptions(
    findings: &mut Vec<Finding>,
    assumptions: &[Assumption],
) -> Result<(), AllocError>
    ensures { OnOk result (findings.new.items ≡ findings.old.items ++ map assumed_by assumptions.now) }
{
    for assumption in assumptions {
        findings.push(Finding {
            place: assumption.place,
            rule: Rule::Assumption(assumption.kind),
        })?;
    }
    Ok(())
}

/// A finding in its file, by the origins of the lines of the text.
pub fn spot_of<'a>(origins: &[Origin<'a>], finding: Finding) -> Option<Spot<'a>>
    ensures { option_map spot_seen result ≡ spot_of (map origin_seen origins.now) finding }
{
    let line = finding.place.line as usize;
    if line == 0 || line > origins.len() || finding.place.col == 0 {
        return None;
    }
    let origin = origins[line - 1];
    if origin.line == 0 {
        return None;
    }
    Some(Spot {
        origin,
        col: finding.place.col,
        rule: finding.rule,
    })
}

/// The findings in their files, in their order.
pub fn spots_of<'a>(
    alloc: Global,
    origins: &[Origin<'a>],
    findings: &[Finding],
) -> Result<Vec<Spot<'a>>, SpotFail>
    ensures ok { IfOk result (λ spots. spots_of (map origin_seen origins.now) findings.now
        ≡ Some (map spot_seen spots.items)) }
    ensures outside { (place : PlaceOf) → IsErrOf result (SpotFail.Outside place) →
        IsOutside (map origin_seen origins.now) findings.now place }
{
    let mut spots = Vec::new(alloc);
    for finding in findings {
        let spot = match spot_of(origins, *finding) {
            Some(spot) => spot,
            None => return Err(SpotFail::Outside(finding.place)),
        };
        match spots.push(spot) {
            Ok(()) => {}
            Err(_) => return Err(SpotFail::NoMemory),
        }
    }
    Ok(spots)
}
