//! What is told of alarms, shared out among the findings.

ghost use Rattle.std.specs.Prelude.{◌≡◌, ◌≤◌, ◌++◌, length, map, sum, IfOk, IsErrOf, OnOk};
ghost use Rattle.report_reading.specs.reading.Told.{way_seen};
ghost use Rattle.report_views.specs.declared.causes.Cause.{Cause as CauseOf};
ghost use Rattle.report_views.specs.Causes.{IsStrange};
ghost use Rattle.report_views.specs.Shares.{is_of, is_rule_of, leading, shares, site_of};

use crate::causes::Cause;
use crate::sentences::Rule;
use crate::spots::Finding;
use crate::views::ViewFail;
use report_reading::Way;
use std::alloc::{AllocError, Global};
use tm_cint::Class;

/// Adds where ways stand: each by the rule of its alarm.
pub fn push_sites(findings: &mut Vec<Finding>, ways: &[Way<'_>]) -> Result<(), AllocError>
    ensures { OnOk result (findings.new.items ≡ findings.old.items ++ map site_of (map way_seen ways.now)) }
{
    for way in ways {
        findings.push(Finding {
            place: way.site,
            rule: Rule::Alarm(way.class),
        })?;
    }
    Ok(())
}

/// Whether a rule is that of a class.
fn is_rule_of(class: Class, rule: Rule) -> bool
    ensures { result ≡ is_rule_of class rule }
{
    match rule {
        Rule::Alarm(other) => class == other,
        Rule::Wait | Rule::Dead | Rule::Assumption(_) => false,
    }
}

/// Whether a way is told of a finding.
fn is_of(finding: Finding, way: Way<'_>) -> bool
    ensures { result ≡ is_of finding (way_seen way.entry) }
{
    way.place.line == finding.place.line
        && way.place.col == finding.place.col
        && is_rule_of(way.class, finding.rule)
}

/// How many ways in front are of a finding.
fn leading(finding: Finding, ways: &[Way<'_>]) -> usize
    ensures count { result ≡ leading finding (map way_seen ways.now) }
    ensures most { result ≤ length ways.now }
{
    let mut count = 0;
    for way in ways {
        if !is_of(finding, *way) {
            return count;
        }
        count += 1;
    }
    count
}

/// How many ways each finding has, and how many all have.
fn counted(
    alloc: Global,
    findings: &[Finding],
    ways: &[Way<'_>],
) -> Result<(Vec<usize>, usize), AllocError>
    ensures { IfOk result (λ counted. (counted.0.items ≡ shares findings.now (map way_seen ways.now))
        × (counted.1 ≡ sum counted.0.items) × (counted.1 ≤ length ways.now)) }
{
    let mut counts = Vec::with_capacity(alloc, findings.len())?;
    let mut told = 0;
    for finding in findings {
        let count = leading(*finding, &ways[told..]);
        counts.push(count)?;
        told += count;
    }
    Ok((counts, told))
}

/// How many ways each finding has: those that stand in front when its turn comes.
pub fn shared(alloc: Global, findings: &[Finding], ways: &[Way<'_>]) -> Result<Vec<usize>, ViewFail>
    // Each finding has its ways, and none is left.
    ensures ok { IfOk result (λ counts. (counts.items ≡ shares findings.now (map way_seen ways.now))
        × (sum counts.items ≡ length ways.now)) }

    // One is left, and it stands at this place.
    ensures refused { (cause : CauseOf) → IsErrOf result (ViewFail.Refused cause) →
        IsStrange findings.now (map way_seen ways.now) cause }
{
    let Ok((counts, told)) = counted(alloc, findings, ways) else {
        return Err(ViewFail::NoMemory);
    };
    if told < ways.len() {
        return Err(ViewFail::Refused(Cause::StrangeWay(ways[told].place)));
    }
    Ok(counts)
}
