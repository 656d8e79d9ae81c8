//! Reports.
ghost use Rattle.std.specs.Prelude.{◌≡◌, ◌⊎◌, ◌↔◌, Contains, IfOk, OnOk};
ghost use Rattle.tm_terms.specs.declared.alarms.Alarm.{Alarm as AnAlarm};
ghost use Rattle.tm_terms.specs.Alarms.{IsStrictlySorted};
ghost use Rattle.access_races.specs.Races.{IsRaceAlarm, IsReportOf};
ghost use Rattle.access_races.specs.reading.Ways.{IsAlarmIn};

use crate::accesses::{Access, Way};
use crate::ways::{is_racing, ways_by_cell};
use std::alloc::Global;
use tm_cint::Class;
use tm_lattice::NoMemory;
use tm_terms::{Alarm, Report};

/// Adds an alarm; nothing where it is the same as the last one.
pub fn push_alarm(alarms: &mut Vec<Alarm>, alarm: Alarm) -> Result<(), NoMemory>
    ensures { OnOk result ((a : AnAlarm) → Contains alarms.new.items a
        ↔ (Contains alarms.old.items a ⊎ (a ≡ alarm))) }
{
    if alarms.last().copied() == Some(alarm) {
        return Ok(());
    }
    alarms.push(alarm)?;
    Ok(())
}

// Adds the alarms of accesses that race, where these are the ways in which each cell is accessed.
fn push_races(
    alarms: &mut Vec<Alarm>,
    ways: &[Vec<Way>],
    accesses: &[Access],
) -> Result<(), NoMemory>
    ensures { OnOk result ((a : AnAlarm) → Contains alarms.new.items a
        ↔ (Contains alarms.old.items a ⊎ IsAlarmIn ways.now accesses.now a)) }
{
    for access in accesses {
        if is_racing(ways, *access) {
            let alarm = Alarm {
                place: access.place,
                class: Class::Race,
            };
            push_alarm(alarms, alarm)?;
        }
    }
    Ok(())
}

// In order and without repeats.
fn sorted(mut alarms: Vec<Alarm>) -> Result<Report, NoMemory>
    ensures sorted { IfOk result (λ report. IsStrictlySorted report.alarms.items) }
    ensures same { IfOk result (λ report. (a : AnAlarm) → Contains report.alarms.items a ↔ Contains alarms.items a) }
{
    alarms.sort()?;
    alarms.dedup();
    Ok(Report { alarms })
}

/// The report of alarms and of the races of accesses: an alarm at each access that races with another.
pub fn report_of(
    alloc: Global,
    mut alarms: Vec<Alarm>,
    accesses: &[Access],
) -> Result<Report, NoMemory>
    ensures { IfOk result (λ report. IsReportOf accesses.now alarms.items report.alarms.items) }
{
    let ways = ways_by_cell(alloc, accesses)?;
    push_races(&mut alarms, &ways, accesses)?;
    sorted(alarms)
}
