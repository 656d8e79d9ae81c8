//! The alarms of races.
ghost use Rattle.std.specs.Prelude.{◌≡◌, ◌++◌, OnOk, decimal};
ghost use Rattle.notes_json.specs.Pieces.{listed};
ghost use Rattle.program_notes.specs.AlarmTexts.{partner_object, race_object, race_alarm_front, race_alarm_back};
ghost use Rattle.program_notes.specs.AlarmTexts.{race_alarm};

use crate::path_objects::push_paths;
use access_groups::ObjectAccess;
use note_details::{AlarmDetails, RaceAccess};
use notes_json::{
    push_comma, push_number, push_partner, push_race_back, push_race_front, push_race_middle,
};
use std::alloc::Global;
use tm_lattice::NoMemory;
use tm_terms::{Place, push_bytes, text_of};

/// Appends accesses with which another one races.
fn push_partners(
    alloc: Global,
    text: &mut Vec<u8>,
    partners: &[ObjectAccess],
) -> Result<(), NoMemory>
    ensures { OnOk result (text.new.items ≡ text.old.items ++ listed partner_object partners.now) }
{
    for (at, partner) in partners.iter().enumerate() {
        push_comma(text, at)?;
        push_partner(
            alloc,
            text,
            partner.place,
            partner.held,
            partner.stores,
            partner.task,
        )?;
    }
    Ok(())
}

/// Appends an access that races.
fn push_race(alloc: Global, text: &mut Vec<u8>, access: &RaceAccess) -> Result<(), NoMemory>
    ensures { OnOk result (text.new.items ≡ text.old.items ++ race_object access.now) }
{
    push_race_front(
        alloc,
        text,
        access.held,
        access.stores,
        &access.member,
        access.partner_count,
    )?;
    push_partners(alloc, text, &access.partners)?;
    push_race_back(alloc, text, access.race, access.task)
}

/// Appends accesses that race.
fn push_races(alloc: Global, text: &mut Vec<u8>, accesses: &[RaceAccess]) -> Result<(), NoMemory>
    ensures { OnOk result (text.new.items ≡ text.old.items ++ listed race_object accesses.now) }
{
    for (at, access) in accesses.iter().enumerate() {
        push_comma(text, at)?;
        push_race(alloc, text, access)?;
    }
    Ok(())
}

/// Appends the numbers of tasks.
fn push_tasks(alloc: Global, text: &mut Vec<u8>, tasks: &[u32]) -> Result<(), NoMemory>
    ensures { OnOk result (text.new.items ≡ text.old.items ++ listed decimal tasks.now) }
{
    for (at, task) in tasks.iter().enumerate() {
        push_comma(text, at)?;
        push_number(alloc, text, b"", *task as u64)?;
    }
    Ok(())
}

/// Appends what stands of the alarm of a race up to its call paths.
fn push_front(
    alloc: Global,
    text: &mut Vec<u8>,
    bytes: &[u8],
    place: Place,
    details: &AlarmDetails,
) -> Result<(), NoMemory>
    ensures { OnOk result (text.new.items ≡ text.old.items ++ race_alarm_front bytes.now place details.now) }
{
    push_bytes(text, b"{\"accesses\":[")?;
    push_races(alloc, text, &details.accesses)?;
    let function = text_of(bytes, details.function);
    push_race_middle(alloc, text, place, function, details.path_count)
}

/// Appends these, and what stands behind them.
fn push_back(alloc: Global, text: &mut Vec<u8>, details: &AlarmDetails) -> Result<(), NoMemory>
    ensures { OnOk result (text.new.items ≡ text.old.items ++ race_alarm_back details.now) }
{
    push_paths(alloc, text, &details.paths)?;
    push_bytes(text, b"],\"tasks\":[")?;
    push_tasks(alloc, text, &details.tasks)?;
    push_bytes(text, b"]}")
}

/// Appends the alarm of races at a place.
pub(crate) fn push_race_alarm(
    alloc: Global,
    text: &mut Vec<u8>,
    bytes: &[u8],
    place: Place,
    details: &AlarmDetails,
) -> Result<(), NoMemory>
    ensures { OnOk result (text.new.items ≡ text.old.items ++ race_alarm bytes.now place details.now) }
{
    push_front(alloc, text, bytes, place, details)?;
    push_back(alloc, text, details)
}
