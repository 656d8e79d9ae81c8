//! All details.
ghost use Rattle.std.specs.Prelude.{◌≡◌, [], IfOk, All, filter, length, map};
ghost use Rattle.tm_terms.specs.declared.places.Place.{Place as APlace};
ghost use Rattle.note_details.specs.Races.{is_at, all_racers};
ghost use Rattle.note_details.specs.Details.{is_race_class, races_of, HasPaths};
ghost use Rattle.note_details.specs.Races.{accesses_of, told_of, races_seen};
ghost use Rattle.note_details.specs.reading.Races.{row_at};

use crate::alarms::{AlarmDetails, Sources, context_details, no_details, race_details};
use crate::objects::{ObjectDetails, object_details};
use crate::races::racers_of;
use access_groups::AccessGroup;
use access_partners::AccessDetails;
use alarm_contexts::AlarmContexts;
use flow_graph::Graph;
use graph_builder::edge_paths;
use pointer_dom::AbsValue;
use source_names::{call_places, member_of, structure_tags};
use std::alloc::Global;
use tm_cint::Class;
use tm_laid::Laid;
use tm_lattice::NoMemory;
use tm_terms::Alarm;
use value_ranges::ObjectBounds;

/// The details of a report: of each alarm, of each object, and for each race by object the members that its accesses
/// reach; and of each object its number among those that are listed, none where it is not: those of static storage
/// are, and those that notes or advice name.
#[derive(Drop)]
pub struct Details {
    pub alarms: Vec<AlarmDetails>,
    pub objects: Vec<ObjectDetails>,
    pub members: Vec<Vec<Vec<u8>>>,
    pub numbers: Vec<Option<u32>>,
}

// Whether a class is that of races.
fn is_race(class: Class) -> bool
    ensures { result ≡ is_race_class class }
{
    match class {
        Class::Race => true,
        _ => false,
    }
}

// The details of an alarm, of which this is told if it is not one of races.
fn details_of(
    alloc: Global,
    from: Sources<'_>,
    alarm: Alarm,
    other: Option<&AlarmContexts>,
    named: &mut Vec<bool>,
) -> Result<AlarmDetails, NoMemory>
    requires placed { (place : APlace) → row_at from.racers.now.rows place
        ≡ filter (is_at place) (all_racers 0 (accesses_of from.groups.now)) }
    ensures paths { IfOk result HasPaths }
    ensures races { IfOk result (λ details. races_seen details.accesses
        ≡ races_of (accesses_of from.entry.groups.now) (told_of from.entry.accesses.now) alarm) }
    ensures marked { length named.new.items ≡ length named.old.items }
{
    if is_race(alarm.class) {
        return race_details(alloc, from, alarm.place);
    }
    match other {
        Some(other) => context_details(alloc, from, other, named),
        None => Ok(no_details(alloc, from.laid)),
    }
}

// How many more of the others are read behind an alarm.
fn after(alarm: Alarm, next: usize) -> usize {
    if is_race(alarm.class) {
        next
    } else {
        next.saturating_add(1)
    }
}

// The details of the alarms of a report.
fn alarm_details(
    alloc: Global,
    from: Sources<'_>,
    report: &[Alarm],
    others: &[AlarmContexts],
    named: &mut Vec<bool>,
) -> Result<Vec<AlarmDetails>, NoMemory>
    requires placed { (place : APlace) → row_at from.racers.now.rows place
        ≡ filter (is_at place) (all_racers 0 (accesses_of from.groups.now)) }
    ensures paths { IfOk result (λ alarms. All HasPaths alarms.items) }
    ensures races { IfOk result (λ alarms. map (λ d. races_seen d.accesses) alarms.items
        ≡ map (races_of (accesses_of from.entry.groups.now) (told_of from.entry.accesses.now)) report.now) }
    ensures marked { length named.new.items ≡ length named.old.items }
{
    let mut details = Vec::new(alloc);
    let mut next = 0;
    for alarm in report {
        details.push(details_of(alloc, from, *alarm, others.get(next), named)?)?;
        next = after(*alarm, next);
    }
    Ok(details)
}

// Marks an object.
fn mark(object: u32, named: &mut Vec<bool>)
    ensures { length named.new.items ≡ length named.old.items }
{
    let at = object as usize;
    if at < named.len() {
        named[at] = true;
    }
}

// Marks the objects to which a value leads.
fn mark_value(value: &AbsValue, named: &mut Vec<bool>)
    ensures { length named.new.items ≡ length named.old.items }
{
    if let Some(pointers) = value.pointers() {
        let objects = pointers.objects().entries();
        for at in 0..objects.len() {
            mark(objects[at].0, named);
        }
    }
}

// Marks the objects to which the operands of alarms lead.
fn mark_values(others: &[AlarmContexts], named: &mut Vec<bool>)
    ensures { length named.new.items ≡ length named.old.items }
{
    for alarm in others {
        mark_operands(&alarm.operands, named);
    }
}

// Marks the objects to which operands lead.
fn mark_operands(operands: &[AbsValue], named: &mut Vec<bool>)
    ensures { length named.new.items ≡ length named.old.items }
{
    for value in operands {
        mark_value(value, named);
    }
}

// Marks the objects that have races.
fn mark_groups(groups: &[AccessGroup], named: &mut Vec<bool>)
    ensures { length named.new.items ≡ length named.old.items }
{
    for group in groups {
        mark(group.object, named);
    }
}

// Marks the objects with these numbers.
fn mark_all(objects: &[u32], named: &mut Vec<bool>)
    ensures { length named.new.items ≡ length named.old.items }
{
    for object in objects {
        mark(*object, named);
    }
}

// Whether an object is listed.
fn is_listed(laid: &Laid, named: &[bool], object: usize) -> bool {
    let is_static = match laid.objects.get(object) {
        Some(found) => found.owner.is_none(),
        None => false,
    };
    let is_named = match named.get(object) {
        Some(is) => *is,
        None => false,
    };
    is_static || is_named
}

// The numbers of the objects that are listed.
fn numbers_of(alloc: Global, laid: &Laid, named: &[bool]) -> Result<Vec<Option<u32>>, NoMemory>
    ensures { IfOk result (λ numbers. length numbers.items ≡ length laid.now.objects.items) }
{
    let mut numbers = Vec::new(alloc);
    let mut next = 0u32;
    for object in 0..laid.objects.len() {
        if is_listed(laid, named, object) {
            numbers.push(Some(next))?;
            next = next.saturating_add(1);
        } else {
            numbers.push(None)?;
        }
    }
    Ok(numbers)
}

// The details of all objects.
fn all_objects(
    alloc: Global,
    bytes: &[u8],
    laid: &Laid,
    bounds: &[Option<ObjectBounds>],
) -> Result<Vec<ObjectDetails>, NoMemory>
    ensures { IfOk result (λ objects. length objects.items ≡ length laid.now.objects.items) }
{
    let tags = structure_tags(alloc, bytes)?;
    let mut objects = Vec::new(alloc);
    for object in &laid.objects {
        objects.push(object_details(alloc, bytes, laid, &tags, bounds, *object)?)?;
    }
    Ok(objects)
}

// The members that the accesses of a group reach.
fn group_members(
    alloc: Global,
    bytes: &[u8],
    laid: &Laid,
    accesses: &[AccessDetails],
) -> Result<Vec<Vec<u8>>, NoMemory>
    ensures { IfOk result (λ members. length members.items ≡ length accesses.now) }
{
    let mut members = Vec::new(alloc);
    for access in accesses {
        members.push(member_of(alloc, bytes, laid, &access.cells, false)?)?;
    }
    Ok(members)
}

// Those of all groups.
#[tactic(auto, using(std::proofs::lemmas::List::map_push, std::proofs::lemmas::List::map_more))]
fn all_members(
    alloc: Global,
    bytes: &[u8],
    laid: &Laid,
    accesses: &[Vec<AccessDetails>],
) -> Result<Vec<Vec<Vec<u8>>>, NoMemory>
    ensures { IfOk result (λ members. map (λ row. length row.items) members.items
        ≡ map (λ row. length row.items) accesses.now) }
{
    let mut members = Vec::new(alloc);
    for group in accesses {
        members.push(group_members(alloc, bytes, laid, group)?)?;
    }
    Ok(members)
}

// The details of alarms, where the objects that notes and advice name are marked.
fn marked_details(
    alloc: Global,
    from: Sources<'_>,
    report: &[Alarm],
    others: &[AlarmContexts],
    advised: &[u32],
    named: &mut Vec<bool>,
) -> Result<Vec<AlarmDetails>, NoMemory>
    requires placed { (place : APlace) → row_at from.racers.now.rows place
        ≡ filter (is_at place) (all_racers 0 (accesses_of from.groups.now)) }
    ensures paths { IfOk result (λ alarms. All HasPaths alarms.items) }
    ensures races { IfOk result (λ alarms. map (λ d. races_seen d.accesses) alarms.items
        ≡ map (races_of (accesses_of from.entry.groups.now) (told_of from.entry.accesses.now)) report.now) }
{
    mark_values(others, named);
    mark_groups(from.groups, named);
    mark_all(advised, named);
    alarm_details(alloc, from, report, others, named)
}

/// The details of a report: of its alarms, where these are the contexts of those that are not of races, in their order;
/// of the groups of accesses, of which this is told; and of all objects, where advice names those with these numbers,
/// and these are the bounds of each abstract cell. The only error is want of memory.
pub fn report_details(
    alloc: Global,
    bytes: &[u8],
    laid: &Laid,
    graphs: &[Graph],
    report: &[Alarm],
    others: &[AlarmContexts],
    groups: &[AccessGroup],
    accesses: &[Vec<AccessDetails>],
    advised: &[u32],
    bounds: &[Option<ObjectBounds>],
) -> Result<Details, NoMemory>
    // The accesses of each alarm are the racing ones at its place; so there are as many details as alarms.
    ensures races { IfOk result (λ details. map (λ d. races_seen d.accesses) details.alarms.items
        ≡ map (races_of (accesses_of groups.now) (told_of accesses.now)) report.now) }
    ensures paths { IfOk result (λ details. All HasPaths details.alarms.items) }
    // For each object there is one of each, and for each access that is told of a member.
    ensures objects { IfOk result (λ details. length details.objects.items ≡ length laid.now.objects.items) }
    ensures numbers { IfOk result (λ details. length details.numbers.items ≡ length laid.now.objects.items) }
    ensures members { IfOk result (λ details. map (λ row. length row.items) details.members.items
        ≡ map (λ row. length row.items) accesses.now) }
{
    let edge_paths = edge_paths(alloc, laid)?;
    let places = call_places(alloc, &laid.file)?;
    let racers = racers_of(alloc, groups)?;
    let from = Sources {
        bytes,
        laid,
        graphs,
        edge_paths: &edge_paths,
        places: &places,
        racers: &racers,
        groups,
        accesses,
    };
    let mut named = vec![in alloc; false; laid.objects.len()]?;
    let alarms = marked_details(alloc, from, report, others, advised, &mut named)?;
    let members = all_members(alloc, bytes, laid, accesses)?;
    let numbers = numbers_of(alloc, laid, &named)?;
    let objects = all_objects(alloc, bytes, laid, bounds)?;
    Ok(Details {
        alarms,
        objects,
        members,
        numbers,
    })
}
