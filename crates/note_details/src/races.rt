//! The racing accesses at places.
ghost use Rattle.std.specs.Prelude.{◌≡◌, ◌++◌, [], ◌∷◌, None, IfOk, OnOk, cond, filter};
ghost use Rattle.std.specs.Option.{option_copied};
ghost use Rattle.tm_terms.specs.declared.places.Place.{Place as APlace};
ghost use Rattle.indexmap.specs.IndexMap.{get};
ghost use Rattle.note_details.specs.Races.{is_same_place, is_at, racer_if, racers_in, all_racers, told_at, race_of};
ghost use Rattle.note_details.specs.Races.{race_seen, accesses_of, told_of};
ghost use Rattle.note_details.specs.reading.Races.{told_or_nothing, row_at};

use access_groups::{AccessGroup, ObjectAccess};
use access_partners::AccessDetails;
use indexmap::IndexMap;
use source_names::member_of;
use std::alloc::Global;
use tm_laid::Laid;
use tm_lattice::NoMemory;
use tm_terms::Place;

/// A racing access at a place: the number of the group of its object, its task and kind, the mutexes that are held, the
/// member that it reaches where it races, with how many accesses it races, and the first of these.
#[derive(Drop)]
pub struct RaceAccess {
    pub race: usize,
    pub task: u32,
    pub stores: bool,
    pub held: u16,
    pub member: Vec<u8>,
    pub partner_count: usize,
    pub partners: Vec<ObjectAccess>,
}

/// A racing access, by the number of its group and its number there.
#[derive(Clone, Copy)]
pub(crate) struct Racer {
    pub(crate) group: usize,
    pub(crate) number: usize,
    pub(crate) access: ObjectAccess,
}

// Adds an access of a group, if it races.
fn push_racer(racers: &mut Vec<Racer>, racer: Racer) -> Result<(), NoMemory>
    ensures { OnOk result (racers.new.items ≡ racers.old.items ++ racer_if racer) }
{
    if racer.access.racing {
        racers.push(racer)?;
    }
    Ok(())
}

// Adds the racing accesses of a group.
#[tactic(auto, using(std::proofs::lemmas::List::append_assoc))]
fn push_racers(
    racers: &mut Vec<Racer>,
    group: usize,
    accesses: &[ObjectAccess],
) -> Result<(), NoMemory>
    ensures { OnOk result (racers.new.items ≡ racers.old.items ++ racers_in group 0 accesses.now) }
{
    for number in 0..accesses.len() {
        push_racer(
            racers,
            Racer {
                group,
                number,
                access: accesses[number],
            },
        )?;
    }
    Ok(())
}

// All racing accesses, in the order of the groups and of their accesses.
#[tactic(auto, using(std::proofs::lemmas::List::append_assoc))]
fn all_racers(alloc: Global, groups: &[AccessGroup]) -> Result<Vec<Racer>, NoMemory>
    ensures { IfOk result (λ racers. racers.items ≡ all_racers 0 (accesses_of groups.now)) }
{
    let mut racers = Vec::new(alloc);
    for group in 0..groups.len() {
        push_racers(&mut racers, group, &groups[group].accesses)?;
    }
    Ok(racers)
}

/// The racing accesses by their places.
#[derive(Drop)]
pub(crate) struct Racers {
    pub(crate) rows: IndexMap<Place, Vec<Racer>>,
}

// Takes out the racing accesses that are kept for a place.
fn take_row(alloc: Global, rows: &mut IndexMap<Place, Vec<Racer>>, place: Place) -> Vec<Racer>
    ensures row { result.items ≡ row_at rows.old place }
    ensures others { (q : APlace) → get is_same_place rows.new q
        ≡ cond (is_same_place place q) None (get is_same_place rows.old q) }
{
    match rows.swap_remove(&place) {
        Some(row) => row,
        None => Vec::new(alloc),
    }
}

// Adds a racing access to those at its place.
fn place_racer(
    alloc: Global,
    rows: &mut IndexMap<Place, Vec<Racer>>,
    racer: Racer,
) -> Result<(), NoMemory>
    ensures { OnOk result ((q : APlace)
        → row_at rows.new q ≡ row_at rows.old q ++ filter (is_at q) (racer ∷ [])) }
{
    let mut row = take_row(alloc, rows, racer.access.place);
    row.push(racer)?;
    rows.insert(racer.access.place, row)?;
    Ok(())
}

// Racing accesses by their places.
#[tactic(auto, using(std::proofs::lemmas::List::append_assoc))]
fn by_places(alloc: Global, racers: &[Racer]) -> Result<Racers, NoMemory>
    ensures { IfOk result (λ kept. (place : APlace)
        → row_at kept.rows place ≡ filter (is_at place) racers.now) }
{
    let mut rows = IndexMap::new(alloc);
    for racer in racers {
        place_racer(alloc, &mut rows, *racer)?;
    }
    Ok(Racers { rows })
}

/// The racing accesses of groups by their places.
pub(crate) fn racers_of(alloc: Global, groups: &[AccessGroup]) -> Result<Racers, NoMemory>
    ensures { IfOk result (λ kept. (place : APlace)
        → row_at kept.rows place ≡ filter (is_at place) (all_racers 0 (accesses_of groups.now))) }
{
    let racers = all_racers(alloc, groups)?;
    by_places(alloc, &racers)
}

/// Those at a place.
pub(crate) fn racers_at(racers: &Racers, place: Place) -> &[Racer]
    ensures { result.now ≡ row_at racers.now.rows place }
{
    match racers.rows.get(&place) {
        Some(row) => row.as_slice(),
        None => &[],
    }
}

// What is told of an access, if it is.
fn told_at(accesses: &[Vec<AccessDetails>], racer: Racer) -> Option<&AccessDetails>
    ensures { told_or_nothing (option_copied result) ≡ told_at (told_of accesses.now) racer }
{
    match accesses.get(racer.group) {
        Some(group) => group.get(racer.number),
        None => None,
    }
}

// With how many accesses it races.
fn partner_count(details: Option<&AccessDetails>) -> usize
    ensures { result ≡ (told_or_nothing (option_copied details.entry)).partner_count }
{
    match details {
        Some(details) => details.partner_count,
        None => 0,
    }
}

// The first of these.
fn partners_of(details: Option<&AccessDetails>) -> &[ObjectAccess]
    ensures { result.now ≡ (told_or_nothing (option_copied details.entry)).partners }
{
    match details {
        Some(details) => details.partners.as_slice(),
        None => &[],
    }
}

// The abstract cells at which it races.
fn racing_cells(details: Option<&AccessDetails>) -> &[u32] {
    match details {
        Some(details) => details.racing.as_slice(),
        None => &[],
    }
}

/// The edges of its task's graph at which it races.
pub(crate) fn racing_edges(accesses: &[Vec<AccessDetails>], racer: Racer) -> &[usize] {
    match told_at(accesses, racer) {
        Some(details) => details.edges.as_slice(),
        None => &[],
    }
}

/// A racing access with what is told of it.
pub(crate) fn race_access(
    alloc: Global,
    bytes: &[u8],
    laid: &Laid,
    accesses: &[Vec<AccessDetails>],
    racer: Racer,
) -> Result<RaceAccess, NoMemory>
    ensures { IfOk result (λ access. race_seen access ≡ race_of (told_of accesses.now) racer) }
{
    let details = told_at(accesses, racer);
    let member = member_of(alloc, bytes, laid, racing_cells(details), false)?;
    let partners = Vec::from_slice(alloc, partners_of(details))?;
    Ok(RaceAccess {
        race: racer.group,
        task: racer.access.task,
        stores: racer.access.stores,
        held: racer.access.held,
        member,
        partner_count: partner_count(details),
        partners,
    })
}
