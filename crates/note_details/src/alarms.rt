//! The details of alarms.
ghost use Rattle.std.specs.Prelude.{◌≡◌, [], IfOk, map, length};
ghost use Rattle.note_details.specs.Races.{race_of};
ghost use Rattle.note_details.specs.Details.{HasPaths};
ghost use Rattle.note_details.specs.Races.{races_seen, told_of};
ghost use Rattle.note_details.specs.reading.Races.{row_at};

use crate::operands::{mark_origins, operand_types};
use crate::races::{RaceAccess, Racer, Racers, race_access, racers_at, racing_edges};
use access_groups::AccessGroup;
use access_partners::AccessDetails;
use alarm_contexts::AlarmContexts;
use flow_graph::Graph;
use source_names::{NotedPath, function_of, noted_paths, path_of};
use std::alloc::Global;
use tm_cint::IntType;
use tm_laid::Laid;
use tm_lattice::NoMemory;
use tm_terms::{Name, Place};

/// The details of an alarm.
#[derive(Drop)]
pub struct AlarmDetails {
    /// The function in which it stands.
    pub function: Name,
    /// On how many call paths, and the first of them.
    pub path_count: usize,
    pub paths: Vec<NotedPath>,
    /// The types of its operands, none for a pointer.
    pub operands: Vec<Option<IntType>>,
    /// Of a race its tasks and its accesses.
    pub tasks: Vec<u32>,
    pub accesses: Vec<RaceAccess>,
}

/// What details are found in.
#[derive(Clone, Copy)]
pub(crate) struct Sources<'a> {
    pub(crate) bytes: &'a [u8],
    pub(crate) laid: &'a Laid,
    pub(crate) graphs: &'a [Graph],
    pub(crate) edge_paths: &'a [Vec<u32>],
    pub(crate) places: &'a [Vec<Place>],
    pub(crate) racers: &'a Racers,
    pub(crate) groups: &'a [AccessGroup],
    pub(crate) accesses: &'a [Vec<AccessDetails>],
}

// Numbers in order, each once.
fn in_order(mut numbers: Vec<u32>) -> Result<Vec<u32>, NoMemory> {
    numbers.sort()?;
    numbers.dedup();
    Ok(numbers)
}

// The call paths on which the contexts of an alarm stand.
fn context_paths(
    alloc: Global,
    edge_paths: &[Vec<u32>],
    alarm: &AlarmContexts,
) -> Result<Vec<u32>, NoMemory> {
    let mut paths = Vec::new(alloc);
    for edge in &alarm.edges {
        paths.push(path_of(edge_paths, edge.body, edge.edge))?;
    }
    in_order(paths)
}

// Marks the objects from which the operands of an alarm are loaded.
fn mark_operands(graphs: &[Graph], alarm: &AlarmContexts, named: &mut Vec<bool>)
    ensures { length named.new.items ≡ length named.old.items }
{
    for edge in &alarm.edges {
        mark_origins(graphs, *edge, named);
    }
}

/// The details of an alarm that is not one of races. The objects from which its operands are loaded are marked.
pub(crate) fn context_details(
    alloc: Global,
    from: Sources<'_>,
    alarm: &AlarmContexts,
    named: &mut Vec<bool>,
) -> Result<AlarmDetails, NoMemory>
    ensures paths { IfOk result HasPaths }
    ensures accesses { IfOk result (λ details. details.accesses.items ≡ []) }
    ensures marked { length named.new.items ≡ length named.old.items }
{
    mark_operands(from.graphs, alarm, named);
    let paths = context_paths(alloc, from.edge_paths, alarm)?;
    let operands = operand_types(alloc, from.graphs, alarm.edges.first().copied())?;
    let noted = noted_paths(alloc, from.laid, from.places, &paths)?;
    Ok(AlarmDetails {
        function: function_of(from.laid, paths.first().copied()),
        path_count: paths.len(),
        paths: noted,
        operands,
        tasks: Vec::new(alloc),
        accesses: Vec::new(alloc),
    })
}

/// The details of an alarm of which nothing is told.
pub(crate) fn no_details(alloc: Global, laid: &Laid) -> AlarmDetails
    ensures paths { HasPaths result }
    ensures accesses { result.accesses.items ≡ [] }
{
    AlarmDetails {
        function: function_of(laid, None),
        path_count: 0,
        paths: Vec::new(alloc),
        operands: Vec::new(alloc),
        tasks: Vec::new(alloc),
        accesses: Vec::new(alloc),
    }
}

// The tasks of racing accesses.
fn race_tasks(alloc: Global, racers: &[Racer]) -> Result<Vec<u32>, NoMemory> {
    let mut tasks = Vec::new(alloc);
    for racer in racers {
        tasks.push(racer.access.task)?;
    }
    in_order(tasks)
}

// Adds the call paths on which a racing access stands.
fn push_paths(from: Sources<'_>, racer: Racer, paths: &mut Vec<u32>) -> Result<(), NoMemory> {
    for edge in racing_edges(from.accesses, racer) {
        paths.push(path_of(from.edge_paths, racer.access.task, *edge))?;
    }
    Ok(())
}

// The call paths on which racing accesses stand.
fn race_paths(alloc: Global, from: Sources<'_>, racers: &[Racer]) -> Result<Vec<u32>, NoMemory> {
    let mut paths = Vec::new(alloc);
    for racer in racers {
        push_paths(from, *racer, &mut paths)?;
    }
    in_order(paths)
}

// Racing accesses with what is told of them.
#[tactic(auto, using(std::proofs::lemmas::List::map_push, std::proofs::lemmas::List::map_more))]
fn race_accesses(
    alloc: Global,
    from: Sources<'_>,
    racers: &[Racer],
) -> Result<Vec<RaceAccess>, NoMemory>
    ensures { IfOk result (λ accesses. races_seen accesses
        ≡ map (race_of (told_of from.entry.accesses.now)) racers.now) }
{
    let mut accesses = Vec::new(alloc);
    for racer in racers {
        accesses.push(race_access(alloc, from.bytes, from.laid, from.accesses, *racer)?)?;
    }
    Ok(accesses)
}

/// The details of an alarm of races.
pub(crate) fn race_details(
    alloc: Global,
    from: Sources<'_>,
    place: Place,
) -> Result<AlarmDetails, NoMemory>
    ensures paths { IfOk result HasPaths }
    ensures accesses { IfOk result (λ details. races_seen details.accesses
        ≡ map (race_of (told_of from.entry.accesses.now)) (row_at from.entry.racers.now.rows place)) }
{
    let racers = racers_at(from.racers, place);
    let paths = race_paths(alloc, from, racers)?;
    let tasks = race_tasks(alloc, racers)?;
    let accesses = race_accesses(alloc, from, racers)?;
    let noted = noted_paths(alloc, from.laid, from.places, &paths)?;
    Ok(AlarmDetails {
        function: function_of(from.laid, paths.first().copied()),
        path_count: paths.len(),
        paths: noted,
        operands: Vec::new(alloc),
        tasks,
        accesses,
    })
}
