//! Places at which bodies read, write, lock and unlock.
ghost use Rattle.std.specs.Prelude.{◌≡◌, ◌<◌, ◌↔◌, length, Some, IfOk, OnOk, Contains};
ghost use Rattle.tm_terms.specs.declared.places.Place.{Place as APlace};
ghost use Rattle.program_reports.specs.post_recheck.Pairs.{lists_of};
ghost use Rattle.value_ranges.specs.Places.{ReachesAt};
ghost use Rattle.value_ranges.specs.reading.Reached.{AddsPlaces, IsOfEdges, IsOfGraphs, IsOfCopies, IsOfTables};
ghost use Rattle.value_ranges.specs.reading.Reached.{AreCopiesIn, AreCopiesOf, AreLeftOut, AreDeadIn};

use flow_graph::{Edge, Graph, Operation};
use mutex_configs::{ConfiguredGraph, EdgeCopy};
use place_lists::{has_place, in_order, push_place};
use program_reports::{BodyState, Table};
use std::alloc::Global;
use tm_lattice::NoMemory;
use tm_terms::Place;

// Where an operation stands that reads, writes, locks or unlocks.
fn place_of(operation: Operation) -> Option<Place>
    ensures { (place : APlace) → (result ≡ Some place) ↔ ReachesAt operation place }
{
    match operation {
        Operation::Load { place, .. }
        | Operation::LoadAny { place, .. }
        | Operation::Store { place, .. }
        | Operation::Lock { place, .. }
        | Operation::Unlock { place, .. } => Some(place),
        _ => None,
    }
}

// Adds the place of such an operation.
fn push_place_of(places: &mut Vec<Place>, operation: Operation) -> Result<(), NoMemory>
    ensures { OnOk result (AddsPlaces (λ place. ReachesAt operation place) places.old.items places.new.items) }
{
    match place_of(operation) {
        Some(place) => push_place(places, place),
        None => Ok(()),
    }
}

// Adds the places of edges.
fn push_edges(places: &mut Vec<Place>, edges: &[Edge]) -> Result<(), NoMemory>
    ensures { OnOk result (AddsPlaces (λ place. IsOfEdges edges.now (length edges.now) place)
        places.old.items places.new.items) }
{
    for edge in 0..edges.len() {
        push_place_of(places, edges[edge].op)?;
    }
    Ok(())
}

// The places of all bodies.
fn places_in(alloc: Global, graphs: &[Graph]) -> Result<Vec<Place>, NoMemory>
    ensures { IfOk result (λ places. (place : APlace) → Contains places.items place
        ↔ IsOfGraphs graphs.now (length graphs.now) place) }
{
    let mut places = Vec::new(alloc);
    for number in 0..graphs.len() {
        push_edges(&mut places, &graphs[number].edges)?;
    }
    Ok(places)
}

// Adds the places of the copies that leave nodes with a state.
fn push_copies(
    places: &mut Vec<Place>,
    edges: &[Edge],
    copies: &[EdgeCopy],
    table: &[Option<BodyState>],
) -> Result<(), NoMemory>
    requires { AreCopiesIn edges.now copies.now table.now }
    ensures { OnOk result (AddsPlaces (λ place. IsOfCopies edges.now copies.now table.now (length copies.now) place)
        places.old.items places.new.items) }
{
    for copy in 0..copies.len() {
        let at = copies[copy];
        if table[at.from as usize].is_some() {
            push_place_of(places, edges[at.edge].op)?;
        }
    }
    Ok(())
}

// The places of the copies of all bodies that leave nodes with a state.
fn reached_in(
    alloc: Global,
    graphs: &[Graph],
    configured: &[ConfiguredGraph],
    tables: &[Table],
) -> Result<Vec<Place>, NoMemory>
    requires { AreCopiesOf graphs.now configured.now (lists_of tables.now) }
    ensures { IfOk result (λ places. (place : APlace) → Contains places.items place
        ↔ IsOfTables graphs.now configured.now (lists_of tables.now) (length tables.now) place) }
{
    let mut places = Vec::new(alloc);
    for number in 0..tables.len() {
        push_copies(
            &mut places,
            &graphs[number].edges,
            &configured[number].copies,
            &tables[number],
        )?;
    }
    Ok(places)
}

// Those places that are not among the others, in order.
fn left_out(alloc: Global, places: &[Place], taken: Vec<Place>) -> Result<Vec<Place>, NoMemory>
    ensures { IfOk result (λ left. AreLeftOut places.now taken.items left.items) }
{
    let others = in_order(taken)?;
    let mut left = Vec::new(alloc);
    for index in 0..places.len() {
        let place = places[index];
        if !has_place(&others, place) {
            push_place(&mut left, place)?;
        }
    }
    in_order(left)
}

/// The places of all bodies without those of copies that leave nodes with a state.
pub(crate) fn dead_places(
    alloc: Global,
    graphs: &[Graph],
    configured: &[ConfiguredGraph],
    tables: &[Table],
) -> Result<Vec<Place>, NoMemory>
    requires { AreCopiesOf graphs.now configured.now (lists_of tables.now) }
    ensures { IfOk result (λ dead. AreDeadIn graphs.now configured.now (lists_of tables.now) (length tables.now)
        dead.items) }
{
    let places = places_in(alloc, graphs)?;
    let reached = reached_in(alloc, graphs, configured, tables)?;
    left_out(alloc, &places, reached)
}
