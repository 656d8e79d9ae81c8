//! Where the edges of a body come from.
ghost use Rattle.std.specs.Prelude.{◌≡◌, ◌∷◌, [], ℕ, map, length, get_or, IfOk, OnOk};
ghost use Rattle.std.specs.List.{flat_map};
ghost use Rattle.edge_origins.specs.reading.Edges.{at_edge, edge_at, edges_on, ArePut, AreAll};

use crate::origins::EdgeOrigin;
use crate::starts::Start;
use body_builder::more;
use path_origins::{NotedEdge, Notes};
use std::alloc::Global;
use tm_lattice::NoMemory;

// The place of each of so many edges, with nothing there.
fn no_origins(alloc: Global, count: usize) -> Result<Vec<Option<EdgeOrigin>>, NoMemory>
    ensures { IfOk result (λ origins. (n : ℕ) → get_or origins.items n None ≡ None) }
{
    let mut origins = Vec::new(alloc);
    origins.resize(count, None)?;
    Ok(origins)
}

// Where an edge comes from is put at its number, if nothing is there.
fn put(
    origins: &mut Vec<Option<EdgeOrigin>>,
    number: u32,
    origin: EdgeOrigin,
) -> Result<(), NoMemory>
    ensures { OnOk result (ArePut origins.old.items origins.new.items (at_edge number origin ∷ [])) }
{
    match origins.get_mut(number as usize) {
        Some(place) => {
            if place.is_some() {
                return Err(NoMemory);
            }
            *place = Some(origin);
            Ok(())
        }
        None => Err(NoMemory),
    }
}

// The edges of a path that begins at an edge.
fn put_edges(
    origins: &mut Vec<Option<EdgeOrigin>>,
    start: Start,
    edges: &[NotedEdge],
) -> Result<(), NoMemory>
    ensures { OnOk result (ArePut origins.old.items origins.new.items
        (map (edge_at start.path start.at) edges.now)) }
{
    for edge in edges {
        let origin = EdgeOrigin {
            path: start.path,
            place: edge.place,
            form: edge.form,
        };
        put(origins, more(start.at, edge.at)?, origin)?;
    }
    Ok(())
}

// The edges of the paths with these starts.
fn put_all(
    origins: &mut Vec<Option<EdgeOrigin>>,
    notes: &[Notes],
    starts: &[Start],
) -> Result<(), NoMemory>
    ensures { OnOk result (ArePut origins.old.items origins.new.items (flat_map (edges_on notes.now) starts.now)) }
{
    for start in starts {
        let Some(found) = notes.get(start.path as usize) else {
            return Err(NoMemory);
        };
        put_edges(origins, *start, &found.edges)?;
    }
    Ok(())
}

// The origins, if there is one of each edge.
fn all_there(alloc: Global, origins: &[Option<EdgeOrigin>]) -> Result<Vec<EdgeOrigin>, NoMemory>
    ensures { IfOk result (λ found. map Some found.items ≡ origins.now) }
{
    let mut found = Vec::new(alloc);
    for origin in origins {
        let Some(origin) = origin else {
            return Err(NoMemory);
        };
        found.push(*origin)?;
    }
    Ok(found)
}

/// Where each of so many edges comes from, if the edges of the paths with these starts are exactly these.
pub(crate) fn edges_of(
    alloc: Global,
    count: usize,
    notes: &[Notes],
    starts: &[Start],
) -> Result<Vec<EdgeOrigin>, NoMemory>
    ensures { IfOk result (λ origins. AreAll origins.items (flat_map (edges_on notes.now) starts.now)) }
{
    let mut origins = no_origins(alloc, count)?;
    put_all(&mut origins, notes, starts)?;
    all_there(alloc, &origins)
}
