//! What is noted of call paths is put together body by body.
ghost use Rattle.std.specs.Prelude.{◌↔◌, IsTrue, IfOk};
ghost use Rattle.tm_laid.specs.Layouts.{laid_tree};
ghost use Rattle.path_origins.specs.Opens.{is_among};
ghost use Rattle.edge_origins.specs.Bodies.{AreOf, AreBodyOrigins};
ghost use Rattle.edge_origins.specs.reading.Gathered.{IsGathered, IsAssembled, AreAssembled};

use crate::beside::gathered;
use crate::edges::edges_of;
use crate::falls::falls_of;
use crate::forms::has_form;
use crate::origins::{BodyOrigins, EdgeOrigin};
use crate::sizes::{all_notes, sizes_of};
use crate::starts::{Start, starts_of};
use flow_graph::{Edge, Graph};
use path_origins::{Notes, opens_of};
use std::alloc::Global;
use tm_laid::Laid;
use tm_lattice::NoMemory;
use tm_terms::Place;

// Whether there are as many edges as origins, and each operation has the form that is noted.
fn are_forms(edges: &[Edge], origins: &[EdgeOrigin]) -> bool
    ensures { IsTrue result ↔ AreOf edges.now origins.now }
{
    if edges.len() != origins.len() {
        return false;
    }
    for number in 0..origins.len() {
        if !has_form(edges[number].op, origins[number].form) {
            return false;
        }
    }
    true
}

// What is noted of the paths with these starts, in this graph.
fn origins_along(
    alloc: Global,
    laid: &Laid,
    notes: &[Notes],
    starts: &[Start],
    graph: &Graph,
) -> Result<BodyOrigins, NoMemory>
    ensures { IfOk result (IsGathered (laid_tree laid.now) notes.now starts.now graph.now) }
{
    let edges = edges_of(alloc, graph.edges.len(), notes, starts)?;
    if !are_forms(&graph.edges, &edges) {
        return Err(NoMemory);
    }
    Ok(BodyOrigins {
        edges,
        operands: gathered(alloc, notes, starts)?,
        reloads: gathered(alloc, notes, starts)?,
        overwrites: gathered(alloc, notes, starts)?,
        lives: gathered(alloc, notes, starts)?,
        falls: falls_of(alloc, laid, notes, starts)?,
        passings: gathered(alloc, notes, starts)?,
    })
}

// What is noted of a body, which has this graph.
fn body_origins(
    alloc: Global,
    laid: &Laid,
    notes: &[Notes],
    body: usize,
    graph: &Graph,
) -> Result<BodyOrigins, NoMemory>
    ensures { IfOk result (IsAssembled (laid_tree laid.now) notes.now body graph.now) }
{
    let starts = starts_of(alloc, laid, notes, body)?;
    origins_along(alloc, laid, notes, &starts, graph)
}

// The same of all bodies.
fn all_bodies(
    alloc: Global,
    laid: &Laid,
    notes: &[Notes],
    graphs: &[Graph],
) -> Result<Vec<BodyOrigins>, NoMemory>
    ensures { IfOk result (λ bodies. AreAssembled (laid_tree laid.now) notes.now 0 graphs.now bodies.items) }
{
    let mut bodies = Vec::new(alloc);
    for (body, graph) in graphs.iter().enumerate() {
        bodies.push(body_origins(alloc, laid, notes, body, graph)?)?;
    }
    Ok(bodies)
}

/// For each body what is noted of the edges of its graph, where the signs `(` of the source stand at these places: at
/// them stand casts.
///
/// Lowering goes over a source in the order of the walk, so that the walk gives exactly the edges of the graphs. No
/// source is known of which this is not so; but no law says it, and so it is looked at: that each path has as many
/// edges as those that call it leave for it, that the numbers of the edges of a body are those of its graph, each
/// once, and that each operation has the form that is noted. These looks cost next to nothing beside the walk. Where
/// one fails, there is no answer, which is told in the way of want of memory.
pub fn edge_origins(
    alloc: Global,
    laid: &Laid,
    graphs: &[Graph],
    opens: &[Place],
) -> Result<Vec<BodyOrigins>, NoMemory>
    ensures { IfOk result (λ bodies. AreBodyOrigins (laid_tree laid.now) (is_among opens.now) graphs.now
        bodies.items) }
{
    let opens = opens_of(alloc, opens)?;
    let sizes = sizes_of(alloc, laid, &opens)?;
    let notes = all_notes(alloc, laid, &opens, &sizes)?;
    all_bodies(alloc, laid, &notes, graphs)
}
