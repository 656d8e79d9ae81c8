//! The order in which edges are applied.

use crate::leaving_edges::Leaving;
use std::alloc::Global;
use tm_lattice::NoMemory;

/// The edges in an order in which each stands behind those that lead to the node that it leaves, but for one edge of
/// each cycle. In this order a state is brought on when all that joins there has come, and a cycle comes to its end
/// before what lies behind it begins.
///
/// The least table is the same in every order, so nothing is claimed of this one: it only saves time.
#[derive(Drop)]
pub struct Sweep {
    /// The edges.
    pub edges: Vec<usize>,
    // For each node the place of the first edge that leaves it.
    places: Vec<usize>,
}

impl Sweep {
    /// The edges of a graph in such an order.
    pub fn new(alloc: Global, leaving: &Leaving<'_>) -> Result<Sweep, NoMemory> {
        let finished = finished_nodes(alloc, leaving)?;
        let mut sweep = Sweep {
            edges: Vec::new(alloc),
            places: vec![in alloc; 0; leaving.last.len()]?,
        };
        for node in finished.iter().rev() {
            sweep.add_edges_of(leaving, *node)?;
        }
        Ok(sweep)
    }

    /// The place of the first edge that leaves a node.
    pub fn place_of(&self, node: usize) -> usize {
        match self.places.get(node) {
            None => 0,
            Some(place) => *place,
        }
    }

    // Adds the edges that leave a node.
    fn add_edges_of(&mut self, leaving: &Leaving<'_>, node: usize) -> Result<(), NoMemory> {
        if node >= self.places.len() || node >= leaving.last.len() {
            return Ok(());
        }
        self.places[node] = self.edges.len();
        let mut at = leaving.last[node];
        for _ in 0..leaving.before.len() {
            let Some(edge) = at else {
                break;
            };
            self.edges.push(edge)?;
            at = before(leaving, edge);
        }
        Ok(())
    }
}

// The last edge before the given one that leaves the same node.
fn before(leaving: &Leaving<'_>, edge: usize) -> Option<usize> {
    match leaving.before.get(edge) {
        None => None,
        Some(earlier) => *earlier,
    }
}

// A walk through a graph in depth.
#[derive(Drop)]
struct Walk {
    // For each node the edge that is followed next.
    next: Vec<Option<usize>>,
    // Which nodes were met.
    met: Vec<bool>,
    // The nodes from where the walk began to where it is.
    path: Vec<usize>,
    // The nodes whose edges are all followed, in the order in which that came.
    finished: Vec<usize>,
}

impl Walk {
    // Goes to a node, where it was not met.
    fn meet(&mut self, node: usize) -> Result<(), NoMemory> {
        if node < self.met.len() && !self.met[node] {
            self.met[node] = true;
            self.path.push(node)?;
        }
        Ok(())
    }

    // Follows the next edge of the node at which the walk is, or finishes it.
    fn go_on(&mut self, leaving: &Leaving<'_>, node: usize) -> Result<(), NoMemory> {
        if node >= self.next.len() {
            return Ok(());
        }
        match self.next[node] {
            None => self.finished.push(node)?,
            Some(edge) => {
                self.next[node] = before(leaving, edge);
                self.path.push(node)?;
                if edge < leaving.links.len() {
                    self.meet(leaving.links[edge].to)?;
                }
            }
        }
        Ok(())
    }

    // Goes on until each node of the path is finished: each step follows one edge or finishes one node.
    fn finish(&mut self, leaving: &Leaving<'_>) -> Result<(), NoMemory> {
        for _ in 0..usize::MAX {
            let Some(node) = self.path.pop() else {
                break;
            };
            self.go_on(leaving, node)?;
        }
        Ok(())
    }
}

// The nodes in the order in which a walk in depth finishes them: a node behind those to which its edges lead.
fn finished_nodes(alloc: Global, leaving: &Leaving<'_>) -> Result<Vec<usize>, NoMemory> {
    let mut walk = Walk {
        next: leaving.last.clone()?,
        met: vec![in alloc; false; leaving.last.len()]?,
        path: Vec::new(alloc),
        finished: Vec::new(alloc),
    };
    for node in 0..leaving.last.len() {
        walk.meet(node)?;
        walk.finish(leaving)?;
    }
    let Walk {
        next: _next,
        met: _met,
        path: _path,
        finished,
    } = walk;
    Ok(finished)
}
