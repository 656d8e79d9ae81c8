//! On which call path each edge of a graph stands.
ghost use Rattle.std.specs.Prelude.{◌≡◌, IfOk, length, map};
ghost use Rattle.tm_laid.specs.Layouts.{laid_tree};
ghost use Rattle.body_builder.specs.lowering.Built.{graph_of};
ghost use Rattle.body_builder.specs.Fragments.{tree_in, edges_of};
ghost use Rattle.graph_builder.specs.EdgePaths.{AreEdgePaths};

use crate::graphs::{body_count, deepest, first_path, fragment};
use crate::paths::Paths;
use crate::sizes::path_sizes;
use body_builder::Item;
use std::alloc::Global;
use tm_laid::Laid;
use tm_lattice::NoMemory;

impl Paths<'_> {
    // For each edge for which the items of a path stand the path on which it is. The last of those that wait is taken
    // next, and beside each waits its path. There are never so many items as the loop could take.
    fn along(&self, items: Vec<Item>, path: u32) -> Result<Vec<u32>, NoMemory>
        ensures { IfOk result (λ along. length along.items
            ≡ length (edges_of (tree_in self.now.laid.now) items.items)) }
    {
        let mut along = Vec::new(self.alloc);
        let mut waiting = items;
        waiting.reverse();
        let mut on = Vec::new(self.alloc);
        on.resize(waiting.len(), path)?;
        for _ in 0..u64::MAX {
            let at = on.pop().unwrap_or(path);
            match waiting.pop() {
                Some(Item::Edge(_)) => along.push(at)?,
                Some(Item::Call(call)) => {
                    self.open(&mut waiting, call)?;
                    on.resize(waiting.len(), call.path)?;
                }
                None => return Ok(along),
            }
        }
        Err(NoMemory)
    }
}

// The paths of the edges of one body.
#[tactic(auto, using(crate::proofs::GraphPieces::counted))]
fn body_paths(paths: &Paths<'_>, body: u32) -> Result<Vec<u32>, NoMemory>
    ensures { IfOk result (λ along. length along.items ≡ length (graph_of (tree_in paths.now.laid.now) body)) }
{
    let fragment = fragment(paths, body)?;
    let path = first_path(paths.laid, body);
    paths.along(fragment.items, path)
}

// Those of all bodies.
fn all_paths(paths: &Paths<'_>) -> Result<Vec<Vec<u32>>, NoMemory>
    ensures { IfOk result (λ found. AreEdgePaths (tree_in paths.now.laid.now) (map (λ v. v.items) found.items)) }
{
    let count = body_count(paths.laid)?;
    let mut found = Vec::new(paths.alloc);
    for body in 0..count {
        let along = body_paths(paths, body)?;
        found.push(along)?;
    }
    Ok(found)
}

// The same, with the sizes of all paths.
fn found(alloc: Global, laid: &Laid) -> Result<Vec<Vec<u32>>, NoMemory>
    ensures { IfOk result (λ found. AreEdgePaths (tree_in laid.now) (map (λ v. v.items) found.items)) }
{
    let sizes = path_sizes(alloc, laid, deepest(laid)?)?;
    let paths = Paths {
        alloc,
        laid,
        sizes: &sizes,
    };
    all_paths(&paths)
}

/// For each body, and for each edge of its graph, the number of the call path on which the edge stands: the body's own
/// or that of the innermost call around it. For each edge there is one; which one it is, no clause tells.
#[tactic(auto, unfolding(body_builder::specs::Fragments::tree_in))]
pub fn edge_paths(alloc: Global, laid: &Laid) -> Result<Vec<Vec<u32>>, NoMemory>
    ensures { IfOk result (λ found. AreEdgePaths (laid_tree laid.now) (map (λ v. v.items) found.items)) }
{
    found(alloc, laid)
}
