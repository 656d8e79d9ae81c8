//! The graphs of a program.
ghost use Rattle.std.specs.Prelude.{◌≡◌, IfOk, option_map, length};
ghost use Rattle.std.specs.Result.{result_map_both};
ghost use Rattle.tm_terms.specs.declared.refusals.Fail.TheVariants as Fails;
ghost use Rattle.tm_terms.specs.declared.refusals.Limit.TheVariants as Limits;
ghost use Rattle.tm_laid.specs.Layouts.{laid_tree, beyond, first_path};
ghost use Rattle.body_builder.specs.lowering.Built.{built};
ghost use Rattle.body_builder.specs.Fragments.{tree_in, so_far};
ghost use Rattle.graph_builder.specs.Ends.{end_of};
ghost use Rattle.graph_builder.specs.Lowered.{IsLowered};
ghost use Rattle.graph_builder.specs.reading.Finding.{IsOne, AreAll};

use crate::ends::End;
use crate::paths::Paths;
use crate::sizes::path_sizes;
use body_builder::Fragment;
use flow_graph::{Graph, Graphs};
use std::alloc::Global;
use tm_laid::{Laid, Scale};
use tm_lattice::NoMemory;
use tm_terms::{Fail, Kind, Limit, Place, Refusal};

// The refusal by a limit.
fn refused(limit: Limit) -> Fail
    ensures { result ≡ Fails.Refused (beyond limit) }
{
    Fail::Refused(Refusal {
        kind: Kind::Limit,
        place: Place { line: 0, col: 0 },
        limit: Some(limit),
    })
}

// How the graph of a body ends.
#[tactic(auto, unfolding(body_builder::specs::Fragments::tree_in))]
fn end_of(laid: &Laid, body: u32) -> End
    ensures { result ≡ end_of (tree_in laid.now) body }
{
    if (body as usize) < laid.file.tasks.len() {
        End::Task
    } else {
        End::Function
    }
}

// The path of a body.
#[tactic(auto, unfolding(body_builder::specs::Fragments::tree_in))]
pub(crate) fn first_path(laid: &Laid, body: u32) -> u32
    ensures { result ≡ first_path (tree_in laid.now) body }
{
    match laid.first_paths.get(body as usize) {
        Some(path) => *path,
        None => 0,
    }
}

// How many functions there are: no chain of calls is longer.
#[tactic(auto, unfolding(body_builder::specs::Fragments::tree_in))]
pub(crate) fn deepest(laid: &Laid) -> Result<u32, NoMemory>
    ensures { IfOk result (λ n. n ≡ length (tree_in laid.now).file.functions) }
{
    match u32::try_from(laid.file.functions.len()) {
        Ok(count) => Ok(count),
        Err(_) => Err(NoMemory),
    }
}

// How many bodies there are.
#[tactic(auto, unfolding(body_builder::specs::Fragments::tree_in))]
pub(crate) fn body_count(laid: &Laid) -> Result<u32, NoMemory>
    ensures { IfOk result (λ n. n ≡ length (tree_in laid.now).bodies) }
{
    match u32::try_from(laid.bodies.len()) {
        Ok(count) => Ok(count),
        Err(_) => Err(NoMemory),
    }
}

// What is built for a body, with marks in the places of its calls.
#[tactic(auto, using(crate::proofs::GraphPieces::entered), unfolding(body_builder::specs::Fragments::so_far))]
pub(crate) fn fragment(paths: &Paths<'_>, body: u32) -> Result<Fragment, NoMemory>
    ensures { IfOk result (λ f. so_far (tree_in paths.now.laid.now) f ≡ built (tree_in paths.now.laid.now) body) }
{
    let mut to = Fragment {
        items: Vec::new(paths.alloc),
        node: 0,
        nodes: 1,
        temps: 0,
    };
    let end = end_of(paths.laid, body);
    let path = first_path(paths.laid, body);
    let depth = deepest(paths.laid)?;
    paths.build(&mut to, end, path, depth)?;
    Ok(to)
}

// The graph of a body; none where it has too many nodes.
#[tactic(auto, using(crate::proofs::GraphPieces::whole, crate::proofs::GraphPieces::over))]
fn graph(paths: &Paths<'_>, scale: Scale, body: u32) -> Result<Option<Graph>, NoMemory>
    ensures { IfOk result (λ found. IsOne scale (tree_in paths.now.laid.now) body found) }
{
    let fragment = fragment(paths, body)?;
    let nodes = fragment.nodes;
    if nodes as u64 > scale.number(Limit::Nodes) {
        return Ok(None);
    }
    let edges = paths.expand(fragment.items)?;
    Ok(Some(Graph { body, nodes, edges }))
}

// The graphs of the bodies; none where one has too many nodes.
#[tactic(auto, using(crate::proofs::GraphPieces::one_more))]
fn graphs(paths: &Paths<'_>, scale: Scale) -> Result<Option<Vec<Graph>>, NoMemory>
    ensures { IfOk result (λ found. AreAll scale (tree_in paths.now.laid.now) (option_map (λ v. v.items) found)) }
{
    let count = body_count(paths.laid)?;
    let mut graphs = Vec::new(paths.alloc);
    for body in 0..count {
        let Some(one) = graph(paths, scale, body)? else {
            return Ok(None);
        };
        graphs.push(one)?;
    }
    Ok(Some(graphs))
}

// The same, with the sizes of all paths.
fn found(alloc: Global, scale: Scale, laid: &Laid) -> Result<Option<Vec<Graph>>, NoMemory>
    ensures { IfOk result (λ found. AreAll scale (tree_in laid.now) (option_map (λ v. v.items) found)) }
{
    let sizes = path_sizes(alloc, laid, deepest(laid)?)?;
    let paths = Paths {
        alloc,
        laid,
        sizes: &sizes,
    };
    graphs(&paths, scale)
}

/// The graph of each body of a program, in the order of the bodies. Refused: Limit nodes where the graph of some body
/// has more nodes than the scale allows. A path that no graph goes along, as that of the call in `0 && f()`, counts for
/// nothing.
#[tactic(auto, unfolding(body_builder::specs::Fragments::tree_in))]
pub fn lower(alloc: Global, scale: Scale, laid: &Laid) -> Result<Graphs, Fail>
    ensures { IsLowered scale (laid_tree laid.now) (result_map_both (λ g. g.graphs.items) (λ e. e) result) }
{
    match found(alloc, scale, laid) {
        Ok(Some(graphs)) => Ok(Graphs { graphs }),
        Ok(None) => Err(refused(Limit::Nodes)),
        Err(_) => Err(Fail::NoMemory),
    }
}
