//! Configured programs.
ghost use Rattle.std.specs.Prelude.{◌≡◌, ◌≤◌, ◌<◌, ◌^◌, ◌↔◌, length, All, IfOk, IsTrue, option_map};
ghost use Rattle.std.specs.Result.{result_map_both};
ghost use Rattle.tm_terms.specs.declared.refusals.Fail.TheVariants as Fails;
ghost use Rattle.tm_terms.specs.declared.refusals.Limit.TheVariants as Limits;
ghost use Rattle.tm_laid.specs.Layouts.{laid_tree, beyond};
ghost use Rattle.tm_laid.specs.Scales.{number_on};
ghost use Rattle.flow_graph.specs.declared.graphs.Graph.{Graph as AGraph};
ghost use Rattle.mutex_configs.specs.Graphs.{IsGraph};
ghost use Rattle.mutex_configs.specs.Programs.{is_owned_by, is_seen, seen_cells, work_from, AreConfigured, IsAnswer};
ghost use Rattle.mutex_configs.specs.declared.nodes.ConfiguredGraph.{ConfiguredGraph as AConfigured};
ghost use Rattle.mutex_configs.specs.reading.Configuring.{IsOne, AreAll};

use crate::copies::copies;
use crate::nodes::ConfiguredGraph;
use crate::reached::reached;
use flow_graph::{Graph, Graphs};
use std::alloc::Global;
use strided_dom::Marks;
use tm_laid::{AbstractCell, Laid, Scale, object_at, path_at};
use tm_lattice::NoMemory;
use tm_terms::{Fail, Kind, Limit, Place, Refusal};

/// A program that can be analysed: its layout, the graphs of its bodies with their configured graphs, and the
/// thresholds onto which its values are rounded.
pub struct Program {
    pub laid: Laid,
    pub graphs: Graphs,
    pub configured: Vec<ConfiguredGraph>,
    pub marks: Marks,
}

// By hand: a function that lets one go calls this, and its check does not go through the fields.
impl Drop for Program {
    fn drop(self) {
        let Program {
            laid: _laid,
            graphs: _graphs,
            configured: _configured,
            marks: _marks,
        } = self;
    }
}

// The refusal by a limit.
fn refused(limit: Limit) -> Fail
    ensures { result ≡ Fails.Refused (beyond limit) }
{
    Fail::Refused(Refusal {
        kind: Kind::Limit,
        place: Place { line: 0, col: 0 },
        limit: Some(limit),
    })
}

// The configured graph of a graph; none where it has too many nodes.
fn configured_graph(
    alloc: Global,
    scale: Scale,
    graph: &Graph,
) -> Result<Option<ConfiguredGraph>, NoMemory>
    requires { IsGraph graph.now }
    ensures { IfOk result (λ found. IsOne scale graph.now found) }
{
    let Some(nodes) = reached(alloc, graph, scale.number(Limit::Nodes) as usize)? else {
        return Ok(None);
    };
    let copies = copies(alloc, graph, &nodes)?;
    Ok(Some(ConfiguredGraph { nodes, copies }))
}

// The configured graphs of graphs; none where one has too many nodes.
fn configured_graphs(
    alloc: Global,
    scale: Scale,
    graphs: &[Graph],
) -> Result<Option<Vec<ConfiguredGraph>>, NoMemory>
    requires { All IsGraph graphs.now }
    ensures { IfOk result (λ found. AreAll scale graphs.now (option_map (λ v. v.items) found)) }
{
    let mut configured = Vec::new(alloc);
    for graph in graphs {
        let Some(one) = configured_graph(alloc, scale, graph)? else {
            return Ok(None);
        };
        configured.push(one)?;
    }
    Ok(Some(configured))
}

// Whether an object with this owner is static, or belongs to the body.
fn is_own(laid: &Laid, body: u32, owner: Option<u32>) -> bool
    ensures { result ≡ is_owned_by (laid_tree laid.now) body owner }
{
    match owner {
        None => true,
        Some(path) => path_at(laid, path).body == body,
    }
}

// Whether an abstract cell is static, or belongs to the body.
fn is_cell_seen(laid: &Laid, body: u32, cell: AbstractCell) -> bool
    ensures { result ≡ is_seen (laid_tree laid.now) body cell }
{
    is_own(laid, body, object_at(laid, cell.object).owner)
}

// How many abstract cells are static or the body's own.
fn cells_seen(laid: &Laid, body: u32) -> u32
    requires { length laid.now.abstract_cells.items ≤ 65536 }
    ensures count { result ≡ seen_cells (laid_tree laid.now) body }
    ensures most { result ≤ 65536 }
{
    let mut count = 0;
    for cell in &laid.abstract_cells {
        if is_cell_seen(laid, body, *cell) {
            count += 1;
        }
    }
    count
}

// Whether the work of the configured graphs is within the limit.
fn is_within_work(scale: Scale, laid: &Laid, configured: &[ConfiguredGraph]) -> bool
    requires cells { length laid.now.abstract_cells.items ≤ 65536 }
    requires nodes { All (λ (c : AConfigured). length c.nodes.keys ≤ 200000) configured.now }
    requires bodies { length configured.now < 2 ^ 32 }
    ensures { IsTrue result ↔ (work_from (laid_tree laid.now) 0 configured.now ≤ number_on scale Limits.Work) }
{
    let most = scale.number(Limit::Work);
    let mut work = 0u64;
    for body in 0..configured.len() {
        let nodes = configured[body].nodes.len() as u64;
        work += nodes * u64::from(cells_seen(laid, body as u32));
        if work > most {
            return false;
        }
    }
    true
}

// The configured graphs of a layout's graphs, within the limits.
fn within_limits(
    alloc: Global,
    scale: Scale,
    laid: &Laid,
    graphs: &[Graph],
) -> Result<Vec<ConfiguredGraph>, Fail>
    requires graphs { All IsGraph graphs.now }
    requires cells { length laid.now.abstract_cells.items ≤ 65536 }
    requires bodies { length graphs.now < 2 ^ 32 }
    ensures { IsAnswer scale (laid_tree laid.now) graphs.now (result_map_both (λ v. v.items) (λ e. e) result) }
{
    let Some(configured) = configured_graphs(alloc, scale, graphs)? else {
        return Err(refused(Limit::Nodes));
    };
    if is_within_work(scale, laid, &configured) {
        Ok(configured)
    } else {
        Err(refused(Limit::Work))
    }
}

/// A program with its configured graphs. Refused: Limit nodes where more nodes than the scale allows are reached in the
/// graph of some body; else Limit work where the nodes of each body, each times the abstract cells that are static or
/// the body's own, are more in all than the scale allows.
pub fn configured(
    alloc: Global,
    scale: Scale,
    laid: Laid,
    graphs: Graphs,
    marks: Marks,
) -> Result<Program, Fail>
    requires graphs { All IsGraph graphs.graphs.items }
    requires cells { length laid.abstract_cells.items ≤ 65536 }
    requires bodies { length graphs.graphs.items < 2 ^ 32 }
    ensures answer { IsAnswer scale (laid_tree laid) graphs.graphs.items
        (result_map_both (λ p. p.configured.items) (λ e. e) result) }
    ensures laid { IfOk result (λ p. laid_tree p.laid ≡ laid_tree laid) }
    ensures order { IfOk result (λ p. p.laid.file.order.items ≡ laid.file.order.items) }
    ensures graphs { IfOk result (λ p. p.graphs ≡ graphs) }
    ensures marks { IfOk result (λ p. p.marks ≡ marks) }
{
    match within_limits(alloc, scale, &laid, &graphs.graphs) {
        Ok(configured) => Ok(Program {
            laid,
            graphs,
            configured,
            marks,
        }),
        Err(fail) => Err(fail),
    }
}
