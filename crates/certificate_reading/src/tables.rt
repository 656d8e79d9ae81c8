//! The tables of bodies, from their lines.
ghost use Rattle.std.specs.Prelude.{◌≡◌, ◌≤◌, ◌^◌, [], ◌∷◌, pos, length, option_map, IfOk, IfSome, MatchBool};
ghost use Rattle.certificate_words.specs.Words.{line_onto};
ghost use Rattle.certificate_parts.specs.Fronts.{IsNotFront, line_of};
ghost use Rattle.tm_laid.specs.Layouts.{laid_tree};
ghost use Rattle.mutex_configs.specs.graph_facts.Live.{AreLive};
ghost use Rattle.post_recheck.specs.Pairs.{lists_of};
ghost use Rattle.post_recheck.specs.program_systems.Analysable.{IsAnalysable};
ghost use Rattle.post_recheck.specs.program_systems.ProgramFacts.{AreProgramFacts, program_with};
ghost use Rattle.temporary_extents.specs.Extents.{extents_in};
ghost use Rattle.post_recheck.specs.state_fits.Kinds.{InExtents};
ghost use Rattle.post_recheck.specs.state_fits.Fits.{FitsPlace};
ghost use Rattle.certificate_reading.specs.Values.{AreSizes};
ghost use Rattle.certificate_reading.specs.Tables.{IsReadNode, IsReadTable, FitsTable, FitsNodes, AreReadTables};
ghost use Rattle.certificate_reading.specs.Tables.{AreReadNodes, FitsBodyTable};
ghost use Rattle.certificate_reading.specs.reading.Shapes.{IsShape, RiseFrom};
ghost use Rattle.certificate_reading.specs.reading.Cells.{IsKept};

use crate::held::Held;
use crate::kept::Kept;
use crate::shapes::{Shape, shape_of};
use crate::states::state_in;
use body_systems::BodyFacts;
use certificate_parts::Ahead;
use flow_graph::Graph;
use mutex_configs::{ConfiguredGraph, Program};
use post_recheck::{BodyState, ProgramFacts, Table};
use std::alloc::Global;
use temporary_extents::{Extent, extents_in};
use tm_laid::Laid;
use tm_lattice::NoMemory;

/// Steps over the first line where it is that of a tag and this number; true exactly where it is.
fn take_numbered(ahead: &mut Ahead, letters: &[u8], number: u64) -> Result<bool, NoMemory>
    ensures { IfOk result (λ taken. MatchBool taken
        (ahead.old ≡ line_onto (line_of letters.now (pos number ∷ [])) ahead.new)
        ((ahead.new ≡ ahead.old) × IsNotFront (line_of letters.now (pos number ∷ [])) ahead.old)) }
{
    ahead.take(letters, &[i128::from(number)])
}

/// Reads the state of a node, where it has one.
fn node_in<'a>(
    alloc: Global,
    ahead: &mut Ahead<'a>,
    laid: &Laid,
    sizes: &[u32],
    body: u32,
    shape: &Shape,
    extents: &[Extent],
    live: &[u32],
    node: usize,
    kept: &mut Kept<'a>,
) -> Result<Option<Option<BodyState>>, NoMemory>
    requires sizes { AreSizes (laid_tree laid.now) sizes.now }
    requires few { length sizes.now ≤ 2 ^ 32 }
    requires cells { length laid.now.abstract_cells.items ≤ 65536 }
    requires shape { IsShape (laid_tree laid.now) body shape.now }
    requires live { RiseFrom 0 live.now }
    requires kept { IsKept (laid_tree laid.now) shape.now kept.old }
    ensures node { IfOk result (λ found. IsReadNode
        (λ n. FitsPlace (laid_tree laid.now) body (InExtents (laid_tree laid.now) extents.now) live.now) node
        ahead.old found ahead.new) }
    ensures kept { IfOk result (λ found. IfSome found (λ at.
        IsKept (laid_tree laid.now) shape.now kept.new)) }
{
    let taken = take_numbered(ahead, b"node", node as u64)?;
    if !taken {
        return Ok(Some(None));
    }
    let found = state_in(alloc, ahead, laid, body, sizes, shape, extents, live, kept)?;
    match found {
        None => Ok(None),
        Some(state) => Ok(Some(Some(BodyState::new(state)))),
    }
}

/// Reads the states of all nodes of a body.
fn nodes_in(
    alloc: Global,
    ahead: &mut Ahead,
    laid: &Laid,
    sizes: &[u32],
    body: u32,
    graph: &Graph,
    configured: &ConfiguredGraph,
    known: &BodyFacts,
) -> Result<Option<Table>, NoMemory>
    requires sizes { AreSizes (laid_tree laid.now) sizes.now }
    requires few { length sizes.now ≤ 2 ^ 32 }
    requires cells { length laid.now.abstract_cells.items ≤ 65536 }
    requires live { AreLive graph.now.edges.items graph.now.nodes known.now.live }
    ensures { IfOk result (λ found. AreReadNodes (FitsNodes (laid_tree laid.now) body (extents_in graph.now.edges.items)
        configured.now.nodes.keys known.now.live) (length configured.now.nodes.keys) ahead.old
        (option_map (λ v. v.items) found) ahead.new) }
{
    let extents = extents_in(alloc, graph)?;
    let shape = shape_of(alloc, laid, body)?;
    let nodes = configured.nodes.as_slice();
    let mut kept = Kept::new(alloc);
    let mut table = Vec::new(alloc);
    for node in 0..nodes.len() {
        let live = known.live_at(nodes[node].place);
        let found = node_in(
            alloc, ahead, laid, sizes, body, &shape, &extents, live, node, &mut kept,
        )?;
        match found {
            None => return Ok(None),
            Some(at) => table.push(at)?,
        }
    }
    Ok(Some(table))
}

/// Reads the table of a body.
fn table_in(
    alloc: Global,
    ahead: &mut Ahead,
    laid: &Laid,
    sizes: &[u32],
    body: u32,
    graph: &Graph,
    configured: &ConfiguredGraph,
    known: &BodyFacts,
) -> Result<Option<Table>, NoMemory>
    requires sizes { AreSizes (laid_tree laid.now) sizes.now }
    requires few { length sizes.now ≤ 2 ^ 32 }
    requires cells { length laid.now.abstract_cells.items ≤ 65536 }
    requires live { AreLive graph.now.edges.items graph.now.nodes known.now.live }
    ensures { IfOk result (λ found. IsReadTable (λ t. FitsTable (FitsNodes (laid_tree laid.now) body
        (extents_in graph.now.edges.items) configured.now.nodes.keys known.now.live)
        (length configured.now.nodes.keys)) body ahead.old (option_map (λ v. v.items) found) ahead.new) }
{
    let taken = take_numbered(ahead, b"task", u64::from(body))?;
    if !taken {
        return Ok(None);
    }
    let found = nodes_in(alloc, ahead, laid, sizes, body, graph, configured, known)?;
    Ok(found)
}

/// Reads the table of a body, and lets go of its lines.
fn table_from(
    alloc: Global,
    text: &mut Held,
    laid: &Laid,
    sizes: &[u32],
    body: u32,
    graph: &Graph,
    configured: &ConfiguredGraph,
    known: &BodyFacts,
) -> Result<Option<Table>, NoMemory>
    requires sizes { AreSizes (laid_tree laid.now) sizes.now }
    requires few { length sizes.now ≤ 2 ^ 32 }
    requires cells { length laid.now.abstract_cells.items ≤ 65536 }
    requires live { AreLive graph.now.edges.items graph.now.nodes known.now.live }
    ensures { IfOk result (λ found. IsReadTable (λ t. FitsTable (FitsNodes (laid_tree laid.now) body
        (extents_in graph.now.edges.items) configured.now.nodes.keys known.now.live)
        (length configured.now.nodes.keys)) body text.old (option_map (λ v. v.items) found) text.new) }
{
    let mut ahead = Ahead::new(alloc, text.rest())?;
    let found = table_in(
        alloc, &mut ahead, laid, sizes, body, graph, configured, known,
    )?;
    match found {
        None => Ok(None),
        Some(table) => {
            let left = ahead.rest().len();
            drop(ahead);
            text.keep(left);
            Ok(Some(table))
        }
    }
}

/// Reads the tables of all bodies of a program: those of the tasks, then that of the initial section. What has been
/// read is let go of.
pub(crate) fn tables_in(
    alloc: Global,
    text: &mut Held,
    program: &Program,
    facts: &ProgramFacts,
    sizes: &[u32],
) -> Result<Option<Vec<Table>>, NoMemory>
    requires analysable { IsAnalysable program.now }
    requires facts { AreProgramFacts program.now facts.now }
    requires sizes { AreSizes (laid_tree program.now.laid) sizes.now }
    requires few { length sizes.now ≤ 2 ^ 32 }
    ensures { IfOk result (λ found. let p = program_with program.now facts.now in
        AreReadTables (FitsBodyTable p) (length p.bodies) text.old (option_map (λ v. lists_of v.items) found)
        text.new) }
{
    let graphs = &program.graphs.graphs;
    let configured = &program.configured;
    let known = facts.bodies();
    let mut tables = Vec::new(alloc);
    for body in 0..graphs.len() {
        let found = table_from(
            alloc,
            text,
            &program.laid,
            sizes,
            body as u32,
            &graphs[body],
            &configured[body],
            &known[body],
        )?;
        match found {
            None => return Ok(None),
            Some(table) => tables.push(table)?,
        }
    }
    Ok(Some(tables))
}
