//! The work list: edges are applied until none brings more.
ghost use Rattle.std.specs.Prelude.{◌≡◌, ◌<◌, ℕ, length, Some, None, IfOk, IsOk, IsTrue, MatchBool, slice_index_or};
ghost use Rattle.std.specs.Prelude.{true};
ghost use Rattle.table_covers.specs.Solutions.{NodeTable, at, IsStarted, IsClosedTable, IsLeastSolution};
ghost use Rattle.least_tables.specs.Settling.{IsMetOrPending, IsLeastAbove, IsVisited, first_table};
ghost use Rattle.least_tables.specs.reading.WorkLists.{IsStart, IsStep, IsIndex, AreFollowed};

use crate::leaving_edges::{Leaving, no_edges};
use crate::pending::{all_pending, next_pending};
use crate::raising::bring;
use crate::sweeps::Sweep;
use std::alloc::Global;
use table_covers::{Equations, no_states};
use tm_lattice::NoMemory;

/// A table with which the work list ended.
pub struct Settled<S> {
    /// The table: a state for each node, None where it is bottom.
    pub table: Vec<Option<S>>,
    /// How many edges were applied; 2^64 - 1 stands for that many or more.
    pub visits: u64,
}

/// The least solution: the table with which the work list ends that begins with bottom and with all edges pending.
pub fn least_table<E: Equations>(alloc: Global, system: &E) -> Result<Settled<E::State>, NoMemory>
    requires { E.is_system system.now }
    ensures nodes { IfOk result (λ last. length last.table.items ≡ (E.system_of system.now).node_count) }
    ensures least { IfOk result (λ last.
        IsLeastSolution E.State.Lattice (E.fits system.now) (E.system_of system.now) (at last.table.items)) }
    ensures visits { IfOk result (λ last.
        IsVisited E.State.Lattice (E.fits system.now) (E.system_of system.now) last.visits
        (first_table E.State.Lattice (E.fits system.now) (E.system_of system.now)) (at last.table.items)) }
{
    let start = started(alloc, system)?;
    let pending = all_pending(alloc, system.links().len())?;
    let settled = settle(alloc, system, start, pending)?;
    Ok(settled)
}

/// Applies the pending edges, and those that leave a node which rose, until no edge brings more: a closed table, and
/// the least one above the given one. The start may be bottom with all edges pending, or an earlier least table over
/// less with those that now bring more. It tells how many edges it applied: so many, one after another, lead from the
/// given table to its own.
pub fn settle<E: Equations>(
    alloc: Global,
    system: &E,
    mut table: Vec<Option<E::State>>,
    mut pending: Vec<bool>,
) -> Result<Settled<E::State>, NoMemory>
    requires system { E.is_system system.now }
    requires nodes { length table.items ≡ (E.system_of system.now).node_count }
    requires edges { length pending.items ≡ length (E.system_of system.now).links }
    requires started { IsStarted E.State.Lattice (E.fits system.now) (E.system_of system.now) (at table.items) }
    requires pending { IsMetOrPending E.State.Lattice (E.fits system.now) (E.system_of system.now)
        (at table.items) pending.items }
    ensures nodes { IfOk result (λ last. length last.table.items ≡ length table.items) }
    ensures closed { IfOk result (λ last.
        IsClosedTable E.State.Lattice (E.fits system.now) (E.system_of system.now) (at last.table.items)) }
    ensures least { IfOk result (λ last.
        IsLeastAbove E.State.Lattice (E.fits system.now) (E.system_of system.now) (at table.items)
        (at last.table.items)) }
    ensures visits { IfOk result (λ last.
        IsVisited E.State.Lattice (E.fits system.now) (E.system_of system.now) last.visits (at table.items)
        (at last.table.items)) }
{
    let leaving = Leaving::new(alloc, system.links(), system.nodes())?;
    let sweep = Sweep::new(alloc, &leaving)?;
    let mut followed = no_edges(alloc, system.nodes())?;
    let visits = run(
        alloc,
        system,
        &leaving,
        &sweep,
        &mut table,
        &mut pending,
        &mut followed,
    )?;
    Ok(Settled { table, visits })
}

// The loop, which tells how many edges it applied. Of the pending edges the first in the order of the sweep comes next. At a node stands the edge that
// brought what is there, where it is known that it brings no less today: its next state is taken and not joined.
fn run<E: Equations>(
    alloc: Global,
    system: &E,
    leaving: &Leaving<'_>,
    sweep: &Sweep,
    table: &mut [Option<E::State>],
    pending: &mut [bool],
    followed: &mut [Option<usize>],
) -> Result<u64, NoMemory>
    requires system { E.is_system system.now }
    requires links { leaving.now.links.now ≡ (E.system_of system.now).links }
    requires index { IsIndex leaving.now.links.now (E.system_of system.now).node_count
        leaving.now.last.items leaving.now.before.items }
    requires nodes { length table.old ≡ (E.system_of system.now).node_count }
    requires edges { length pending.old ≡ length (E.system_of system.now).links }
    requires started { IsStarted E.State.Lattice (E.fits system.now) (E.system_of system.now) (at table.old) }
    requires pending { IsMetOrPending E.State.Lattice (E.fits system.now) (E.system_of system.now)
        (at table.old) pending.old }
    requires notes { length followed.old ≡ (E.system_of system.now).node_count }
    requires followed { AreFollowed E.State.Lattice (E.fits system.now) (E.system_of system.now)
        (at table.old) followed.old }
    ensures closed { IsOk result
        → IsClosedTable E.State.Lattice (E.fits system.now) (E.system_of system.now) (at table.new) }
    ensures least { IsOk result
        → IsLeastAbove E.State.Lattice (E.fits system.now) (E.system_of system.now) (at table.old) (at table.new) }
    ensures visits { IfOk result (λ visits.
        IsVisited E.State.Lattice (E.fits system.now) (E.system_of system.now) visits (at table.old) (at table.new)) }
{
    let mut visits = 0;
    let mut place = 0;
    while let Some(edge) = next_pending(&sweep.edges, pending, &mut place) {
        let rose = step(
            alloc,
            system,
            leaving,
            table,
            pending,
            followed,
            &mut visits,
            edge,
        )?;
        if rose {
            place = place.min(sweep.place_of(leaving.links[edge].to));
        }
    }
    Ok(visits)
}

// Applies one edge, and counts it, where a state stands at the node that it leaves. It is pending no longer unless it
// leads back to where it came from. True where its node rose.
fn step<E: Equations>(
    alloc: Global,
    system: &E,
    leaving: &Leaving<'_>,
    table: &mut [Option<E::State>],
    pending: &mut [bool],
    followed: &mut [Option<usize>],
    visits: &mut u64,
    edge: usize,
) -> Result<bool, NoMemory>
    requires system { E.is_system system.now }
    requires links { leaving.now.links.now ≡ (E.system_of system.now).links }
    requires index { IsIndex leaving.now.links.now (E.system_of system.now).node_count
        leaving.now.last.items leaving.now.before.items }
    requires nodes { length table.old ≡ (E.system_of system.now).node_count }
    requires edges { length pending.old ≡ length (E.system_of system.now).links }
    requires edge { edge < length (E.system_of system.now).links }
    requires pending { slice_index_or pending.old edge true ≡ true }
    requires started { IsStarted E.State.Lattice (E.fits system.now) (E.system_of system.now) (at table.old) }
    requires met { IsMetOrPending E.State.Lattice (E.fits system.now) (E.system_of system.now)
        (at table.old) pending.old }
    requires notes { length followed.old ≡ (E.system_of system.now).node_count }
    requires followed { AreFollowed E.State.Lattice (E.fits system.now) (E.system_of system.now)
        (at table.old) followed.old }
    ensures step { IsOk result → IsStep E.State.Lattice (E.fits system.now) (E.system_of system.now)
        table.old pending.old table.new pending.new }
    ensures followed { IsOk result → AreFollowed E.State.Lattice (E.fits system.now) (E.system_of system.now)
        (at table.new) followed.new }
    ensures visits { IsOk result → (before : NodeTable E.State)
        → IsVisited E.State.Lattice (E.fits system.now) (E.system_of system.now) visits.old before (at table.old)
        → IsVisited E.State.Lattice (E.fits system.now) (E.system_of system.now) visits.new before (at table.new) }
{
    pending[edge] = false;
    let link = leaving.links[edge];
    let Some(state) = &table[link.from] else {
        return Ok(false);
    };
    *visits = visits.saturating_add(1);
    let Some(brought) = system.apply(alloc, edge, state)? else {
        return Ok(false);
    };
    let follows = is_noted(followed, link.to, edge);
    let raised = bring(alloc, system, table, link.to, brought, follows)?;
    if raised.rose {
        leaving.mark(link.to, pending);
        followed[link.to] = note(edge, raised.is_taken);
        return Ok(true);
    }
    Ok(false)
}

// Whether the edge is noted at the node.
fn is_noted(followed: &[Option<usize>], node: usize, edge: usize) -> bool
    requires { node < length followed.now }
    ensures { IsTrue result → slice_index_or followed.now node None ≡ Some edge }
{
    match followed[node] {
        None => false,
        Some(noted) => noted == edge,
    }
}

// The edge, if it is to be noted.
fn note(edge: usize, is_taken: bool) -> Option<usize>
    ensures { MatchBool is_taken (result ≡ Some edge) (result ≡ None) }
{
    if is_taken {
        return Some(edge);
    }
    None
}

// Bottom at each node, but for what stands at the first one besides.
fn started<E: Equations>(alloc: Global, system: &E) -> Result<Vec<Option<E::State>>, NoMemory>
    requires { E.is_system system.now }
    ensures { IfOk result (λ table. IsStart E.State.Lattice (E.fits system.now) (E.system_of system.now) table.items) }
{
    let mut table = no_states(alloc, system.nodes())?;
    let Some(state) = system.first(alloc)? else {
        return Ok(table);
    };
    table[0] = Some(system.rounded(alloc, 0, state)?);
    Ok(table)
}
