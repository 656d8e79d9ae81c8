//! Whether a table covers its equations.
ghost use Rattle.std.specs.Prelude.{◌≡◌, ◌<◌, ◌↔◌, ℕ, suc, length, None, IfSome, IfOk, IsTrue, slice_index_or, true};
ghost use Rattle.std.specs.Prelude.{false};
ghost use Rattle.tm_lattice.specs.Tables.{IsBelow, joined_at};
ghost use Rattle.table_covers.specs.Solutions.{at, along, gathered, AreFitting, IsCovered, IsEdgeCovered, IsSolution};
ghost use Rattle.table_covers.specs.Solutions.{IsFirstUncovered, IsEntryCovered, entry_at};

use crate::equations::Equations;
use crate::tables::no_states;
use std::alloc::Global;
use tm_lattice::{Lattice, NoMemory};

/// What of a system a table does not cover.
#[derive(Clone, Copy)]
pub enum Uncovered {
    /// What stands at node 0 besides what its edges bring.
    Entry,
    /// An edge, by its number.
    Edge(usize),
}

/// The first that the table does not cover: the entry, or else the edge with the least number. None exactly where it
/// is a solution.
///
/// Each edge is applied once: those into heads for the join that arrives there, the others by themselves.
pub fn first_uncovered<E: Equations>(
    alloc: Global,
    system: &E,
    table: &[Option<E::State>],
) -> Result<Option<Uncovered>, NoMemory>
    requires system { E.is_system system.now }
    requires nodes { length table.now ≡ (E.system_of system.now).node_count }
    requires fits { AreFitting E.State.Lattice (E.fits system.now) (E.system_of system.now) (at table.now) }
    ensures solution { IfOk result (λ first. (first ≡ None)
        ↔ IsSolution E.State.Lattice (E.fits system.now) (E.system_of system.now) (at table.now)) }
    ensures first { IfOk result (λ first. IfSome first
        (IsFirstUncovered E.State.Lattice (E.fits system.now) (E.system_of system.now) (at table.now))) }
{
    if !is_entry_covered(alloc, system, table)? {
        return Ok(Some(Uncovered::Entry));
    }
    let covered = covered_nodes(alloc, system, table)?;
    for edge in 0..system.links().len() {
        if !is_edge_covered(alloc, system, table, &covered, edge)? {
            return Ok(Some(Uncovered::Edge(edge)));
        }
    }
    Ok(None)
}

// Whether the table is at least what stands at node 0 besides what its edges bring.
fn is_entry_covered<E: Equations>(
    alloc: Global,
    system: &E,
    table: &[Option<E::State>],
) -> Result<bool, NoMemory>
    requires system { E.is_system system.now }
    requires nodes { length table.now ≡ (E.system_of system.now).node_count }
    ensures { IfOk result (λ yes. IsTrue yes
        ↔ IsEntryCovered E.State.Lattice (E.fits system.now) (E.system_of system.now) (at table.now)) }
{
    let entry = system.first(alloc)?;
    Ok(is_below(&entry, &table[0]))
}

// Whether each head is covered, from the join of what arrives there.
fn covered_nodes<E: Equations>(
    alloc: Global,
    system: &E,
    table: &[Option<E::State>],
) -> Result<Vec<bool>, NoMemory>
    requires system { E.is_system system.now }
    requires nodes { length table.now ≡ (E.system_of system.now).node_count }
    requires fits { AreFitting E.State.Lattice (E.fits system.now) (E.system_of system.now) (at table.now) }
    ensures nodes { IfOk result (λ covered. length covered.items ≡ (E.system_of system.now).node_count) }
    ensures covered { IfOk result (λ covered.
        (n : ℕ) → n < (E.system_of system.now).node_count → (E.system_of system.now).heads n ≡ true
        → (IsTrue (slice_index_or covered.items n false)
        ↔ IsCovered E.State.Lattice (E.fits system.now) (E.system_of system.now) (at table.now) n)) }
{
    let arrived = arrivals(alloc, system, table)?;
    covered_heads(alloc, system, table, &arrived)
}

// Whether the one state is below the other, where None is bottom.
fn is_below<L: Lattice>(one: &Option<L>, other: &Option<L>) -> bool
    ensures { IsTrue result ↔ IsBelow L.leq one.now other.now }
{
    match (one, other) {
        (None, _) => true,
        (Some(_), None) => false,
        (Some(a), Some(b)) => a.below(b),
    }
}

// The join of what the entry and all edges bring, at each head.
fn arrivals<E: Equations>(
    alloc: Global,
    system: &E,
    table: &[Option<E::State>],
) -> Result<Vec<Option<E::State>>, NoMemory>
    requires system { E.is_system system.now }
    requires nodes { length table.now ≡ (E.system_of system.now).node_count }
    requires fits { AreFitting E.State.Lattice (E.fits system.now) (E.system_of system.now) (at table.now) }
    ensures nodes { IfOk result (λ arrived. length arrived.items ≡ (E.system_of system.now).node_count) }
    ensures all { IfOk result (λ arrived.
        (n : ℕ) → n < (E.system_of system.now).node_count → (E.system_of system.now).heads n ≡ true
        → slice_index_or arrived.items n None
        ≡ gathered E.State.Lattice (E.fits system.now) (E.system_of system.now)
        (length (E.system_of system.now).links) n (at table.now)) }
{
    let mut arrived = entered(alloc, system)?;
    for edge in 0..system.links().len() {
        arrive(alloc, system, table, &mut arrived, edge)?;
    }
    Ok(arrived)
}

// What the entry brings to each node.
fn entered<E: Equations>(alloc: Global, system: &E) -> Result<Vec<Option<E::State>>, NoMemory>
    requires { E.is_system system.now }
    ensures nodes { IfOk result (λ arrived. length arrived.items ≡ (E.system_of system.now).node_count) }
    ensures all { IfOk result (λ arrived. (n : ℕ) → slice_index_or arrived.items n None
        ≡ entry_at (E.system_of system.now).entry n) }
{
    let first = system.first(alloc)?;
    let mut arrived = no_states(alloc, system.nodes())?;
    arrived[0] = first;
    Ok(arrived)
}

// Joins what one edge brings to a head.
fn arrive<E: Equations>(
    alloc: Global,
    system: &E,
    table: &[Option<E::State>],
    arrived: &mut [Option<E::State>],
    edge: usize,
) -> Result<(), NoMemory>
    requires system { E.is_system system.now }
    requires nodes { length table.now ≡ (E.system_of system.now).node_count }
    requires arrived { length arrived.old ≡ (E.system_of system.now).node_count }
    requires fits { AreFitting E.State.Lattice (E.fits system.now) (E.system_of system.now) (at table.now) }
    requires edge { edge < length (E.system_of system.now).links }
    requires so_far { (n : ℕ) → n < (E.system_of system.now).node_count → (E.system_of system.now).heads n ≡ true
        → slice_index_or arrived.old n None
        ≡ gathered E.State.Lattice (E.fits system.now) (E.system_of system.now) edge n (at table.now) }
    ensures { IfOk result (λ _.
        (n : ℕ) → n < (E.system_of system.now).node_count → (E.system_of system.now).heads n ≡ true
        → slice_index_or arrived.new n None
        ≡ gathered E.State.Lattice (E.fits system.now) (E.system_of system.now) (suc edge) n (at table.now)) }
{
    let to = system.links()[edge].to;
    if !system.is_head(to) {
        return Ok(());
    }
    let brought = along_edge(alloc, system, table, edge)?;
    let joined = joined_states(alloc, &arrived[to], brought)?;
    arrived[to] = joined;
    Ok(())
}

// The join of two states or bottoms.
fn joined_states<L: Lattice>(
    alloc: Global,
    one: &Option<L>,
    other: Option<L>,
) -> Result<Option<L>, NoMemory>
    ensures { IfOk result (λ both. both ≡ joined_at L.joined one.now other) }
{
    match (one, other) {
        (None, other) => Ok(other),
        (Some(a), None) => Ok(Some(a.copied(alloc)?)),
        (Some(a), Some(b)) => Ok(Some(a.join(alloc, &b)?)),
    }
}

// What an edge brings.
fn along_edge<E: Equations>(
    alloc: Global,
    system: &E,
    table: &[Option<E::State>],
    edge: usize,
) -> Result<Option<E::State>, NoMemory>
    requires system { E.is_system system.now }
    requires nodes { length table.now ≡ (E.system_of system.now).node_count }
    requires fits { AreFitting E.State.Lattice (E.fits system.now) (E.system_of system.now) (at table.now) }
    requires edge { edge < length (E.system_of system.now).links }
    ensures { IfOk result (λ brought.
        brought ≡ along E.State.Lattice (E.fits system.now) (E.system_of system.now) edge (at table.now)) }
{
    let from = system.links()[edge].from;
    match &table[from] {
        None => Ok(None),
        Some(state) => system.apply(alloc, edge, state),
    }
}

// Whether each head is covered.
fn covered_heads<E: Equations>(
    alloc: Global,
    system: &E,
    table: &[Option<E::State>],
    arrived: &[Option<E::State>],
) -> Result<Vec<bool>, NoMemory>
    requires system { E.is_system system.now }
    requires nodes { length table.now ≡ (E.system_of system.now).node_count }
    requires arrived { length arrived.now ≡ (E.system_of system.now).node_count }
    requires fits { AreFitting E.State.Lattice (E.fits system.now) (E.system_of system.now) (at table.now) }
    requires all { (n : ℕ) → n < (E.system_of system.now).node_count → (E.system_of system.now).heads n ≡ true
        → slice_index_or arrived.now n None
        ≡ gathered E.State.Lattice (E.fits system.now) (E.system_of system.now)
        (length (E.system_of system.now).links) n (at table.now) }
    ensures nodes { IfOk result (λ covered. length covered.items ≡ (E.system_of system.now).node_count) }
    ensures covered { IfOk result (λ covered.
        (n : ℕ) → n < (E.system_of system.now).node_count → (E.system_of system.now).heads n ≡ true
        → (IsTrue (slice_index_or covered.items n false)
        ↔ IsCovered E.State.Lattice (E.fits system.now) (E.system_of system.now) (at table.now) n)) }
{
    let mut covered = Vec::new(alloc);
    for node in 0..system.nodes() {
        covered.push(is_head_covered(alloc, system, table, arrived, node)?)?;
    }
    Ok(covered)
}

// Whether a head is covered. Nothing is said of other nodes.
fn is_head_covered<E: Equations>(
    alloc: Global,
    system: &E,
    table: &[Option<E::State>],
    arrived: &[Option<E::State>],
    node: usize,
) -> Result<bool, NoMemory>
    requires system { E.is_system system.now }
    requires nodes { length table.now ≡ (E.system_of system.now).node_count }
    requires arrived { length arrived.now ≡ (E.system_of system.now).node_count }
    requires fits { AreFitting E.State.Lattice (E.fits system.now) (E.system_of system.now) (at table.now) }
    requires node { node < (E.system_of system.now).node_count }
    requires all { (E.system_of system.now).heads node ≡ true
        → slice_index_or arrived.now node None
        ≡ gathered E.State.Lattice (E.fits system.now) (E.system_of system.now)
        (length (E.system_of system.now).links) node (at table.now) }
    ensures { IfOk result (λ covered. (E.system_of system.now).heads node ≡ true
        → (IsTrue covered
        ↔ IsCovered E.State.Lattice (E.fits system.now) (E.system_of system.now) (at table.now) node)) }
{
    if !system.is_head(node) {
        return Ok(true);
    }
    let Some(state) = &arrived[node] else {
        return Ok(true);
    };
    let rounded = system.rounded(alloc, node, state.copied(alloc)?)?;
    Ok(is_below(&Some(rounded), &table[node]))
}

// Whether an edge is covered.
fn is_edge_covered<E: Equations>(
    alloc: Global,
    system: &E,
    table: &[Option<E::State>],
    covered: &[bool],
    edge: usize,
) -> Result<bool, NoMemory>
    requires system { E.is_system system.now }
    requires nodes { length table.now ≡ (E.system_of system.now).node_count }
    requires flags { length covered.now ≡ (E.system_of system.now).node_count }
    requires fits { AreFitting E.State.Lattice (E.fits system.now) (E.system_of system.now) (at table.now) }
    requires edge { edge < length (E.system_of system.now).links }
    requires covered { (n : ℕ) → n < (E.system_of system.now).node_count → (E.system_of system.now).heads n ≡ true
        → (IsTrue (slice_index_or covered.now n false)
        ↔ IsCovered E.State.Lattice (E.fits system.now) (E.system_of system.now) (at table.now) n) }
    ensures { IfOk result (λ yes. IsTrue yes
        ↔ IsEdgeCovered E.State.Lattice (E.fits system.now) (E.system_of system.now) (at table.now) edge) }
{
    let to = system.links()[edge].to;
    if system.is_head(to) {
        return Ok(covered[to]);
    }
    let brought = along_edge(alloc, system, table, edge)?;
    Ok(is_below(&brought, &table[to]))
}
