//! What the edges of a table contribute.
ghost use Rattle.std.specs.Prelude.{◌≡◌, ◌<◌, ℕ, length, slice_index_or, true, false, IfOk, IfSome, option_map};
ghost use Rattle.table_covers.specs.Systems.{from_of};
ghost use Rattle.table_covers.specs.Solutions.{at, AreFitting};
ghost use Rattle.table_covers.specs.Passes.{added_below};
ghost use Rattle.edge_contributions.specs.reading.Bounds.{AddTo};

use crate::joins::joined_all;
use std::alloc::Global;
use table_covers::Contributions;
use tm_lattice::{Lattice, NoMemory};

// Whether an edge is marked; one that has no mark counts as marked.
fn may_add(adds: &[bool], edge: usize) -> bool
    ensures { result ≡ slice_index_or adds.now edge true }
{
    match adds.get(edge) {
        None => true,
        Some(mark) => *mark,
    }
}

// What an edge contributes, where it leaves a node with a state.
fn contribution_at<C: Contributions>(
    alloc: Global,
    system: &C,
    table: &[Option<C::State>],
    edge: usize,
) -> Result<Option<C::Added>, NoMemory>
    requires system { C.is_system system.now }
    requires nodes { length table.now ≡ (C.system_of system.now).node_count }
    requires fits { AreFitting C.State.Lattice (C.fits system.now) (C.system_of system.now) (at table.now) }
    requires edge { edge < length (C.system_of system.now).links }
    ensures is { IfOk result (λ found. found ≡ option_map (C.contributed system.now edge)
        (at table.now (from_of (C.system_of system.now).links edge))) }
    ensures value { IfOk result (λ found. IfSome found C.Added.is_value) }
{
    let from = system.links()[edge].from;
    match &table[from] {
        None => Ok(None),
        Some(state) => {
            let found = system.contribution(alloc, edge, state)?;
            // The call tells that it is a value.
            let _found = found.is_nothing();
            Ok(Some(found))
        }
    }
}

// What each of the marked edges contributes that leaves a node with a state.
fn contributions<C: Contributions>(
    alloc: Global,
    system: &C,
    table: &[Option<C::State>],
    adds: &[bool],
) -> Result<Vec<C::Added>, NoMemory>
    requires system { C.is_system system.now }
    requires nodes { length table.now ≡ (C.system_of system.now).node_count }
    requires fits { AreFitting C.State.Lattice (C.fits system.now) (C.system_of system.now) (at table.now) }
    requires adds { (k : ℕ) → k < length (C.system_of system.now).links → slice_index_or adds.now k true ≡ false →
        (s : C.State) → C.contributed system.now k s ≡ C.nothing_added system.now }
    requires nothing { C.Added.is_value (C.nothing_added system.now) }
    requires least { (x : C.Added) → C.Added.is_value x → C.Added.leq (C.nothing_added system.now) x }
    ensures { IfOk result (λ parts. AddTo C.Added.is_value C.Added.leq (C.nothing_added system.now)
        (added_below (C.system_of system.now).links (C.nothing_added system.now) (C.contributed system.now)
        C.Added.joined (length (C.system_of system.now).links) (at table.now)) parts.items) }
{
    let mut parts = Vec::new(alloc);
    for edge in 0..system.links().len() {
        if may_add(adds, edge) {
            if let Some(more) = contribution_at(alloc, system, table, edge)? {
                parts.push(more)?;
            }
        }
    }
    Ok(parts)
}

/// The join of what all edges of a table contribute, of which some are known to contribute nothing.
pub fn joined_contributions<C: Contributions>(
    alloc: Global,
    system: &C,
    table: &[Option<C::State>],
    adds: &[bool],
) -> Result<C::Added, NoMemory>
    requires system { C.is_system system.now }
    requires nodes { length table.now ≡ (C.system_of system.now).node_count }
    requires fits { AreFitting C.State.Lattice (C.fits system.now) (C.system_of system.now) (at table.now) }
    requires adds { (k : ℕ) → k < length (C.system_of system.now).links → slice_index_or adds.now k true ≡ false →
        (s : C.State) → C.contributed system.now k s ≡ C.nothing_added system.now }
    requires least { (x : C.Added) → C.Added.is_value x → C.Added.leq (C.nothing_added system.now) x }
    ensures { IfOk result (λ added. added ≡ added_below (C.system_of system.now).links (C.nothing_added system.now)
        (C.contributed system.now) C.Added.joined (length (C.system_of system.now).links) (at table.now)) }
{
    let nothing = system.none(alloc)?;
    // The call tells that it is a value.
    let _nothing = nothing.is_nothing();
    let parts = contributions(alloc, system, table, adds)?;
    joined_all(alloc, parts, nothing)
}
