//! A body with its table, edge by edge.
ghost use Rattle.std.specs.Prelude.{◌≡◌, ◌↔◌, IfOk, OnOk, IsTrue};
ghost use Rattle.std.specs.Option.{option_copied, is_some};
ghost use Rattle.post_recheck.specs.table_covers.Solutions.{at};
ghost use Rattle.operand_orders.specs.Reached.{operation_at, origin_at, IsReached, targets};
ghost use Rattle.access_races.specs.reading.Ways.{list_at};
ghost use Rattle.operand_orders.specs.reading.Views.{solved, AreCopiesOf, AreCopiesBy, IsIndexed, state_at};
ghost use Rattle.operand_orders.specs.reading.Views.{IsNumberAdded};

use crate::lists::{empty_lists, small};
use calculations::pointers_of;
use cell_env::State;
use edge_actions::{Targets, targets_at};
use edge_origins::{BodyOrigins, EdgeOrigin};
use flow_graph::{Edge, Operation};
use interfere_set::Store;
use mutex_configs::EdgeCopy;
use path_origins::Form;
use pointer_dom::{AbsValue, PointerSet};
use post_recheck::BodyState;
use std::alloc::Global;
use tm_laid::Laid;
use tm_lattice::NoMemory;
use tm_terms::Place;
use tm_typed::Scalar;

/// A body: its number, edges and copies, for each edge the numbers of its copies, its table, a store, and where its
/// edges come from.
#[derive(Clone, Copy)]
pub struct BodyView<'a> {
    pub alloc: Global,
    pub laid: &'a Laid,
    pub number: u32,
    pub edges: &'a [Edge],
    pub copies: &'a [EdgeCopy],
    pub by_edge: &'a [Vec<u32>],
    pub table: &'a [Option<BodyState>],
    pub store: &'a Store,
    pub origins: &'a BodyOrigins,
}

// Puts the number of a copy behind those of its edge, if there is a list for that.
fn add_number(lists: &mut Vec<Vec<u32>>, edge: usize, number: u32) -> Result<(), NoMemory>
    ensures { OnOk result (IsNumberAdded lists.old.items edge number lists.new.items) }
{
    if edge >= lists.len() {
        return Ok(());
    }
    lists[edge].push(number)?;
    Ok(())
}

/// For each of so many edges the numbers of its copies. Copies of other edges are left out; where a `u32` does not hold
/// the number of a copy, memory is said to be wanting.
pub fn copies_by_edge(
    alloc: Global,
    count_of_edges: usize,
    copies: &[EdgeCopy],
) -> Result<Vec<Vec<u32>>, NoMemory>
    ensures { IfOk result (λ lists. AreCopiesBy copies.now count_of_edges lists.items) }
{
    let mut lists = empty_lists(alloc, count_of_edges)?;
    for number in 0..copies.len() {
        let held = small(number)?;
        add_number(&mut lists, copies[number].edge, held)?;
    }
    Ok(lists)
}

// The numbers of an edge.
fn list_in(lists: &[Vec<u32>], edge: usize) -> &[u32]
    ensures { result.now ≡ list_at lists.now edge }
{
    match lists.get(edge) {
        Some(numbers) => numbers,
        None => &[],
    }
}

// The state of a node, if it has one.
fn node_state(table: &[Option<BodyState>], node: u32) -> Option<&BodyState>
    ensures { option_copied result ≡ at table.now node }
{
    match table.get(node as usize) {
        Some(Some(state)) => Some(state),
        _ => None,
    }
}

impl BodyView<'_> {
    /// The operation of an edge.
    pub fn operation(&self, edge: usize) -> Operation
        ensures { result ≡ operation_at (solved self.now) edge }
    {
        match self.edges.get(edge) {
            Some(found) => found.op,
            None => Operation::Skip,
        }
    }

    /// Where an edge comes from.
    pub fn origin(&self, edge: usize) -> EdgeOrigin
        ensures { result ≡ origin_at (solved self.now) edge }
    {
        match self.origins.edges.get(edge) {
            Some(found) => *found,
            None => EdgeOrigin {
                path: 0,
                place: Place { line: 0, col: 0 },
                form: Form::Skip,
            },
        }
    }

    /// The numbers of the copies of an edge.
    pub fn copies_of(&self, edge: usize) -> &[u32]
        requires indexed { IsIndexed self.now }
        ensures { AreCopiesOf self.now.copies.now edge result.now }
    {
        list_in(self.by_edge, edge)
    }

    /// The state of the node that a copy leaves, if it has one.
    pub fn state(&self, copy: u32) -> Option<&State<AbsValue>>
        ensures { option_copied result ≡ state_at (solved self.now) copy }
    {
        match self.copies.get(copy as usize) {
            Some(found) => match node_state(self.table, found.from) {
                Some(state) => Some(state.state()),
                None => None,
            },
            None => None,
        }
    }

    // Whether a copy leaves a node with a state.
    fn has_state(&self, copy: u32) -> bool
        ensures { result ≡ is_some (state_at (solved self.now) copy) }
    {
        match self.state(copy) {
            Some(_) => true,
            None => false,
        }
    }

    /// Whether an edge is reached.
    pub fn is_reached(&self, edge: usize) -> bool
        requires indexed { IsIndexed self.now }
        ensures { IsTrue result ↔ IsReached (solved self.now) edge }
    {
        for copy in self.copies_of(edge) {
            if self.has_state(*copy) {
                return true;
            }
        }
        false
    }

    /// The abstract cells that an access by an address reaches in a state.
    pub fn targets(
        &self,
        state: &State<AbsValue>,
        address: u32,
        scalar: Scalar,
    ) -> Result<Targets, NoMemory>
        ensures { IfOk result (λ found. found.items ≡ targets (solved self.now) scalar address state.now) }
    {
        let none = PointerSet::new(self.alloc);
        targets_at(
            self.alloc,
            self.laid,
            self.number,
            scalar,
            pointers_of(state, address, &none),
        )
    }
}
