//! Temporaries before edges: their values, and the edges that give them.
use crate::bodies::{Analysed, copies_at, is_reached, operation_at, state_before};
use crate::extents::{Extent, extent_of, joined, no_extent, weight};
use alarm_contexts::ContextEdge;
use cell_env::State;
use flow_graph::Operation;
use pointer_dom::AbsValue;

// Through how many copies and conversions a temporary is followed at most.
const MOST_COPIES: usize = 24;

/// A temporary, by its number, that the operation of an edge uses.
#[derive(Clone, Copy)]
pub struct Use {
    pub edge: ContextEdge,
    pub temp: u32,
}

/// An edge that gives a temporary, and the use of this that was asked about.
#[derive(Clone, Copy)]
pub struct Giving {
    pub giver: ContextEdge,
    pub used: Use,
}

// The values of a temporary in a state.
fn value_in(state: &State<AbsValue>, temp: u32) -> Extent {
    match state.temp(temp) {
        None => no_extent(),
        Some(entry) => extent_of(&entry.value),
    }
}

/// The values of a temporary that the operation of an edge uses, in all states before the edge together.
pub fn value_at(analysed: Analysed<'_>, used: Use) -> Extent {
    let (first, end) = copies_at(analysed, used.edge);
    let mut all = no_extent();
    for copy in first..end {
        if let Some(state) = state_before(analysed, used.edge.body, copy) {
            all = joined(&all, &value_in(state, used.temp));
        }
    }
    all
}

// The edges that give a temporary of a body.
fn all_givers<'a>(analysed: Analysed<'a>, body: u32, temp: u32) -> &'a [usize] {
    match analysed.bodies.get(body as usize) {
        None => &[],
        Some(index) => match index.givers.get(temp as usize) {
            None => &[],
            Some(givers) => givers,
        },
    }
}

// What is compared of edges that give one temporary, as the results of a choice or of a function: these are copies.
fn weight_given(analysed: Analysed<'_>, edge: ContextEdge) -> u128 {
    match operation_at(analysed, edge) {
        Operation::Copy { from, .. } => weight(&value_at(analysed, Use { edge, temp: from })),
        Operation::Any { low, high, .. } => high.abs_diff(low),
        _ => 0,
    }
}

// Of two edges of a body that give one temporary the one that gives the most values, in doubt the second.
fn greater(analysed: Analysed<'_>, body: u32, known: Option<usize>, edge: usize) -> usize {
    let Some(known) = known else {
        return edge;
    };
    let before = weight_given(analysed, ContextEdge { body, edge: known });
    let here = weight_given(analysed, ContextEdge { body, edge });
    if before <= here { edge } else { known }
}

// Whether an edge gives a temporary before its use.
fn is_giver(analysed: Analysed<'_>, used: Use, edge: usize) -> bool {
    let body = used.edge.body;
    edge < used.edge.edge && is_reached(analysed, ContextEdge { body, edge })
}

// The number of the edge before the use of a temporary that gives it, of several that with the most values; none where
// none that is reached does.
fn giver(analysed: Analysed<'_>, used: Use) -> Option<usize> {
    let mut best = None;
    for edge in all_givers(analysed, used.edge.body, used.temp) {
        if is_giver(analysed, used, *edge) {
            best = Some(greater(analysed, used.edge.body, best, *edge));
        }
    }
    best
}

/// The number of the edge before the use of a temporary that gives it, if there is exactly one that is reached.
pub fn only_giver(analysed: Analysed<'_>, used: Use) -> Option<usize> {
    let mut only = None;
    for edge in all_givers(analysed, used.edge.body, used.temp) {
        if is_giver(analysed, used, *edge) {
            if only.is_some() {
                return None;
            }
            only = Some(*edge);
        }
    }
    only
}

// The temporary whose values an operation passes on.
fn passed_on(operation: Operation) -> Option<u32> {
    match operation {
        Operation::Copy { from, .. }
        | Operation::Convert { from, .. }
        | Operation::Offset { from, .. } => Some(from),
        _ => None,
    }
}

/// The edge that gives a temporary, behind at most 24 copies and conversions, with the use of what it gives; none where
/// none does.
pub fn source_of(analysed: Analysed<'_>, used: Use) -> Option<Giving> {
    let body = used.edge.body;
    let mut used = used;
    for _ in 0..MOST_COPIES {
        let Some(edge) = giver(analysed, used) else {
            return None;
        };
        let giver = ContextEdge { body, edge };
        match passed_on(operation_at(analysed, giver)) {
            None => return Some(Giving { giver, used }),
            Some(temp) => used = Use { edge: giver, temp },
        }
    }
    None
}
