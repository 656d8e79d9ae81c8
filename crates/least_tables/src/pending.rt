//! Which edges are pending.
ghost use Rattle.std.specs.Prelude.{◌≡◌, ◌<◌, ◌≤◌, ℕ, length, slice_index_or, true, false, IfOk, MatchOption};

use std::alloc::Global;
use tm_lattice::NoMemory;

/// All edges are pending.
pub fn all_pending(alloc: Global, edges: usize) -> Result<Vec<bool>, NoMemory>
    ensures { IfOk result (λ pending. (length pending.items ≡ edges)
        × ((e : ℕ) → e < edges → slice_index_or pending.items e true ≡ true)) }
{
    let mut pending = Vec::new(alloc);
    for _ in 0..edges {
        pending.push(true)?;
    }
    Ok(pending)
}

/// Some pending edge, None where there is none: the first in the order, from the given place on, which is moved there.
/// Where the order has none any more, the search goes on among all edges.
pub fn next_pending(order: &[usize], pending: &[bool], place: &mut usize) -> Option<usize>
    ensures { MatchOption result
        ((e : ℕ) → e < length pending.now → slice_index_or pending.now e true ≡ false)
        (λ e. (e < length pending.now) × (slice_index_or pending.now e true ≡ true)) }
{
    for at in *place..order.len() {
        let edge = order[at];
        if edge < pending.len() && pending[edge] {
            *place = at;
            return Some(edge);
        }
    }
    *place = order.len();
    first_from(pending, 0)
}

// The first pending edge from a number on.
fn first_from(pending: &[bool], from: usize) -> Option<usize>
    ensures some { MatchOption result (Unit {0})
        (λ e. (e < length pending.now) × (slice_index_or pending.now e true ≡ true)) }
    ensures none { MatchOption result
        ((e : ℕ) → from ≤ e → e < length pending.now → slice_index_or pending.now e true ≡ false)
        (λ e. Unit {0}) }
{
    for e in from..pending.len() {
        if pending[e] {
            return Some(e);
        }
    }
    None
}
