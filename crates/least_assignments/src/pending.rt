//! Which constraints are pending, and which comes next.
ghost use Rattle.std.specs.Prelude.{◌≡◌, ◌<◌, ◌≤◌, ℕ, length, slice_index_or, true, false, IfOk, IsOk, MatchOption};

use std::alloc::Global;
use tm_lattice::NoMemory;

/// All constraints are pending.
pub fn all_pending(alloc: Global, constraints: usize) -> Result<Vec<bool>, NoMemory>
    ensures { IfOk result (λ pending. (length pending.items ≡ constraints)
        × ((k : ℕ) → k < constraints → slice_index_or pending.items k true ≡ true)) }
{
    let mut pending = Vec::new(alloc);
    for _ in 0..constraints {
        pending.push(true)?;
    }
    Ok(pending)
}

/// Where to look for the next pending constraint. It decides the order alone: where nothing is found by it, all
/// constraints are looked through.
#[derive(Drop)]
pub struct Order {
    /// Urgent constraints that became pending, the last one on top.
    pub urgent: Vec<usize>,
    /// From which number on constraints are urgent.
    pub first_urgent: usize,
    /// No other constraint before this one is pending.
    pub place: usize,
    /// No urgent constraint before this one is pending but those on top.
    pub rest: usize,
}

impl Order {
    /// The order with which the list begins.
    pub fn new(alloc: Global, first_urgent: usize) -> Order {
        Order {
            urgent: Vec::new(alloc),
            first_urgent,
            place: 0,
            rest: first_urgent,
        }
    }

    // Notes that a constraint became pending.
    fn note(&mut self, constraint: usize) -> Result<(), NoMemory> {
        if constraint < self.first_urgent {
            self.place = self.place.min(constraint);
        } else {
            self.urgent.push(constraint)?;
        }
        Ok(())
    }
}

/// Some pending constraint, None where there is none.
pub fn next_pending(pending: &[bool], order: &mut Order) -> Option<usize>
    ensures { MatchOption result
        ((k : ℕ) → k < length pending.now → slice_index_or pending.now k true ≡ false)
        (λ k. (k < length pending.now) × (slice_index_or pending.now k true ≡ true)) }
{
    if let Some(constraint) = urgent_pending(pending, order) {
        return Some(constraint);
    }
    if let Some(constraint) = first_between(pending, order.place, order.first_urgent) {
        order.place = constraint;
        return Some(constraint);
    }
    order.place = order.first_urgent;
    if let Some(constraint) = first_between(pending, order.rest, pending.len()) {
        order.rest = constraint;
        return Some(constraint);
    }
    first_between(pending, 0, pending.len())
}

// The last urgent constraint that became pending and is.
fn urgent_pending(pending: &[bool], order: &mut Order) -> Option<usize>
    ensures { MatchOption result (Unit {0})
        (λ k. (k < length pending.now) × (slice_index_or pending.now k true ≡ true)) }
{
    while let Some(constraint) = order.urgent.pop() {
        if constraint < pending.len() && pending[constraint] {
            return Some(constraint);
        }
    }
    None
}

// The first pending constraint from the one number on, before the other.
fn first_between(pending: &[bool], from: usize, end: usize) -> Option<usize>
    ensures some { MatchOption result (Unit {0})
        (λ k. (k < length pending.now) × (slice_index_or pending.now k true ≡ true)) }
    ensures none { MatchOption result
        ((k : ℕ) → from ≤ k → k < end → k < length pending.now → slice_index_or pending.now k true ≡ false)
        (λ k. Unit {0}) }
{
    for constraint in from..end.min(pending.len()) {
        if pending[constraint] {
            return Some(constraint);
        }
    }
    None
}

/// Each of these constraints is pending.
pub fn mark(pending: &mut [bool], order: &mut Order, constraints: &[usize]) -> Result<(), NoMemory>
    requires { (j : ℕ) → j < length constraints.now → slice_index_or constraints.now j 0 < length pending.old }
    ensures marked { IsOk result → (j : ℕ) → j < length constraints.now
        → slice_index_or pending.new (slice_index_or constraints.now j 0) true ≡ true }
    ensures others { (k : ℕ) → slice_index_or pending.new k true ≡ false → slice_index_or pending.old k true ≡ false }
{
    for j in 0..constraints.len() {
        let constraint = constraints[j];
        if !pending[constraint] {
            pending[constraint] = true;
            order.note(constraint)?;
        }
    }
    Ok(())
}
