//! Pairs of numbers that belong together, in order.
ghost use Rattle.std.specs.Prelude.{◌↔◌, ◌≤◌, ◌<◌, Contains, IfOk, IsTrue};
ghost use Rattle.operand_orders.specs.declared.pairs.Pair.{Pair as APair};
ghost use Rattle.operand_orders.specs.reading.Pairs.{IsBefore, AreRising, AreInOrder, IsFirstNotBefore};
ghost use Rattle.operand_orders.specs.reading.Pairs.{pair, swapped, HasBetween};

use std::alloc::Global;
use tm_lattice::NoMemory;

/// Two numbers that belong together; the first one comes first in the order.
#[derive(Clone, Copy, PartialEq, Eq, PartialOrd, Ord)]
pub(crate) struct Pair {
    pub(crate) first: u32,
    pub(crate) second: u32,
}

/// Pairs in order, each once.
pub(crate) fn in_order(mut pairs: Vec<Pair>) -> Vec<Pair>
    ensures { AreInOrder pairs.items result.items }
{
    pairs.sort_unstable();
    pairs.dedup();
    pairs
}

/// Each pair the other way round.
pub(crate) fn all_swapped(alloc: Global, pairs: &[Pair]) -> Result<Vec<Pair>, NoMemory>
    ensures { IfOk result (λ others. (p : APair) → Contains others.items p ↔ Contains pairs.now (swapped p)) }
{
    let mut others = Vec::new(alloc);
    for pair in pairs {
        others.push(Pair {
            first: pair.second,
            second: pair.first,
        })?;
    }
    Ok(others)
}

// Whether one comes before the pair of these numbers.
fn is_before(one: Pair, first: usize, second: usize) -> bool
    ensures { IsTrue result ↔ IsBefore one (pair first second) }
{
    let one_first = one.first as usize;
    one_first < first || one_first == first && (one.second as usize) < second
}

// How many come before the pair of these numbers, by halving.
fn first_not_before(pairs: &[Pair], first: usize, second: usize) -> usize
    requires { AreRising pairs.now }
    ensures { IsFirstNotBefore pairs.now (pair first second) result }
{
    let mut low = 0;
    let mut high = pairs.len();
    while low < high {
        let middle = low + (high - low) / 2;
        if is_before(pairs[middle], first, second) {
            low = middle + 1;
        } else {
            high = middle;
        }
    }
    low
}

/// Those whose first number is in a range.
pub(crate) fn between(pairs: &[Pair], first: usize, end: usize) -> &[Pair]
    requires { AreRising pairs.now }
    ensures { (p : APair) → Contains result.now p ↔ (Contains pairs.now p × (first ≤ p.first) × (p.first < end)) }
{
    let from = first_not_before(pairs, first, 0);
    let to = first_not_before(pairs, end, 0);
    if from <= to { &pairs[from..to] } else { &[] }
}

/// Whether there is a pair of a number with one of a range.
pub(crate) fn has_between(pairs: &[Pair], number: u32, first: usize, end: usize) -> bool
    requires { AreRising pairs.now }
    ensures { IsTrue result ↔ HasBetween pairs.now number first end }
{
    match pairs.get(first_not_before(pairs, number as usize, first)) {
        Some(found) => found.first == number && (found.second as usize) < end,
        None => false,
    }
}
