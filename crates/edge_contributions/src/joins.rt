//! Joins of many values.
ghost use Rattle.std.specs.Prelude.{◌∷◌, IfOk};
ghost use Rattle.edge_contributions.specs.reading.Bounds.{AreValues, HaveSameBounds, IsLeastAbove};

use std::alloc::Global;
use tm_lattice::{Lattice, NoMemory};

// More rounds than it takes to join as many values as a list can have.
const ROUNDS: u32 = 64;

// The joins of the first and the second value, the third and the fourth, and so on; the last of an odd number is left
// as it is.
fn joined_pairs<V: Lattice>(alloc: Global, parts: &[V]) -> Result<Vec<V>, NoMemory>
    requires { AreValues V.is_value V.leq parts.now }
    ensures { IfOk result (λ pairs. HaveSameBounds V.is_value V.leq parts.now pairs.items) }
{
    let mut pairs = Vec::new(alloc);
    for at in 0..parts.len() / 2 {
        let pair = parts[2 * at].join(alloc, &parts[2 * at + 1])?;
        pairs.push(pair)?;
    }
    if parts.len() % 2 == 1 {
        let last = parts[parts.len() - 1].copied(alloc)?;
        pairs.push(last)?;
    }
    Ok(pairs)
}

// The values joined pair by pair, round by round.
fn joined_in_rounds<V: Lattice>(alloc: Global, parts: Vec<V>) -> Result<Vec<V>, NoMemory>
    requires { AreValues V.is_value V.leq parts.items }
    ensures { IfOk result (λ left. HaveSameBounds V.is_value V.leq parts.items left.items) }
{
    let mut left = parts;
    for _round in 0..ROUNDS {
        if left.len() >= 2 {
            left = joined_pairs(alloc, &left)?;
        }
    }
    Ok(left)
}

/// The join of values and of one more.
pub(crate) fn joined_all<V: Lattice>(alloc: Global, parts: Vec<V>, more: V) -> Result<V, NoMemory>
    requires parts { AreValues V.is_value V.leq parts.items }
    requires more { V.is_value more }
    ensures { IfOk result (IsLeastAbove V.is_value V.leq (more ∷ parts.items)) }
{
    let left = joined_in_rounds(alloc, parts)?;
    let mut all = more;
    for at in 0..left.len() {
        all = all.join(alloc, &left[at])?;
    }
    Ok(all)
}
