//! Tables of states.
ghost use Rattle.std.specs.Prelude.{◌≡◌, ℕ, length, None, IfOk, slice_index_or};

use std::alloc::Global;
use tm_lattice::NoMemory;

/// Bottom at each node.
pub fn no_states<S: Drop>(alloc: Global, nodes: usize) -> Result<Vec<Option<S>>, NoMemory>
    ensures { IfOk result (λ table. (length table.items ≡ nodes)
        × ((n : ℕ) → slice_index_or table.items n None ≡ None)) }
{
    let mut table = Vec::new(alloc);
    for _ in 0..nodes {
        table.push(None)?;
    }
    Ok(table)
}
