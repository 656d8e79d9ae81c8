//! Lists in lists, by numbers.
ghost use Rattle.std.specs.Prelude.{◌≡◌, IfOk};
ghost use Rattle.operand_orders.specs.reading.Lists.{AreEmptyLists};

use std::alloc::Global;
use tm_lattice::NoMemory;

/// A number, if a `u32` holds it.
pub(crate) fn small(number: usize) -> Result<u32, NoMemory>
    ensures { IfOk result (λ held. held ≡ number) }
{
    match u32::try_from(number) {
        Ok(held) => Ok(held),
        Err(_) => Err(NoMemory),
    }
}

/// So many empty lists.
pub(crate) fn empty_lists<T: Drop>(alloc: Global, count: usize) -> Result<Vec<Vec<T>>, NoMemory>
    ensures { IfOk result (λ lists. AreEmptyLists lists.items count) }
{
    let mut lists = Vec::new(alloc);
    for _ in 0..count {
        lists.push(Vec::new(alloc))?;
    }
    Ok(lists)
}
