//! Lists of numbers, one for each node.
ghost use Rattle.std.specs.Prelude.{◌≡◌, ◌∷◌, ◌++◌, ◌<◌, [], IfOk, OnOk, get_or, length, replicate, slice_set};
ghost use Rattle.graph_facts.specs.Lists.{numbers};

use std::alloc::Global;
use tm_lattice::NoMemory;

// An empty list for each node.
pub(crate) fn no_places(alloc: Global, count: u32) -> Result<Vec<Vec<usize>>, NoMemory>
    ensures { IfOk result (λ v. numbers v.items ≡ replicate count []) }
{
    let mut lists = Vec::new(alloc);
    for _ in 0..count {
        lists.push(Vec::new(alloc))?;
    }
    Ok(lists)
}

// One more place at the end of a list.
pub(crate) fn push_place(
    lists: &mut Vec<Vec<usize>>,
    at: usize,
    place: usize,
) -> Result<(), NoMemory>
    requires { at < length lists.old.items }
    ensures { OnOk result (numbers lists.new.items ≡ slice_set (numbers lists.old.items) at
        (get_or (numbers lists.old.items) at [] ++ place ∷ [])) }
{
    let list = &mut lists[at];
    list.push(place)?;
    Ok(())
}

// An empty list for each node.
pub(crate) fn no_numbers(alloc: Global, count: u32) -> Result<Vec<Vec<u32>>, NoMemory>
    ensures { IfOk result (λ v. numbers v.items ≡ replicate count []) }
{
    let mut lists = Vec::new(alloc);
    for _ in 0..count {
        lists.push(Vec::new(alloc))?;
    }
    Ok(lists)
}
