//! Which nodes stand at each place.
ghost use Rattle.std.specs.Prelude.{◌≡◌, ◌<◌, ◌^◌, [], length, List, ℕ, IfOk, OnOk, All, get_or};
ghost use Rattle.mutex_configs.specs.declared.nodes.ConfiguredNode.{ConfiguredNode as ANode};
ghost use Rattle.mutex_configs.specs.reading.Groups.{AreGroups, IsPushed, list_of};

use crate::nodes::ConfiguredNode;
use std::alloc::Global;
use tm_lattice::NoMemory;

// So many empty lists.
fn empty_groups(alloc: Global, count: u32) -> Result<Vec<Vec<u32>>, NoMemory>
    ensures { IfOk result (λ v. (length v.items ≡ count) × ((p : ℕ) → list_of v.items p ≡ [])) }
{
    let mut groups = Vec::new(alloc);
    for _ in 0..count {
        groups.push(Vec::new(alloc))?;
    }
    Ok(groups)
}

// A number is put at the end of one list.
fn push_number(groups: &mut Vec<Vec<u32>>, place: u32, number: u32) -> Result<(), NoMemory>
    requires { place < length groups.old.items }
    ensures { OnOk result (IsPushed groups.old.items place number groups.new.items) }
{
    groups[place as usize].push(number)?;
    Ok(())
}

/// For each place the numbers of the nodes at it, in order.
pub(crate) fn nodes_by_place(
    alloc: Global,
    nodes: &[ConfiguredNode],
    places: u32,
) -> Result<Vec<Vec<u32>>, NoMemory>
    requires count { length nodes.now < 2 ^ 32 }
    requires within { All (λ (q : ANode). q.place < places) nodes.now }
    ensures { IfOk result (λ v. AreGroups (λ (q : ANode). q.place) nodes.now places v.items) }
{
    let mut groups = empty_groups(alloc, places)?;
    for number in 0..nodes.len() {
        push_number(&mut groups, nodes[number].place, number as u32)?;
    }
    Ok(groups)
}
