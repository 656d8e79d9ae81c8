//! What holders may point to, until nothing is added.

use crate::flows::{Access, Flows, Pass, Way};
use crate::groups::Groups;
use crate::holders::Holders;
use crate::pointees::{Fact, Pointees};
use crate::seen::is_reachable;
use tm_laid::{Laid, is_alive};
use tm_lattice::NoMemory;

// Whether the pointers to an object are passed on.
fn is_passed(laid: &Laid, pass: Pass, object: u32) -> bool {
    match pass.path {
        None => true,
        Some(path) => is_alive(laid, path, object),
    }
}

// Passes a pointer to an object on.
fn pass_on(
    laid: &Laid,
    passes: &[Pass],
    object: u32,
    pointees: &mut Pointees,
) -> Result<(), NoMemory> {
    for pass in passes {
        if is_passed(laid, *pass, object) {
            pointees.put(pass.to, object)?;
        }
    }
    Ok(())
}

// The pointers of one holder go to another from now on, and those that it has already.
fn link(
    from: usize,
    to: usize,
    flows: &mut Flows,
    pointees: &mut Pointees,
) -> Result<(), NoMemory> {
    flows.pass(from, to, None)?;
    pointees.put_all(from, to)
}

// An access reaches an object.
fn open_access(
    laid: &Laid,
    groups: &Groups,
    holders: &Holders,
    access: Access,
    object: u32,
    flows: &mut Flows,
    pointees: &mut Pointees,
) -> Result<(), NoMemory> {
    if !is_reachable(laid, access.body, object) {
        return Ok(());
    }
    let Some(group) = groups.group_of(object, access.scalar) else {
        return Ok(());
    };
    let cells = holders.group(group);
    match access.way {
        Way::LoadsFor(to) => link(cells, to, flows, pointees),
        Way::Stores(from) => link(from, cells, flows, pointees),
    }
}

// The access of this number whose address is the holder.
fn access_at(flows: &Flows, holder: usize, number: usize) -> Option<Access> {
    match flows.accesses.get(holder) {
        None => None,
        Some(accesses) => accesses.get(number).copied(),
    }
}

// How many accesses have the holder as their address.
fn count_of_accesses(flows: &Flows, holder: usize) -> usize {
    match flows.accesses.get(holder) {
        None => 0,
        Some(accesses) => accesses.len(),
    }
}

// What follows from one fact.
fn follow(
    laid: &Laid,
    groups: &Groups,
    holders: &Holders,
    fact: Fact,
    flows: &mut Flows,
    pointees: &mut Pointees,
) -> Result<(), NoMemory> {
    if let Some(passes) = flows.passes.get(fact.holder) {
        pass_on(laid, passes, fact.object, pointees)?;
    }
    for number in 0..count_of_accesses(flows, fact.holder) {
        if let Some(access) = access_at(flows, fact.holder, number) {
            open_access(laid, groups, holders, access, fact.object, flows, pointees)?;
        }
    }
    Ok(())
}

/// Adds what follows, until nothing does. Each fact is met once, and there are finitely many.
pub(crate) fn settle(
    laid: &Laid,
    groups: &Groups,
    holders: &Holders,
    flows: &mut Flows,
    pointees: &mut Pointees,
) -> Result<(), NoMemory> {
    for turn in 0..usize::MAX {
        match pointees.fact(turn) {
            None => return Ok(()),
            Some(fact) => follow(laid, groups, holders, fact, flows, pointees)?,
        }
    }
    Ok(())
}
