//! The walk over the tree of owners along which the histories of cells are made.
ghost use Rattle.std.specs.Prelude.{◌≡◌, ◌<◌, ◌+◌, ◌∷◌, ◌^◌, length, IfOk, IfSome, true, []};
ghost use Rattle.cell_placings.specs.OwnerTrees.{tree_of, above_in};
ghost use Rattle.cell_placings.specs.Checks.{IsTree};
ghost use Rattle.cell_placings.specs.reading.Walks.{AreNoted, IsWalked, AreTimed, kept_then, time_at};

use crate::histories::History;
use crate::owners::Owners;
use std::alloc::Global;
use tm_lattice::NoMemory;

// Notes for each of these cells that it is kept at the node from now on, or where it was kept when it was seen.
fn note_all(
    histories: &mut [History],
    cells: &[usize],
    time: usize,
    next: usize,
    seen: Option<usize>,
) -> Result<bool, NoMemory>
    requires { IfSome seen (λ t. t < time) }
    ensures { IfOk result (λ noted. noted ≡ true
        → AreNoted cells.now time next seen histories.old histories.new) }
{
    for cell in cells {
        if !note_one(histories, *cell, time, next, seen)? {
            return Ok(false);
        }
    }
    Ok(true)
}

// Notes it for one cell. Nothing is kept of a cell beyond the number of cells.
fn note_one(
    histories: &mut [History],
    cell: usize,
    time: usize,
    next: usize,
    seen: Option<usize>,
) -> Result<bool, NoMemory>
    requires { IfSome seen (λ t. t < time) }
    ensures { IfOk result (λ noted. noted ≡ true
        → AreNoted (cell ∷ []) time next seen histories.old histories.new) }
{
    if cell >= histories.len() {
        return Ok(true);
    }
    let history = &mut histories[cell];
    let node = keeper(history, next, seen);
    Ok(history.note(time, node)?)
}

// The node, or else where the cell was kept when it was seen.
fn keeper(history: &History, next: usize, seen: Option<usize>) -> usize
    ensures { result ≡ kept_then next seen history.now }
{
    match seen {
        None => next,
        Some(then) => history.at(then),
    }
}

// One step down to a node below. False where it is not below, or a change came later.
fn enter(
    owners: &Owners,
    times: &mut [Option<usize>],
    histories: &mut [History],
    node: usize,
    below: usize,
    time: usize,
) -> Result<bool, NoMemory>
    requires tree { IsTree (length owners.now.above.items) (tree_of owners.now) }
    requires walked { IsWalked (tree_of owners.now) node time times.old histories.old }
    requires room { time + 1 < 2 ^ 64 }
    ensures { IfOk result (λ entered. entered ≡ true
        → IsWalked (tree_of owners.now) below (time + 1) times.new histories.new) }
{
    if below == 0 || below >= times.len() {
        return Ok(false);
    }
    let above = owners.node_above(below);
    if above != node {
        return Ok(false);
    }
    let cells = owners.listed(below);
    if !note_all(histories, cells, time + 1, below, None)? {
        return Ok(false);
    }
    times[below] = Some(time + 1);
    Ok(true)
}

// One step up from a node. False where the node above was not seen, or a change came later.
fn leave(
    owners: &Owners,
    times: &[Option<usize>],
    histories: &mut [History],
    node: usize,
    time: usize,
) -> Result<bool, NoMemory>
    requires tree { IsTree (length owners.now.above.items) (tree_of owners.now) }
    requires walked { IsWalked (tree_of owners.now) node time times.now histories.old }
    requires room { time + 1 < 2 ^ 64 }
    requires below { 0 < node }
    ensures { IfOk result (λ left. left ≡ true
        → IsWalked (tree_of owners.now) (above_in (tree_of owners.now) node) (time + 1) times.now histories.new) }
{
    let above = owners.node_above(node);
    let seen = seen_at(times, above);
    if seen.is_none() {
        return Ok(false);
    }
    let cells = owners.listed(node);
    Ok(note_all(histories, cells, time + 1, above, seen)?)
}

// The time at which a node was seen.
fn seen_at(times: &[Option<usize>], node: usize) -> Option<usize>
    ensures { result ≡ time_at times.now node }
{
    match times.get(node) {
        None => None,
        Some(time) => *time,
    }
}

// The next node below a node, by lists of these and the place to which each list was followed.
fn next_below(below: &[Vec<usize>], places: &mut [usize], node: usize) -> Option<usize> {
    if node >= below.len() || node >= places.len() {
        return None;
    }
    let place = places[node];
    let list = &below[node];
    if place >= list.len() {
        return None;
    }
    places[node] = place + 1;
    Some(list[place])
}

// One step from a node: down to the given one, or else up. None where the walk cannot go on.
fn step(
    owners: &Owners,
    times: &mut [Option<usize>],
    histories: &mut [History],
    node: usize,
    below: Option<usize>,
    time: usize,
) -> Result<Option<usize>, NoMemory>
    requires tree { IsTree (length owners.now.above.items) (tree_of owners.now) }
    requires walked { IsWalked (tree_of owners.now) node time times.old histories.old }
    requires room { time + 1 < 2 ^ 64 }
    ensures { IfOk result (λ next. IfSome next (λ n.
        IsWalked (tree_of owners.now) n (time + 1) times.new histories.new)) }
{
    match below {
        Some(lower) => {
            let is_there = enter(owners, times, histories, node, lower, time)?;
            Ok(if is_there { Some(lower) } else { None })
        }
        None => {
            if node == 0 {
                return Ok(None);
            }
            let is_there = leave(owners, times, histories, node, time)?;
            Ok(if is_there {
                Some(owners.node_above(node))
            } else {
                None
            })
        }
    }
}

/// Walks over the tree, down and up again by lists of the nodes below each, and notes the time of each node that it
/// comes to, until it is back at node 0 with nothing left below. False where the lists are not those of the tree.
pub(crate) fn walk(
    owners: &Owners,
    below: &[Vec<usize>],
    places: &mut [usize],
    times: &mut [Option<usize>],
    histories: &mut [History],
) -> Result<bool, NoMemory>
    requires tree { IsTree (length owners.now.above.items) (tree_of owners.now) }
    requires walked { IsWalked (tree_of owners.now) 0 0 times.old histories.old }
    ensures { IfOk result (λ walked. walked ≡ true → AreTimed (tree_of owners.now) times.new histories.new) }
{
    let mut node = 0;
    for time in 0..owners.above.len().saturating_mul(2) {
        let lower = next_below(below, places, node);
        if node == 0 && lower.is_none() {
            return Ok(true);
        }
        match step(owners, times, histories, node, lower, time)? {
            None => return Ok(false),
            Some(next) => node = next,
        }
    }
    Ok(true)
}
