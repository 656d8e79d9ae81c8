//! The ways in which cells are accessed.
ghost use Rattle.std.specs.Prelude.{◌≡◌, ◌<◌, ◌≤◌, ◌^◌, ◌⊎◌, ◌↔◌, ℕ, length, Contains, IfOk, OnOk, IsTrue};
ghost use Rattle.access_races.specs.declared.accesses.Way.{Way as AWay};
ghost use Rattle.access_races.specs.reading.Ways.{list_at, IsWayTo, IsRacingIn};

use crate::accesses::{Access, Way, do_race};
use std::alloc::Global;
use tm_lattice::NoMemory;

// Adds a way, if the list has it not yet.
fn add_to(list: &mut Vec<Way>, way: Way) -> Result<(), NoMemory>
    ensures { OnOk result ((w : AWay) → Contains list.new.items w ↔ (Contains list.old.items w ⊎ (w ≡ way))) }
{
    if list.contains(&way) {
        return Ok(());
    }
    list.push(way)?;
    Ok(())
}

/// Puts empty lists behind these, up to that with a number.
pub fn make_room<T: Drop>(
    alloc: Global,
    lists: &mut Vec<Vec<T>>,
    number: u32,
) -> Result<(), NoMemory>
    ensures room { OnOk result (number < length lists.new.items) }
    ensures small { OnOk result (length lists.old.items ≤ 2 ^ 32 → length lists.new.items ≤ 2 ^ 32) }
    ensures same { OnOk result ((n : ℕ) → list_at lists.new.items n ≡ list_at lists.old.items n) }
{
    for _ in lists.len()..number as usize + 1 {
        lists.push(Vec::new(alloc))?;
    }
    Ok(())
}

/// Adds the way of an access to those of its cell.
pub fn add_way(alloc: Global, ways: &mut Vec<Vec<Way>>, access: Access) -> Result<(), NoMemory>
    ensures { OnOk result ((c : ℕ) (w : AWay) → Contains (list_at ways.new.items c) w
        ↔ (Contains (list_at ways.old.items c) w ⊎ ((c ≡ access.cell) × (w ≡ access.way)))) }
{
    make_room(alloc, ways, access.cell)?;
    add_to(&mut ways[access.cell as usize], access.way)
}

/// The ways in which each cell is accessed, by the number of the cell.
pub(crate) fn ways_by_cell(alloc: Global, accesses: &[Access]) -> Result<Vec<Vec<Way>>, NoMemory>
    ensures { IfOk result (λ ways. (c : ℕ) (w : AWay) → Contains (list_at ways.items c) w
        ↔ IsWayTo accesses.now c w) }
{
    let mut ways = Vec::new(alloc);
    for access in accesses {
        add_way(alloc, &mut ways, *access)?;
    }
    Ok(ways)
}

// Whether a way races with one of these.
fn races_with(way: Way, ways: &[Way]) -> bool
    ensures { IsTrue result ↔ IsRacingIn ways.now way }
{
    for other in ways {
        if do_race(way, *other) {
            return true;
        }
    }
    false
}

/// Whether an access races, where these are the ways in which each cell is accessed.
pub fn is_racing(ways: &[Vec<Way>], access: Access) -> bool
    ensures { IsTrue result ↔ IsRacingIn (list_at ways.now access.cell) access.way }
{
    match ways.get(access.cell as usize) {
        Some(list) => races_with(access.way, list),
        None => false,
    }
}
