//! Accesses.
ghost use Rattle.std.specs.Prelude.{◌≡◌, ◌⊎◌, ◌↔◌, Contains, OnOk};
ghost use Rattle.access_races.specs.declared.accesses.Access.{Access as AnAccess};
ghost use Rattle.access_races.specs.Races.{is_unhindered, do_race};

use tm_lattice::NoMemory;
use tm_terms::Place;

/// What is asked of an access beside its cell, to tell whether it races: its task and its priority, the mutexes that
/// the task holds and those that it has found free, as sets in which bit m stands for the mutex with the number m, and
/// whether it writes.
#[derive(Clone, Copy, PartialEq, Eq)]
pub struct Way {
    pub task: u32,
    pub priority: u8,
    pub held: u16,
    pub found: u16,
    pub writes: bool,
}

/// An access to an abstract cell.
#[derive(Clone, Copy, PartialEq, Eq)]
pub struct Access {
    pub cell: u32,
    pub way: Way,
    pub place: Place,
}

/// Adds an access; nothing where it is the same as the last one.
pub fn push_access(accesses: &mut Vec<Access>, access: Access) -> Result<(), NoMemory>
    ensures { OnOk result ((x : AnAccess) → Contains accesses.new.items x
        ↔ (Contains accesses.old.items x ⊎ (x ≡ access))) }
{
    if accesses.last().copied() == Some(access) {
        return Ok(());
    }
    accesses.push(access)?;
    Ok(())
}

// Where the first task is less urgent, no mutex that it holds was found free by the other.
fn is_unhindered(one: Way, other: Way) -> bool
    ensures { result ≡ is_unhindered one other }
{
    one.priority >= other.priority || one.held & other.found == 0
}

/// Whether accesses to one cell race: two tasks make them, one of them writes, no mutex is held at both, and the more
/// urgent task has found none free that the other one holds.
pub fn do_race(one: Way, other: Way) -> bool
    ensures { result ≡ do_race one other }
{
    one.task != other.task
        && (one.writes || other.writes)
        && one.held & other.held == 0
        && is_unhindered(one, other)
        && is_unhindered(other, one)
}
