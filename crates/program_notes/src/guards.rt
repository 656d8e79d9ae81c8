//! The mutex that is held at most accesses of an object.
ghost use Rattle.std.specs.Prelude.{◌≡◌, ◌≤◌, ◌++◌, OnOk, length};
ghost use Rattle.program_notes.specs.Guards.{held_at, held_count, better, guard_of, guard_text};

use access_groups::ObjectAccess;
use notes_json::push_number;
use request_circles::has_mutex;
use std::alloc::Global;
use tm_lattice::NoMemory;
use tm_terms::push_bytes;

/// A mutex, and at how many accesses it is held.
#[derive(Clone, Copy)]
pub(crate) struct Guard {
    pub(crate) mutex: u32,
    pub(crate) count: usize,
}

/// Whether the mutex is held at the access at this place of a list, as a number.
fn held_at(accesses: &[ObjectAccess], mutex: u32, at: usize) -> usize
    ensures value { result ≡ held_at accesses.now mutex at }
    ensures most { result ≤ 1 }
{
    match accesses.get(at) {
        None => 0,
        Some(access) => { if has_mutex(access.held, mutex) { 1 } else { 0 } }
    }
}

/// At how many accesses the mutex is held.
fn held_count(accesses: &[ObjectAccess], mutex: u32) -> usize
    ensures { result ≡ held_count accesses.now mutex }
{
    let mut count = 0;
    for at in 0..accesses.len() {
        count += held_at(accesses, mutex, at);
    }
    count
}

/// A mutex where it is held more often than the one so far, and else this one.
fn better(guard: Guard, mutex: u32, count: usize) -> Guard
    ensures { result ≡ better guard mutex count }
{
    if guard.count < count {
        Guard { mutex, count }
    } else {
        guard
    }
}

/// The mutex that is held at most accesses, the least of several.
#[tactic(auto, unfolding(crate::specs::Guards::guard_of))]
pub(crate) fn guard_of(accesses: &[ObjectAccess]) -> Guard
    ensures { result ≡ guard_of accesses.now }
{
    let mut guard = Guard { mutex: 0, count: 0 };
    for mutex in 0..16 {
        guard = better(guard, mutex, held_count(accesses, mutex));
    }
    guard
}

/// Appends it, unless it is held nowhere.
pub(crate) fn push_guard(alloc: Global, text: &mut Vec<u8>, guard: Guard) -> Result<(), NoMemory>
    ensures { OnOk result (text.new.items ≡ text.old.items ++ guard_text guard) }
{
    if guard.count == 0 {
        return push_bytes(text, b"],\"mutex\":null,\"mutex_count\":0");
    }
    push_number(alloc, text, b"],\"mutex\":", guard.mutex as u64)?;
    push_number(alloc, text, b",\"mutex_count\":", guard.count as u64)
}
