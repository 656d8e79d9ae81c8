//! The requests that lead back to themselves.
ghost use Rattle.std.specs.Prelude.{◌≡◌, ◌↔◌, ◌<◌, ℕ, length, IfOk, OnOk};
ghost use Rattle.request_circles.specs.reading.Steps.{IsMarked, IsOnCircle, AreLeft};
ghost use Rattle.request_circles.specs.reading.Circles.{HasCommon, HasDecided};

use crate::numbers::{Numbers, filled};
use crate::requests::Request;
use crate::searches::reached_from;
use crate::trims::trim;
use std::alloc::Global;
use tm_lattice::NoMemory;

// Adds the numbers that are in both sets.
fn add_common(found: &mut Numbers, one: &Numbers, other: &Numbers)
    ensures { HasCommon one.now.marks.items other.now.marks.items found.old.marks.items found.new.marks.items }
{
    for number in 0..found.marks.len() {
        if one.has(number) && other.has(number) {
            found.put(number, true);
        }
    }
}

// Finds whether a request is circular, where that is not known. One that is reached from it and reaches it is circular
// too; and where it is not, no circle goes over it.
fn decide(
    alloc: Global,
    requests: &[Request],
    left: &mut Numbers,
    found: &mut Numbers,
    number: usize,
) -> Result<(), NoMemory>
    requires number { number < length requests.now }
    requires left { AreLeft requests.now left.old.marks.items }
    requires left_count { length left.old.marks.items ≡ length requests.now }
    requires found_count { length found.old.marks.items ≡ length requests.now }
    ensures { OnOk result (HasDecided requests.now number left.old.marks.items left.new.marks.items
        found.old.marks.items found.new.marks.items) }
{
    if found.has(number) || !left.has(number) {
        return Ok(());
    }
    let ahead = reached_from(alloc, requests, left, true, number)?;
    if !ahead.has(number) {
        left.put(number, false);
        return Ok(());
    }
    let back = reached_from(alloc, requests, left, false, number)?;
    add_common(found, &ahead, &back);
    found.put(number, true);
    Ok(())
}

// The numbers of the circular requests.
pub(crate) fn circular_numbers(alloc: Global, requests: &[Request]) -> Result<Numbers, NoMemory>
    ensures { IfOk result (λ found. (k : ℕ) → IsMarked found.marks.items k ↔ IsOnCircle requests.now k) }
{
    let mut left = filled(alloc, requests.len(), true)?;
    trim(requests, &mut left);
    let mut found = filled(alloc, requests.len(), false)?;
    for number in 0..requests.len() {
        decide(alloc, requests, &mut left, &mut found, number)?;
    }
    Ok(found)
}
