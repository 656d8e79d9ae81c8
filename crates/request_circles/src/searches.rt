//! The requests that one reaches.
ghost use Rattle.std.specs.Prelude.{◌≡◌, ◌↔◌, ◌<◌, ℕ, length, IfOk, IsTrue, OnOk};
ghost use Rattle.request_circles.specs.reading.Steps.{IsStepLeft};
ghost use Rattle.request_circles.specs.reading.Searches.{HasVisited, AreReached};

use crate::numbers::{Numbers, filled};
use crate::requests::{Request, joins};
use std::alloc::Global;
use tm_lattice::NoMemory;

// Whether a request is joined with another that is left.
pub(crate) fn is_step(
    requests: &[Request],
    left: &Numbers,
    ahead: bool,
    from: usize,
    to: usize,
) -> bool
    requires from { from < length requests.now }
    requires to { to < length requests.now }
    ensures { IsTrue result ↔ IsStepLeft requests.now left.now.marks.items ahead from to }
{
    left.has(to) && joins(ahead, requests[from], requests[to])
}

// Notes the number of a request that is reached; where it was not noted, it waits.
fn note(reached: &mut Numbers, waiting: &mut Vec<usize>, number: usize) -> Result<(), NoMemory>
    requires { number < length reached.old.marks.items }
    ensures { OnOk result (HasVisited (λ k. k ≡ number) reached.old.marks.items reached.new.marks.items
        waiting.old.items waiting.new.items) }
{
    if reached.has(number) {
        return Ok(());
    }
    reached.put(number, true);
    waiting.push(number)?;
    Ok(())
}

// Notes a request, where it is a step away from another.
fn visit(
    requests: &[Request],
    left: &Numbers,
    ahead: bool,
    from: usize,
    to: usize,
    reached: &mut Numbers,
    waiting: &mut Vec<usize>,
) -> Result<(), NoMemory>
    requires from { from < length requests.now }
    requires to { to < length requests.now }
    requires count { length reached.old.marks.items ≡ length requests.now }
    ensures { OnOk result (HasVisited
        (λ k. (k ≡ to) × IsStepLeft requests.now left.now.marks.items ahead from k)
        reached.old.marks.items reached.new.marks.items waiting.old.items waiting.new.items) }
{
    if !is_step(requests, left, ahead, from, to) {
        return Ok(());
    }
    note(reached, waiting, to)
}

// Notes all requests that are a step away from one.
fn visit_all(
    requests: &[Request],
    left: &Numbers,
    ahead: bool,
    from: usize,
    reached: &mut Numbers,
    waiting: &mut Vec<usize>,
) -> Result<(), NoMemory>
    requires from { from < length requests.now }
    requires count { length reached.old.marks.items ≡ length requests.now }
    ensures { OnOk result (HasVisited
        (IsStepLeft requests.now left.now.marks.items ahead from)
        reached.old.marks.items reached.new.marks.items waiting.old.items waiting.new.items) }
{
    for to in 0..requests.len() {
        visit(requests, left, ahead, from, to, reached, waiting)?;
    }
    Ok(())
}

// The requests that one reaches over some that are left, by one step or more.
pub(crate) fn reached_from(
    alloc: Global,
    requests: &[Request],
    left: &Numbers,
    ahead: bool,
    from: usize,
) -> Result<Numbers, NoMemory>
    requires { from < length requests.now }
    ensures { IfOk result (λ reached.
        AreReached requests.now left.now.marks.items ahead from reached.marks.items) }
{
    let mut reached = filled(alloc, requests.len(), false)?;
    let mut waiting = Vec::new(alloc);
    waiting.push(from)?;
    while let Some(number) = waiting.pop() {
        visit_all(requests, left, ahead, number, &mut reached, &mut waiting)?;
    }
    Ok(reached)
}
