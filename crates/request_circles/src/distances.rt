//! By how many steps requests lead to one of them, breadth first: each request is noted once.
ghost use Rattle.std.specs.Prelude.{◌≡◌, ◌<◌, ℕ, false, [], length, Contains, IfOk, OnOk, MatchOption};
ghost use Rattle.request_circles.specs.reading.Steps.{IsStepLeft};
ghost use Rattle.request_circles.specs.reading.Distances.{HasLevel, AreMeasured};

use crate::numbers::Numbers;
use crate::requests::Request;
use crate::searches::is_step;
use std::alloc::Global;
use tm_lattice::NoMemory;

// For each request that leads to the end by how many steps, and the next one on the way; 0 steps where that is not known.
#[derive(Drop)]
pub(crate) struct Distances {
    pub(crate) far: Vec<usize>,
    pub(crate) next: Vec<usize>,
}

// A request of the frontier to which a request leads that is left.
fn next_in(requests: &[Request], left: &Numbers, frontier: &[usize], number: usize) -> Option<usize>
    requires number { number < length requests.now }
    requires frontier { (j : ℕ) → Contains frontier.now j → j < length requests.now }
    ensures { MatchOption result
        ((j : ℕ) → Contains frontier.now j → IsStepLeft requests.now left.now.marks.items false j number → ⊥)
        (λ j. Contains frontier.now j × IsStepLeft requests.now left.now.marks.items false j number) }
{
    for index in 0..frontier.len() {
        let to = frontier[index];
        if is_step(requests, left, false, to, number) {
            return Some(to);
        }
    }
    None
}

// Notes a request, where it was not noted and leads into the frontier.
fn note(
    requests: &[Request],
    left: &Numbers,
    frontier: &[usize],
    steps: usize,
    number: usize,
    noted: &mut Distances,
    found: &mut Vec<usize>,
) -> Result<(), NoMemory>
    requires number { number < length requests.now }
    requires frontier { (j : ℕ) → Contains frontier.now j → j < length requests.now }
    requires steps { 0 < steps }
    requires far { length noted.old.far.items ≡ length requests.now }
    requires next { length noted.old.next.items ≡ length requests.now }
    ensures { OnOk result (HasLevel requests.now left.now.marks.items frontier.now steps (λ k. k ≡ number)
        noted.old.far.items noted.old.next.items found.old.items
        noted.new.far.items noted.new.next.items found.new.items) }
{
    if noted.far[number] != 0 {
        return Ok(());
    }
    if !left.has(number) {
        return Ok(());
    }
    match next_in(requests, left, frontier, number) {
        Some(to) => {
            noted.far[number] = steps;
            noted.next[number] = to;
            found.push(number)?;
            Ok(())
        }
        None => Ok(()),
    }
}

// Notes all requests that were not noted and lead into the frontier: the next frontier.
fn note_level(
    alloc: Global,
    requests: &[Request],
    left: &Numbers,
    frontier: &[usize],
    steps: usize,
    noted: &mut Distances,
) -> Result<Vec<usize>, NoMemory>
    requires frontier { (j : ℕ) → Contains frontier.now j → j < length requests.now }
    requires steps { 0 < steps }
    requires far { length noted.old.far.items ≡ length requests.now }
    requires next { length noted.old.next.items ≡ length requests.now }
    ensures { IfOk result (λ found. HasLevel requests.now left.now.marks.items frontier.now steps
        (λ k. k < length requests.now) noted.old.far.items noted.old.next.items []
        noted.new.far.items noted.new.next.items found.items) }
{
    let mut found = Vec::new(alloc);
    for number in 0..requests.len() {
        note(requests, left, frontier, steps, number, noted, &mut found)?;
    }
    Ok(found)
}

// By how many steps requests that are left lead to the end, up to its own distance from itself.
pub(crate) fn measured(
    alloc: Global,
    requests: &[Request],
    left: &Numbers,
    end: usize,
) -> Result<Distances, NoMemory>
    requires { end < length requests.now }
    ensures { IfOk result (λ noted.
        AreMeasured requests.now left.now.marks.items end noted.far.items noted.next.items) }
{
    let far = vec![in alloc; 0; requests.len()]?;
    let next = vec![in alloc; 0; requests.len()]?;
    let mut noted = Distances { far, next };
    let mut frontier = Vec::new(alloc);
    frontier.push(end)?;
    let mut steps = 1;
    while !frontier.is_empty() {
        if let Some(to) = next_in(requests, left, &frontier, end) {
            noted.far[end] = steps;
            noted.next[end] = to;
            return Ok(noted);
        }
        frontier = note_level(alloc, requests, left, &frontier, steps, &mut noted)?;
        steps += 1;
    }
    Ok(noted)
}
