//! Shortest rings of requests.
ghost use Rattle.std.specs.Prelude.{◌≡◌, ◌↔◌, ◌⊎◌, ◌+◌, ◌<◌, ◌≤◌, ℕ, length, Contains, IfOk, IsTrue};
ghost use Rattle.request_circles.specs.Requests.{AreCircularPlaces};
ghost use Rattle.request_circles.specs.Rings.{AreShortestRings};
ghost use Rattle.request_circles.specs.reading.Steps.{IsMarked, IsOnCircle, request_at};
ghost use Rattle.request_circles.specs.reading.Classes.{IsSameClass, AreClasses, number_at};
ghost use Rattle.request_circles.specs.reading.Distances.{AreMeasured, IsNearer};
ghost use Rattle.request_circles.specs.reading.Nearest.{IsWalk, IsNearest, IsNearestAt};

use crate::circles::circular_numbers;
use crate::classes::{Classes, classes_of};
use crate::distances::{Distances, measured};
use crate::numbers::Numbers;
use crate::places::circular_places;
use crate::requests::Request;
use std::alloc::Global;
use tm_lattice::NoMemory;
use tm_terms::Place;

/// A ring of requests, of which each leads to the next one and the last one to the first, with the place of the first.
#[derive(Drop)]
pub struct Ring {
    pub place: Place,
    pub requests: Vec<Request>,
}

// From a request on to the next ones, until one of them leads to the end.
fn walk(
    alloc: Global,
    heads: &[Request],
    noted: &Distances,
    end: usize,
    first: Request,
) -> Result<Vec<Request>, NoMemory>
    requires end { end < length heads.now }
    requires first { IsSameClass (request_at heads.now end) first }
    requires far { length noted.now.far.items ≡ length heads.now }
    requires next { length noted.now.next.items ≡ length heads.now }
    requires nearer { (k : ℕ) → 0 < number_at noted.now.far.items k
        → IsNearer heads.now end noted.now.far.items noted.now.next.items k }
    requires some { 0 < number_at noted.now.far.items end }
    ensures walk { IfOk result (λ ring. IsWalk heads.now first ring.items first) }
    ensures short { IfOk result (λ ring. length ring.items ≤ number_at noted.now.far.items end) }
{
    let mut ring = Vec::new(alloc);
    ring.push(first)?;
    let mut next = noted.next[end];
    while next != end {
        ring.push(heads[next])?;
        next = noted.next[next];
    }
    Ok(ring)
}

// A shortest ring that begins with a request of the class with the number; without requests, if there is none.
fn ring_from(
    alloc: Global,
    heads: &[Request],
    left: &Numbers,
    end: usize,
    first: Request,
) -> Result<Vec<Request>, NoMemory>
    requires end { end < length heads.now }
    requires first { IsSameClass (request_at heads.now end) first }
    ensures { IfOk result (λ ring. IsNearest heads.now left.now.marks.items end first ring.items) }
{
    let noted = measured(alloc, heads, left, end)?;
    if noted.far[end] == 0 {
        return Ok(Vec::new(alloc));
    }
    walk(alloc, heads, &noted, end, first)
}

// Whether a ring has requests, and fewer than another one that has some.
fn is_shorter(ring: &[Request], other: &[Request]) -> bool
    ensures { IsTrue result ↔ ((0 < length ring.now)
        × ((length other.now ≡ 0) ⊎ (length ring.now < length other.now))) }
{
    !ring.is_empty() && (other.is_empty() || ring.len() < other.len())
}

// The best ring so far or that of one more request at the place, where it is shorter.
fn better(
    alloc: Global,
    requests: &[Request],
    classes: &Classes,
    left: &Numbers,
    place: Place,
    number: usize,
    best: Vec<Request>,
) -> Result<Vec<Request>, NoMemory>
    requires classes { AreClasses requests.now classes.now.heads.items classes.now.numbers.items
        (length requests.now) }
    requires number { number < length requests.now }
    requires best { IsNearestAt requests.now classes.now.heads.items classes.now.numbers.items left.now.marks.items
        place number best.items }
    ensures { IfOk result (λ ring. IsNearestAt requests.now classes.now.heads.items classes.now.numbers.items
        left.now.marks.items place (number + 1) ring.items) }
{
    if requests[number].place != place {
        return Ok(best);
    }
    let ring = ring_from(
        alloc,
        &classes.heads,
        left,
        classes.numbers[number],
        requests[number],
    )?;
    if is_shorter(&ring, &best) {
        return Ok(ring);
    }
    Ok(best)
}

// A shortest ring that begins at the place; without requests, if there is none.
fn ring_at(
    alloc: Global,
    requests: &[Request],
    classes: &Classes,
    left: &Numbers,
    place: Place,
) -> Result<Vec<Request>, NoMemory>
    requires { AreClasses requests.now classes.now.heads.items classes.now.numbers.items (length requests.now) }
    ensures { IfOk result (λ ring. IsNearestAt requests.now classes.now.heads.items classes.now.numbers.items
        left.now.marks.items place (length requests.now) ring.items) }
{
    let mut best = Vec::new(alloc);
    for number in 0..requests.len() {
        best = better(alloc, requests, classes, left, place, number, best)?;
    }
    Ok(best)
}

// A shortest ring for each place.
fn rings_at(alloc: Global, requests: &[Request], places: &[Place]) -> Result<Vec<Ring>, NoMemory>
    ensures { IfOk result (λ rings. AreCircularPlaces (Contains requests.now) places.now
        → AreShortestRings (Contains requests.now) rings.items) }
{
    let classes = classes_of(alloc, requests)?;
    let left = circular_numbers(alloc, &classes.heads)?;
    let mut rings = Vec::new(alloc);
    for index in 0..places.len() {
        let place = places[index];
        let requests = ring_at(alloc, requests, &classes, &left, place)?;
        rings.push(Ring { place, requests })?;
    }
    Ok(rings)
}

/// For each place at which a request stands that leads back to itself, a shortest ring that begins with a request there,
/// in the order of the places. Requests of one class, that differ in their places alone, are looked at once a search.
pub fn shortest_rings(alloc: Global, mut requests: Vec<Request>) -> Result<Vec<Ring>, NoMemory>
    ensures { IfOk result (λ rings. AreShortestRings (Contains requests.items) rings.items) }
{
    requests.sort()?;
    let places = circular_places(alloc, &requests)?;
    rings_at(alloc, &requests, &places)
}
