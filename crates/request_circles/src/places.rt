//! The places of circular requests.
ghost use Rattle.std.specs.Prelude.{◌↔◌, ℕ, Contains, IfOk};
ghost use Rattle.tm_terms.specs.declared.places.Place.{Place as APlace};
ghost use Rattle.request_circles.specs.Requests.{AreCircularPlaces};
ghost use Rattle.request_circles.specs.reading.Circles.{IsPlaceOf};

use crate::circles::circular_numbers;
use crate::numbers::Numbers;
use crate::requests::Request;
use place_lists::{in_order, push_place};
use std::alloc::Global;
use tm_lattice::NoMemory;
use tm_terms::Place;

// The places of the requests with these numbers.
fn places_of(alloc: Global, requests: &[Request], numbers: &Numbers) -> Result<Vec<Place>, NoMemory>
    ensures { IfOk result (λ places. (q : APlace) → Contains places.items q
        ↔ IsPlaceOf requests.now numbers.now.marks.items q) }
{
    let mut places = Vec::new(alloc);
    for number in 0..requests.len() {
        if numbers.has(number) {
            push_place(&mut places, requests[number].place)?;
        }
    }
    Ok(places)
}

/// The places of the requests that lead back to themselves, over one step or more, in order and without repeats.
pub fn circular_places(alloc: Global, requests: &[Request]) -> Result<Vec<Place>, NoMemory>
    ensures { IfOk result (λ places. AreCircularPlaces (Contains requests.now) places.items) }
{
    let numbers = circular_numbers(alloc, requests)?;
    let places = places_of(alloc, requests, &numbers)?;
    in_order(places)
}
