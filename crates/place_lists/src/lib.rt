//! Lists of places in the order of the text, each place once. Where the places come from, this crate does not know.
//!
//! Of the places 3:1, 1:7, 3:1 and 1:2 in order there are 1:2, 1:7 and 3:1.
#![tactic(auto)]

ghost use Rattle.std.specs.Prelude.{◌≡◌, ◌⊎◌, ◌↔◌, Contains, IsTrue, IfOk, OnOk};
ghost use Rattle.tm_terms.specs.declared.places.Place.{Place as APlace};
ghost use Rattle.place_lists.specs.Order.{AreInOrder};

use tm_lattice::NoMemory;
use tm_terms::Place;

/// Adds a place; nothing where it is the same as the last one.
pub fn push_place(places: &mut Vec<Place>, place: Place) -> Result<(), NoMemory>
    ensures { OnOk result ((q : APlace) → Contains places.new.items q ↔ (Contains places.old.items q ⊎ (q ≡ place))) }
{
    if places.last().copied() == Some(place) {
        return Ok(());
    }
    places.push(place)?;
    Ok(())
}

/// The same places in order, each once.
pub fn in_order(mut places: Vec<Place>) -> Result<Vec<Place>, NoMemory>
    ensures sorted { IfOk result (λ list. AreInOrder list.items) }
    ensures same { IfOk result (λ list. (q : APlace) → Contains list.items q ↔ Contains places.items q) }
{
    places.sort()?;
    places.dedup();
    Ok(places)
}

/// Whether a place is among places that are in order. It takes time logarithmic in their number.
pub fn has_place(places: &[Place], place: Place) -> bool
    requires { AreInOrder places.now }
    ensures { IsTrue result ↔ Contains places.now place }
{
    places.binary_search(&place).is_ok()
}
