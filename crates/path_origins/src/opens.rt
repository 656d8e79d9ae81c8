//! The places of the signs `(`.
ghost use Rattle.std.specs.Prelude.{◌≡◌, ◌||◌, IfOk, OnOk};
ghost use Rattle.tm_terms.specs.declared.places.Place.{Place as APlace};
ghost use Rattle.body_builder.specs.lowering.Table.{is_same_place};
ghost use Rattle.path_origins.specs.Opens.{is_among};

use indexmap::IndexSet;
use std::alloc::Global;
use std::marker::Model;
use tm_lattice::NoMemory;
use tm_terms::Place;

/// Places, each found at once.
pub struct Opens {
    places: IndexSet<Place>,
}

// By hand: a function that lets one go calls this, and its check does not go through the fields.
impl Drop for Opens {
    fn drop(self) {
        let Opens { places: _places } = self;
    }
}

impl Model for Opens {
    ghost use Rattle.std.specs.Prelude.{List};
    ghost use Rattle.tm_terms.specs.declared.places.Place.{Place};

    ghost Value = { List Place };

    ghost view = { λ o. o.places.keys };
}

// One more place.
fn add_place(to: &mut IndexSet<Place>, place: Place) -> Result<(), NoMemory>
    ensures { OnOk result ((p : APlace) → is_among to.new.keys p ≡ (is_among to.old.keys p || is_same_place place p)) }
{
    to.insert(place)?;
    Ok(())
}

/// These places.
#[tactic(auto, using(crate::proofs::Among::either_assoc))]
pub fn opens_of(alloc: Global, places: &[Place]) -> Result<Opens, NoMemory>
    ensures { IfOk result (λ o. (p : APlace) → is_among o p ≡ is_among places.now p) }
{
    let mut found = IndexSet::new(alloc);
    for place in places {
        add_place(&mut found, *place)?;
    }
    Ok(Opens { places: found })
}

impl Opens {
    /// Whether a place is one of them.
    pub(crate) fn has(&self, place: Place) -> bool
        ensures { result ≡ is_among self.now place }
    {
        self.places.contains(&place)
    }
}
