//! LAYOUT: sizes of types that depend on the alignment of `long long`.
ghost use Rattle.std.specs.Prelude.{Contains, OnOk};
ghost use Rattle.text_choices.specs.Choices.{Adds, OfKind};

use crate::adding::add_choice;
use crate::kinds::{Choice, Kind};
use tm_lattice::NoMemory;
use tm_terms::Place;

/// Adds the places of such sizes (C99 6.5.3.4, 6.7.2.1p12), which typing has found.
pub(crate) fn add_sizes(sizes: &[Place], choices: &mut Vec<Choice>) -> Result<(), NoMemory>
    ensures { OnOk result (Adds choices.old.items choices.new.items (OfKind Kind.Layout (Contains sizes.now))) }
{
    for place in sizes {
        let choice = Choice {
            place: *place,
            kind: Kind::Layout,
        };
        add_choice(choice, choices)?;
    }
    Ok(())
}
