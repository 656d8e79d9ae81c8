//! Lists to which choices are added.
ghost use Rattle.std.specs.Prelude.{◌≡◌, ◌⊎◌, ◌↔◌, true, Contains, OnOk};
ghost use Rattle.text_choices.specs.declared.kinds.Choice.{Choice as AChoice};
ghost use Rattle.text_choices.specs.Choices.{Adds};
ghost use Rattle.open_choices.specs.reading.Found.{IsNew};

use text_choices::{Choice, Kind};
use tm_lattice::NoMemory;
use tm_terms::Place;

// Adds a choice; nothing where it is the same as the last one.
fn push_choice(choices: &mut Vec<Choice>, choice: Choice) -> Result<(), NoMemory>
    ensures { OnOk result ((c : AChoice) → Contains choices.new.items c
        ↔ (Contains choices.old.items c ⊎ (c ≡ choice))) }
{
    if choices.last().copied() == Some(choice) {
        return Ok(());
    }
    choices.push(choice)?;
    Ok(())
}

/// Adds a kind at a place, if something is left open there.
pub(crate) fn add_if(
    choices: &mut Vec<Choice>,
    kind: Kind,
    place: Place,
    is: bool,
) -> Result<(), NoMemory>
    ensures { OnOk result (Adds choices.old.items choices.new.items (IsNew kind place (is ≡ true))) }
{
    if is {
        push_choice(choices, Choice { place, kind })?;
    }
    Ok(())
}
