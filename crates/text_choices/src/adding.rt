//! Choices are added to lists.
ghost use Rattle.std.specs.Prelude.{◌≡◌, IsTrue, OnOk};
ghost use Rattle.text_choices.specs.Choices.{Adds};

use crate::kinds::Choice;
use tm_lattice::NoMemory;

/// Adds a choice.
pub fn add_choice(choice: Choice, choices: &mut Vec<Choice>) -> Result<(), NoMemory>
    ensures { OnOk result (Adds choices.old.items choices.new.items (λ c. c ≡ choice)) }
{
    choices.push(choice)?;
    Ok(())
}

/// Adds a choice if so it is.
pub fn add_where(holds: bool, choice: Choice, choices: &mut Vec<Choice>) -> Result<(), NoMemory>
    ensures { OnOk result (Adds choices.old.items choices.new.items (λ c. IsTrue holds × (c ≡ choice))) }
{
    if holds {
        add_choice(choice, choices)
    } else {
        Ok(())
    }
}
