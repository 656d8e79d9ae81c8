//! Choices in order.
ghost use Rattle.std.specs.Prelude.{◌↔◌, Contains, IfOk};
ghost use Rattle.text_choices.specs.declared.kinds.Choice.{Choice as AChoice};
ghost use Rattle.open_choices.specs.Choices.{AreRising};

use text_choices::Choice;
use tm_lattice::NoMemory;

/// The same choices in order, each once.
pub(crate) fn in_order(mut choices: Vec<Choice>) -> Result<Vec<Choice>, NoMemory>
    ensures rising { IfOk result (λ list. AreRising list.items) }
    ensures same { IfOk result (λ list. (c : AChoice) → Contains list.items c ↔ Contains choices.items c) }
{
    choices.sort()?;
    choices.dedup();
    Ok(choices)
}
