//! CONST and ENUM, where something is given as another type.
ghost use Rattle.std.specs.Prelude.{◌≡◌, OnOk};
ghost use Rattle.text_choices.specs.Choices.{Adds};
ghost use Rattle.open_choices.specs.reading.Found.{IsOfSome, IsPassed, passed_kind};

use crate::adding::add_if;
use operand_orders::BodyView;
use path_origins::Passed;
use text_choices::{Choice, Kind};
use tm_lattice::NoMemory;

// The kind of what is given so.
fn passed_kind(passed: Passed) -> Kind
    ensures { result ≡ passed_kind passed }
{
    match passed {
        Passed::Pointer => Kind::Const,
        Passed::Enumeration => Kind::Enum,
    }
}

/// Adds the places of pointers that lose a `const`, or differ below (C99 6.5.16.1p1), and of casts to enumerations
/// (6.7.2.2p4).
pub(crate) fn add_passings(view: BodyView<'_>, choices: &mut Vec<Choice>) -> Result<(), NoMemory>
    ensures { OnOk result (let o = view.entry.origins.now in
        Adds choices.old.items choices.new.items (IsOfSome IsPassed o.passings.items)) }
{
    for passing in &view.origins.passings {
        add_if(choices, passed_kind(passing.passed), passing.place, true)?;
    }
    Ok(())
}
