//! ENUM in static storage: objects that begin with a negative number in an enumeration.
ghost use Rattle.std.specs.Prelude.{◌≡◌, OnOk};
ghost use Rattle.tm_typed.specs.TypedFiles.{typed_static_tree};
ghost use Rattle.tm_laid.specs.Layouts.{laid_tree};
ghost use Rattle.text_choices.specs.Choices.{Adds, OfKind};
ghost use Rattle.text_choices.specs.Enumerations.{BeginsNegative};
ghost use Rattle.text_choices.specs.reading.Typed.{is_negative, begins_negative, any_negative, IsOfObject};

use crate::adding::add_where;
use crate::kinds::{Choice, Kind};
use part_extents::is_of_enumeration;
use source_names::Inside;
use tm_laid::Laid;
use tm_lattice::NoMemory;
use tm_typed::{Qualified, StaticCell, StaticValue, TypedStatic};

// Whether a value is a negative number.
fn is_negative(value: StaticValue) -> bool
    ensures { result ≡ is_negative value }
{
    match value {
        StaticValue::Number(number) => number < 0,
        StaticValue::Null | StaticValue::Address { .. } => false,
    }
}

// Whether a cell that is given to an object of a type is a negative number in an enumeration that compilers may make
// unsigned.
fn begins_negative(laid: &Laid, of: Qualified, given: StaticCell) -> bool
    ensures { result ≡ begins_negative (laid_tree laid.now) of given }
{
    let inside = Inside {
        of,
        cell: given.cell,
    };
    is_negative(given.value) && is_of_enumeration(laid, inside)
}

// Whether one of such cells is.
fn any_negative(laid: &Laid, of: Qualified, given: &[StaticCell]) -> bool
    ensures { result ≡ any_negative (laid_tree laid.now) of given.now }
{
    for cell in given {
        if begins_negative(laid, of, *cell) {
            return true;
        }
    }
    false
}

// Adds the place of an object that begins so.
fn add_object(laid: &Laid, object: &TypedStatic, choices: &mut Vec<Choice>) -> Result<(), NoMemory>
    ensures { OnOk result (Adds choices.old.items choices.new.items
        (IsOfObject (laid_tree laid.now) (typed_static_tree object.now))) }
{
    let choice = Choice {
        place: object.place,
        kind: Kind::Enum,
    };
    let holds = any_negative(laid, object.of, &object.given);
    add_where(holds, choice, choices)
}

/// Adds the places of objects of static storage that begin with a negative number where an enumeration stands that
/// compilers may make unsigned (C99 6.7.2.2p4).
pub(crate) fn add_enumerations(laid: &Laid, choices: &mut Vec<Choice>) -> Result<(), NoMemory>
    ensures { OnOk result (Adds choices.old.items choices.new.items
        (OfKind Kind.Enum (BeginsNegative (laid_tree laid.now)))) }
{
    for object in &laid.file.statics {
        add_object(laid, object, choices)?;
    }
    Ok(())
}
