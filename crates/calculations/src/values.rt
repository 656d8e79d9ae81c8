//! Values of temporaries.
ghost use Rattle.std.specs.Prelude.{◌≡◌, IfOk};
ghost use Rattle.pointer_dom.specs.PointerSets.{no_pointer};
ghost use Rattle.transfer_rows.specs.StateForms.{value_of};
ghost use Rattle.transfer_rows.specs.Actions.{copied};
ghost use Rattle.calculations.specs.Given.{no_class, IsCalculated};

use cell_env::State;
use pointer_dom::{AbsValue, PointerSet};
use std::alloc::Global;
use strided_dom::Strided;
use tm_lattice::{Lattice, NoMemory};
use transfer_int::Classes;

/// What a calculation gives: the value, and for each class whether it is not excluded.
#[derive(Drop)]
pub struct Calculated {
    pub value: AbsValue,
    pub classes: Classes,
}

/// The numbers of a temporary; none where it is not live.
pub fn numbers_of(state: &State<AbsValue>, temp: u32) -> Strided
    ensures { result ≡ (value_of state.now temp).numbers }
{
    match state.temp(temp) {
        None => Strided::empty(),
        Some(entry) => entry.value.numbers(),
    }
}

/// The pointers of a temporary, in the place of which `none` stands where there is none.
pub fn pointers_of<'a>(
    state: &'a State<AbsValue>,
    temp: u32,
    none: &'a PointerSet,
) -> &'a PointerSet
    requires { none.now ≡ no_pointer }
    ensures { result.now ≡ (value_of state.now temp).pointers }
{
    match state.temp(temp) {
        None => none,
        Some(entry) => match entry.value.pointers() {
            None => none,
            Some(pointers) => pointers,
        },
    }
}

/// The value of a temporary; nothing where it is not live.
pub fn value_of(alloc: Global, state: &State<AbsValue>, temp: u32) -> Result<AbsValue, NoMemory>
    ensures { IfOk result (λ value. value ≡ value_of state.now temp) }
{
    match state.temp(temp) {
        None => Ok(AbsValue::from_numbers(Strided::empty())),
        Some(entry) => entry.value.copied(alloc),
    }
}

/// No class.
pub fn no_classes() -> Classes
    ensures { result ≡ no_class }
{
    Classes {
        overflow: false,
        div: false,
        shift: false,
        index: false,
        pointer: false,
        deref: false,
        lock: false,
    }
}

/// A copy.
pub fn copied(alloc: Global, state: &State<AbsValue>, source: u32) -> Result<Calculated, NoMemory>
    ensures { IfOk result (λ given. IsCalculated (copied source) state.now given) }
{
    let value = value_of(alloc, state, source)?;
    Ok(Calculated {
        value,
        classes: no_classes(),
    })
}
