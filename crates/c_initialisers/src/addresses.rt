//! Addresses that are known before the program runs, each step of which stays inside its object (C99 6.6, 6.5.6).
ghost use Rattle.std.specs.Prelude.{◌≡◌, true};
ghost use Rattle.tm_typed.specs.TypeRows.{clipped};
ghost use Rattle.tm_typed.specs.StaticValues.{is_near, cell_inside, offset, moved, behind, element_of, pointed_to};
ghost use Rattle.tm_typed.specs.StaticValues.{object_address, as_converted, address_at, size_of_static};

use crate::scalars::stands_at;
use c_typing_state::State;
use tm_cint::{IntType, convert};
use tm_typed::{ObjectNumber, StaticValue};

// An index that some object may have.
fn is_near(index: i128) -> bool
    ensures { result ≡ is_near index }
{
    index >= -65537 && index <= 65537
}

// A number of cells, as which all greater than 65,536 are 65,537.
fn clipped(cells: u64) -> u32
    ensures { result ≡ clipped cells }
{
    cells.min(65537) as u32
}

// A cell of an object of this size, or the one behind its last; more cells than a program may have are not judged.
fn cell_inside(size: u32, cell: i128) -> Option<u32>
    ensures { result ≡ cell_inside size cell }
{
    if cell < 0 {
        return None;
    }
    if cell <= i128::from(size) || 65536 < size {
        Some(cell.min(65537) as u32)
    } else {
        None
    }
}

// A cell, moved by elements of `cells` cells.
fn offset(minus: bool, cell: u32, cells: u32, index: i128) -> i128
    requires { is_near index ≡ true }
    ensures { result ≡ offset minus cell cells index }
{
    let by = i128::from(cells) * index;
    if minus {
        i128::from(cell) - by
    } else {
        i128::from(cell) + by
    }
}

// An address of a cell of the object, where there is one.
fn address_at(object: u32, cell: Option<u32>) -> Option<StaticValue>
    ensures { result ≡ address_at object cell }
{
    match cell {
        Some(cell) => Some(StaticValue::Address { object, cell }),
        None => None,
    }
}

fn size_of_static(state: &State, object: u32) -> u32
    ensures { result ≡ size_of_static state.now object }
{
    state.scope().cells(state.static_type(object).number)
}

/// An address moved by an index of elements of `cells` cells (C99 6.5.6).
pub(crate) fn moved(
    state: &State,
    minus: bool,
    cells: u32,
    address: Option<StaticValue>,
    index: Option<StaticValue>,
) -> Option<StaticValue>
    ensures { result ≡ moved state.now minus cells address index }
{
    match (address, index) {
        (Some(StaticValue::Address { object, cell }), Some(StaticValue::Number(index))) => {
            if is_near(index) {
                let to = offset(minus, cell, cells, index);
                address_at(object, cell_inside(size_of_static(state, object), to))
            } else {
                None
            }
        }
        _ => None,
    }
}

/// The cell at some cells behind an address.
pub(crate) fn behind(cells: u64, address: Option<StaticValue>) -> Option<StaticValue>
    ensures { result ≡ behind cells address }
{
    match address {
        Some(StaticValue::Address { object, cell }) => Some(StaticValue::Address {
            object,
            cell: clipped(cells.saturating_add(u64::from(cell))),
        }),
        Some(StaticValue::Null | StaticValue::Number(_)) | None => None,
    }
}

/// An element of an array lvalue of `length` elements of `cells` cells.
pub(crate) fn element_of(
    length: u32,
    cells: u32,
    array: Option<StaticValue>,
    index: Option<StaticValue>,
) -> Option<StaticValue>
    ensures { result ≡ element_of length cells array index }
{
    match index {
        Some(StaticValue::Number(index)) => {
            if index >= 0 && index < i128::from(length) {
                behind(u64::from(cells) * (index as u64), array)
            } else {
                None
            }
        }
        Some(StaticValue::Null | StaticValue::Address { .. }) | None => None,
    }
}

/// What a pointer to the type `target` points to: an object that is there.
pub(crate) fn pointed_to(
    state: &State,
    target: u32,
    pointer: Option<StaticValue>,
) -> Option<StaticValue>
    ensures { result ≡ pointed_to state.now target pointer }
{
    match pointer {
        Some(StaticValue::Address { object, cell }) => {
            if stands_at(
                state.scope(),
                state.static_type(object).number,
                cell,
                target,
            ) {
                pointer
            } else {
                None
            }
        }
        Some(StaticValue::Null | StaticValue::Number(_)) | None => None,
    }
}

/// The address of an object of static storage.
pub(crate) fn object_address(object: ObjectNumber) -> Option<StaticValue>
    ensures { result ≡ object_address object }
{
    match object {
        ObjectNumber::Static(object) => Some(StaticValue::Address { object, cell: 0 }),
        ObjectNumber::Local(_) => None,
    }
}

/// A number as one of an integer type.
pub(crate) fn as_converted(of: IntType, value: Option<StaticValue>) -> Option<StaticValue>
    ensures { result ≡ as_converted of value }
{
    match value {
        Some(StaticValue::Number(value)) => Some(StaticValue::Number(convert(value, of))),
        Some(StaticValue::Null | StaticValue::Address { .. }) | None => None,
    }
}
