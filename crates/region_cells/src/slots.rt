//! Slots: one for each object, and behind these one for each scalar type.
ghost use Rattle.std.specs.Prelude.{◌≡◌, ◌<◌, ◌^◌};
ghost use Rattle.region_cells.specs.reading.Slots.{scalar_number, object_slot, into_slot, slot_of};

use flow_graph::{Into, Operation};
use tm_typed::{Scalar, int_index};

// The number of a scalar type: the integer types in their order, then pointers by their classes.
pub(crate) fn scalar_number(scalar: Scalar) -> usize
    ensures value { result ≡ scalar_number scalar }
    ensures small { result < 2 ^ 33 }
{
    match scalar {
        Scalar::Int(of) => int_index(of) as usize,
        Scalar::Pointer(class) => 11 + class as usize,
    }
}

fn object_slot(objects: usize, object: u32) -> Option<usize>
    ensures { result ≡ object_slot objects object }
{
    let slot = object as usize;
    if slot < objects { Some(slot) } else { None }
}

fn into_slot(objects: usize, scalar: Scalar, into: Into) -> Option<usize>
    requires { objects < 2 ^ 63 }
    ensures { result ≡ into_slot objects scalar into }
{
    match into {
        Into::Object(object) => object_slot(objects, object),
        Into::Pointed => Some(objects + scalar_number(scalar)),
    }
}

// The slot of what an operation writes: an object, or the scalar type of what a pointer leads to.
pub(crate) fn slot_of(objects: usize, operation: Operation) -> Option<usize>
    requires { objects < 2 ^ 63 }
    ensures { result ≡ slot_of objects operation }
{
    match operation {
        Operation::Store { scalar, into, .. } => into_slot(objects, scalar, into),
        Operation::Clear { object } => object_slot(objects, object),
        _ => None,
    }
}
