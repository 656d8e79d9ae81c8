//! The actions of a task.
ghost use Rattle.std.specs.Prelude.{◌≡◌};
ghost use Rattle.tm_laid.specs.Layouts.{laid_tree};
ghost use Rattle.concrete_values.specs.Actions.{load_at, store_at, clear_at, is_of, is_between, value_if, given_to};
ghost use Rattle.concrete_values.specs.Actions.{done_to, answer_of};

use crate::pointers::{is_pointer, size_of};
use crate::values::{Answer, Pointer, Value, nothing, pointer_of};
use tm_cint::Class;
use tm_laid::{Laid, Place, Scalar};

/// What a task does next: an action for which it waits for the answer, or what ends it.
#[derive(Clone, Copy)]
pub enum Next {
    /// It reads a cell of this type, through a volatile lvalue or not.
    Load {
        object: u32,
        offset: u32,
        scalar: Scalar,
        volatile: bool,
        place: Place,
    },
    /// It stores a value in a cell of this type.
    Store {
        object: u32,
        offset: u32,
        scalar: Scalar,
        value: Value,
        place: Place,
    },
    /// It takes any number from `low` to `high`.
    Chosen {
        low: i128,
        high: i128,
    },
    /// It clears an object, where its declaration is reached.
    Clear {
        object: u32,
    },
    Lock {
        mutex: u32,
        place: Place,
    },
    Unlock {
        mutex: u32,
        place: Place,
    },
    Yield,
    /// It asks whether a mutex is held.
    Probe {
        mutex: u32,
        place: Place,
    },
    /// An error stops it.
    Fault {
        class: Class,
        place: Place,
    },
    /// Its body is at its end.
    Ended,
    /// A turn of a loop came back to its head and took no answer.
    Spins,
    /// An answer did not fit its action.
    Misfit,
}

/// The load at an address.
#[tactic(auto, unfolding(crate::specs::Actions::load_at))]
pub fn load_at(address: Value, scalar: Scalar, volatile: bool, place: Place) -> Next
    ensures { result ≡ load_at address scalar volatile place }
{
    match pointer_of(address) {
        Pointer::To { object, offset } => Next::Load {
            object,
            offset,
            scalar,
            volatile,
            place,
        },
        Pointer::Null | Pointer::Invalid => Next::Misfit,
    }
}

/// The store of a value at an address.
#[tactic(auto, unfolding(crate::specs::Actions::store_at))]
pub fn store_at(address: Value, scalar: Scalar, value: Value, place: Place) -> Next
    ensures { result ≡ store_at address scalar value place }
{
    match pointer_of(address) {
        Pointer::To { object, offset } => Next::Store {
            object,
            offset,
            scalar,
            value,
            place,
        },
        Pointer::Null | Pointer::Invalid => Next::Misfit,
    }
}

/// The clearing of an object, by its number.
#[tactic(auto, unfolding(crate::specs::Actions::clear_at, crate::specs::Pointers::size_of))]
pub fn clear_at(laid: &Laid, object: u64) -> Next
    ensures { result ≡ clear_at (laid_tree laid.now) object }
{
    match size_of(laid, object) {
        Some(_) => Next::Clear {
            object: object as u32,
        },
        None => Next::Misfit,
    }
}

/// Whether a value may stand in a cell of this type.
#[tactic(auto, unfolding(crate::specs::Actions::is_of))]
pub fn is_of(laid: &Laid, scalar: Scalar, value: Value) -> bool
    ensures { result ≡ is_of (laid_tree laid.now) scalar value }
{
    match (scalar, value) {
        (Scalar::Int(of), Value::Number(number)) => of.lo() <= number && number <= of.hi(),
        (Scalar::Pointer(_), Value::Pointer(pointer)) => is_pointer(laid, pointer),
        _ => false,
    }
}

// Whether a value is a number between these.
fn is_between(low: i128, high: i128, value: Value) -> bool
    ensures { result ≡ is_between low high value }
{
    match value {
        Value::Number(number) => low <= number && number <= high,
        Value::Pointer(_) => false,
    }
}

fn value_if(fits: bool, value: Value) -> Option<Value>
    ensures { result ≡ value_if fits value }
{
    if fits { Some(value) } else { None }
}

// What the action takes of a value.
fn given_to(laid: &Laid, action: Next, value: Value) -> Option<Value>
    ensures { result ≡ given_to (laid_tree laid.now) action value }
{
    match action {
        Next::Load { scalar, .. } => value_if(is_of(laid, scalar, value), value),
        Next::Chosen { low, high } => value_if(is_between(low, high, value), value),
        Next::Probe { .. } => value_if(is_between(0, 1, value), value),
        _ => None,
    }
}

// What the action takes of being done.
fn done_to(action: Next) -> Option<Value>
    ensures { result ≡ done_to action }
{
    match action {
        Next::Store { .. }
        | Next::Clear { .. }
        | Next::Lock { .. }
        | Next::Unlock { .. }
        | Next::Yield => Some(nothing()),
        _ => None,
    }
}

/// The value that an answer hands to an action that it fits.
#[tactic(auto, unfolding(crate::specs::Actions::answer_of))]
pub fn answer_of(laid: &Laid, action: Next, answer: Answer) -> Option<Value>
    ensures { result ≡ answer_of (laid_tree laid.now) action answer }
{
    match answer {
        Answer::Given(value) => given_to(laid, action, value),
        Answer::Done => done_to(action),
    }
}
