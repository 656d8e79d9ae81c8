//! What operations do with the values of temporaries.
ghost use Rattle.std.specs.Prelude.{◌≡◌, MatchOption};
ghost use Rattle.tm_laid.specs.Layouts.{laid_tree};
ghost use Rattle.flow_graph.specs.Operations.{doing, given_by, asks};
ghost use Rattle.graph_positions.specs.Layouts.{IsServing};
ghost use Rattle.graph_positions.specs.Outcomes.{doing_of};
ghost use Rattle.graph_positions.specs.Memories.{temps_of};
ghost use Rattle.graph_positions.specs.reading.Families.{IsAddress, IsAction};

use crate::calculations::calculated;
use crate::temporaries::value_at;
use cell_types::dereferenced;
use concrete_values::{Next, Value, base, clear_at, element, load_at, moved, part, store_at};
use flow_graph::Operation;
use tm_cint::Class;
use tm_laid::Laid;
use tm_terms::Place;

/// What an operation does.
#[derive(Clone, Copy)]
pub enum Outcome {
    /// It goes on by itself, and this is the value of the temporary that it gives, if it gives one.
    Gives(Value),
    /// Its edge cannot be gone.
    Shut,
    /// It waits for an answer to this action.
    Asks(Next),
    /// It stops the run with an error.
    Fails(Class, Place),
}

// A value, or the error at a place.
pub(crate) fn given_by(place: Place, value: Result<Value, Class>) -> Outcome
    ensures { doing_of result ≡ given_by place value }
{
    match value {
        Ok(value) => Outcome::Gives(value),
        Err(class) => Outcome::Fails(class, place),
    }
}

// The outcome of an operation that gives an address, and none of any other.
fn addressed(laid: &Laid, operation: Operation, temporaries: &[Value]) -> Option<Outcome>
    requires { IsServing laid.now }
    ensures { MatchOption result (IsAddress operation → ⊥)
        (λ o. doing_of o ≡ doing (laid_tree laid.now) operation (temps_of temporaries.now)) }
{
    match operation {
        Operation::Base { object, .. } => Some(Outcome::Gives(base(laid, u64::from(object)))),
        Operation::Offset { from, cells, .. } => {
            let from = value_at(temporaries, from);
            Some(Outcome::Gives(part(laid, cells, from)))
        }
        Operation::Index {
            from,
            length,
            cells,
            by,
            place,
            ..
        } => {
            let from = value_at(temporaries, from);
            let by = value_at(temporaries, by);
            Some(given_by(place, element(laid, length, cells, from, by)))
        }
        Operation::Move {
            from,
            cells,
            minus,
            by,
            place,
            ..
        } => {
            let from = value_at(temporaries, from);
            let by = value_at(temporaries, by);
            Some(given_by(place, moved(laid, minus, cells, from, by)))
        }
        Operation::Deref {
            from,
            target,
            path,
            place,
            ..
        } => {
            let from = value_at(temporaries, from);
            Some(given_by(place, dereferenced(laid, path, target, from)))
        }
        _ => None,
    }
}

// The action for which an operation waits, and none of any other.
fn asked(laid: &Laid, operation: Operation, temporaries: &[Value]) -> Option<Next>
    ensures { MatchOption result (IsAction operation → ⊥)
        (λ n. doing (laid_tree laid.now) operation (temps_of temporaries.now) ≡ asks n) }
{
    match operation {
        Operation::Load {
            address,
            scalar,
            place,
            ..
        } => Some(load_at(value_at(temporaries, address), scalar, false, place)),
        Operation::LoadAny {
            address,
            scalar,
            place,
            ..
        } => Some(load_at(value_at(temporaries, address), scalar, true, place)),
        Operation::Store {
            address,
            value,
            scalar,
            place,
            ..
        } => {
            let address = value_at(temporaries, address);
            let value = value_at(temporaries, value);
            Some(store_at(address, scalar, value, place))
        }
        Operation::Any { low, high, .. } => Some(Next::Chosen { low, high }),
        Operation::Clear { object } => Some(clear_at(laid, u64::from(object))),
        Operation::Lock { mutex, place } => Some(Next::Lock { mutex, place }),
        Operation::Unlock { mutex, place } => Some(Next::Unlock { mutex, place }),
        Operation::Yield => Some(Next::Yield),
        Operation::Probe { mutex, place, .. } => Some(Next::Probe { mutex, place }),
        _ => None,
    }
}

/// What an operation does with the values of temporaries.
pub fn doing(laid: &Laid, operation: Operation, temporaries: &[Value]) -> Outcome
    requires { IsServing laid.now }
    ensures { doing_of result ≡ doing (laid_tree laid.now) operation (temps_of temporaries.now) }
{
    match calculated(operation, temporaries) {
        Some(outcome) => outcome,
        None => match addressed(laid, operation, temporaries) {
            Some(outcome) => outcome,
            None => match asked(laid, operation, temporaries) {
                Some(action) => Outcome::Asks(action),
                None => unreachable!(),
            },
        },
    }
}
