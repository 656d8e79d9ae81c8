//! Operations that work on values alone.
ghost use Rattle.std.specs.Prelude.{◌≡◌, MatchOption};
ghost use Rattle.tm_laid.specs.Layouts.{LaidTree};
ghost use Rattle.flow_graph.specs.Operations.{doing, lets_through};
ghost use Rattle.graph_positions.specs.Outcomes.{doing_of};
ghost use Rattle.graph_positions.specs.Memories.{temps_of};
ghost use Rattle.graph_positions.specs.reading.Families.{IsCalculation};

use crate::outcomes::{Outcome, given_by};
use crate::temporaries::value_at;
use crate::tests::holds;
use concrete_values::{Value, binary, compared, converted, nothing, unary, usable};
use flow_graph::Operation;

fn lets_through(holds: bool) -> Outcome
    ensures { doing_of result ≡ lets_through holds }
{
    if holds {
        Outcome::Gives(nothing())
    } else {
        Outcome::Shut
    }
}

// The outcome of an operation that works on values alone, and none of any other.
pub(crate) fn calculated(operation: Operation, temporaries: &[Value]) -> Option<Outcome>
    ensures { MatchOption result (IsCalculation operation → ⊥)
        (λ o. (l : LaidTree) → doing_of o ≡ doing l operation (temps_of temporaries.now)) }
{
    match operation {
        Operation::Skip => Some(Outcome::Gives(nothing())),
        Operation::Const { value, .. } => Some(Outcome::Gives(value)),
        Operation::Copy { from, .. } => Some(Outcome::Gives(value_at(temporaries, from))),
        Operation::Un {
            operator,
            of,
            from,
            place,
            ..
        } => {
            let from = value_at(temporaries, from);
            Some(given_by(place, unary(operator, of, from)))
        }
        Operation::Bin {
            operator,
            of,
            left,
            right,
            place,
            ..
        } => {
            let left = value_at(temporaries, left);
            let right = value_at(temporaries, right);
            Some(given_by(place, binary(operator, of, left, right)))
        }
        Operation::BinPointers {
            equal,
            left,
            right,
            ..
        } => {
            let left = value_at(temporaries, left);
            let right = value_at(temporaries, right);
            Some(Outcome::Gives(compared(equal, left, right)))
        }
        Operation::Convert { was, of, from, .. } => {
            let from = value_at(temporaries, from);
            Some(Outcome::Gives(converted(was, of, from)))
        }
        Operation::Usable { pointer, place } => {
            let pointer = value_at(temporaries, pointer);
            Some(given_by(place, usable(pointer)))
        }
        Operation::Assume { test } => Some(lets_through(holds(test, temporaries))),
        _ => None,
    }
}
