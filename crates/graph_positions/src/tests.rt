//! Whether a test lets values through.
ghost use Rattle.std.specs.Prelude.{◌≡◌};
ghost use Rattle.flow_graph.specs.Operations.{holds, is_as, is_given_true};
ghost use Rattle.graph_positions.specs.Memories.{temps_of};

use crate::temporaries::value_at;
use concrete_values::{Value, binary, compared, is_case, is_true};
use flow_graph::Test;
use tm_cint::Class;

fn is_given_true(given: Result<Value, Class>) -> bool
    ensures { result ≡ is_given_true given }
{
    match given {
        Ok(value) => is_true(value),
        Err(_) => false,
    }
}

fn is_as(wanted: bool, truth: bool) -> bool
    ensures { result ≡ is_as wanted truth }
{
    if wanted { truth } else { !truth }
}

// Whether a test lets these values through.
pub(crate) fn holds(test: Test, temporaries: &[Value]) -> bool
    ensures { result ≡ holds test (temps_of temporaries.now) }
{
    match test {
        Test::Numbers {
            operator,
            of,
            left,
            right,
        } => {
            let left = value_at(temporaries, left);
            let right = value_at(temporaries, right);
            is_given_true(binary(operator, of, left, right))
        }
        Test::Pointers { equal, left, right } => {
            let left = value_at(temporaries, left);
            let right = value_at(temporaries, right);
            is_true(compared(equal, left, right))
        }
        Test::Truth { holds, value } => is_as(holds, is_true(value_at(temporaries, value))),
        Test::Case {
            holds,
            label,
            value,
        } => is_as(holds, is_case(label, value_at(temporaries, value))),
    }
}
