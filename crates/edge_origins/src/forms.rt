//! The forms of operations.
ghost use Rattle.std.specs.Prelude.{◌↔◌, IsTrue};
ghost use Rattle.edge_origins.specs.Bodies.{HasForm};

use flow_graph::{Operation, Test};
use path_origins::Form;

/// Whether an operation has a form.
pub(crate) fn has_form(operation: Operation, form: Form) -> bool
    ensures { IsTrue result ↔ HasForm operation form }
{
    match operation {
        Operation::Skip => matches!(form, Form::Skip),
        Operation::Const { .. } => matches!(form, Form::Constant),
        Operation::Copy { .. } => matches!(form, Form::Copy),
        Operation::Un { .. } => matches!(form, Form::Unary(_)),
        Operation::Bin { .. } => matches!(form, Form::Binary(_)),
        Operation::BinPointers { .. } => matches!(form, Form::Equality),
        Operation::Convert { .. } => matches!(form, Form::Conversion),
        Operation::Base { .. } => matches!(form, Form::Base),
        Operation::Offset { .. } => matches!(form, Form::Part),
        Operation::Index { .. } => matches!(form, Form::Element),
        Operation::Move { .. } => matches!(form, Form::Move(_)),
        Operation::Deref { .. } => matches!(form, Form::Follow),
        Operation::Load { .. } => matches!(form, Form::Load),
        Operation::LoadAny { .. } => matches!(form, Form::Load),
        Operation::Store { .. } => matches!(form, Form::Store | Form::Initialise),
        Operation::Any { .. } => matches!(form, Form::Any),
        Operation::Clear { .. } => matches!(form, Form::Clear),
        Operation::Usable { .. } => matches!(form, Form::Usable),
        Operation::Assume { test } => is_test(test, form),
        Operation::Lock { .. } => matches!(form, Form::Lock),
        Operation::Unlock { .. } => matches!(form, Form::Unlock),
        Operation::Yield => matches!(form, Form::Yield),
        Operation::Probe { .. } => matches!(form, Form::Probe),
    }
}

// Whether a test has a form.
fn is_test(test: Test, form: Form) -> bool
    ensures { IsTrue result ↔ HasForm (Operation.Assume test) form }
{
    match test {
        Test::Pointers { .. } => matches!(form, Form::EqualityTest),
        Test::Numbers { .. } => matches!(form, Form::Test(_)),
        Test::Truth { .. } => matches!(form, Form::Test(_)),
        Test::Case { .. } => matches!(form, Form::Test(_)),
    }
}
