//! Values of scalar cells.
ghost use Rattle.std.specs.Prelude.{◌≡◌};
ghost use Rattle.tm_cint.specs.IntTypes.{IsIn};
ghost use Rattle.concrete_values.specs.Values.{nothing, truth_value, is_null, is_true, number_of, pointer_of};
ghost use Rattle.concrete_values.specs.Values.{number_in};

use tm_cint::IntType;

/// A pointer. An object is flattened into its scalar cells in order, and the offset counts cells: it is at most the
/// size of the object, one past its last cell (C99 6.5.6).
#[derive(Clone, Copy, PartialEq, Eq)]
pub enum Pointer {
    /// The null pointer (C99 6.3.2.3).
    Null,
    /// What a pointer cell holds that was cleared and not stored since.
    Invalid,
    /// A pointer to an object, by its number.
    To { object: u32, offset: u32 },
}

/// What a scalar cell holds.
#[derive(Clone, Copy, PartialEq, Eq)]
pub enum Value {
    Number(i128),
    Pointer(Pointer),
}

/// What a step hands back to the task: the value that it loaded or that was chosen, or only that it is done.
#[derive(Clone, Copy, PartialEq, Eq)]
pub enum Answer {
    Given(Value),
    Done,
}

/// The value of what gives none: nobody uses it.
pub fn nothing() -> Value
    ensures { result ≡ nothing }
{
    Value::Pointer(Pointer::Invalid)
}

/// 1 for a fact that holds, else 0.
pub fn truth_value(truth: bool) -> Value
    ensures { result ≡ truth_value truth }
{
    if truth {
        Value::Number(1)
    } else {
        Value::Number(0)
    }
}

// Whether this is the null pointer.
fn is_null(pointer: Pointer) -> bool
    ensures { result ≡ is_null pointer }
{
    match pointer {
        Pointer::Null => true,
        Pointer::Invalid | Pointer::To { .. } => false,
    }
}

/// Whether a value is neither 0 nor null.
#[tactic(auto, unfolding(crate::specs::Values::is_true))]
pub fn is_true(value: Value) -> bool
    ensures { result ≡ is_true value }
{
    match value {
        Value::Number(number) => number != 0,
        Value::Pointer(pointer) => !is_null(pointer),
    }
}

/// The number of a value; a pointer counts as 0.
#[tactic(auto, unfolding(crate::specs::Values::number_of))]
pub fn number_of(value: Value) -> i128
    ensures { result ≡ number_of value }
{
    match value {
        Value::Number(number) => number,
        Value::Pointer(_) => 0,
    }
}

/// The pointer of a value; a number counts as the invalid pointer.
#[tactic(auto, unfolding(crate::specs::Values::pointer_of))]
pub fn pointer_of(value: Value) -> Pointer
    ensures { result ≡ pointer_of value }
{
    match value {
        Value::Number(_) => Pointer::Invalid,
        Value::Pointer(pointer) => pointer,
    }
}

/// The number of a value of the type; any other counts as 0.
#[tactic(auto, unfolding(crate::specs::Values::number_in))]
pub fn number_in(of: IntType, value: Value) -> i128
    ensures value { result ≡ number_in of value }
    ensures inside { IsIn of result }
{
    let number = number_of(value);
    if of.holds(number) { number } else { 0 }
}
