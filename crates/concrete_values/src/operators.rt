//! What the operators of C give on integers.
ghost use Rattle.std.specs.Prelude.{◌≡◌, Result, negsuc, ◌-ℤ◌};
ghost use Rattle.tm_cint.specs.IntTypes.{IsIn};
ghost use Rattle.tm_cint.specs.Conversions.{represents_all, converted_value};
ghost use Rattle.tm_cint.specs.Operators.{IsRightOperand};
ghost use Rattle.concrete_values.specs.Operators.{number_result, right_number, binary, unary, converted, is_case};

use crate::values::{Value, number_in, number_of};
use tm_cint::{BinOp, Class, IntType, arith, convert, represents_all};
use tm_laid::Unary;

// A number as a value, or the class of an error.
fn number_result(number: Result<i128, Class>) -> Result<Value, Class>
    ensures { result ≡ number_result number }
{
    match number {
        Ok(number) => Ok(Value::Number(number)),
        Err(class) => Err(class),
    }
}

// The number at the right of an operator.
fn right_number(operator: BinOp, of: IntType, value: Value) -> i128
    ensures value { result ≡ right_number operator of value }
    ensures fits { IsRightOperand operator of result }
{
    match operator {
        BinOp::Shl | BinOp::Shr => number_of(value),
        _ => number_in(of, value),
    }
}

/// A binary operator that works in the type `of`, comparisons included.
#[tactic(auto, unfolding(crate::specs::Operators::binary))]
pub fn binary(operator: BinOp, of: IntType, left: Value, right: Value) -> Result<Value, Class>
    ensures { result ≡ binary operator of left right }
{
    let left = number_in(of, left);
    let right = right_number(operator, of, right);
    number_result(arith(operator, of, left, right))
}

// `-1 - number` as a value of the type, which is `~number` in it.
fn complement_of(number: i128, of: IntType) -> i128
    requires { IsIn of number }
    ensures { result ≡ converted_value (negsuc 0 -ℤ number) of }
{
    convert(-1 - number, of)
}

/// `-` or `~` in the type `of`.
#[tactic(auto, unfolding(crate::specs::Operators::unary))]
pub fn unary(operator: Unary, of: IntType, value: Value) -> Result<Value, Class>
    ensures { result ≡ unary operator of value }
{
    let number = number_in(of, value);
    match operator {
        Unary::Negate => number_result(arith(BinOp::Sub, of, 0, number)),
        Unary::Complement => Ok(Value::Number(complement_of(number, of))),
    }
}

/// A value converted from one type to another.
#[tactic(auto, unfolding(crate::specs::Operators::converted))]
pub fn converted(from: IntType, to: IntType, value: Value) -> Value
    ensures { result ≡ converted from to value }
{
    if represents_all(to, from) {
        value
    } else {
        Value::Number(convert(number_of(value), to))
    }
}

/// Whether the value of a `switch` is that of a label.
#[tactic(auto, unfolding(crate::specs::Operators::is_case))]
pub fn is_case(label: i128, value: Value) -> bool
    ensures { result ≡ is_case label value }
{
    number_of(value) == label
}
