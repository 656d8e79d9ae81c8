//! Integers that are written in address constants.
ghost use Rattle.std.specs.Prelude.{◌≡◌, ℤ, pos, ◌+ℤ◌, ◌-ℤ◌, ◌*ℤ◌};
ghost use Rattle.tm_terms.specs.ExprTrees.{tree_of};
ghost use Rattle.text_choices.specs.AddressConstants.{held, combined, negated, and_then, number_of};

use tm_terms::{Binary, Expr, Infix, Prefix};

// A number, as far as 64 bits hold it.
fn held(value: u128) -> Option<i64>
    ensures { result ≡ held (pos value) }
{
    if value <= 9_223_372_036_854_775_807 {
        Some(value as i64)
    } else {
        None
    }
}

#[tactic(auto, using(crate::proofs::Holding::sum))]
fn sum(one: i64, other: i64) -> Option<i64>
    ensures { result ≡ held (one +ℤ other) }
{
    one.checked_add(other)
}

#[tactic(auto, using(crate::proofs::Holding::difference))]
fn difference(one: i64, other: i64) -> Option<i64>
    ensures { result ≡ held (one -ℤ other) }
{
    one.checked_sub(other)
}

#[tactic(auto, using(crate::proofs::Holding::product))]
fn product(one: i64, other: i64) -> Option<i64>
    ensures { result ≡ held (one *ℤ other) }
{
    one.checked_mul(other)
}

// What an operator makes of two numbers.
fn combined(operator: Binary, one: i64, other: i64) -> Option<i64>
    ensures { result ≡ combined operator one other }
{
    match operator {
        Binary::Add => sum(one, other),
        Binary::Subtract => difference(one, other),
        Binary::Multiply => product(one, other),
        _ => None,
    }
}

/// The opposite of a number, if there is one.
pub(crate) fn negated(number: Option<i64>) -> Option<i64>
    ensures { result ≡ negated number }
{
    match number {
        Some(number) => difference(0, number),
        None => None,
    }
}

// What an operator makes of two numbers, if there are such.
fn combined_if(operator: Binary, one: Option<i64>, other: Option<i64>) -> Option<i64>
    ensures { result ≡ and_then (λ x. and_then (combined operator x) other) one }
{
    match one {
        Some(one) => match other {
            Some(other) => combined(operator, one, other),
            None => None,
        },
        None => None,
    }
}

/// The number that an expression is, where it is written as one, or as a sum, a difference or a product of such.
pub(crate) fn integer(expr: &Expr) -> Option<i64>
    ensures { result ≡ number_of (tree_of expr.now) }
{
    match expr {
        Expr::Integer { constant, .. } => held(constant.value),
        Expr::Character { value, .. } => Some(i64::from(*value)),
        Expr::Parentheses { inside } => integer(inside),
        Expr::Prefix {
            operator,
            operand,
            ..
        } => match operator {
            Prefix::Minus => negated(integer(operand)),
            Prefix::Plus => integer(operand),
            _ => None,
        },
        Expr::Infix {
            left,
            operator,
            right,
            ..
        } => match operator {
            Infix::Binary(operator) => combined_if(*operator, integer(left), integer(right)),
            _ => None,
        },
        _ => None,
    }
}
