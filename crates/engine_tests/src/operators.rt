//! Operators on strided sets and conversions of such sets, worked by hand: what a row of them is; and sums,
//! differences, products, unary `-` and `~`, and the classes of errors.
ghost use Rattle.transfer_int.specs.Operands.{AreValues, AreRightOperands};

use crate::number_sets::{NONE, Numbers, set};
use crate::tables::{Row, assert_rows};
use std::alloc::Global;
use strided_dom::Strided;
use tm_cint::BinOp::{self, Add, Div, Mul, Rem, Shl, Shr, Sub};
use tm_cint::IntType::{self, Char, Int, LLong, UChar, UInt, ULLong};
use tm_lattice::NoMemory;
use transfer_int::{Classes, Outcome, binary, converted, invert, negate};

pub(crate) const LEAST: Numbers = (-2147483648, -2147483648, 1);

pub(crate) const GREATEST: Numbers = (2147483647, 2147483647, 1);

pub(crate) const LEAST_LONG: Numbers = (-9223372036854775808, -9223372036854775808, 1);

pub(crate) const GREATEST_LONG: Numbers = (9223372036854775807, 9223372036854775807, 1);

/// In an unsigned type its greatest value.
pub(crate) const MINUS_ONE: Numbers = (-1, -1, 1);

/// What an operator or a conversion gives.
pub(crate) enum Operation {
    /// A type, a set, and its conversion to the type.
    Converted(IntType, Numbers, Numbers),
    /// An operator, a type, its operands, and its value in that type.
    Gives(BinOp, IntType, Numbers, Numbers, Numbers),
    /// A comparison, the type of its operands, these, and its value, an `int`.
    Compares(BinOp, IntType, Numbers, Numbers, Numbers),
    /// An operator, a type, its operands, its value, and whether it may overflow, which is the one class that it may
    /// give.
    Overflows(BinOp, IntType, Numbers, Numbers, Numbers, bool),
    /// An operator, a type, its operands, and whether they may overflow, divide by zero and shift badly.
    Fails(BinOp, IntType, Numbers, Numbers, bool, bool, bool),
    /// A type, an operand, the value of `-`, and whether it may overflow.
    Negated(IntType, Numbers, Numbers, bool),
    /// A type, an operand, and the value of `~`.
    Inverted(IntType, Numbers, Numbers),
}

use Operation::{Compares, Converted, Fails, Gives, Inverted, Negated, Overflows};

/// The numbers of a row as values of the type.
fn values(ty: IntType, row: Numbers) -> Strided
    ensures { AreValues ty result }
{
    converted(ty, &set(row))
}

/// The same at the right of an operator.
fn right_values(op: BinOp, ty: IntType, row: Numbers) -> Strided
    ensures { AreRightOperands op ty result }
{
    values(ty, row)
}

/// What an operator gives for the numbers of two rows as its operands.
fn outcome_of(op: BinOp, ty: IntType, left: Numbers, right: Numbers) -> Outcome {
    binary(op, ty, &values(ty, left), &right_values(op, ty, right))
}

fn classes_of(overflow: bool, div: bool, shift: bool) -> Classes {
    Classes {
        overflow,
        div,
        shift,
        index: false,
        pointer: false,
        deref: false,
        lock: false,
    }
}

/// Whether an outcome has this value in the type, and no class but an overflow, which it has where `overflow` says so.
fn is_outcome(outcome: Outcome, ty: IntType, value: Numbers, overflow: bool) -> bool {
    outcome.value == values(ty, value) && outcome.classes == classes_of(overflow, false, false)
}

impl Row for Operation {
    fn holds(&self, _alloc: Global) -> Result<bool, NoMemory> {
        Ok(match self {
            Converted(ty, from, to) => converted(*ty, &set(*from)) == set(*to),
            Gives(op, ty, left, right, value) => {
                outcome_of(*op, *ty, *left, *right).value == values(*ty, *value)
            }
            Compares(op, ty, left, right, value) => {
                outcome_of(*op, *ty, *left, *right).value == values(Int, *value)
            }
            Overflows(op, ty, left, right, value, overflow) => {
                is_outcome(outcome_of(*op, *ty, *left, *right), *ty, *value, *overflow)
            }
            Fails(op, ty, left, right, overflow, div, shift) => {
                outcome_of(*op, *ty, *left, *right).classes == classes_of(*overflow, *div, *shift)
            }
            Negated(ty, from, value, overflow) => {
                is_outcome(negate(*ty, &values(*ty, *from)), *ty, *value, *overflow)
            }
            Inverted(ty, from, value) => invert(*ty, &values(*ty, *from)) == values(*ty, *value),
        })
    }
}

static SUMS_DIFFERENCES_PRODUCTS: [Operation; 20] = [
    Overflows(Add, Int, (0, 8, 4), (2, 8, 6), (2, 16, 2), false),
    Overflows(Add, Int, GREATEST, (0, 1, 1), GREATEST, true),
    Overflows(Add, Int, NONE, (1, 1, 1), NONE, false),
    Overflows(Add, Char, (100, 100, 1), (27, 28, 1), (127, 127, 1), true),
    Overflows(Add, UInt, MINUS_ONE, (1, 1, 1), (0, 0, 1), false),
    Overflows(Add, UChar, (250, 254, 4), (10, 14, 4), (4, 12, 4), false),
    Overflows(Add, UChar, (250, 254, 2), (4, 8, 4), (0, 254, 2), false),
    Overflows(Add, LLong, GREATEST_LONG, (1, 1, 1), NONE, true),
    Overflows(Add, ULLong, MINUS_ONE, MINUS_ONE, (-2, -2, 1), false),
    Overflows(Sub, Int, (10, 20, 10), (0, 15, 5), (-5, 20, 5), false),
    Overflows(Sub, UInt, (0, 0, 1), (1, 1, 1), MINUS_ONE, false),
    Overflows(Sub, LLong, LEAST_LONG, (0, 1, 1), LEAST_LONG, true),
    Overflows(Mul, Int, (-3, 5, 2), (-2, 4, 3), (-12, 20, 1), false),
    Overflows(Mul, Int, (0, 8, 4), (0, 6, 2), (0, 48, 8), false),
    Overflows(Mul, Int, GREATEST, (1, 2, 1), GREATEST, true),
    Overflows(
        Mul,
        UInt,
        (65536, 65536, 1),
        (65536, 65536, 1),
        (0, 0, 1),
        false,
    ),
    Overflows(Mul, LLong, LEAST_LONG, MINUS_ONE, NONE, true),
    Overflows(Mul, ULLong, MINUS_ONE, MINUS_ONE, (1, 1, 1), false),
    Overflows(Mul, ULLong, (-1, 0, 1), (2, 2, 1), (-2, 0, 2), false),
    Overflows(Mul, ULLong, (1, 3, 2), NONE, NONE, false),
];

#[test]
fn sums_differences_products(rt: HostRuntime) {
    assert_rows(&rt, rt.alloc(), &SUMS_DIFFERENCES_PRODUCTS);
}

static NEGATIONS: [Operation; 6] = [
    Negated(Int, (-5, 10, 5), (-10, 5, 5), false),
    Negated(Int, (-2147483648, -2147483647, 1), GREATEST, true),
    Negated(Int, NONE, NONE, false),
    Negated(UInt, (1, 1, 1), MINUS_ONE, false),
    Negated(UChar, (0, 10, 5), (0, 255, 1), false),
    Negated(LLong, LEAST_LONG, NONE, true),
];

#[test]
fn negations(rt: HostRuntime) {
    assert_rows(&rt, rt.alloc(), &NEGATIONS);
}

static COMPLEMENTS: [Operation; 5] = [
    Inverted(Int, (-3, 5, 2), (-6, 2, 2)),
    Inverted(Int, NONE, NONE),
    Inverted(UChar, (0, 10, 5), (245, 255, 5)),
    Inverted(UInt, (0, 0, 1), MINUS_ONE),
    Inverted(LLong, LEAST_LONG, GREATEST_LONG),
];

#[test]
fn complements(rt: HostRuntime) {
    assert_rows(&rt, rt.alloc(), &COMPLEMENTS);
}

static ERRORS: [Operation; 11] = [
    Fails(Div, Int, (1, 1, 1), (0, 1, 1), false, true, false),
    Fails(Div, Int, LEAST, MINUS_ONE, true, false, false),
    Fails(Div, Int, NONE, (0, 0, 1), false, false, false),
    Fails(Rem, Int, (-2147483648, 0, 1), (-1, 1, 1), true, true, false),
    Fails(Rem, UInt, (0, 0, 1), MINUS_ONE, false, false, false),
    Fails(Shl, Int, (-1, 0, 1), (1, 1, 1), false, false, true),
    Fails(Shl, Int, (1, 1, 1), (31, 31, 1), false, false, true),
    Fails(Shl, UInt, (1, 1, 1), (31, 31, 1), false, false, false),
    Fails(Shl, UInt, (1, 1, 1), (32, 32, 1), false, false, true),
    Fails(Shr, Int, MINUS_ONE, (0, 31, 1), false, false, false),
    Fails(Shr, Int, MINUS_ONE, (-1, 0, 1), false, false, true),
];

#[test]
fn errors_of_division_and_shifts(rt: HostRuntime) {
    assert_rows(&rt, rt.alloc(), &ERRORS);
}
