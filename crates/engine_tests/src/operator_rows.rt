//! Values of operators on strided sets, worked by hand: quotients, remainders, shifts, `&`, `|`, `^` and comparisons.
use crate::number_sets::{NONE, Numbers};
use crate::operators::Operation::{self, Compares, Gives};
use crate::operators::{GREATEST, GREATEST_LONG, LEAST, LEAST_LONG, MINUS_ONE};
use crate::tables::assert_rows;
use tm_cint::BinOp::{And, Div, Eq, Ge, Gt, Le, Lt, Ne, Or, Rem, Shl, Shr, Xor};
use tm_cint::IntType::{Char, Int, LLong, UChar, UInt, ULLong};

const ALL: Numbers = (-2147483648, 2147483647, 1);

const FALSE: Numbers = (0, 0, 1);

const TRUE: Numbers = (1, 1, 1);

const EITHER: Numbers = (0, 1, 1);

static QUOTIENTS_AND_REMAINDERS: [Operation; 23] = [
    Gives(Div, Int, (10, 10, 1), (-1, 1, 1), (-10, 10, 1)),
    Gives(Div, Int, (-7, 7, 1), (2, 3, 1), (-3, 3, 1)),
    Gives(Div, Int, (-12, 12, 8), (-4, -4, 1), (-3, 3, 2)),
    Gives(Div, Int, (10, 20, 5), (4, 4, 1), (2, 5, 1)),
    Gives(Div, Int, (10, 20, 10), (5, 10, 5), (1, 4, 1)),
    Gives(Div, Int, (100, 100, 1), (0, 5, 5), (20, 20, 1)),
    Gives(Div, Int, (1, 1, 1), (0, 0, 1), NONE),
    Gives(Div, Int, LEAST, MINUS_ONE, NONE),
    Gives(Div, Int, (-2147483648, -2147483647, 1), MINUS_ONE, GREATEST),
    Gives(Div, UInt, (10, 20, 10), (3, 5, 2), (2, 6, 1)),
    Gives(
        Div,
        LLong,
        LEAST_LONG,
        (2, 2, 1),
        (-4611686018427387904, -4611686018427387904, 1),
    ),
    Gives(Div, ULLong, MINUS_ONE, (2, 2, 1), GREATEST_LONG),
    Gives(Rem, Int, (5, 9, 1), (3, 4, 1), (0, 3, 1)),
    Gives(Rem, Int, (-2, 5, 1), (-10, -10, 1), (-2, 5, 1)),
    Gives(Rem, Int, (-8, -3, 1), (0, 4, 4), (-3, 0, 1)),
    Gives(Rem, Int, (10, 30, 10), (4, 4, 1), (0, 2, 2)),
    Gives(Rem, Int, (1, 3, 2), (4, 8, 4), (1, 3, 2)),
    Gives(Rem, Int, (4, 8, 4), (4, 8, 4), (0, 4, 4)),
    Gives(Rem, Int, (7, 7, 1), (0, 0, 1), NONE),
    Gives(Rem, Char, (-128, -128, 1), (7, 7, 1), (-2, -2, 1)),
    Gives(Rem, UInt, (0, 8, 4), MINUS_ONE, (0, 8, 4)),
    Gives(Rem, LLong, LEAST_LONG, (10, 10, 1), (-8, -8, 1)),
    Gives(Rem, ULLong, MINUS_ONE, (10, 10, 1), (5, 5, 1)),
];

#[test]
fn quotients_and_remainders(rt: HostRuntime) {
    assert_rows(&rt, rt.alloc(), &QUOTIENTS_AND_REMAINDERS);
}

static SHIFTS: [Operation; 19] = [
    Gives(Shl, Int, (1, 3, 1), (0, 4, 4), (1, 48, 1)),
    Gives(Shl, Int, (3, 5, 2), (2, 2, 1), (12, 20, 8)),
    Gives(Shl, Int, (-3, 6, 3), (1, 1, 1), (0, 12, 6)),
    Gives(Shl, Int, (4, 12, 8), (1, 3, 2), (8, 96, 8)),
    Gives(
        Shl,
        Int,
        (1, 1, 1),
        (30, 31, 1),
        (1073741824, 1073741824, 1),
    ),
    Gives(Shl, Int, (-5, -1, 1), (1, 1, 1), NONE),
    Gives(Shl, Int, (1, 1, 1), (32, 40, 1), NONE),
    Gives(Shl, UInt, MINUS_ONE, (1, 1, 1), (-2, -2, 1)),
    Gives(Shl, UChar, (3, 5, 2), (6, 6, 1), (64, 192, 128)),
    Gives(Shl, LLong, (1, 1, 1), (63, 63, 1), NONE),
    Gives(Shl, ULLong, (1, 1, 1), (63, 63, 1), LEAST_LONG),
    Gives(Shr, Int, (-7, 8, 1), (0, 1, 1), (-7, 8, 1)),
    Gives(Shr, Int, (-7, -7, 1), (1, 1, 1), (-4, -4, 1)),
    Gives(Shr, Int, (8, 24, 8), (2, 2, 1), (2, 6, 2)),
    Gives(Shr, Int, (5, 20, 5), (1, 2, 1), (1, 10, 1)),
    Gives(Shr, Int, (1, 1, 1), (-1, -1, 1), NONE),
    Gives(Shr, UInt, MINUS_ONE, (31, 31, 1), (1, 1, 1)),
    Gives(Shr, LLong, LEAST_LONG, (63, 63, 1), MINUS_ONE),
    Gives(Shr, ULLong, MINUS_ONE, (63, 63, 1), (1, 1, 1)),
];

#[test]
fn shifts(rt: HostRuntime) {
    assert_rows(&rt, rt.alloc(), &SHIFTS);
}

static BITS: [Operation; 17] = [
    Gives(And, Int, (0, 10, 1), (-5, 3, 1), (0, 10, 1)),
    Gives(And, Int, (0, 10, 5), (0, 6, 1), (0, 6, 1)),
    Gives(And, Int, (-5, -1, 1), (3, 9, 1), (0, 9, 1)),
    Gives(And, Int, (-5, -5, 1), (12, 12, 1), (8, 8, 1)),
    Gives(And, Int, (-5, -1, 1), (-3, 3, 1), ALL),
    Gives(And, Int, NONE, (1, 1, 1), NONE),
    Gives(And, ULLong, MINUS_ONE, (5, 7, 1), (0, 7, 1)),
    Gives(Or, Int, (1, 5, 1), (2, 9, 1), (2, 15, 1)),
    Gives(Or, Int, (4, 8, 4), (8, 8, 1), (8, 15, 1)),
    Gives(Or, Int, (-4, -4, 1), (1, 1, 1), (-3, -3, 1)),
    Gives(Or, Int, (-4, 0, 4), (1, 1, 1), ALL),
    Gives(Or, UChar, (0, 255, 1), (5, 6, 1), (5, 255, 1)),
    Gives(Or, ULLong, MINUS_ONE, (0, 1, 1), MINUS_ONE),
    Gives(Xor, Int, (1, 5, 1), (2, 9, 1), (0, 15, 1)),
    Gives(Xor, Int, MINUS_ONE, (5, 5, 1), (-6, -6, 1)),
    Gives(Xor, Int, (-1, 0, 1), (1, 1, 1), ALL),
    Gives(Xor, LLong, LEAST_LONG, MINUS_ONE, GREATEST_LONG),
];

#[test]
fn bits(rt: HostRuntime) {
    assert_rows(&rt, rt.alloc(), &BITS);
}

static COMPARISONS: [Operation; 20] = [
    Compares(Lt, Int, (0, 9, 3), (10, 12, 1), TRUE),
    Compares(Lt, Int, (0, 10, 1), (10, 12, 1), EITHER),
    Compares(Lt, Int, (12, 20, 4), (0, 12, 4), FALSE),
    Compares(Lt, Int, NONE, (0, 12, 4), NONE),
    Compares(Lt, Int, (0, 0, 1), MINUS_ONE, FALSE),
    Compares(Lt, UInt, (0, 0, 1), MINUS_ONE, TRUE),
    Compares(Lt, LLong, GREATEST_LONG, LEAST_LONG, FALSE),
    Compares(Lt, ULLong, GREATEST_LONG, LEAST_LONG, TRUE),
    Compares(Le, Int, (0, 5, 1), (5, 9, 1), TRUE),
    Compares(Le, Int, (12, 20, 4), (0, 12, 4), EITHER),
    Compares(Gt, Int, (5, 9, 1), (0, 4, 1), TRUE),
    Compares(Gt, Int, (5, 9, 1), (9, 12, 1), FALSE),
    Compares(Ge, Int, (5, 9, 1), (0, 5, 1), TRUE),
    Compares(Ge, Int, (0, 4, 1), (5, 9, 1), FALSE),
    Compares(Eq, Int, (0, 8, 2), (1, 9, 2), FALSE),
    Compares(Eq, Int, (4, 4, 1), (4, 4, 1), TRUE),
    Compares(Eq, Int, (1, 1, 1), (1, 3, 2), EITHER),
    Compares(Ne, Int, (0, 8, 2), (1, 9, 2), TRUE),
    Compares(Ne, Int, (4, 4, 1), (4, 4, 1), FALSE),
    Compares(Ne, Int, (1, 3, 2), (1, 1, 1), EITHER),
];

#[test]
fn comparisons(rt: HostRuntime) {
    assert_rows(&rt, rt.alloc(), &COMPARISONS);
}
