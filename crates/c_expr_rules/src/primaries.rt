//! Names, constants, `__input` and `__islocked` (C99 6.4.4, 6.5.1).
ghost use Rattle.std.specs.Prelude.{◌≡◌, ◌<◌, ◌^◌, find, pos, IfSome, IsTrue};
ghost use Rattle.tm_cint.specs.IntTypes.{is_in};
ghost use Rattle.tm_typed.specs.TypedTrees.{rated, operand_tree};
ghost use Rattle.tm_typed.specs.Refusals.{Gives};
ghost use Rattle.tm_typed.specs.Rules.{name_rules, candidates, constant_type, constant_rules, character_rules};
ghost use Rattle.tm_typed.specs.Rules.{folded_in_int, bound, input_rules, islocked_rules};

use crate::forms::{constant, designated, made, refused};
use std::alloc::Global;
use tm_cint::{IntType, convert};
use tm_terms::{Fail, IntConstant, Kind, Longs, Place, Refusal};
use tm_typed::{Fold, Lvalue, Named, Operand, Rvalue, Sort, Valued};

/// A name, by what it names.
pub fn name(alloc: Global, place: Place, named: Option<Named>) -> Result<Operand, Fail>
    ensures { Gives operand_tree result (name_rules place named) }
{
    match named {
        None => refused(Kind::Undeclared, place),
        Some(named) => match named {
            Named::Alias(_) => refused(Kind::Undeclared, place),
            Named::Mutex(_) => refused(Kind::Mismatch, place),
            Named::Function(_) => refused(Kind::Unsupported, place),
            Named::Task => refused(Kind::Unsupported, place),
            Named::Enumerator(value) => constant(alloc, IntType::Int, value, place),
            Named::Object { object, of } => designated(alloc, Lvalue::Object { object, place }, of),
        },
    }
}

// The types that are tried for an integer constant, in order.
fn candidates(decimal: bool, unsigned: bool, longs: Longs) -> &'static [IntType]
    ensures { result.now ≡ candidates decimal unsigned longs }
{
    match (longs, unsigned, decimal) {
        (Longs::None, true, _) => &[IntType::UInt, IntType::ULong, IntType::ULLong],
        (Longs::None, false, true) => &[IntType::Int, IntType::Long, IntType::LLong],
        (Longs::None, false, false) => &[
            IntType::Int,
            IntType::UInt,
            IntType::Long,
            IntType::ULong,
            IntType::LLong,
            IntType::ULLong,
        ],
        (Longs::One, true, _) => &[IntType::ULong, IntType::ULLong],
        (Longs::One, false, true) => &[IntType::Long, IntType::LLong],
        (Longs::One, false, false) => &[
            IntType::Long,
            IntType::ULong,
            IntType::LLong,
            IntType::ULLong,
        ],
        (Longs::Two, true, _) => &[IntType::ULLong],
        (Longs::Two, false, true) => &[IntType::LLong],
        (Longs::Two, false, false) => &[IntType::LLong, IntType::ULLong],
    }
}

// Whether the type has this value.
fn has(of: IntType, value: u128) -> bool
    ensures value { result ≡ is_in of (pos value) }
    ensures fits { IsTrue result → value < 2 ^ 64 }
{
    value <= of.hi() as u128
}

// The first of some types that has this value.
fn first_that_has(types: &[IntType], value: u128) -> Option<IntType>
    ensures value { result ≡ find (λ t. is_in t (pos value)) types.now }
    ensures fits { IfSome result (λ _. value < 2 ^ 64) }
{
    match types {
        [] => None,
        [first, rest @ ..] => {
            if has(*first, value) {
                Some(*first)
            } else {
                first_that_has(rest, value)
            }
        }
    }
}

fn constant_type(written: IntConstant) -> Option<IntType>
    ensures value { result ≡ constant_type written }
    ensures fits { IfSome result (λ _. written.value < 2 ^ 64) }
{
    first_that_has(
        candidates(written.decimal, written.unsigned, written.longs),
        written.value,
    )
}

/// An integer constant.
pub fn integer(alloc: Global, written: IntConstant, place: Place) -> Result<Operand, Fail>
    ensures { Gives operand_tree result (constant_rules written place) }
{
    match constant_type(written) {
        Some(of) => constant(alloc, of, written.value as i128, place),
        None => refused(Kind::Unsupported, place),
    }
}

/// A character constant.
pub fn character(alloc: Global, value: i8, place: Place) -> Result<Operand, Fail>
    ensures { Gives operand_tree result (character_rules value place) }
{
    let value = convert(i128::from(value), IntType::Char);
    constant(alloc, IntType::Int, value, place)
}

// The value of a bound, where it is folded to one of `int`.
fn folded_in_int(fold: Fold) -> Option<i128>
    ensures { result ≡ folded_in_int fold }
{
    match fold {
        Fold::Value(value) => {
            if IntType::Int.lo() <= value && value <= IntType::Int.hi() {
                Some(value)
            } else {
                None
            }
        }
        Fold::Unbuilt | Fold::Faulty => None,
    }
}

/// A bound of `__input`.
pub fn bound(valued: &Valued) -> Result<i128, Fail>
    ensures { Gives (λ z. z) result (bound (rated valued.now)) }
{
    match folded_in_int(valued.sort.fold()) {
        Some(value) => Ok(value),
        None => Err(Fail::Refused(Refusal {
            kind: Kind::NotConstant,
            place: valued.place,
            limit: None,
        })),
    }
}

/// `__input`, its bounds being known.
pub fn input(alloc: Global, place: Place, low: i128, high: i128) -> Result<Operand, Fail>
    ensures { Gives operand_tree result (input_rules place low high) }
{
    if low <= high {
        made(
            alloc,
            Rvalue::Input { low, high, place },
            Sort::Integer(IntType::Int, Fold::Unbuilt),
            place,
        )
    } else {
        refused(Kind::NotConstant, place)
    }
}

/// `__islocked`, by what the name in its parentheses names.
pub fn islocked(
    alloc: Global,
    place: Place,
    name_place: Place,
    named: Option<Named>,
) -> Result<Operand, Fail>
    ensures { Gives operand_tree result (islocked_rules place name_place named) }
{
    match named {
        None => refused(Kind::Undeclared, name_place),
        Some(Named::Mutex(mutex)) => made(
            alloc,
            Rvalue::Probe { mutex, place },
            Sort::Integer(IntType::Int, Fold::Unbuilt),
            place,
        ),
        Some(
            Named::Object { .. }
            | Named::Function(_)
            | Named::Alias(_)
            | Named::Task
            | Named::Enumerator(_),
        ) => refused(Kind::Mismatch, name_place),
    }
}
