//! The values of an expression where each load gives the body's own value alone.
ghost use Rattle.std.specs.Prelude.{IsTrue};
ghost use Rattle.transfer_int.specs.Operands.{AreValues, AreRightOperands};

use crate::expressions::Part;
use alarm_contexts::ContextEdge;
use flow_graph::Operation;
use std::alloc::Global;
use strided_dom::Strided;
use tm_cint::{BinOp, IntType};
use tm_laid::Unary;
use tm_lattice::NoMemory;
use transfer_int::{Outcome, binary, converted, invert, negate};
use value_origins::{
    Access, Analysed, Extent, Use, common, numbers_alone, operation_at, own_loaded, value_at,
};

/// A temporary with its own values.
#[derive(Clone, Copy)]
pub(crate) struct Own {
    pub(crate) temp: u32,
    pub(crate) values: Extent,
}

// Whether all numbers of a set are values of a type.
fn are_values(of: IntType, numbers: &Strided) -> bool
    ensures { IsTrue result → AreValues of numbers.now }
{
    if numbers.is_empty() {
        return true;
    }
    of.holds(numbers.lo()) && of.holds(numbers.hi())
}

// Whether all numbers of a set may stand at the right of an operator.
fn are_right_operands(operator: BinOp, of: IntType, numbers: &Strided) -> bool
    ensures { IsTrue result → AreRightOperands operator of numbers.now }
{
    match operator {
        BinOp::Shl | BinOp::Shr => true,
        _ => are_values(of, numbers),
    }
}

/// What an operator gives; none where an operand has other numbers than those of its type.
pub(crate) fn operated(
    operator: BinOp,
    of: IntType,
    left: &Strided,
    right: &Strided,
) -> Option<Outcome> {
    if !are_values(of, left) {
        return None;
    }
    if !are_right_operands(operator, of, right) {
        return None;
    }
    Some(binary(operator, of, left, right))
}

/// What the unary minus gives; none where the operand has other numbers than those of its type.
pub(crate) fn negated(of: IntType, numbers: &Strided) -> Option<Outcome> {
    if !are_values(of, numbers) {
        return None;
    }
    Some(negate(of, numbers))
}

// What `~` gives; none where the operand has other numbers than those of its type.
fn complemented(of: IntType, numbers: &Strided) -> Option<Strided> {
    if !are_values(of, numbers) {
        return None;
    }
    Some(invert(of, numbers))
}

// What a unary operator gives.
fn unary(operator: Unary, of: IntType, numbers: &Strided) -> Option<Strided> {
    match operator {
        Unary::Complement => complemented(of, numbers),
        Unary::Negate => match negated(of, numbers) {
            None => None,
            Some(outcome) => Some(outcome.value),
        },
    }
}

// What a binary operator gives.
fn binary_value(operator: BinOp, of: IntType, left: &Strided, right: &Strided) -> Option<Strided> {
    match operated(operator, of, left, right) {
        None => None,
        Some(outcome) => Some(outcome.value),
    }
}

/// The own values of a temporary that are known.
pub(crate) fn known_of(known: &[Own], temp: u32) -> Option<Extent> {
    for own in known {
        if own.temp == temp {
            return Some(own.values);
        }
    }
    None
}

/// The own values of a temporary that an edge uses: those of all its values that are known to be own ones.
pub(crate) fn own_at(analysed: Analysed<'_>, known: &[Own], used: Use) -> Extent {
    let values = value_at(analysed, used);
    match known_of(known, used.temp) {
        None => values,
        Some(own) => common(&own, &values),
    }
}

// The numbers of the own values of a temporary that an edge uses.
fn own_numbers(analysed: Analysed<'_>, known: &[Own], edge: ContextEdge, temp: u32) -> Strided {
    let Extent { numbers, .. } = own_at(analysed, known, Use { edge, temp });
    numbers
}

// The own numbers of what an operator or a conversion gives; none of any other operation.
fn own_computed(analysed: Analysed<'_>, edge: ContextEdge, known: &[Own]) -> Option<Strided> {
    match operation_at(analysed, edge) {
        Operation::Convert { of, from, .. } => {
            let numbers = own_numbers(analysed, known, edge, from);
            Some(converted(of, &numbers))
        }
        Operation::Un {
            operator,
            of,
            from,
            ..
        } => {
            let numbers = own_numbers(analysed, known, edge, from);
            unary(operator, of, &numbers)
        }
        Operation::Bin {
            operator,
            of,
            left,
            right,
            ..
        } => {
            let left = own_numbers(analysed, known, edge, left);
            let right = own_numbers(analysed, known, edge, right);
            binary_value(operator, of, &left, &right)
        }
        _ => None,
    }
}

// The own values of what an operation gives, where they can be computed again.
fn own_given(
    alloc: Global,
    analysed: Analysed<'_>,
    edge: ContextEdge,
    known: &[Own],
) -> Result<Option<Extent>, NoMemory> {
    match operation_at(analysed, edge) {
        Operation::Copy { from, .. } => Ok(Some(own_at(analysed, known, Use { edge, temp: from }))),
        Operation::Load {
            address,
            scalar,
            ..
        } => {
            let load = Access {
                edge,
                address,
                scalar,
            };
            Ok(Some(own_loaded(alloc, analysed, load)?))
        }
        _ => match own_computed(analysed, edge, known) {
            None => Ok(None),
            Some(numbers) => Ok(Some(numbers_alone(numbers))),
        },
    }
}

// Adds the own values of what an operation gives, where they can be computed again.
fn add_own(
    alloc: Global,
    analysed: Analysed<'_>,
    body: u32,
    part: Part,
    known: &mut Vec<Own>,
) -> Result<(), NoMemory> {
    let edge = ContextEdge {
        body,
        edge: part.giver,
    };
    if let Some(values) = own_given(alloc, analysed, edge, known)? {
        known.push(Own {
            temp: part.temp,
            values,
        })?;
    }
    Ok(())
}

/// The own values of what the operations of an expression give, in their order.
pub(crate) fn own_values(
    alloc: Global,
    analysed: Analysed<'_>,
    body: u32,
    parts: &[Part],
) -> Result<Vec<Own>, NoMemory> {
    let mut known = Vec::new(alloc);
    for part in parts {
        add_own(alloc, analysed, body, *part, &mut known)?;
    }
    Ok(known)
}
