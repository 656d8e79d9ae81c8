//! What operations that may fail depend on.
ghost use Rattle.std.specs.Prelude.{◌≡◌};
ghost use Rattle.notes_json.specs.Operations.{operator_text, type_of, length_of, cells_of, mutex_of, rule_text};
ghost use Rattle.notes_json.specs.Operations.{moved_text, first_role, second_role, role_at};

use crate::words::{binary_text, unary_text};
use flow_graph::Operation;
use tm_cint::IntType;

/// The sign of pointer arithmetic (C99 6.5.6).
fn moved_text(minus: bool) -> &'static [u8]
    ensures { result.now ≡ moved_text minus }
{
    if minus { b"-" } else { b"+" }
}

/// The operator, as C writes it, or the name of the call.
#[tactic(auto, unfolding(crate::specs::Operations::operator_text))]
pub(crate) fn operator_text(operation: Operation) -> &'static [u8]
    ensures { result.now ≡ operator_text operation }
{
    match operation {
        Operation::Un { operator, .. } => unary_text(operator),
        Operation::Bin { operator, .. } => binary_text(operator),
        Operation::Index { .. } => b"[]",
        Operation::Move { minus, .. } => moved_text(minus),
        Operation::Deref { .. } => b"*",
        Operation::Usable { .. } => b"pointer",
        Operation::Lock { .. } => b"__lock",
        Operation::Unlock { .. } => b"__unlock",
        _ => b"",
    }
}

/// The type in which it computes, if it does.
#[tactic(auto, unfolding(crate::specs::Operations::type_of))]
pub(crate) fn type_of(operation: Operation) -> Option<IntType>
    ensures { result ≡ type_of operation }
{
    match operation {
        Operation::Un { of, .. } => Some(of),
        Operation::Bin { of, .. } => Some(of),
        _ => None,
    }
}

/// How many elements the array has, if it is one of an array.
#[tactic(auto, unfolding(crate::specs::Operations::length_of))]
pub(crate) fn length_of(operation: Operation) -> Option<u32>
    ensures { result ≡ length_of operation }
{
    match operation {
        Operation::Index { length, .. } => Some(length),
        _ => None,
    }
}

/// How many cells an element has, if it goes to one.
#[tactic(auto, unfolding(crate::specs::Operations::cells_of))]
pub(crate) fn cells_of(operation: Operation) -> Option<u32>
    ensures { result ≡ cells_of operation }
{
    match operation {
        Operation::Index { cells, .. } => Some(cells),
        Operation::Move { cells, .. } => Some(cells),
        _ => None,
    }
}

/// The mutex that it takes or gives back, if it does.
#[tactic(auto, unfolding(crate::specs::Operations::mutex_of))]
pub(crate) fn mutex_of(operation: Operation) -> Option<u32>
    ensures { result ≡ mutex_of operation }
{
    match operation {
        Operation::Lock { mutex, .. } => Some(mutex),
        Operation::Unlock { mutex, .. } => Some(mutex),
        _ => None,
    }
}

/// The rule that it may break, if it takes or gives back a mutex.
#[tactic(auto, unfolding(crate::specs::Operations::rule_text))]
pub(crate) fn rule_text(operation: Operation) -> &'static [u8]
    ensures { result.now ≡ rule_text operation }
{
    match operation {
        Operation::Lock { .. } => b",\"rule\":\"relock\"",
        Operation::Unlock { .. } => b",\"rule\":\"unheld\"",
        _ => b"",
    }
}

/// What the first operand of an operation that may fail is.
#[tactic(auto, unfolding(crate::specs::Operations::first_role))]
fn first_role(operation: Operation) -> &'static [u8]
    ensures { result.now ≡ first_role operation }
{
    match operation {
        Operation::Bin { .. } => b"left",
        Operation::Index { .. } => b"array",
        Operation::Move { .. } | Operation::Deref { .. } | Operation::Usable { .. } => b"pointer",
        _ => b"operand",
    }
}

/// What the second one is.
#[tactic(auto, unfolding(crate::specs::Operations::second_role))]
fn second_role(operation: Operation) -> &'static [u8]
    ensures { result.now ≡ second_role operation }
{
    match operation {
        Operation::Bin { .. } => b"right",
        Operation::Index { .. } => b"subscript",
        Operation::Move { .. } => b"offset",
        _ => b"operand",
    }
}

/// What the operand at this place among the operands is.
pub fn role_at(operation: Operation, at: usize) -> &'static [u8]
    ensures { result.now ≡ role_at operation at }
{
    if at == 0 {
        first_role(operation)
    } else {
        second_role(operation)
    }
}
