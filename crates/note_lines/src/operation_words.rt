//! The words of operations that may fail.
ghost use Rattle.std.specs.Prelude.{◌≡◌, ◌++◌, IfOk, OnOk, string_bytes};
ghost use Rattle.note_lines.specs.OperationWords.{moved_text, typed_text};
ghost use Rattle.note_lines.specs.OperationWords.{elements_text, cells_text, lock_text, operation_text};

use crate::spelling::name_at;
use flow_graph::Operation;
use notes_json::{binary_text, type_text, unary_text};
use std::alloc::Global;
use tm_cint::IntType;
use tm_lattice::NoMemory;
use tm_terms::{Name, push_bytes};

/// The sign of pointer arithmetic (C99 6.5.6).
fn moved_text(minus: bool) -> &'static [u8]
    ensures { result.now ≡ moved_text minus }
{
    if minus { b" -" } else { b" +" }
}

/// Appends an operator and the type in which it computes.
fn push_typed(text: &mut Vec<u8>, operator: &[u8], of: IntType) -> Result<(), NoMemory>
    ensures { OnOk result (text.new.items ≡ text.old.items ++ typed_text operator.now of) }
{
    push_bytes(text, b" ")?;
    push_bytes(text, operator)?;
    push_bytes(text, b" in ")?;
    push_bytes(text, type_text(of))?;
    Ok(())
}

/// How many elements an array has, and how many cells each of them.
fn elements_text(alloc: Global, length: u32, cells: u32) -> Result<String, NoMemory>
    ensures { IfOk result (λ text. string_bytes text ≡ elements_text length cells) }
{
    match format!(in alloc; " [] of {length} cells {cells}") {
        Ok(text) => Ok(text),
        Err(_) => Err(NoMemory),
    }
}

/// How many cells an element has.
fn cells_text(alloc: Global, cells: u32) -> Result<String, NoMemory>
    ensures { IfOk result (λ text. string_bytes text ≡ cells_text cells) }
{
    match format!(in alloc; " cells {cells}") {
        Ok(text) => Ok(text),
        Err(_) => Err(NoMemory),
    }
}

/// Appends how many elements an array has, and how many cells each of them.
fn push_elements(alloc: Global, text: &mut Vec<u8>, length: u32, cells: u32) -> Result<(), NoMemory>
    ensures { OnOk result (text.new.items ≡ text.old.items ++ elements_text length cells) }
{
    let elements = elements_text(alloc, length, cells)?;
    push_bytes(text, elements.as_bytes())
}

/// Appends the sign of pointer arithmetic and how many cells an element has.
fn push_moved(alloc: Global, text: &mut Vec<u8>, minus: bool, cells: u32) -> Result<(), NoMemory>
    ensures { OnOk result (text.new.items ≡ text.old.items ++ (moved_text minus ++ cells_text cells)) }
{
    let count = cells_text(alloc, cells)?;
    push_bytes(text, moved_text(minus))?;
    push_bytes(text, count.as_bytes())?;
    Ok(())
}

/// Appends a call that takes a mutex or gives it back, and the rule that it may break.
fn push_lock(
    text: &mut Vec<u8>,
    bytes: &[u8],
    mutexes: &[Name],
    call: &[u8],
    mutex: u32,
    rule: &[u8],
) -> Result<(), NoMemory>
    ensures { OnOk result (text.new.items ≡ text.old.items ++ lock_text bytes.now mutexes.now call.now mutex rule.now) }
{
    push_bytes(text, call)?;
    push_bytes(text, name_at(bytes, mutexes, mutex))?;
    push_bytes(text, rule)?;
    Ok(())
}

/// Appends what an operation that may fail depends on.
#[tactic(auto, unfolding(crate::specs::OperationWords::operation_text))]
pub(crate) fn push_operation(
    alloc: Global,
    text: &mut Vec<u8>,
    bytes: &[u8],
    mutexes: &[Name],
    operation: Operation,
) -> Result<(), NoMemory>
    ensures { OnOk result (text.new.items ≡ text.old.items ++ operation_text bytes.now mutexes.now operation) }
{
    match operation {
        Operation::Un { operator, of, .. } => push_typed(text, unary_text(operator), of),
        Operation::Bin { operator, of, .. } => push_typed(text, binary_text(operator), of),
        Operation::Index { length, cells, .. } => push_elements(alloc, text, length, cells),
        Operation::Move { cells, minus, .. } => push_moved(alloc, text, minus, cells),
        Operation::Deref { .. } => push_bytes(text, b" *"),
        Operation::Usable { .. } => push_bytes(text, b" pointer"),
        Operation::Lock { mutex, .. } => push_lock(
            text,
            bytes,
            mutexes,
            b" __lock ",
            mutex,
            b" relock",
        ),
        Operation::Unlock { mutex, .. } => push_lock(
            text,
            bytes,
            mutexes,
            b" __unlock ",
            mutex,
            b" unheld",
        ),
        _ => Ok(()),
    }
}
