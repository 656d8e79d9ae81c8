//! Operands of operations that may fail.
ghost use Rattle.std.specs.Prelude.{◌≡◌, ◌≢◌, ◌++◌, IfOk, OnOk, string_bytes};
ghost use Rattle.strided_dom.specs.Progression.{empty};
ghost use Rattle.notes_json.specs.Operands.{high_text, low_text, step_text, some_high, some_low, some_step};
ghost use Rattle.notes_json.specs.Operands.{offsets_text, number_operand, pointer_front, pointer_back};

use crate::pieces::{push_number, push_truth, push_word};
use crate::words::type_text;
use pointer_dom::{AbsValue, Offsets};
use std::alloc::Global;
use strided_dom::Strided;
use tm_cint::IntType;
use tm_lattice::NoMemory;
use tm_terms::push_bytes;

/// The greatest number of a set.
fn some_high(alloc: Global, numbers: Strided) -> Result<String, NoMemory>
    requires { numbers ≢ empty }
    ensures { IfOk result (λ text. string_bytes text ≡ some_high numbers) }
{
    let greatest = numbers.hi();
    match format!(in alloc; "\"hi\":{greatest},") {
        Ok(text) => Ok(text),
        Err(_) => Err(NoMemory),
    }
}

/// Appends it, where there is one.
fn push_high(alloc: Global, text: &mut Vec<u8>, numbers: Strided) -> Result<(), NoMemory>
    ensures { OnOk result (text.new.items ≡ text.old.items ++ high_text numbers) }
{
    if numbers.is_empty() {
        return Ok(());
    }
    let words = some_high(alloc, numbers)?;
    push_bytes(text, words.as_bytes())
}

/// The least number of a set.
fn some_low(alloc: Global, numbers: Strided) -> Result<String, NoMemory>
    requires { numbers ≢ empty }
    ensures { IfOk result (λ text. string_bytes text ≡ some_low numbers) }
{
    let least = numbers.lo();
    match format!(in alloc; "\"lo\":{least},") {
        Ok(text) => Ok(text),
        Err(_) => Err(NoMemory),
    }
}

/// Appends it, where there is one.
fn push_low(alloc: Global, text: &mut Vec<u8>, numbers: Strided) -> Result<(), NoMemory>
    ensures { OnOk result (text.new.items ≡ text.old.items ++ low_text numbers) }
{
    if numbers.is_empty() {
        return Ok(());
    }
    let words = some_low(alloc, numbers)?;
    push_bytes(text, words.as_bytes())
}

/// The stride of a set.
fn some_step(alloc: Global, numbers: Strided) -> Result<String, NoMemory>
    requires { numbers ≢ empty }
    ensures { IfOk result (λ text. string_bytes text ≡ some_step numbers) }
{
    let stride = numbers.stride();
    match format!(in alloc; ",\"step\":{stride}") {
        Ok(text) => Ok(text),
        Err(_) => Err(NoMemory),
    }
}

/// Appends it, where there are numbers.
fn push_step(alloc: Global, text: &mut Vec<u8>, numbers: Strided) -> Result<(), NoMemory>
    ensures { OnOk result (text.new.items ≡ text.old.items ++ step_text numbers) }
{
    if numbers.is_empty() {
        return Ok(());
    }
    let words = some_step(alloc, numbers)?;
    push_bytes(text, words.as_bytes())
}

/// Appends the object at which pointers stand at these offsets, behind what is wrong with them. The object has this
/// number.
pub fn push_offsets(
    alloc: Global,
    text: &mut Vec<u8>,
    object: u32,
    offsets: &Offsets,
) -> Result<(), NoMemory>
    ensures { OnOk result (text.new.items ≡ text.old.items ++ offsets_text object offsets.now) }
{
    let set = offsets.set();
    push_bytes(text, b"\",")?;
    push_high(alloc, text, set)?;
    push_low(alloc, text, set)?;
    push_number(alloc, text, b"\"object\":", object as u64)?;
    push_number(alloc, text, b",\"size\":", offsets.size() as u64)?;
    push_step(alloc, text, set)?;
    push_bytes(text, b"}")
}

/// Whether an invalid pointer is among the values.
fn has_invalid(value: &AbsValue) -> bool
    ensures { result ≡ value.now.pointers.invalid }
{
    match value.pointers() {
        None => false,
        Some(pointers) => pointers.has_invalid(),
    }
}

/// Whether a null pointer is.
fn has_null(value: &AbsValue) -> bool
    ensures { result ≡ value.now.pointers.null }
{
    match value.pointers() {
        None => false,
        Some(pointers) => pointers.has_null(),
    }
}

/// Appends an operand that is a number: the numbers that it may be, what it is, and its type.
pub fn push_number_operand(
    alloc: Global,
    text: &mut Vec<u8>,
    role: &[u8],
    of: IntType,
    value: &AbsValue,
) -> Result<(), NoMemory>
    ensures { OnOk result (text.new.items ≡ text.old.items ++ number_operand role.now of value.now) }
{
    push_bytes(text, b"{")?;
    push_high(alloc, text, value.numbers())?;
    push_low(alloc, text, value.numbers())?;
    push_word(text, b"\"role\":\"", role)?;
    push_step(alloc, text, value.numbers())?;
    push_word(text, b",\"type\":\"", type_text(of))?;
    push_bytes(text, b"}")
}

/// Appends what stands of an operand that is a pointer up to its objects.
pub fn push_pointer_front(text: &mut Vec<u8>, value: &AbsValue) -> Result<(), NoMemory>
    ensures { OnOk result (text.new.items ≡ text.old.items ++ pointer_front value.now) }
{
    push_truth(text, b"{\"invalid\":", has_invalid(value))?;
    push_truth(text, b",\"null\":", has_null(value))?;
    push_bytes(text, b",\"objects\":[")
}

/// Appends what stands behind these.
pub fn push_pointer_back(text: &mut Vec<u8>, role: &[u8]) -> Result<(), NoMemory>
    ensures { OnOk result (text.new.items ≡ text.old.items ++ pointer_back role.now) }
{
    push_word(text, b"],\"role\":\"", role)?;
    push_bytes(text, b",\"type\":\"pointer\"}")
}
