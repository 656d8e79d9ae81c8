//! Operands.
ghost use Rattle.std.specs.Prelude.{◌≡◌, ◌++◌, OnOk, slice_get};
ghost use Rattle.std.specs.FinMap.{entries};
ghost use Rattle.notes_json.specs.Pieces.{or_nothing, listed};
ghost use Rattle.program_notes.specs.OperandTexts.{is_of, flaws_text, number_of, pointed_text, pointer_operand};
ghost use Rattle.program_notes.specs.OperandTexts.{typed_operand, type_at, operand_text, operands_text};
ghost use Rattle.program_notes.specs.reading.Choices.{bar_if, flaw_if};

use crate::flaws::flaw_text;
use alarm_contexts::ObjectFlaw;
use flow_graph::Operation;
use notes_json::{
    push_comma, push_number_operand, push_offsets, push_pointer_back, push_pointer_front, role_at,
};
use pointer_dom::{AbsValue, Offsets};
use std::alloc::Global;
use tm_cint::IntType;
use tm_lattice::NoMemory;
use tm_terms::push_bytes;

/// Whether a flaw is one of the object.
fn is_of(object: u32, flaw: ObjectFlaw) -> bool
    ensures { result ≡ is_of object flaw }
{
    flaw.object == object
}

/// Appends a bar where others stand before.
fn push_bar_if(text: &mut Vec<u8>, others: bool) -> Result<(), NoMemory>
    ensures { OnOk result (text.new.items ≡ text.old.items ++ bar_if others) }
{
    if others {
        push_bytes(text, b"|")
    } else {
        Ok(())
    }
}

/// Appends a flaw, if it is one of the object, behind a bar where others stand before it.
fn push_flaw_if(
    text: &mut Vec<u8>,
    object: u32,
    others: bool,
    flaw: ObjectFlaw,
) -> Result<(), NoMemory>
    ensures { OnOk result (text.new.items ≡ text.old.items ++ flaw_if object others flaw) }
{
    if !is_of(object, flaw) {
        return Ok(());
    }
    push_bar_if(text, others)?;
    push_bytes(text, flaw_text(flaw.flaw))
}

/// Appends what is wrong with pointers to an object.
fn push_flaws(text: &mut Vec<u8>, flaws: &[ObjectFlaw], object: u32) -> Result<(), NoMemory>
    ensures { OnOk result (text.new.items ≡ text.old.items ++ flaws_text flaws.now object) }
{
    let mut others = false;
    for flaw in flaws {
        push_flaw_if(text, object, others, *flaw)?;
        others = others || is_of(object, *flaw);
    }
    Ok(())
}

/// The number of an object among those that are listed.
pub(crate) fn number_of(numbers: &[Option<u32>], object: u32) -> u32
    ensures { result ≡ number_of numbers.now object }
{
    match numbers.get(object as usize) {
        None => object,
        Some(None) => object,
        Some(Some(number)) => *number,
    }
}

/// Appends an object to which pointers lead.
fn push_pointed(
    alloc: Global,
    text: &mut Vec<u8>,
    numbers: &[Option<u32>],
    flaws: &[ObjectFlaw],
    object: u32,
    offsets: &Offsets,
) -> Result<(), NoMemory>
    ensures { OnOk result (text.new.items ≡ text.old.items
        ++ pointed_text numbers.now flaws.now (object, offsets.now)) }
{
    push_bytes(text, b"{\"bad\":\"")?;
    push_flaws(text, flaws, object)?;
    push_offsets(alloc, text, number_of(numbers, object), offsets)
}

/// Appends the object at this place of a list, if there is one.
fn push_pointed_at(
    alloc: Global,
    text: &mut Vec<u8>,
    numbers: &[Option<u32>],
    flaws: &[ObjectFlaw],
    objects: &[(u32, Offsets)],
    at: usize,
) -> Result<(), NoMemory>
    ensures { OnOk result (text.new.items ≡ text.old.items
        ++ or_nothing (pointed_text numbers.now flaws.now) (slice_get objects.now at)) }
{
    match objects.get(at) {
        None => Ok(()),
        Some((object, offsets)) => push_pointed(alloc, text, numbers, flaws, *object, offsets),
    }
}

/// Appends objects.
fn push_all_pointed(
    alloc: Global,
    text: &mut Vec<u8>,
    numbers: &[Option<u32>],
    flaws: &[ObjectFlaw],
    objects: &[(u32, Offsets)],
) -> Result<(), NoMemory>
    ensures { OnOk result (text.new.items ≡ text.old.items
        ++ listed (pointed_text numbers.now flaws.now) objects.now) }
{
    for at in 0..objects.len() {
        push_comma(text, at)?;
        push_pointed_at(alloc, text, numbers, flaws, objects, at)?;
    }
    Ok(())
}

/// Appends the objects to which the pointers of a value lead.
fn push_value_objects(
    alloc: Global,
    text: &mut Vec<u8>,
    numbers: &[Option<u32>],
    flaws: &[ObjectFlaw],
    value: &AbsValue,
) -> Result<(), NoMemory>
    ensures { (let p = value.now.pointers in OnOk result (text.new.items ≡ text.old.items
        ++ listed (pointed_text numbers.now flaws.now) (entries p.objects))) }
{
    match value.pointers() {
        None => Ok(()),
        Some(pointers) => {
            push_all_pointed(alloc, text, numbers, flaws, pointers.objects().entries())
        }
    }
}

/// Appends an operand that is a pointer.
fn push_pointer(
    alloc: Global,
    text: &mut Vec<u8>,
    numbers: &[Option<u32>],
    flaws: &[ObjectFlaw],
    role: &[u8],
    value: &AbsValue,
) -> Result<(), NoMemory>
    ensures { OnOk result (text.new.items ≡ text.old.items
        ++ pointer_operand numbers.now flaws.now role.now value.now) }
{
    push_pointer_front(text, value)?;
    push_value_objects(alloc, text, numbers, flaws, value)?;
    push_pointer_back(text, role)
}

/// Appends an operand of a type, or a pointer.
fn push_typed(
    alloc: Global,
    text: &mut Vec<u8>,
    numbers: &[Option<u32>],
    flaws: &[ObjectFlaw],
    role: &[u8],
    of: Option<IntType>,
    value: &AbsValue,
) -> Result<(), NoMemory>
    ensures { OnOk result (text.new.items ≡ text.old.items
        ++ typed_operand numbers.now flaws.now role.now of value.now) }
{
    match of {
        None => push_pointer(alloc, text, numbers, flaws, role, value),
        Some(of) => push_number_operand(alloc, text, role, of, value),
    }
}

/// The type at this place of a list, none where there is none.
fn type_at(types: &[Option<IntType>], at: usize) -> Option<IntType>
    ensures { result ≡ type_at types.now at }
{
    match types.get(at) {
        None => None,
        Some(of) => *of,
    }
}

/// Appends an operand with its place among them.
fn push_operand(
    alloc: Global,
    text: &mut Vec<u8>,
    numbers: &[Option<u32>],
    flaws: &[ObjectFlaw],
    operation: Operation,
    types: &[Option<IntType>],
    at: usize,
    value: &AbsValue,
) -> Result<(), NoMemory>
    ensures { OnOk result (text.new.items ≡ text.old.items
        ++ operand_text numbers.now flaws.now operation types.now (at, value.now)) }
{
    let role = role_at(operation, at);
    push_typed(alloc, text, numbers, flaws, role, type_at(types, at), value)
}

/// Appends operands.
pub(crate) fn push_operands(
    alloc: Global,
    text: &mut Vec<u8>,
    numbers: &[Option<u32>],
    flaws: &[ObjectFlaw],
    operation: Operation,
    types: &[Option<IntType>],
    operands: &[AbsValue],
) -> Result<(), NoMemory>
    ensures { OnOk result (text.new.items ≡ text.old.items
        ++ operands_text numbers.now flaws.now operation types.now operands.now) }
{
    for (at, value) in operands.iter().enumerate() {
        push_comma(text, at)?;
        push_operand(alloc, text, numbers, flaws, operation, types, at, value)?;
    }
    Ok(())
}
