//! Objects, with the bounds of what they hold.
ghost use Rattle.std.specs.Prelude.{◌≡◌, ◌++◌, ℕ, ◌<◌, IfOk, OnOk, length, get_or, Option, Some, None};
ghost use Rattle.value_ranges.specs.declared.object_bounds.ObjectBounds.{ObjectBounds as Bounds};
ghost use Rattle.notes_json.specs.Pieces.{listed};
ghost use Rattle.program_notes.specs.ObjectTexts.{bounds_of, member_object, bounds_text, is_listed, object_text};
ghost use Rattle.program_notes.specs.ObjectTexts.{objects_text};
ghost use Rattle.program_notes.specs.reading.Choices.{first_of, noted, object_with, object_if};

use crate::declarations::DeclaredObject;
use note_details::{MemberBounds, ObjectDetails};
use notes_json::{
    push_comma, push_comma_if, push_line, push_member, push_object_back, push_object_front,
    push_range,
};
use std::alloc::Global;
use tm_lattice::NoMemory;
use tm_terms::{push_bytes, text_of};
use value_ranges::ObjectBounds;

/// The first of bounds.
fn first_of(found: Option<ObjectBounds>, of: ObjectBounds) -> ObjectBounds
    ensures { result ≡ first_of found of }
{
    match found {
        None => of,
        Some(first) => first,
    }
}

/// Notes bounds at their object, if it is among those that are asked for and has none yet.
fn note(found: &mut Vec<Option<ObjectBounds>>, of: ObjectBounds)
    ensures { found.new.items ≡ noted found.old.items of }
{
    let object = of.object as usize;
    if object < found.len() {
        found[object] = Some(first_of(found[object], of));
    }
}

/// The bounds of each of the first objects, by its number.
fn bounds_by_object(
    alloc: Global,
    bounds: &[ObjectBounds],
    count: usize,
) -> Result<Vec<Option<ObjectBounds>>, NoMemory>
    ensures long { IfOk result (λ found. length found.items ≡ count) }
    ensures each { IfOk result (λ found. (n : ℕ) → n < count
        → get_or found.items n None ≡ bounds_of bounds.now n) }
{
    let mut found = vec![in alloc; None; count]?;
    for of in bounds {
        note(&mut found, *of);
    }
    Ok(found)
}

/// Appends a member.
fn push_bounded(alloc: Global, text: &mut Vec<u8>, member: &MemberBounds) -> Result<(), NoMemory>
    ensures { OnOk result (text.new.items ≡ text.old.items ++ member_object member.now) }
{
    push_member(
        alloc,
        text,
        &member.name,
        member.low,
        member.high,
        member.volatile,
    )
}

/// Appends members.
fn push_members(alloc: Global, text: &mut Vec<u8>, members: &[MemberBounds]) -> Result<(), NoMemory>
    ensures { OnOk result (text.new.items ≡ text.old.items ++ listed member_object members.now) }
{
    for (at, member) in members.iter().enumerate() {
        push_comma(text, at)?;
        push_bounded(alloc, text, member)?;
    }
    Ok(())
}

/// Appends the bounds of an object, if it has any, and its line.
fn push_bounds(
    alloc: Global,
    text: &mut Vec<u8>,
    line: u32,
    members: &[MemberBounds],
    bounds: Option<ObjectBounds>,
) -> Result<(), NoMemory>
    ensures { OnOk result (text.new.items ≡ text.old.items ++ bounds_text line members.now bounds) }
{
    match bounds {
        None => push_line(alloc, text, line),
        Some(of) => {
            push_range(alloc, text, line, of.low, of.high)?;
            push_members(alloc, text, members)?;
            push_bytes(text, b"]")
        }
    }
}

/// Appends an object.
fn push_object(
    alloc: Global,
    text: &mut Vec<u8>,
    bytes: &[u8],
    bounds: Option<ObjectBounds>,
    object: DeclaredObject,
    details: &ObjectDetails,
) -> Result<(), NoMemory>
    ensures { OnOk result (text.new.items ≡ text.old.items ++ object_text bytes.now bounds object details.now) }
{
    let place = object.of.place;
    let function = text_of(bytes, object.function);
    let name = text_of(bytes, object.of.name);
    push_object_front(alloc, text, place, function, object.task)?;
    push_bounds(alloc, text, place.line, &details.members, bounds)?;
    push_object_back(alloc, text, name, object.cells, object.task, &details.words)
}

/// Appends the object with this number among all, with these bounds, if it is declared and has details.
fn push_object_at(
    alloc: Global,
    text: &mut Vec<u8>,
    bytes: &[u8],
    bounds: Option<ObjectBounds>,
    objects: &[DeclaredObject],
    details: &[ObjectDetails],
    at: usize,
) -> Result<(), NoMemory>
    ensures { OnOk result (text.new.items ≡ text.old.items
        ++ object_with bytes.now bounds objects.now details.now at) }
{
    match objects.get(at) {
        None => Ok(()),
        Some(object) => match details.get(at) {
            None => Ok(()),
            Some(found) => push_object(alloc, text, bytes, bounds, *object, found),
        },
    }
}

/// Whether an object is listed.
fn is_listed(numbers: &[Option<u32>], at: usize) -> bool
    ensures { result ≡ is_listed numbers.now at }
{
    match numbers.get(at) {
        None => false,
        Some(None) => false,
        Some(Some(_)) => true,
    }
}

/// Appends an object, if it is listed, behind a comma where others stand before it.
fn push_object_if(
    alloc: Global,
    text: &mut Vec<u8>,
    bytes: &[u8],
    bounds: Option<ObjectBounds>,
    objects: &[DeclaredObject],
    details: &[ObjectDetails],
    numbers: &[Option<u32>],
    others: bool,
    at: usize,
) -> Result<(), NoMemory>
    ensures { OnOk result (text.new.items ≡ text.old.items
        ++ object_if bytes.now bounds objects.now details.now numbers.now others at) }
{
    if !is_listed(numbers, at) {
        return Ok(());
    }
    push_comma_if(text, others)?;
    push_object_at(alloc, text, bytes, bounds, objects, details, at)
}

/// Appends the objects that are listed.
pub(crate) fn push_objects(
    alloc: Global,
    text: &mut Vec<u8>,
    bytes: &[u8],
    bounds: &[ObjectBounds],
    objects: &[DeclaredObject],
    details: &[ObjectDetails],
    numbers: &[Option<u32>],
) -> Result<(), NoMemory>
    ensures { OnOk result (text.new.items ≡ text.old.items
        ++ objects_text bytes.now bounds.now objects.now details.now numbers.now) }
{
    let found = bounds_by_object(alloc, bounds, numbers.len())?;
    let mut others = false;
    for at in 0..numbers.len() {
        push_object_if(
            alloc, text, bytes, found[at], objects, details, numbers, others, at,
        )?;
        others = others || is_listed(numbers, at);
    }
    Ok(())
}
