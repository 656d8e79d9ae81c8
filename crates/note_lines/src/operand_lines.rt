//! The lines of operands, of the objects of their pointers, and of what is wrong with these.
ghost use Rattle.std.specs.Prelude.{◌≡◌, ◌≢◌, ◌++◌, IfOk, OnOk, string_bytes};
ghost use Rattle.strided_dom.specs.Progression.{empty};
ghost use Rattle.note_lines.specs.OperandTexts.{word_if, some_numbers_text, numbers_text, pointers_text};
ghost use Rattle.note_lines.specs.OperandTexts.{operand_line, size_text, object_line, object_lines, operand_text};
ghost use Rattle.note_lines.specs.OperandTexts.{flaw_line, flaw_lines};

use crate::names::Names;
use crate::race_lines::object_at;
use alarm_contexts::ObjectFlaw;
use pointer_dom::{AbsValue, Offsets, PointerSet};
use program_notes::flaw_text;
use std::alloc::Global;
use strided_dom::Strided;
use tm_lattice::NoMemory;
use tm_terms::{Place, place_head, push_bytes, text_of};

/// A word where it is so, else nothing.
pub(crate) fn word_if(is: bool, word: &'static [u8]) -> &'static [u8]
    ensures { result.now ≡ word_if is word.now }
{
    if is { word } else { b"" }
}

/// The least and the greatest number of a set, and its stride.
fn some_numbers_text(alloc: Global, numbers: Strided) -> Result<String, NoMemory>
    requires { numbers ≢ empty }
    ensures { IfOk result (λ text. string_bytes text ≡ some_numbers_text numbers) }
{
    let least = numbers.lo();
    let greatest = numbers.hi();
    let stride = numbers.stride();
    match format!(in alloc; " {least} {greatest} {stride}") {
        Ok(text) => Ok(text),
        Err(_) => Err(NoMemory),
    }
}

/// Appends them, where the set has numbers.
fn push_numbers(alloc: Global, text: &mut Vec<u8>, numbers: Strided) -> Result<(), NoMemory>
    ensures { OnOk result (text.new.items ≡ text.old.items ++ numbers_text numbers) }
{
    if numbers.is_empty() {
        return Ok(());
    }
    let words = some_numbers_text(alloc, numbers)?;
    push_bytes(text, words.as_bytes())
}

/// Appends what is among pointers besides those to objects.
fn push_pointers(text: &mut Vec<u8>, pointers: &PointerSet) -> Result<(), NoMemory>
    ensures { OnOk result (text.new.items ≡ text.old.items ++ pointers_text pointers.now) }
{
    push_bytes(text, word_if(pointers.has_null(), b" null"))?;
    push_bytes(text, word_if(pointers.has_invalid(), b" invalid"))?;
    Ok(())
}

/// Appends what is among the pointers of a value besides those to objects.
fn push_value_pointers(text: &mut Vec<u8>, value: &AbsValue) -> Result<(), NoMemory>
    ensures { OnOk result (text.new.items ≡ text.old.items ++ pointers_text value.now.pointers) }
{
    match value.pointers() {
        None => Ok(()),
        Some(pointers) => push_pointers(text, pointers),
    }
}

/// Appends the line of an operand.
fn push_operand_line(
    alloc: Global,
    text: &mut Vec<u8>,
    place: Place,
    role: &[u8],
    value: &AbsValue,
) -> Result<(), NoMemory>
    ensures { OnOk result (text.new.items ≡ text.old.items ++ operand_line place role.now value.now) }
{
    let head = place_head(alloc, place)?;
    push_bytes(text, head.as_bytes())?;
    push_bytes(text, role)?;
    push_numbers(alloc, text, value.numbers())?;
    push_value_pointers(text, value)?;
    push_bytes(text, b"\n")?;
    Ok(())
}

/// How many cells an object has.
fn size_text(alloc: Global, size: u32) -> Result<String, NoMemory>
    ensures { IfOk result (λ text. string_bytes text ≡ size_text size) }
{
    match format!(in alloc; " of {size} at") {
        Ok(text) => Ok(text),
        Err(_) => Err(NoMemory),
    }
}

/// Appends the line of an object to which pointers lead.
fn push_object(
    alloc: Global,
    text: &mut Vec<u8>,
    bytes: &[u8],
    names: &Names,
    object: u32,
    offsets: &Offsets,
) -> Result<(), NoMemory>
    ensures { OnOk result (text.new.items ≡ text.old.items
        ++ object_line bytes.now names.now.objects.items (object, offsets.now)) }
{
    let declared = object_at(names, object);
    let head = place_head(alloc, declared.place)?;
    let size = size_text(alloc, offsets.size())?;
    push_bytes(text, head.as_bytes())?;
    push_bytes(text, text_of(bytes, declared.name))?;
    push_bytes(text, size.as_bytes())?;
    push_numbers(alloc, text, offsets.set())?;
    push_bytes(text, b"\n")?;
    Ok(())
}

/// Appends the lines of the objects to which pointers lead.
fn push_objects(
    alloc: Global,
    text: &mut Vec<u8>,
    bytes: &[u8],
    names: &Names,
    pointers: &PointerSet,
) -> Result<(), NoMemory>
    ensures { OnOk result (text.new.items ≡ text.old.items
        ++ object_lines bytes.now names.now.objects.items pointers.now) }
{
    for (object, offsets) in pointers.objects().entries() {
        push_object(alloc, text, bytes, names, *object, offsets)?;
    }
    Ok(())
}

/// Appends the lines of the objects to which the pointers of a value lead.
fn push_value_objects(
    alloc: Global,
    text: &mut Vec<u8>,
    bytes: &[u8],
    names: &Names,
    value: &AbsValue,
) -> Result<(), NoMemory>
    ensures { OnOk result (text.new.items ≡ text.old.items
        ++ object_lines bytes.now names.now.objects.items value.now.pointers) }
{
    match value.pointers() {
        None => Ok(()),
        Some(pointers) => push_objects(alloc, text, bytes, names, pointers),
    }
}

/// Appends the line of what is wrong with a pointer to an object.
fn push_flaw(
    alloc: Global,
    text: &mut Vec<u8>,
    bytes: &[u8],
    names: &Names,
    flaw: ObjectFlaw,
) -> Result<(), NoMemory>
    ensures { OnOk result (text.new.items ≡ text.old.items ++ flaw_line bytes.now names.now.objects.items flaw) }
{
    let declared = object_at(names, flaw.object);
    let head = place_head(alloc, declared.place)?;
    push_bytes(text, head.as_bytes())?;
    push_bytes(text, text_of(bytes, declared.name))?;
    push_bytes(text, b" bad ")?;
    push_bytes(text, flaw_text(flaw.flaw))?;
    push_bytes(text, b"\n")?;
    Ok(())
}

/// Appends the lines of what is wrong with pointers.
pub(crate) fn push_flaws(
    alloc: Global,
    text: &mut Vec<u8>,
    bytes: &[u8],
    names: &Names,
    flaws: &[ObjectFlaw],
) -> Result<(), NoMemory>
    ensures { OnOk result (text.new.items ≡ text.old.items
        ++ flaw_lines bytes.now names.now.objects.items flaws.now) }
{
    for flaw in flaws {
        push_flaw(alloc, text, bytes, names, *flaw)?;
    }
    Ok(())
}

/// Appends the text of an operand.
pub(crate) fn push_operand(
    alloc: Global,
    text: &mut Vec<u8>,
    bytes: &[u8],
    names: &Names,
    place: Place,
    role: &[u8],
    value: &AbsValue,
) -> Result<(), NoMemory>
    ensures { OnOk result (text.new.items ≡ text.old.items
        ++ operand_text bytes.now names.now.objects.items place role.now value.now) }
{
    push_operand_line(alloc, text, place, role, value)?;
    push_value_objects(alloc, text, bytes, names, value)?;
    Ok(())
}
