//! Tasks, mutexes and objects, and the bounds of what objects hold.
ghost use Rattle.std.specs.Prelude.{◌≡◌, ◌++◌, IfOk, OnOk, string_bytes};
ghost use Rattle.notes_json.specs.Names.{is_none, priority_text, task_text, mutex_text, function_text, owner_text};
ghost use Rattle.notes_json.specs.Names.{signed_text, object_front, line_text, range_text, member_text, object_back};
ghost use Rattle.std.specs.Fmt.{signed_decimal};

use crate::pieces::{push_number, push_truth, push_word};
use std::alloc::Global;
use tm_lattice::NoMemory;
use tm_terms::{Place, push_bytes};

/// Appends the priority of a task, or that it is the initial section.
fn push_priority(alloc: Global, text: &mut Vec<u8>, priority: Option<u8>) -> Result<(), NoMemory>
    ensures { OnOk result (text.new.items ≡ text.old.items ++ priority_text priority) }
{
    match priority {
        None => push_bytes(text, b",\"priority\":null}"),
        Some(found) => {
            push_number(alloc, text, b",\"priority\":", found as u64)?;
            push_bytes(text, b"}")
        }
    }
}

/// Whether there is no priority.
fn is_none(priority: Option<u8>) -> bool
    ensures { result ≡ is_none priority }
{
    match priority {
        None => true,
        Some(_) => false,
    }
}

/// Appends a task, or the initial section, which has no priority.
pub fn push_task(
    alloc: Global,
    text: &mut Vec<u8>,
    place: Place,
    name: &[u8],
    priority: Option<u8>,
) -> Result<(), NoMemory>
    ensures { OnOk result (text.new.items ≡ text.old.items ++ task_text place name.now priority) }
{
    push_number(alloc, text, b"{\"col\":", place.col as u64)?;
    push_truth(text, b",\"initial\":", is_none(priority))?;
    push_number(alloc, text, b",\"line\":", place.line as u64)?;
    push_word(text, b",\"name\":\"", name)?;
    push_priority(alloc, text, priority)?;
    Ok(())
}

/// Appends a mutex.
pub fn push_mutex(
    alloc: Global,
    text: &mut Vec<u8>,
    place: Place,
    name: &[u8],
) -> Result<(), NoMemory>
    ensures { OnOk result (text.new.items ≡ text.old.items ++ mutex_text place name.now) }
{
    push_number(alloc, text, b"{\"col\":", place.col as u64)?;
    push_number(alloc, text, b",\"line\":", place.line as u64)?;
    push_word(text, b",\"name\":\"", name)?;
    push_bytes(text, b"}")
}

/// Appends the function of an object that a task has to itself.
fn push_function(text: &mut Vec<u8>, function: &[u8], task: Option<u32>) -> Result<(), NoMemory>
    ensures { OnOk result (text.new.items ≡ text.old.items ++ function_text function.now task) }
{
    match task {
        None => Ok(()),
        Some(_) => {
            push_word(text, b"\"function\":\"", function)?;
            push_bytes(text, b",")?;
            Ok(())
        }
    }
}

/// Appends whether an object has static storage, and else its task.
fn push_owner(alloc: Global, text: &mut Vec<u8>, task: Option<u32>) -> Result<(), NoMemory>
    ensures { OnOk result (text.new.items ≡ text.old.items ++ owner_text task) }
{
    match task {
        None => push_bytes(text, b",\"static\":true"),
        Some(found) => push_number(alloc, text, b",\"static\":false,\"task\":", found as u64),
    }
}

/// A number in decimal.
fn signed_decimal(alloc: Global, number: i128) -> Result<String, NoMemory>
    ensures { IfOk result (λ text. string_bytes text ≡ signed_decimal number) }
{
    match format!(in alloc; "{number}") {
        Ok(text) => Ok(text),
        Err(_) => Err(NoMemory),
    }
}

/// Appends a number with a sign behind bytes.
fn push_signed(
    alloc: Global,
    text: &mut Vec<u8>,
    before: &[u8],
    number: i128,
) -> Result<(), NoMemory>
    ensures { OnOk result (text.new.items ≡ text.old.items ++ signed_text before.now number) }
{
    let digits = signed_decimal(alloc, number)?;
    push_bytes(text, before)?;
    push_bytes(text, digits.as_bytes())
}

/// Appends what stands of an object up to its function, or its line.
pub fn push_object_front(
    alloc: Global,
    text: &mut Vec<u8>,
    place: Place,
    function: &[u8],
    task: Option<u32>,
) -> Result<(), NoMemory>
    ensures { OnOk result (text.new.items ≡ text.old.items ++ object_front place function.now task) }
{
    push_number(alloc, text, b"{\"col\":", place.col as u64)?;
    push_bytes(text, b",")?;
    push_function(text, function, task)
}

/// Appends the line of an object of which no numbers are told.
pub fn push_line(alloc: Global, text: &mut Vec<u8>, line: u32) -> Result<(), NoMemory>
    ensures { OnOk result (text.new.items ≡ text.old.items ++ line_text line) }
{
    push_number(alloc, text, b"\"line\":", line as u64)
}

/// Appends the line of an object, with the least and the greatest number that it holds, up to its members.
pub fn push_range(
    alloc: Global,
    text: &mut Vec<u8>,
    line: u32,
    low: i128,
    high: i128,
) -> Result<(), NoMemory>
    ensures { OnOk result (text.new.items ≡ text.old.items ++ range_text line low high) }
{
    push_signed(alloc, text, b"\"hi\":", high)?;
    push_number(alloc, text, b",\"line\":", line as u64)?;
    push_signed(alloc, text, b",\"lo\":", low)?;
    push_bytes(text, b",\"members\":[")
}

/// Appends a member of an object, with the least and the greatest number that it holds.
pub fn push_member(
    alloc: Global,
    text: &mut Vec<u8>,
    name: &[u8],
    low: i128,
    high: i128,
    volatile: bool,
) -> Result<(), NoMemory>
    ensures { OnOk result (text.new.items ≡ text.old.items ++ member_text name.now low high volatile) }
{
    push_signed(alloc, text, b"{\"hi\":", high)?;
    push_signed(alloc, text, b",\"lo\":", low)?;
    push_word(text, b",\"name\":\"", name)?;
    push_truth(text, b",\"volatile\":", volatile)?;
    push_bytes(text, b"}")
}

/// Appends what stands behind this: an object of so many cells and of this type. One that has not static storage is a
/// parameter or a local object of the function, and the task has it to itself.
pub fn push_object_back(
    alloc: Global,
    text: &mut Vec<u8>,
    name: &[u8],
    cells: u32,
    task: Option<u32>,
    words: &[u8],
) -> Result<(), NoMemory>
    ensures { OnOk result (text.new.items ≡ text.old.items ++ object_back name.now cells task words.now) }
{
    push_word(text, b",\"name\":\"", name)?;
    push_number(alloc, text, b",\"size\":", cells as u64)?;
    push_owner(alloc, text, task)?;
    push_word(text, b",\"type\":\"", words)?;
    push_bytes(text, b"}")
}
