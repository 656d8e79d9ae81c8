//! Alarms, in the parts that stand before, between and behind the lists of one.
ghost use Rattle.std.specs.Prelude.{◌≡◌, ◌++◌, OnOk};
ghost use Rattle.notes_json.specs.Alarms.{alarm_front, alarm_lines, alarm_middle, alarm_back, alarm_end, type_member};
ghost use Rattle.notes_json.specs.Alarms.{paths_front, race_middle, path_back};

use crate::operations::{cells_of, length_of, mutex_of, operator_text, rule_text, type_of};
use crate::pieces::{push_number, push_option, push_truth, push_word};
use crate::words::type_text;
use flow_graph::Operation;
use std::alloc::Global;
use tm_cint::{Class, IntType};
use tm_lattice::NoMemory;
use tm_terms::{Place, class_word, push_bytes};

/// Appends what stands of an alarm up to its function.
pub fn push_alarm_front(
    alloc: Global,
    text: &mut Vec<u8>,
    place: Place,
    class: Class,
    always: bool,
    operation: Operation,
) -> Result<(), NoMemory>
    ensures { OnOk result (text.new.items ≡ text.old.items ++ alarm_front place class always operation) }
{
    push_truth(text, b"{\"always\":", always)?;
    push_bytes(text, b",")?;
    push_option(alloc, text, b"\"cells\":", cells_of(operation))?;
    push_word(text, b"\"class\":\"", class_word(class).as_bytes())?;
    push_number(alloc, text, b",\"col\":", place.col as u64)
}

/// Appends what stands behind this, up to the list of operands.
pub fn push_alarm_lines(
    alloc: Global,
    text: &mut Vec<u8>,
    place: Place,
    function: &[u8],
    operation: Operation,
) -> Result<(), NoMemory>
    ensures { OnOk result (text.new.items ≡ text.old.items ++ alarm_lines place function.now operation) }
{
    push_word(text, b",\"function\":\"", function)?;
    push_bytes(text, b",")?;
    push_option(alloc, text, b"\"length\":", length_of(operation))?;
    push_number(alloc, text, b"\"line\":", place.line as u64)?;
    push_bytes(text, b",")?;
    push_option(alloc, text, b"\"mutex\":", mutex_of(operation))?;
    push_bytes(text, b"\"operands\":[")
}

/// Appends how many call paths there are, up to the list of them.
fn push_paths_front(alloc: Global, text: &mut Vec<u8>, paths: usize) -> Result<(), NoMemory>
    ensures { OnOk result (text.new.items ≡ text.old.items ++ paths_front paths) }
{
    push_number(alloc, text, b",\"path_count\":", paths as u64)?;
    push_bytes(text, b",\"paths\":[")
}

/// Appends what stands behind the operands, up to the list of call paths.
pub fn push_alarm_middle(
    alloc: Global,
    text: &mut Vec<u8>,
    operation: Operation,
    paths: usize,
) -> Result<(), NoMemory>
    ensures { OnOk result (text.new.items ≡ text.old.items ++ alarm_middle operation paths) }
{
    push_word(text, b"],\"operator\":\"", operator_text(operation))?;
    push_paths_front(alloc, text, paths)
}

/// Appends what stands behind this one, up to that of tasks.
pub fn push_alarm_back(text: &mut Vec<u8>, operation: Operation) -> Result<(), NoMemory>
    ensures { OnOk result (text.new.items ≡ text.old.items ++ alarm_back operation) }
{
    push_bytes(text, b"]")?;
    push_bytes(text, rule_text(operation))?;
    push_bytes(text, b",\"tasks\":[")
}

/// Appends the type in which an operation computes, if it does.
fn push_type(text: &mut Vec<u8>, of: Option<IntType>) -> Result<(), NoMemory>
    ensures { OnOk result (text.new.items ≡ text.old.items ++ type_member of) }
{
    match of {
        None => Ok(()),
        Some(found) => push_word(text, b",\"type\":\"", type_text(found)),
    }
}

/// Appends what stands behind this one.
pub fn push_alarm_end(text: &mut Vec<u8>, operation: Operation) -> Result<(), NoMemory>
    ensures { OnOk result (text.new.items ≡ text.old.items ++ alarm_end operation) }
{
    push_bytes(text, b"]")?;
    push_type(text, type_of(operation))?;
    push_bytes(text, b"}")
}

/// Appends what stands of the alarm of a race behind its accesses, up to the list of call paths.
pub fn push_race_middle(
    alloc: Global,
    text: &mut Vec<u8>,
    place: Place,
    function: &[u8],
    paths: usize,
) -> Result<(), NoMemory>
    ensures { OnOk result (text.new.items ≡ text.old.items ++ race_middle place function.now paths) }
{
    push_number(
        alloc,
        text,
        b"],\"class\":\"RACE\",\"col\":",
        place.col as u64,
    )?;
    push_word(text, b",\"function\":\"", function)?;
    push_number(alloc, text, b",\"line\":", place.line as u64)?;
    push_paths_front(alloc, text, paths)
}

/// Appends what stands of a call path behind its calls.
pub fn push_path_back(alloc: Global, text: &mut Vec<u8>, task: u32) -> Result<(), NoMemory>
    ensures { OnOk result (text.new.items ≡ text.old.items ++ path_back task) }
{
    push_number(alloc, text, b"],\"task\":", task as u64)?;
    push_bytes(text, b"}")
}
