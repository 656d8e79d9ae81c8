//! Tasks, mutexes and places.
ghost use Rattle.std.specs.Prelude.{◌≡◌, ◌++◌, OnOk};
ghost use Rattle.notes_json.specs.Pieces.{listed, place_text};
ghost use Rattle.program_notes.specs.Lists.{runner_text, mutex_text};

use crate::declarations::{Declaration, Runner};
use notes_json::{push_comma, push_mutex, push_place, push_task};
use std::alloc::Global;
use tm_lattice::NoMemory;
use tm_terms::{Place, text_of};

/// Appends a task.
fn push_runner(
    alloc: Global,
    text: &mut Vec<u8>,
    bytes: &[u8],
    runner: Runner,
) -> Result<(), NoMemory>
    ensures { OnOk result (text.new.items ≡ text.old.items ++ runner_text bytes.now runner) }
{
    let name = text_of(bytes, runner.of.name);
    push_task(alloc, text, runner.of.place, name, runner.priority)
}

/// Appends tasks.
pub(crate) fn push_runners(
    alloc: Global,
    text: &mut Vec<u8>,
    bytes: &[u8],
    runners: &[Runner],
) -> Result<(), NoMemory>
    ensures { OnOk result (text.new.items ≡ text.old.items ++ listed (runner_text bytes.now) runners.now) }
{
    for (at, runner) in runners.iter().enumerate() {
        push_comma(text, at)?;
        push_runner(alloc, text, bytes, *runner)?;
    }
    Ok(())
}

/// Appends a mutex that is declared.
fn push_declared(
    alloc: Global,
    text: &mut Vec<u8>,
    bytes: &[u8],
    mutex: Declaration,
) -> Result<(), NoMemory>
    ensures { OnOk result (text.new.items ≡ text.old.items ++ mutex_text bytes.now mutex) }
{
    push_mutex(alloc, text, mutex.place, text_of(bytes, mutex.name))
}

/// Appends mutexes.
pub(crate) fn push_mutexes(
    alloc: Global,
    text: &mut Vec<u8>,
    bytes: &[u8],
    mutexes: &[Declaration],
) -> Result<(), NoMemory>
    ensures { OnOk result (text.new.items ≡ text.old.items ++ listed (mutex_text bytes.now) mutexes.now) }
{
    for (at, mutex) in mutexes.iter().enumerate() {
        push_comma(text, at)?;
        push_declared(alloc, text, bytes, *mutex)?;
    }
    Ok(())
}

/// Appends places.
pub(crate) fn push_places(
    alloc: Global,
    text: &mut Vec<u8>,
    places: &[Place],
) -> Result<(), NoMemory>
    ensures { OnOk result (text.new.items ≡ text.old.items ++ listed place_text places.now) }
{
    for (at, place) in places.iter().enumerate() {
        push_comma(text, at)?;
        push_place(alloc, text, *place)?;
    }
    Ok(())
}
