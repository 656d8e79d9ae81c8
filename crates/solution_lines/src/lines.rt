//! The lines.
ghost use Rattle.std.specs.Prelude.{◌≡◌, ◌++◌, IfOk, OnOk, string_bytes};
ghost use Rattle.solution_lines.specs.SolutionTexts.{dead_line, dead_text, number_texts, range_line};
ghost use Rattle.solution_lines.specs.SolutionTexts.{dead_count_line, wait_line, waits_count_line, waits_text};

use std::alloc::Global;
use tm_lattice::NoMemory;
use tm_terms::{Place, place_head, push_bytes};

/// Appends the line of a place at which a task may wait.
fn push_wait(text: &mut String, place: Place) -> Result<(), NoMemory>
    ensures { OnOk result (string_bytes text.new ≡ string_bytes text.old ++ wait_line place) }
{
    let line = place.line;
    let col = place.col;
    match write!(text, "{line}:{col} WAIT\n") {
        Ok(()) => Ok(()),
        Err(_) => Err(NoMemory),
    }
}

/// Appends the line that says how many such places there are.
fn push_waits_count(text: &mut String, count: usize) -> Result<(), NoMemory>
    ensures { OnOk result (string_bytes text.new ≡ string_bytes text.old ++ waits_count_line count) }
{
    match write!(text, "waits {count}\n") {
        Ok(()) => Ok(()),
        Err(_) => Err(NoMemory),
    }
}

/// The answer of `waits`: a line for each place, and then their number.
pub fn waits_text(alloc: Global, places: &[Place]) -> Result<String, NoMemory>
    ensures { IfOk result (λ text. string_bytes text ≡ waits_text places.now) }
{
    let mut text = String::new(alloc);
    for place in places {
        push_wait(&mut text, *place)?;
    }
    push_waits_count(&mut text, places.len())?;
    Ok(text)
}

/// What stands behind it.
fn numbers_of(alloc: Global, low: i128, high: i128) -> Result<String, NoMemory>
    ensures { IfOk result (λ text. string_bytes text ≡ number_texts low high) }
{
    match format!(in alloc; " {low} {high}\n") {
        Ok(text) => Ok(text),
        Err(_) => Err(NoMemory),
    }
}

/// Appends the line of an object: the place of its first declaration, its name, and the least and the greatest number
/// that its integer cells may hold.
pub fn push_range(
    alloc: Global,
    text: &mut Vec<u8>,
    place: Place,
    name: &[u8],
    low: i128,
    high: i128,
) -> Result<(), NoMemory>
    ensures { OnOk result (text.new.items ≡ text.old.items ++ range_line place name.now low high) }
{
    let head = place_head(alloc, place)?;
    let numbers = numbers_of(alloc, low, high)?;
    push_bytes(text, head.as_bytes())?;
    push_bytes(text, name)?;
    push_bytes(text, numbers.as_bytes())
}

/// The line of a dead place.
fn dead_line(alloc: Global, place: Place) -> Result<String, NoMemory>
    ensures { IfOk result (λ text. string_bytes text ≡ dead_line place) }
{
    let line = place.line;
    let col = place.col;
    match format!(in alloc; "{line}:{col} DEAD\n") {
        Ok(text) => Ok(text),
        Err(_) => Err(NoMemory),
    }
}

/// The line that says how many dead places there are.
fn dead_count_line(alloc: Global, count: usize) -> Result<String, NoMemory>
    ensures { IfOk result (λ text. string_bytes text ≡ dead_count_line count) }
{
    match format!(in alloc; "dead {count}\n") {
        Ok(text) => Ok(text),
        Err(_) => Err(NoMemory),
    }
}

/// Appends the lines of dead places, and then their number.
pub fn push_dead_places(alloc: Global, text: &mut Vec<u8>, places: &[Place]) -> Result<(), NoMemory>
    ensures { OnOk result (text.new.items ≡ text.old.items ++ dead_text places.now) }
{
    for place in places {
        let line = dead_line(alloc, *place)?;
        push_bytes(text, line.as_bytes())?;
    }
    let count = dead_count_line(alloc, places.len())?;
    push_bytes(text, count.as_bytes())
}
