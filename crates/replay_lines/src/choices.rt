//! The choices of a replay.
ghost use Rattle.std.specs.Prelude.{◌≡◌, IfOk, option_map, codes};
ghost use Rattle.std.specs.List.{position_or_len};
ghost use Rattle.replay_lines.specs.Choices.{asked_of, choice_of, counted, choices_of, is_space, run_of, wake_of};

use crate::cuts::{first_line, mark_in, other_lines};
use crate::numbers::{task_of, value_of};
use concrete_steps::Choice;
use std::alloc::Global;
use tm_lattice::NoMemory;
use tm_terms::{behind, front};

/// The most choices.
const MOST_CHOICES: usize = 10_000;

/// How many bytes stand before the first space.
fn word_length(bytes: &[u8]) -> usize
    ensures { result ≡ position_or_len is_space bytes.now }
{
    for (at, byte) in bytes.iter().enumerate() {
        if *byte == b' ' {
            return at;
        }
    }
    bytes.len()
}

/// The choice to wake a task.
fn wake_of(bytes: &[u8]) -> Option<Choice>
    ensures { result ≡ wake_of bytes.now }
{
    match task_of(bytes) {
        Some(task) => Some(Choice::Wake { task }),
        None => None,
    }
}

/// The choice to run a task with a value.
fn run_of(bytes: &[u8]) -> Option<Choice>
    ensures { result ≡ run_of bytes.now }
{
    let length = word_length(bytes);
    match task_of(front(bytes, length)) {
        Some(task) => match value_of(behind(bytes, length + 1)) {
            Some(value) => Some(Choice::Run { task, value }),
            None => None,
        },
        None => None,
    }
}

/// The choice that a line is.
fn choice_of(line: &[u8]) -> Option<Choice>
    ensures { result ≡ choice_of line.now }
{
    if front(line, 5) == b"wake ".as_slice() {
        wake_of(behind(line, 5))
    } else if front(line, 4) == b"run ".as_slice() {
        run_of(behind(line, 4))
    } else {
        None
    }
}

/// The choices that all lines of a text are.
fn choices_of(alloc: Global, text: &[u8]) -> Result<Option<Vec<Choice>>, NoMemory>
    ensures { IfOk result (λ found. option_map (λ v. v.items) found ≡ choices_of text.now) }
{
    let mut choices = Vec::new(alloc);
    let mut rest = text;
    while !rest.is_empty() {
        match choice_of(first_line(rest)) {
            Some(choice) => choices.push(choice)?,
            None => return Ok(None),
        }
        rest = other_lines(rest);
    }
    Ok(Some(choices))
}

/// Choices, unless they are too many.
fn counted(choices: Vec<Choice>) -> Option<Vec<Choice>>
    ensures { option_map (λ v. v.items) result ≡ counted choices.items }
{
    if choices.len() <= MOST_CHOICES {
        Some(choices)
    } else {
        None
    }
}

/// The choices that stand behind the source. None where no line is `#replay`, or a line behind it is no choice, or the
/// choices are more than 10,000.
pub fn choices_in(alloc: Global, bytes: &[u8]) -> Result<Option<Vec<Choice>>, NoMemory>
    ensures { IfOk result (λ found. option_map (λ v. v.items) found ≡ asked_of bytes.now) }
{
    let Some(at) = mark_in(bytes) else {
        return Ok(None);
    };
    match choices_of(alloc, other_lines(behind(bytes, at)))? {
        Some(choices) => Ok(counted(choices)),
        None => Ok(None),
    }
}
