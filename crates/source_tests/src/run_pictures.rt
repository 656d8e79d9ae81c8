//! Worlds as text.

use crate::forms::push_form;
use concrete_steps::{Content, Status};
use concrete_values::{Pointer, Value};
use concrete_worlds::{Held, World};
use std::alloc::Global;
use std::test::Fail;

fn push_value(alloc: Global, text: &mut String, value: Value) -> Result<(), Fail> {
    match value {
        Value::Number(number) => push_form(alloc, text, "# ", &[number], &[]),
        Value::Pointer(Pointer::Null) => push_form(alloc, text, "0 ", &[], &[]),
        Value::Pointer(Pointer::Invalid) => push_form(alloc, text, "invalid ", &[], &[]),
        Value::Pointer(Pointer::To { object, offset }) => push_form(
            alloc,
            text,
            "&#+# ",
            &[object as i128, offset as i128],
            &[],
        ),
    }
}

fn push_content(alloc: Global, text: &mut String, content: Option<Content>) -> Result<(), Fail> {
    match content {
        None => push_form(alloc, text, "none ", &[], &[]),
        Some(Content::Open) => push_form(alloc, text, "open ", &[], &[]),
        Some(Content::Is(value)) => push_value(alloc, text, value),
    }
}

/// What the first cells hold.
pub fn push_cells(alloc: Global, text: &mut String, world: &World, cells: u32) -> Result<(), Fail> {
    for cell in 0..cells {
        push_content(alloc, text, world.content(cell))?;
    }
    Ok(())
}

// How a task stands, and with which mutex it waits.
fn status_form(status: Status) -> (&'static str, u32) {
    match status {
        Status::Waiting => ("waiting ", 0),
        Status::Ready => ("ready ", 0),
        Status::Done => ("done ", 0),
        Status::Blocked(mutex) => ("blocked # ", mutex),
    }
}

// Which of the first mutexes it holds.
fn push_held(alloc: Global, text: &mut String, held: Held) -> Result<(), Fail> {
    for mutex in 0..16u32 {
        if held.has(mutex) {
            push_form(alloc, text, "with # ", &[mutex as i128], &[])?;
        }
    }
    Ok(())
}

fn push_standing(alloc: Global, text: &mut String, world: &World, task: u32) -> Result<(), Fail> {
    match world.standing(task) {
        None => push_form(alloc, text, "none ", &[], &[]),
        Some(standing) => {
            let (form, mutex) = status_form(standing.status);
            push_form(alloc, text, form, &[mutex as i128], &[])?;
            push_held(alloc, text, standing.held)
        }
    }
}

/// What the first cells hold, and how the first tasks stand.
pub fn push_world(
    alloc: Global,
    text: &mut String,
    world: &World,
    cells: u32,
    tasks: u32,
) -> Result<(), Fail> {
    push_cells(alloc, text, world, cells)?;
    text.push_str("| ")?;
    for task in 0..tasks {
        push_standing(alloc, text, world, task)?;
    }
    Ok(())
}
