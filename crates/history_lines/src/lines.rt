//! The lines of a history.
ghost use Rattle.std.specs.Prelude.{◌≡◌, ◌++◌, IfOk, OnOk, string_bytes};
ghost use Rattle.store_core.specs.Events.{past_of, plain_event};
ghost use Rattle.history_lines.specs.HistoryTexts.{event_line, history_text, publish_line, read_line};

use std::alloc::Global;
use store_core::Event;
use tm_lattice::{NoMemory, Passer};

/// Appends the line of a reading.
fn push_read(text: &mut String, worker: u32, task: u32, version: u64) -> Result<(), NoMemory>
    ensures { OnOk result (string_bytes text.new ≡ string_bytes text.old ++ read_line worker task version) }
{
    match write!(text, "read {worker} {task} {version}\n") {
        Ok(()) => Ok(()),
        Err(_) => Err(NoMemory),
    }
}

/// Appends the line of a publication.
fn push_publish(
    text: &mut String,
    worker: u32,
    task: u32,
    version: u64,
    after: u64,
) -> Result<(), NoMemory>
    ensures { OnOk result (string_bytes text.new
        ≡ string_bytes text.old ++ publish_line worker task version after) }
{
    match write!(text, "publish {worker} {task} {version} {after}\n") {
        Ok(()) => Ok(()),
        Err(_) => Err(NoMemory),
    }
}

/// Appends the line of an event.
fn push_event<P: Passer>(text: &mut String, event: &Event<P>) -> Result<(), NoMemory>
    ensures { OnOk result (string_bytes text.new ≡ string_bytes text.old ++ event_line (plain_event event.now)) }
{
    match event {
        Event::Read {
            worker,
            task,
            version,
        } => push_read(text, *worker, *task, *version),
        Event::Publish {
            worker,
            task,
            version,
            after,
            added: _,
        } => push_publish(text, *worker, *task, *version, *after),
    }
}

/// The events as text, a line each, in the order of time.
pub fn history_lines<P: Passer>(alloc: Global, events: &[Event<P>]) -> Result<String, NoMemory>
    ensures { IfOk result (λ text. string_bytes text ≡ history_text (past_of events.now)) }
{
    let mut text = String::new(alloc);
    'events: for event in events {
        push_event(&mut text, event)?;
    }
    Ok(text)
}
