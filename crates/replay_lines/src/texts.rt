//! The text of a replay.
ghost use Rattle.std.specs.Prelude.{◌≡◌, ◌++◌, IfOk, OnOk, string_bytes, length};
ghost use Rattle.replay_lines.specs.Texts.{ending_line, not_allowed_line, race_line, ran_line, replay_text};
ghost use Rattle.replay_lines.specs.Texts.{stopped_line};

use crate::endings::Ending;
use std::alloc::Global;
use tm_cint::Class;
use tm_lattice::NoMemory;
use tm_terms::{Place, class_word};

/// Appends the line of a race.
fn push_race(text: &mut String, place: Place) -> Result<(), NoMemory>
    ensures { OnOk result (string_bytes text.new ≡ string_bytes text.old ++ race_line place) }
{
    let line = place.line;
    let col = place.col;
    match write!(text, "{line}:{col} RACE\n") {
        Ok(()) => Ok(()),
        Err(_) => Err(NoMemory),
    }
}

/// Appends the line of a run whose choices were all done.
fn push_ran(text: &mut String, count: usize) -> Result<(), NoMemory>
    ensures { OnOk result (string_bytes text.new ≡ string_bytes text.old ++ ran_line count) }
{
    match write!(text, "ran {count}\n") {
        Ok(()) => Ok(()),
        Err(_) => Err(NoMemory),
    }
}

/// Appends the line of a choice that is not allowed.
fn push_not_allowed(text: &mut String, choice: usize) -> Result<(), NoMemory>
    ensures { OnOk result (string_bytes text.new ≡ string_bytes text.old ++ not_allowed_line choice) }
{
    match write!(text, "notallowed {choice}\n") {
        Ok(()) => Ok(()),
        Err(_) => Err(NoMemory),
    }
}

/// Appends the line of a choice that stops the run.
fn push_stopped(
    text: &mut String,
    choice: usize,
    class: Class,
    place: Place,
) -> Result<(), NoMemory>
    ensures { OnOk result (string_bytes text.new ≡ string_bytes text.old ++ stopped_line choice class place) }
{
    let line = place.line;
    let col = place.col;
    let class = class_word(class);
    match write!(text, "stopped {choice} {line}:{col} {class}\n") {
        Ok(()) => Ok(()),
        Err(_) => Err(NoMemory),
    }
}

/// Appends the line that tells how a run ended.
fn push_ending(text: &mut String, ending: Ending) -> Result<(), NoMemory>
    ensures { OnOk result (string_bytes text.new ≡ string_bytes text.old ++ ending_line ending) }
{
    match ending {
        Ending::Ran(count) => push_ran(text, count),
        Ending::NotAllowed(choice) => push_not_allowed(text, choice),
        Ending::Stopped {
            choice,
            class,
            place,
        } => push_stopped(text, choice, class, place),
    }
}

/// The text of a replay: a line for each place that races, and then how the run ended.
pub fn replay_text(alloc: Global, places: &[Place], ending: Ending) -> Result<String, NoMemory>
    ensures { IfOk result (λ text. string_bytes text ≡ replay_text places.now ending) }
{
    let mut text = String::new(alloc);
    for place in places {
        push_race(&mut text, *place)?;
    }
    push_ending(&mut text, ending)?;
    Ok(text)
}
