//! The words of a command line that ask for notes.
ghost use Rattle.std.specs.Prelude.{◌≡◌, map, codes, string_bytes, option_map, IfSome};
ghost use Rattle.source_notes.specs.Words.{AsksFew, asked_behind, asked_notes, asked_on, asks_notes, note_of, noted};

use crate::answers::Note;
use cmd_words::workers_named;
use tm_laid::Scale;

/// What words that ask for notes ask for.
#[derive(Clone, Copy)]
pub struct AskedNotes {
    /// The scale on which the source is taken.
    pub scale: Scale,
    /// How many workers analyse the tasks, from 1 to 16: one where the words name no number.
    pub workers: u32,
    /// What the notes are on.
    pub note: Note,
}

/// The notes that a word asks for.
fn note_of(word: &str) -> Option<Note>
    ensures { result ≡ note_of word.now }
{
    if word == "report" {
        Some(Note::Report)
    } else if word == "rings" {
        Some(Note::Rings)
    } else if word == "races" {
        Some(Note::Races)
    } else if word == "alarms" {
        Some(Note::Alarms)
    } else if word == "causes" {
        Some(Note::Causes)
    } else if word == "notes" {
        Some(Note::Whole)
    } else if word == "assumptions" {
        Some(Note::Assumptions)
    } else if word == "parts" {
        Some(Note::Parts)
    } else {
        None
    }
}

/// The notes that a word asks for, on a scale, by so many workers.
fn noted(scale: Scale, workers: u32, word: &str) -> Option<AskedNotes>
    ensures { result ≡ noted scale workers word.now }
{
    let note = note_of(word)?;
    Some(AskedNotes {
        scale,
        workers,
        note,
    })
}

/// What words ask for on a scale.
fn asked_on(scale: Scale, words: &[String]) -> Option<AskedNotes>
    ensures { result ≡ asked_on scale (map (λ w. string_bytes w) words.now) }
{
    match words {
        [word] => noted(scale, 1, word.as_str()),
        [workers, word] => {
            let workers = workers_named(workers.as_str())?;
            noted(scale, workers, word.as_str())
        }
        _ => None,
    }
}

/// What the words behind `notes` ask for.
fn asked_behind(words: &[String]) -> Option<AskedNotes>
    ensures { result ≡ asked_behind (map (λ w. string_bytes w) words.now) }
{
    let (first, behind) = words.split_first()?;
    if first.as_str() == "large" {
        asked_on(Scale::Large, behind)
    } else {
        asked_on(Scale::Usual, words)
    }
}

/// Whether words, behind the program's name, ask for notes: their first is `notes`. Which notes, if any, `asked_notes`
/// tells.
pub fn asks_notes(words: &[String]) -> bool
    ensures { result ≡ asks_notes (map (λ w. string_bytes w) words.now) }
{
    match words.split_first() {
        Some((first, _)) => first.as_str() == "notes",
        None => false,
    }
}

/// The notes that words, behind the program's name, ask for; None where they ask for none.
pub fn asked_notes(words: &[String]) -> Option<AskedNotes>
    ensures asked { result ≡ asked_notes (map (λ w. string_bytes w) words.now) }

    // They are asked of 1 to 16 workers.
    ensures few { IfSome result AsksFew }
{
    let (first, behind) = words.split_first()?;
    if first.as_str() != "notes" {
        return None;
    }
    asked_behind(behind)
}
