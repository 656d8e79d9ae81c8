//! The lines of assumptions.
ghost use Rattle.std.specs.Prelude.{◌≡◌, ◌++◌, IfOk, OnOk};
ghost use Rattle.source_assumptions.specs.Lines.{choice_line, choices_text};

use notes_json::push_number;
use std::alloc::Global;
use text_choices::Choice;
use tm_lattice::NoMemory;
use tm_terms::push_bytes;

// Appends the line of a choice.
fn push_choice(alloc: Global, text: &mut Vec<u8>, choice: Choice) -> Result<(), NoMemory>
    ensures { OnOk result (text.new.items ≡ text.old.items ++ choice_line choice) }
{
    push_number(alloc, text, b"", choice.place.line as u64)?;
    push_number(alloc, text, b":", choice.place.col as u64)?;
    push_bytes(text, b" ")?;
    push_bytes(text, choice.kind.word().as_bytes())?;
    push_bytes(text, b"\n")
}

/// The lines of choices, and how many there are.
pub(crate) fn choices_text(alloc: Global, choices: &[Choice]) -> Result<Vec<u8>, NoMemory>
    ensures { IfOk result (λ text. text.items ≡ choices_text choices.now) }
{
    let mut text = Vec::new(alloc);
    for choice in choices {
        push_choice(alloc, &mut text, *choice)?;
    }
    push_number(alloc, &mut text, b"assumptions ", choices.len() as u64)?;
    push_bytes(&mut text, b"\n")?;
    Ok(text)
}
