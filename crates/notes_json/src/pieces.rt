//! Pieces of JSON.
ghost use Rattle.std.specs.Prelude.{◌≡◌, ◌++◌, IfOk, OnOk, string_bytes, decimal};
ghost use Rattle.notes_json.specs.Pieces.{comma_before, comma_if, number_text, option_text, word_text, truth_text};
ghost use Rattle.notes_json.specs.Pieces.{place_text};

use std::alloc::Global;
use tm_lattice::NoMemory;
use tm_terms::{Place, push_bytes};

/// Appends the comma that stands before what is at this place in a list, except at the first.
pub fn push_comma(text: &mut Vec<u8>, at: usize) -> Result<(), NoMemory>
    ensures { OnOk result (text.new.items ≡ text.old.items ++ comma_before at) }
{
    if at == 0 {
        return Ok(());
    }
    push_bytes(text, b",")
}

/// Appends the comma that stands before what is behind others in a list of which some are left out.
pub fn push_comma_if(text: &mut Vec<u8>, others: bool) -> Result<(), NoMemory>
    ensures { OnOk result (text.new.items ≡ text.old.items ++ comma_if others) }
{
    if others {
        push_bytes(text, b",")
    } else {
        Ok(())
    }
}

/// A number in decimal.
fn decimal_text(alloc: Global, number: u64) -> Result<String, NoMemory>
    ensures { IfOk result (λ text. string_bytes text ≡ decimal number) }
{
    match format!(in alloc; "{number}") {
        Ok(text) => Ok(text),
        Err(_) => Err(NoMemory),
    }
}

/// Appends a number behind bytes.
pub fn push_number(
    alloc: Global,
    text: &mut Vec<u8>,
    before: &[u8],
    number: u64,
) -> Result<(), NoMemory>
    ensures { OnOk result (text.new.items ≡ text.old.items ++ number_text before.now number) }
{
    let digits = decimal_text(alloc, number)?;
    push_bytes(text, before)?;
    push_bytes(text, digits.as_bytes())
}

/// Appends a number behind bytes, with a comma behind it, if there is one.
pub(crate) fn push_option(
    alloc: Global,
    text: &mut Vec<u8>,
    before: &[u8],
    number: Option<u32>,
) -> Result<(), NoMemory>
    ensures { OnOk result (text.new.items ≡ text.old.items ++ option_text before.now number) }
{
    match number {
        None => Ok(()),
        Some(found) => {
            push_number(alloc, text, before, found as u64)?;
            push_bytes(text, b",")
        }
    }
}

/// Appends a word behind bytes, and the quotation mark behind it.
pub(crate) fn push_word(text: &mut Vec<u8>, before: &[u8], word: &[u8]) -> Result<(), NoMemory>
    ensures { OnOk result (text.new.items ≡ text.old.items ++ word_text before.now word.now) }
{
    push_bytes(text, before)?;
    push_bytes(text, word)?;
    push_bytes(text, b"\"")
}

/// Whether it is so.
fn truth_text(is: bool) -> &'static [u8]
    ensures { result.now ≡ truth_text is }
{
    if is { b"true" } else { b"false" }
}

/// Appends behind bytes whether it is so.
pub(crate) fn push_truth(text: &mut Vec<u8>, before: &[u8], is: bool) -> Result<(), NoMemory>
    ensures { OnOk result (text.new.items ≡ text.old.items ++ (before.now ++ truth_text is)) }
{
    push_bytes(text, before)?;
    push_bytes(text, truth_text(is))
}

/// Appends a place.
pub fn push_place(alloc: Global, text: &mut Vec<u8>, place: Place) -> Result<(), NoMemory>
    ensures { OnOk result (text.new.items ≡ text.old.items ++ place_text place) }
{
    push_number(alloc, text, b"{\"col\":", place.col as u64)?;
    push_number(alloc, text, b",\"line\":", place.line as u64)?;
    push_bytes(text, b"}")
}
