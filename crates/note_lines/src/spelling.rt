//! Names and places in texts.
ghost use Rattle.std.specs.Prelude.{◌≡◌, ◌++◌, IfOk, OnOk, string_bytes};
ghost use Rattle.note_lines.specs.Names.{name_at, held_name, names_below};

use request_circles::has_mutex;
use std::alloc::Global;
use tm_lattice::NoMemory;
use tm_terms::{Name, push_bytes, text_of};

/// The bytes of a name, if there is one with this number.
pub(crate) fn name_at<'a>(bytes: &'a [u8], names: &[Name], number: u32) -> &'a [u8]
    ensures { result.now ≡ name_at bytes.now names.now number }
{
    match names.get(number as usize) {
        None => &[],
        Some(name) => text_of(bytes, *name),
    }
}

/// Appends the name of a mutex, behind a blank, if it is in the set.
fn push_held(
    text: &mut Vec<u8>,
    bytes: &[u8],
    mutexes: &[Name],
    held: u16,
    mutex: u32,
) -> Result<(), NoMemory>
    ensures { OnOk result (text.new.items ≡ text.old.items ++ held_name bytes.now mutexes.now held mutex) }
{
    if !has_mutex(held, mutex) {
        return Ok(());
    }
    push_bytes(text, b" ")?;
    push_bytes(text, name_at(bytes, mutexes, mutex))
}

/// Appends the names of the mutexes of a set, by rising numbers, each behind a blank.
pub(crate) fn push_names(
    text: &mut Vec<u8>,
    bytes: &[u8],
    mutexes: &[Name],
    held: u16,
) -> Result<(), NoMemory>
    ensures { OnOk result (text.new.items ≡ text.old.items ++ names_below bytes.now mutexes.now held 16) }
{
    for mutex in 0..16 {
        push_held(text, bytes, mutexes, held, mutex)?;
    }
    Ok(())
}
