//! The names of files, as marks spell them.

ghost use Rattle.std.specs.Prelude.{◌≡◌, ◌<◌, length, IfOk};
ghost use Rattle.source_marks.specs.Names.{decoded, is_octal, letter_of, octal_of, spelled_first};
ghost use Rattle.source_marks.specs.reading.Seen.{spelled_seen};

use std::alloc::{AllocError, Global};
use tm_lattice::NoMemory;
use tm_terms::{behind, byte_at};

/// Whether a byte is an octal digit.
fn is_octal(byte: u8) -> bool
    ensures { result ≡ is_octal byte }
{
    b'0' <= byte && byte <= b'7'
}

/// The byte that the three octal digits at the front spell, if they are three, and their value is at most 255.
fn octal(text: &[u8]) -> Option<u8>
    ensures { result ≡ octal_of text.now }
{
    let high = byte_at(text, 0);
    let middle = byte_at(text, 1);
    let low = byte_at(text, 2);
    if is_octal(high) && high <= b'3' && is_octal(middle) && is_octal(low) {
        Some((high - b'0') * 64 + (middle - b'0') * 8 + (low - b'0'))
    } else {
        None
    }
}

/// The byte that stands for itself, or for another, behind `\`.
fn letter(byte: u8) -> Option<u8>
    ensures { result ≡ letter_of byte }
{
    match byte {
        b'"' | b'\\' => Some(byte),
        b'n' => Some(b'\n'),
        b't' => Some(b'\t'),
        _ => None,
    }
}

/// A byte that a name has, and by how many bytes it is spelled beyond the first.
#[derive(Clone, Copy)]
pub struct Spelled {
    pub byte: u8,
    pub more: usize,
}

/// What a text spells first.
fn spelled_first(text: &[u8]) -> Spelled
    requires { 0 < length text.now }
    ensures { spelled_seen result ≡ spelled_first text.now }
{
    let byte = text[0];
    if byte != b'\\' {
        return Spelled { byte, more: 0 };
    }
    if let Some(byte) = octal(&text[1..]) {
        Spelled { byte, more: 3 }
    } else if let Some(byte) = letter(byte_at(text, 1)) {
        Spelled { byte, more: 1 }
    } else {
        Spelled { byte, more: 0 }
    }
}

/// The name that is spelled so.
fn decoded(alloc: Global, spelled: &[u8]) -> Result<Vec<u8>, AllocError>
    ensures { IfOk result (λ name. name.items ≡ decoded spelled.now) }
{
    let mut name = Vec::new(alloc);
    let mut rest = spelled;
    while !rest.is_empty() {
        let first = spelled_first(rest);
        name.push(first.byte)?;
        rest = behind(rest, first.more + 1);
    }
    Ok(name)
}

/// The name that a mark spells so.
pub fn name_bytes(alloc: Global, spelled: &[u8]) -> Result<Vec<u8>, NoMemory>
    ensures { IfOk result (λ name. name.items ≡ decoded spelled.now) }
{
    match decoded(alloc, spelled) {
        Ok(name) => Ok(name),
        Err(_) => Err(NoMemory),
    }
}
