//! Parts of a text, and kinds of bytes.
ghost use Rattle.std.specs.Prelude.{◌≡◌, ◌<◌, ◌≤◌, ◌++◌, length, take, drop, slice_index, OnOk};
ghost use Rattle.std.specs.List.{prefix_len};
ghost use Rattle.tm_terms.specs.Lexis.{is_name_byte};
ghost use Rattle.tm_terms.specs.Spelling.{text_of};
ghost use Rattle.tm_terms.specs.Splices.{is_blank, is_in_line};

use crate::tokens::Name;
use tm_lattice::NoMemory;

/// The byte at an index, or 0 past the end.
pub fn byte_at(text: &[u8], index: usize) -> u8
    ensures value { result ≡ slice_index text.now index }
    ensures inside { 0 < result → index < length text.now }
{
    if index < text.len() { text[index] } else { 0 }
}

/// The first bytes of a text, at most so many.
pub fn front(text: &[u8], count: usize) -> &[u8]
    ensures { result.now ≡ take count text.now }
{
    if count < text.len() {
        &text[..count]
    } else {
        text
    }
}

/// What follows the first bytes of a text.
pub fn behind(text: &[u8], count: usize) -> &[u8]
    ensures { result.now ≡ drop count text.now }
{
    if count < text.len() {
        &text[count..]
    } else {
        &[]
    }
}

/// How many bytes the first line of a text has, without the byte 10 that ends it.
pub fn line_length(text: &[u8]) -> usize
    ensures value { result ≡ prefix_len is_in_line text.now }
    ensures within { result ≤ length text.now }
{
    for (i, byte) in text.iter().enumerate() {
        if *byte == b'\n' {
            return i;
        }
    }
    text.len()
}

/// Whether a byte is a blank, in a line or at its end.
pub fn is_blank(byte: u8) -> bool
    ensures { result ≡ is_blank byte }
{
    byte == b' ' || (b'\t' <= byte && byte <= b'\r')
}

/// Whether a byte is a letter, a digit or `_`.
pub fn is_name_byte(byte: u8) -> bool
    ensures { result ≡ is_name_byte byte }
{
    byte.is_ascii_alphanumeric() || byte == b'_'
}

/// How many letters, digits and `_` a text begins with.
pub fn name_length(text: &[u8]) -> usize
    ensures value { result ≡ prefix_len is_name_byte text.now }
    ensures within { result ≤ length text.now }
{
    for (i, byte) in text.iter().enumerate() {
        if !is_name_byte(*byte) {
            return i;
        }
    }
    text.len()
}

/// The bytes of a name.
pub fn text_of(text: &[u8], name: Name) -> &[u8]
    ensures { result.now ≡ text_of text.now name }
{
    front(behind(text, name.start as usize), name.length as usize)
}

/// Appends bytes.
pub fn push_bytes(text: &mut Vec<u8>, bytes: &[u8]) -> Result<(), NoMemory>
    ensures { OnOk result (text.new.items ≡ text.old.items ++ bytes.now) }
{
    match text.extend_from_slice(bytes) {
        Ok(()) => Ok(()),
        Err(_) => Err(NoMemory),
    }
}
