//! PRAGMA: lines that are skipped.
ghost use Rattle.std.specs.Prelude.{◌≡◌, ◌≤◌, length, OnOk};
ghost use Rattle.std.specs.List.{prefix_len};
ghost use Rattle.tm_terms.specs.Lexis.{is_blank_in_line};
ghost use Rattle.tm_terms.specs.Limits.{most_bytes};
ghost use Rattle.text_choices.specs.Choices.{Adds, OfKind};
ghost use Rattle.text_choices.specs.Texts.{IsPragma};
ghost use Rattle.text_choices.specs.reading.Pragmas.{is_pragma, is_pragma_piece};

use crate::adding::add_where;
use crate::kinds::{Choice, Kind};
use c_lexer::{bare_after, begins, place_after};
use tm_lattice::NoMemory;
use tm_terms::{Place, Shape, name_length};

// Whether a byte is a blank within a line.
fn is_blank_in_line(byte: u8) -> bool
    ensures { result ≡ is_blank_in_line byte }
{
    (byte == b' ' || (b'\t' <= byte && byte <= b'\r')) && byte != b'\n'
}

// How many blanks begin a text.
fn blanks(text: &[u8]) -> usize
    ensures value { result ≡ prefix_len is_blank_in_line text.now }
    ensures within { result ≤ length text.now }
{
    for (i, byte) in text.iter().enumerate() {
        if !is_blank_in_line(*byte) {
            return i;
        }
    }
    text.len()
}

// Whether a text begins with `#`, blanks and the word `pragma`.
fn is_pragma(text: &[u8]) -> bool
    ensures { result ≡ is_pragma text.now }
{
    if text.is_empty() || text[0] != b'#' {
        return false;
    }
    let rest = &text[1..];
    let rest = &rest[blanks(rest)..];
    let word = &rest[..name_length(rest)];
    word == b"pragma".as_slice()
}

// The same of what begins with a piece of this shape.
fn is_pragma_piece(shape: Option<Shape>, text: &[u8]) -> bool
    ensures { result ≡ is_pragma_piece shape text.now }
{
    match shape {
        None => is_pragma(text),
        Some(_) => false,
    }
}

/// Adds the places of skipped `#pragma` lines (C99 6.10.6): what begins with `#` is skipped whole, and is one of these
/// words alone, `line` or a number.
pub(crate) fn add_pragmas(bytes: &[u8], choices: &mut Vec<Choice>) -> Result<(), NoMemory>
    requires { length bytes.now ≤ most_bytes }
    ensures { OnOk result (Adds choices.old.items choices.new.items (OfKind Kind.Pragma (IsPragma bytes.now))) }
{
    let mut at = 0;
    let mut place = Place { line: 1, col: 1 };
    let mut bare = true;
    while at < bytes.len() {
        let rest = &bytes[at..];
        let Some(piece) = begins(at as u32, bare, rest) else {
            return Ok(());
        };
        let text = &rest[..piece.length];
        let choice = Choice {
            place,
            kind: Kind::Pragma,
        };
        let holds = is_pragma_piece(piece.shape, rest);
        add_where(holds, choice, choices)?;
        place = place_after(place, text);
        bare = bare_after(bare, text);
        at += piece.length;
    }
    Ok(())
}
