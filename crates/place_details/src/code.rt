//! The code of a text: comments, lines that begin with `#` and characters are blank.

ghost use Rattle.std.specs.Prelude.{◌≡◌, length, IfOk};
ghost use Rattle.place_details.specs.Functions.{begun_by, code_of, mode_behind, shown_in};

use std::alloc::{AllocError, Global};
use tm_terms::byte_at;

/// Where a byte stands: in code, in a comment or a directive up to the end of its line, on the second byte that begins a
/// comment, in one, on the second byte that ends one, in a character, or behind `\` there.
#[derive(Clone, Copy)]
pub enum Mode {
    Code,
    Line,
    Begin,
    Block,
    End,
    Char,
    Escape,
}

/// What a byte that stands in code begins, by the byte behind it.
fn begun_by(byte: u8, next: u8) -> Mode
    ensures { result ≡ begun_by byte next }
{
    if byte == b'/' && next == b'*' {
        Mode::Begin
    } else if (byte == b'/' && next == b'/') || byte == b'#' {
        Mode::Line
    } else if byte == b'\'' {
        Mode::Char
    } else {
        Mode::Code
    }
}

/// Where the next byte stands, by where this one does and what it is.
fn mode_behind(mode: Mode, byte: u8, next: u8) -> Mode
    ensures { result ≡ mode_behind mode byte next }
{
    match mode {
        Mode::Code => begun_by(byte, next),
        Mode::Line => {
            if byte == b'\n' {
                Mode::Code
            } else {
                Mode::Line
            }
        }
        Mode::Begin => Mode::Block,
        Mode::Block => {
            if byte == b'*' && next == b'/' {
                Mode::End
            } else {
                Mode::Block
            }
        }
        Mode::End => Mode::Code,
        Mode::Char => {
            if byte == b'\\' {
                Mode::Escape
            } else if byte == b'\'' || byte == b'\n' {
                Mode::Code
            } else {
                Mode::Char
            }
        }
        Mode::Escape => Mode::Char,
    }
}

/// A byte between two places: itself where both stand in code, and a blank elsewhere.
fn shown_in(mode: Mode, next: Mode, byte: u8) -> u8
    ensures { result ≡ shown_in mode next byte }
{
    match (mode, next) {
        (Mode::Code, Mode::Code) => byte,
        _ => b' ',
    }
}

/// The code of a text, byte for byte.
pub fn code_of(alloc: Global, text: &[u8]) -> Result<Vec<u8>, AllocError>
    ensures value { IfOk result (λ code. code.items ≡ code_of text.now) }
    ensures long { IfOk result (λ code. length code.items ≡ length text.now) }
{
    let mut code = Vec::with_capacity(alloc, text.len())?;
    let mut mode = Mode::Code;
    for (i, byte) in text.iter().enumerate() {
        let next = mode_behind(mode, *byte, byte_at(text, i + 1));
        code.push(shown_in(mode, next, *byte))?;
        mode = next;
    }
    Ok(code)
}
