ghost use Rattle.std.specs.Prelude.{◌≡◌, ◌+◌, ◌<◌, ◌≤◌, length, IfSome};
ghost use Rattle.tm_terms.specs.Lexis.{char_value, character, character_in, digits_escape, escape, simple_escape};

use crate::constants::value_in;
use crate::runs::{Run, is_digit_in, run_length};
use tm_terms::{Piece, Shape, behind, byte_at, front};

// The value of a byte as a signed `char`.
fn char_value(byte: u8) -> i8
    ensures { result ≡ char_value byte }
{
    if byte < 128 {
        byte as i8
    } else {
        (i16::from(byte) - 256) as i8
    }
}

fn simple_escape(byte: u8) -> Option<u8>
    ensures { result ≡ simple_escape byte }
{
    match byte {
        b'\'' | b'"' | b'?' | b'\\' => Some(byte),
        b'a' => Some(7),
        b'b' => Some(8),
        b'f' => Some(12),
        b'n' => Some(10),
        b'r' => Some(13),
        b't' => Some(9),
        b'v' => Some(11),
        _ => None,
    }
}

// The byte that these digits stand for, and how long the escape is, with so many bytes more.
#[tactic(auto, unfolding(tm_terms::specs::Lexis::digits_escape))]
fn digits_escape(base: u8, digits: &[u8], more: usize) -> Option<(u8, usize)>
    requires base { 1 ≤ base }
    requires more { more ≤ 1 }
    ensures value { result ≡ digits_escape base digits.now more }
    ensures within { IfSome result (λ e. e.1 ≤ length digits.now + more) }
{
    if digits.is_empty() {
        return None;
    }
    match value_in(base, digits) {
        Some(value) if value < 256 => Some((value as u8, digits.len() + more)),
        _ => None,
    }
}

#[tactic(auto, unfolding(tm_terms::specs::Lexis::escape))]
fn escape(text: &[u8]) -> Option<(u8, usize)>
    ensures value { result ≡ escape text.now }
    ensures within { IfSome result (λ e. e.1 ≤ length text.now) }
{
    let first = byte_at(text, 0);
    if is_digit_in(8, first) {
        let few = front(text, 3);
        let length = run_length(few, Run::Digits(8));
        digits_escape(8, &few[..length], 0)
    } else if first == b'x' {
        let rest = behind(text, 1);
        let length = run_length(rest, Run::Digits(16));
        digits_escape(16, &rest[..length], 1)
    } else {
        let byte = simple_escape(first)?;
        Some((byte, 1))
    }
}

#[tactic(auto, unfolding(tm_terms::specs::Lexis::character_in))]
fn character_in(text: &[u8]) -> Option<(u8, usize)>
    ensures value { result ≡ character_in text.now }
    ensures within { IfSome result (λ e. e.1 ≤ length text.now) }
{
    if text.is_empty() {
        return None;
    }
    match text[0] {
        b'\\' => {
            let (byte, length) = escape(&text[1..])?;
            Some((byte, length + 1))
        }
        b'\'' | b'\n' => None,
        byte => Some((byte, 1)),
    }
}

/// The character constant whose quote begins the text, if one does.
#[tactic(auto, unfolding(tm_terms::specs::Lexis::character))]
pub fn character(text: &[u8]) -> Option<Piece>
    ensures value { result ≡ character text.now }
    ensures within { IfSome result (λ p. (0 < p.length) × (p.length ≤ length text.now)) }
{
    let (byte, length) = character_in(behind(text, 1))?;
    if byte_at(text, length + 1) == b'\'' {
        Some(Piece {
            shape: Some(Shape::Character(char_value(byte))),
            length: length + 2,
        })
    } else {
        None
    }
}
