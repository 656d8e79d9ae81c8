ghost use Rattle.std.specs.Prelude.{◌≡◌, ◌<◌, ◌≤◌, true, length, slice_index, IfSome};
ghost use Rattle.tm_terms.specs.Lexis.{begins, is_name_byte, is_number_byte, number_piece, word_or_name, word_piece};
ghost use Rattle.tm_terms.specs.Limits.{most_bytes};

use crate::characters::character;
use crate::constants::constant_of;
use crate::gaps::{comment, line_comment, skipped_line};
use crate::runs::{Run, is_name_start, run_length};
use crate::signs::sign_of;
use crate::words::word_of;
use tm_terms::{Name, Piece, Shape, byte_at, front, is_blank};

// The word with this spelling, or else the name that stands at this byte.
fn word_or_name(at: u32, text: &[u8]) -> Shape
    requires { length text.now ≤ most_bytes }
    ensures { result ≡ word_or_name at text.now }
{
    match word_of(text) {
        Some(word) => Shape::Word(word),
        None => Shape::Name(Name {
            start: at,
            length: text.len() as u32,
        }),
    }
}

// The piece that a letter or `_` begins.
#[tactic(auto, unfolding(tm_terms::specs::Lexis::word_piece))]
fn word_piece(at: u32, text: &[u8]) -> Option<Piece>
    requires { length text.now ≤ most_bytes }
    ensures value { result ≡ word_piece at text.now }
    ensures within { IfSome result (λ p. p.length ≤ length text.now) }
    ensures some { 0 < length text.now → is_name_byte (slice_index text.now 0) ≡ true → IfSome result
        (λ p. 0 < p.length) }
{
    let length = run_length(text, Run::Name);
    Some(Piece {
        shape: Some(word_or_name(at, front(text, length))),
        length,
    })
}

// The piece that a digit begins.
#[tactic(auto, unfolding(tm_terms::specs::Lexis::number_piece))]
fn number_piece(text: &[u8]) -> Option<Piece>
    ensures value { result ≡ number_piece text.now }
    ensures within { IfSome result (λ p. p.length ≤ length text.now) }
    ensures some { 0 < length text.now → is_number_byte (slice_index text.now 0) ≡ true → IfSome result
        (λ p. 0 < p.length) }
{
    let length = run_length(text, Run::Number);
    let constant = constant_of(front(text, length))?;
    Some(Piece {
        shape: Some(Shape::Integer(constant)),
        length,
    })
}

/// What begins the text, which stands from byte `at` on; `bare` says that only blanks stand before it
/// on its line.
#[tactic(auto, unfolding(tm_terms::specs::Lexis::begins))]
pub fn begins(at: u32, bare: bool, text: &[u8]) -> Option<Piece>
    requires { length text.now ≤ most_bytes }
    ensures value { result ≡ begins at bare text.now }
    ensures within { IfSome result (λ p. (0 < p.length) × (p.length ≤ length text.now)) }
{
    let first = byte_at(text, 0);
    let second = byte_at(text, 1);
    if text.is_empty() {
        None
    } else if is_blank(first) {
        Some(Piece {
            shape: None,
            length: 1,
        })
    } else if is_name_start(first) {
        word_piece(at, text)
    } else if first.is_ascii_digit() {
        number_piece(text)
    } else if first == b'\'' {
        character(text)
    } else if first == b'#' {
        if bare { skipped_line(text) } else { None }
    } else if first == b'/' && second == b'*' {
        comment(text)
    } else if first == b'/' && second == b'/' {
        line_comment(text)
    } else {
        sign_of(text)
    }
}
