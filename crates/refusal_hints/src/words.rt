//! The words of a text.

ghost use Rattle.std.specs.Prelude.{◌≡◌, ◌<◌, ◌≤◌, ◌++◌, [], ◌∷◌, false, length, take, IfOk, OnOk};
ghost use Rattle.refusal_hints.specs.Words.{begins_comment, begins_line, comment_length, is_gap, is_quote};
ghost use Rattle.refusal_hints.specs.Words.{literal_length, piece_length, words_from, words_of};
ghost use Rattle.refusal_hints.specs.reading.Seen.{words_seen};

use crate::bytes::{is_word_byte, word_length};
use std::alloc::Global;
use tm_lattice::NoMemory;
use tm_terms::{behind, byte_at, is_blank, line_length};

/// How many bytes a comment takes behind its `/*`.
fn comment_length(text: &[u8]) -> usize
    ensures value { result ≡ comment_length text.now }
    ensures within { result ≤ length text.now }
{
    for (i, byte) in text.iter().enumerate() {
        if *byte == b'*' && byte_at(text, i + 1) == b'/' {
            return i + 2;
        }
    }
    text.len()
}

/// How many bytes a literal takes behind its quote.
fn literal_length(quote: u8, text: &[u8]) -> usize
    ensures value { result ≡ literal_length quote false text.now }
    ensures within { result ≤ length text.now }
{
    let mut protected = false;
    for (i, byte) in text.iter().enumerate() {
        if protected {
            protected = false;
        } else if *byte == quote {
            return i + 1;
        } else if *byte == b'\n' {
            return i;
        } else {
            protected = *byte == b'\\';
        }
    }
    text.len()
}

/// Whether `#` begins a text, or `//`.
fn begins_line(text: &[u8]) -> bool
    ensures { result ≡ begins_line text.now }
{
    byte_at(text, 0) == b'#' || (byte_at(text, 0) == b'/' && byte_at(text, 1) == b'/')
}

/// Whether `/*` begins a text.
fn begins_comment(text: &[u8]) -> bool
    ensures { result ≡ begins_comment text.now }
{
    byte_at(text, 0) == b'/' && byte_at(text, 1) == b'*'
}

/// Whether a byte is a quote of a string or of a character.
fn is_quote(byte: u8) -> bool
    ensures { result ≡ is_quote byte }
{
    byte == b'"' || byte == b'\''
}

/// How many bytes the piece takes that begins a text.
fn piece_length(text: &[u8]) -> usize
    requires { 0 < length text.now }
    ensures value { result ≡ piece_length text.now }
    ensures some { 0 < result }
    ensures within { result ≤ length text.now }
{
    let first = byte_at(text, 0);
    if is_word_byte(first) {
        word_length(text)
    } else if begins_line(text) {
        line_length(text)
    } else if begins_comment(text) {
        2 + comment_length(behind(text, 2))
    } else if is_quote(first) {
        1 + literal_length(first, behind(text, 1))
    } else {
        1
    }
}

/// Whether the piece that begins a text is no word.
fn is_gap(text: &[u8]) -> bool
    ensures { result ≡ is_gap text.now }
{
    is_blank(byte_at(text, 0)) || begins_line(text) || begins_comment(text)
}

/// Appends a word.
pub fn push<'a>(words: &mut Vec<&'a [u8]>, word: &'a [u8]) -> Result<(), NoMemory>
    ensures { OnOk result (words_seen words.new.items ≡ words_seen words.old.items ++ word.now ∷ []) }
{
    match words.push(word) {
        Ok(()) => Ok(()),
        Err(_) => Err(NoMemory),
    }
}

/// Appends the words of a text.
fn push_words<'a>(words: &mut Vec<&'a [u8]>, text: &'a [u8]) -> Result<(), NoMemory>
    ensures { OnOk result (words_seen words.new.items ≡ words_seen words.old.items ++ words_of text.now) }
{
    let mut rest = text;
    while !rest.is_empty() {
        let count = piece_length(rest);
        if !is_gap(rest) {
            push(words, &rest[..count])?;
        }
        rest = behind(rest, count);
    }
    Ok(())
}

/// The words of a text.
pub fn words_of(alloc: Global, text: &[u8]) -> Result<Vec<&[u8]>, NoMemory>
    ensures { IfOk result (λ words. words_seen words.items ≡ words_of text.now) }
{
    let mut words = Vec::new(alloc);
    push_words(&mut words, text)?;
    Ok(words)
}

/// The words of a text, behind an empty one for its beginning.
pub fn words_before(alloc: Global, text: &[u8]) -> Result<Vec<&[u8]>, NoMemory>
    ensures { IfOk result (λ words. words_seen words.items ≡ [] ∷ words_of text.now) }
{
    let mut words = Vec::new(alloc);
    push(&mut words, &[])?;
    push_words(&mut words, text)?;
    Ok(words)
}

/// The piece that begins a text.
pub fn first_piece(text: &[u8]) -> &[u8]
    requires { 0 < length text.now }
    ensures { result.now ≡ take (piece_length text.now) text.now }
{
    let count = piece_length(text);
    &text[..count]
}

/// The words of a text whose first piece is one, whatever it is.
pub fn words_from(alloc: Global, text: &[u8]) -> Result<Vec<&[u8]>, NoMemory>
    requires { 0 < length text.now }
    ensures { IfOk result (λ words. words_seen words.items ≡ words_from text.now) }
{
    let mut words = Vec::new(alloc);
    let count = piece_length(text);
    push(&mut words, &text[..count])?;
    push_words(&mut words, behind(text, count))?;
    Ok(words)
}
