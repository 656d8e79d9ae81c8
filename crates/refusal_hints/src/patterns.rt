//! Patterns of words.

ghost use Rattle.std.specs.Prelude.{◌≡◌, ◌≤◌, not};
ghost use Rattle.std.specs.List.{list_all};
ghost use Rattle.refusal_hints.specs.Patterns.{count_of, fits, fits_last, has_exponent, has_form, is_before_operand};
ghost use Rattle.refusal_hints.specs.Patterns.{is_character, is_e, is_in, is_inner_sign, is_like, is_line_comment};
ghost use Rattle.refusal_hints.specs.Patterns.{is_name, is_number, is_prefixed, is_sign};
ghost use Rattle.refusal_hints.specs.reading.Seen.{words_seen};

use crate::classes::{is_keyword, is_listed};
use tm_terms::{byte_at, is_name_byte};

/// Whether a word is a name, and no keyword.
fn is_name(word: &[u8]) -> bool
    ensures { result ≡ is_name word.now }
{
    let first = byte_at(word, 0);
    (first.is_ascii_alphabetic() || first == b'_') && !is_keyword(word)
}

/// Whether a word is a number.
fn is_number(word: &[u8]) -> bool
    ensures { result ≡ is_number word.now }
{
    byte_at(word, 0).is_ascii_digit()
}

/// Whether a byte is `e` or `E`.
fn is_e(byte: u8) -> bool
    ensures { result ≡ is_e byte }
{
    byte == b'e' || byte == b'E'
}

/// Whether a number begins with `0` and this letter, small or great.
fn is_prefixed(small: u8, word: &[u8]) -> bool
    requires { 32 ≤ small }
    ensures { result ≡ is_prefixed small word.now }
{
    byte_at(word, 0) == b'0' && (byte_at(word, 1) == small || byte_at(word, 1) == small - 32)
}

/// Whether no byte is `e` or `E`.
fn has_no_e(word: &[u8]) -> bool
    ensures { result ≡ list_all (λ b. not (is_e b)) word.now }
{
    word.iter().all(|byte| !is_e(*byte))
}

/// Whether a word is a decimal number with an exponent.
fn has_exponent(word: &[u8]) -> bool
    ensures { result ≡ has_exponent word.now }
{
    is_number(word) && !is_prefixed(b'x', word) && !has_no_e(word)
}

/// Whether a word is one byte of no name.
fn is_sign(word: &[u8]) -> bool
    ensures { result ≡ is_sign word.now }
{
    word.len() == 1 && !is_name_byte(byte_at(word, 0))
}

/// Whether an operand may stand behind a word.
fn is_before_operand(word: &[u8]) -> bool
    ensures { result ≡ is_before_operand word.now }
{
    let first = byte_at(word, 0);
    (is_sign(word) && !(first == b')' || first == b']')) || word == b"return".as_slice()
}

/// Whether a word goes on in an expression in brackets.
fn is_inner_sign(word: &[u8]) -> bool
    ensures { result ≡ is_inner_sign word.now }
{
    is_sign(word) && byte_at(word, 0) != b']'
}

/// Whether a word is a character constant, with both quotes.
fn is_character(word: &[u8]) -> bool
    ensures { result ≡ is_character word.now }
{
    byte_at(word, 0) == b'\'' && 2 < word.len() && byte_at(word, word.len() - 1) == b'\''
}

/// Whether a word is a comment to the end of its line.
fn is_line_comment(word: &[u8]) -> bool
    ensures { result ≡ is_line_comment word.now }
{
    byte_at(word, 0) == b'/' && byte_at(word, 1) == b'/'
}

/// How many times a word stands among others.
fn count_of(word: &[u8], words: &[&[u8]]) -> usize
    ensures { result ≡ count_of word.now (words_seen words.now) }
{
    let mut count: usize = 0;
    for other in words {
        if *other == word {
            count += 1;
        }
    }
    count
}

/// Whether a word is in a class by its form, where it stands among these.
fn has_form(context: &[&[u8]], class: &[u8], word: &[u8]) -> bool
    ensures { result ≡ has_form (words_seen context.now) class.now word.now }
{
    if class == b"@name".as_slice() {
        is_name(word)
    } else if class == b"@once".as_slice() {
        is_name(word) && count_of(word, context) == 1
    } else if class == b"@number".as_slice() {
        is_number(word)
    } else if class == b"@constant".as_slice() {
        is_number(word) || is_name(word)
    } else if class == b"@exponent".as_slice() {
        has_exponent(word)
    } else if class == b"@binary".as_slice() {
        is_prefixed(b'b', word)
    } else if class == b"@string".as_slice() {
        byte_at(word, 0) == b'"'
    } else if class == b"@character".as_slice() {
        is_character(word)
    } else if class == b"@comment".as_slice() {
        is_line_comment(word)
    } else if class == b"@directive".as_slice() {
        byte_at(word, 0) == b'#'
    } else if class == b"@backslash".as_slice() {
        byte_at(word, 0) == b'\\'
    } else if class == b"@operand".as_slice() {
        is_before_operand(word)
    } else if class == b"@sign".as_slice() {
        is_inner_sign(word)
    } else if class == b"@none".as_slice() {
        word.is_empty()
    } else {
        false
    }
}

/// Whether a word is in a class.
fn is_in(context: &[&[u8]], class: &[u8], word: &[u8]) -> bool
    ensures { result ≡ is_in (words_seen context.now) class.now word.now }
{
    match is_listed(class, word) {
        Some(listed) => listed,
        None => has_form(context, class, word),
    }
}

/// Whether a word of a pattern stands for this word.
fn is_like(context: &[&[u8]], item: &[u8], word: &[u8]) -> bool
    ensures { result ≡ is_like (words_seen context.now) item.now word.now }
{
    if byte_at(item, 0) == b'@' {
        is_in(context, item, word)
    } else {
        item == word
    }
}

/// Whether the first words are like those of a pattern.
pub fn fits(context: &[&[u8]], pattern: &[&[u8]], words: &[&[u8]]) -> bool
    ensures { result ≡ fits (words_seen context.now) (words_seen pattern.now) (words_seen words.now) }
{
    for (i, item) in pattern.iter().enumerate() {
        if words.len() <= i {
            return false;
        }
        if !is_like(context, item, words[i]) {
            return false;
        }
    }
    true
}

/// Whether the last words are like those of a pattern.
pub fn fits_last(context: &[&[u8]], pattern: &[&[u8]], words: &[&[u8]]) -> bool
    ensures { result ≡ fits_last (words_seen context.now) (words_seen pattern.now) (words_seen words.now) }
{
    if words.len() < pattern.len() {
        return false;
    }
    fits(context, pattern, &words[words.len() - pattern.len()..])
}
