//! Words.
ghost use Rattle.std.specs.Prelude.{◌≡◌, ◌++◌, MatchOption, OnOk};
ghost use Rattle.std.specs.Fmt.{signed_decimal};
ghost use Rattle.std.specs.List.{list_all};
ghost use Rattle.certificate_words.specs.Words.{word_text};
ghost use Rattle.certificate_words.specs.Lines.{IsNoWord, IsTextOf, word_of};
ghost use Rattle.certificate_words.specs.reading.Letters.{is_letter, is_tag};

use crate::numbers::number;
use itoa::Buffer;
use tm_lattice::NoMemory;

/// A word of a line.
#[derive(Clone, Copy)]
pub enum Word<'a> {
    /// Small letters of ASCII, one at least.
    Tag(&'a [u8]),
    /// A number of a size below 2^64.
    Number(i128),
}

/// Whether all bytes are small letters of ASCII.
fn are_letters(bytes: &[u8]) -> bool
    ensures { result ≡ list_all is_letter bytes.now }
{
    bytes.iter().all(|byte| b'a' <= *byte && *byte <= b'z')
}

/// Whether bytes are a tag.
fn is_tag(bytes: &[u8]) -> bool
    ensures { result ≡ is_tag bytes.now }
{
    !bytes.is_empty() && are_letters(bytes)
}

/// The word that bytes are: none exactly where they are none.
pub(crate) fn word_in(bytes: &[u8]) -> Option<Word<'_>>
    ensures { MatchOption result (IsNoWord bytes.now) (λ found. IsTextOf bytes.now (word_of found)) }
{
    if is_tag(bytes) {
        return Some(Word::Tag(bytes));
    }
    match number(bytes) {
        None => None,
        Some(value) => Some(Word::Number(value)),
    }
}

/// Appends a number in decimal.
fn push_number(text: &mut Vec<u8>, number: i128) -> Result<(), NoMemory>
    ensures { OnOk result (text.new.items ≡ text.old.items ++ signed_decimal number) }
{
    let mut digits = Buffer::new();
    match text.extend_from_slice(digits.format(number).as_bytes()) {
        Ok(()) => Ok(()),
        Err(_) => Err(NoMemory),
    }
}

/// Appends the text of a word.
pub(crate) fn push_word(text: &mut Vec<u8>, word: Word) -> Result<(), NoMemory>
    ensures { OnOk result (text.new.items ≡ text.old.items ++ word_text (word_of word.entry)) }
{
    match word {
        Word::Tag(letters) => match text.extend_from_slice(letters) {
            Ok(()) => Ok(()),
            Err(_) => Err(NoMemory),
        },
        Word::Number(number) => push_number(text, number),
    }
}
