//! The first word of a text.
ghost use Rattle.std.specs.Prelude.{◌<◌, ◌≤◌, length, take, slice_index};
ghost use Rattle.certificate_words.specs.Lines.{word_of};
ghost use Rattle.certificate_words.specs.reading.Letters.{AreAbove};
ghost use Rattle.certificate_words.specs.reading.Firsts.{IsEnded, IsFirst};

use crate::words::{Word, word_in};

/// The first word of a text that begins with a lawful word and what may end it.
pub(crate) enum First<'a> {
    /// A space ends it, behind which stands this.
    Spaced(Word<'a>, &'a [u8]),
    /// Byte 10 ends it, behind which stands this.
    Last(Word<'a>, &'a [u8]),
    /// There is none.
    Nothing,
}

/// How many bytes above the space stand in front.
fn word_length(bytes: &[u8]) -> usize
    ensures within { result ≤ length bytes.now }
    ensures above { AreAbove (take result bytes.now) }
    ensures ends { result < length bytes.now → slice_index bytes.now result ≤ 32 }
{
    for (at, byte) in bytes.iter().enumerate() {
        if *byte <= b' ' {
            return at;
        }
    }
    bytes.len()
}

/// The word that this byte ends, with what stands behind.
fn ended<'a>(word: Word<'a>, byte: u8, behind: &'a [u8]) -> First<'a>
    ensures { IsEnded (word_of word.entry) byte behind.now result }
{
    if byte == b' ' {
        First::Spaced(word, behind)
    } else if byte == b'\n' {
        First::Last(word, behind)
    } else {
        First::Nothing
    }
}

/// The first word.
pub(crate) fn first_word(bytes: &[u8]) -> First<'_>
    ensures { IsFirst bytes.now result }
{
    let length = word_length(bytes);
    if length >= bytes.len() {
        return First::Nothing;
    }
    let behind = &bytes[length + 1..];
    match word_in(&bytes[..length]) {
        None => First::Nothing,
        Some(word) => ended(word, bytes[length], behind),
    }
}
