//! Lines of words.
ghost use Rattle.std.specs.Prelude.{◌≡◌, ◌++◌, IfOk, OnOk, MatchBool, MatchOption};
ghost use Rattle.certificate_words.specs.Words.{word_text};
ghost use Rattle.certificate_words.specs.Lines.{HasNoLine, IsNextLine, line_text, word_of, words_of};
ghost use Rattle.certificate_words.specs.reading.Firsts.{spacing};

use crate::firsts::{First, first_word};
use crate::words::{Word, push_word};
use std::marker::Model;
use tm_lattice::NoMemory;

/// A cursor over a text, from line to line: contracts see the bytes that are left.
#[derive(Drop)]
pub struct Lines<'a> {
    rest: &'a [u8],
}

impl<'a> Model for Lines<'a> {
    ghost use Rattle.std.specs.Prelude.{ℕ, List};

    ghost Value = { List ℕ };

    ghost view = { λ l. l.rest.now };
}

/// What stands behind the first line, and its words: none exactly where there is no lawful line.
fn line_in<'a>(text: &'a [u8], words: &mut Vec<Word<'a>>) -> Result<Option<&'a [u8]>, NoMemory>
    ensures { IfOk result (λ found. MatchOption found (HasNoLine text.now)
        (λ behind. IsNextLine text.now (words_of words.new.items) behind.now)) }
{
    words.clear();
    let mut rest = text;
    'words: loop {
        match first_word(rest) {
            First::Nothing => return Ok(None),
            First::Spaced(word, behind) => {
                words.push(word)?;
                rest = behind;
            }
            First::Last(word, behind) => {
                words.push(word)?;
                return Ok(Some(behind));
            }
        }
    }
}

impl<'a> Lines<'a> {
    /// The cursor at the beginning of a text.
    pub fn new(text: &'a [u8]) -> Lines<'a>
        ensures { result ≡ text.now }
    {
        Lines { rest: text }
    }

    /// The bytes that are left.
    pub fn rest(&self) -> &'a [u8]
        ensures { result.now ≡ self.now }
    {
        self.rest
    }

    /// Reads a line. True exactly where what is left begins with a lawful line: `words` is then that line, and what is
    /// left stands behind it. Else nothing is read, and `words` holds no line. Each byte is looked at once, as far as
    /// the first that is in no line.
    pub fn next(&mut self, words: &mut Vec<Word<'a>>) -> Result<bool, NoMemory>
        ensures { IfOk result (λ found. MatchBool found
            (IsNextLine self.old (words_of words.new.items) self.new)
            (HasNoLine self.old × (self.new ≡ self.old))) }
    {
        match line_in(self.rest, words)? {
            None => Ok(false),
            Some(behind) => {
                self.rest = behind;
                Ok(true)
            }
        }
    }
}

/// Appends the text of a word, with a space in front of it where so many words stand before it, one at least.
fn push_spaced(text: &mut Vec<u8>, before: usize, word: Word) -> Result<(), NoMemory>
    ensures { OnOk result (text.new.items ≡ text.old.items ++ (spacing before ++ word_text (word_of word.entry))) }
{
    if before > 0 {
        text.push(b' ')?;
    }
    push_word(text, word)
}

/// Appends the line of words: their texts with a space between each and the next, and byte 10. Where memory is wanting
/// a part of it may stand there.
pub fn push_line(text: &mut Vec<u8>, words: &[Word]) -> Result<(), NoMemory>
    ensures { OnOk result (text.new.items ≡ text.old.items ++ line_text (words_of words.now)) }
{
    for (at, word) in words.iter().enumerate() {
        push_spaced(text, at, *word)?;
    }
    text.push(b'\n')?;
    Ok(())
}
