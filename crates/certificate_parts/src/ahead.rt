//! A text with the words of its first line.
ghost use Rattle.std.specs.Prelude.{◌≡◌, ◌↔◌, [], IfOk, IsTrue, OnOk, MatchBool};
ghost use Rattle.certificate_words.specs.Words.{line_onto};
ghost use Rattle.certificate_words.specs.Lines.{words_of};
ghost use Rattle.certificate_parts.specs.Fronts.{AreFront, IsBehind, IsNotFront, line_of};

use crate::words::are_words;
use certificate_words::{Lines, Word};
use std::alloc::Global;
use std::marker::Model;
use tm_lattice::NoMemory;

/// A cursor over a text, with the words of the line that comes next: contracts see the bytes that are left.
#[derive(Drop)]
pub struct Ahead<'a> {
    // What is left, from the words on.
    text: &'a [u8],
    // What is left behind them.
    lines: Lines<'a>,
    words: Vec<Word<'a>>,
    has: bool,
}

impl<'a> Model for Ahead<'a> {
    ghost use Rattle.std.specs.Prelude.{◌≡◌, ℕ, List};
    ghost use Rattle.certificate_words.specs.Lines.{words_of};
    ghost use Rattle.certificate_parts.specs.Fronts.{ahead_text, IsAhead};

    ghost Value = { List ℕ };

    ghost view = { λ a. ahead_text a.has (words_of a.words.items) a.lines };

    ghost invariant = { λ a. IsAhead a.has (words_of a.words.items) a.lines
        × (a.text.now ≡ ahead_text a.has (words_of a.words.items) a.lines) };
}

impl<'a> Ahead<'a> {
    /// The cursor at the beginning of a text.
    pub fn new(alloc: Global, text: &'a [u8]) -> Result<Ahead<'a>, NoMemory>
        ensures { IfOk result (λ ahead. ahead ≡ text.now) }
    {
        let mut lines = Lines::new(text);
        let mut words = Vec::new(alloc);
        let has = lines.next(&mut words)?;
        Ok(Ahead {
            text,
            lines,
            words,
            has,
        })
    }

    /// The bytes that are left.
    pub fn rest(&self) -> &'a [u8]
        ensures { result.now ≡ self.now }
    {
        self.text
    }

    /// Turns to another text, at its beginning. After want of memory no text is left.
    pub fn turn_to(&mut self, text: &'a [u8]) -> Result<(), NoMemory>
        ensures { OnOk result (self.new ≡ text.now) }
    {
        self.text = text;
        self.lines = Lines::new(text);
        match self.lines.next(&mut self.words) {
            Ok(has) => {
                self.has = has;
                Ok(())
            }
            Err(NoMemory) => {
                self.text = &[];
                self.lines = Lines::new(&[]);
                self.has = false;
                Err(NoMemory)
            }
        }
    }

    /// Whether nothing is left of the text.
    pub fn is_at_end(&self) -> bool
        ensures { IsTrue result ↔ (self.now ≡ []) }
    {
        if self.has {
            return false;
        }
        self.lines.rest().is_empty()
    }

    /// The words of the first line: none where the text begins with no lawful line.
    pub fn words(&self) -> &[Word<'a>]
        ensures { AreFront self.now (words_of result.now) }
    {
        if self.has { &self.words } else { &[] }
    }

    /// Steps over the first line. After want of memory no text is left.
    pub fn step(&mut self) -> Result<(), NoMemory>
        ensures { OnOk result (IsBehind self.old self.new) }
    {
        if !self.has {
            return Ok(());
        }
        let behind = self.lines.rest();
        self.turn_to(behind)?;
        Ok(())
    }

    /// Steps over the first line where it is that of a tag and these numbers; true exactly where it is.
    pub fn take(&mut self, letters: &[u8], numbers: &[i128]) -> Result<bool, NoMemory>
        ensures { IfOk result (λ taken. MatchBool taken
            (self.old ≡ line_onto (line_of letters.now numbers.now) self.new)
            ((self.new ≡ self.old) × IsNotFront (line_of letters.now numbers.now) self.old)) }
    {
        if !are_words(self.words(), letters, numbers) {
            return Ok(false);
        }
        self.step()?;
        Ok(true)
    }
}
