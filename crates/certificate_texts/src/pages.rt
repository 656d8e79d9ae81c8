//! Texts that are written line by line, as far as a limit.
ghost use Rattle.std.specs.Prelude.{◌≡◌, ◌<◌, ◌↔◌, [], ◌∷◌, length, IsTrue, OnOk, pos};
ghost use Rattle.certificate_words.specs.Words.{number, tag};
ghost use Rattle.certificate_texts.specs.Limits.{certificate_limit};
ghost use Rattle.certificate_texts.specs.StateLines.{numbered, tagged};
ghost use Rattle.certificate_texts.specs.reading.Pages.{HasBegun, HasEnded, HasLines, HasWords};

use certificate_words::{Word, push_line};
use std::alloc::Global;
use tm_lattice::NoMemory;

/// The most bytes of a certificate: 64 MiB.
pub const CERTIFICATE_LIMIT: usize = 67_108_864;

/// A text, and the words of its next line. One buffer of words serves all lines.
#[derive(Drop)]
pub(crate) struct Page {
    pub(crate) text: Vec<u8>,
    pub(crate) words: Vec<Word<'static>>,
}

impl Page {
    /// An empty page.
    pub(crate) fn new(alloc: Global) -> Page
        ensures { result.text.items ≡ [] }
    {
        Page {
            text: Vec::new(alloc),
            words: Vec::new(alloc),
        }
    }

    /// Whether the text is too long already: no line is appended to it then.
    pub(crate) fn is_full(&self) -> bool
        ensures { IsTrue result ↔ (certificate_limit < length self.now.text.items) }
    {
        self.text.len() > CERTIFICATE_LIMIT
    }

    /// Begins a line with a tag.
    pub(crate) fn begin(&mut self, letters: &'static [u8]) -> Result<(), NoMemory>
        ensures { OnOk result (HasBegun self.old self.new letters.now) }
    {
        self.words.clear();
        self.words.push(Word::Tag(letters))?;
        Ok(())
    }

    /// Adds a tag to the line.
    pub(crate) fn push_tag(&mut self, letters: &'static [u8]) -> Result<(), NoMemory>
        ensures { OnOk result (HasWords self.old self.new (tag letters.now ∷ [])) }
    {
        self.words.push(Word::Tag(letters))?;
        Ok(())
    }

    /// Adds a number to the line.
    pub(crate) fn push_number(&mut self, value: i128) -> Result<(), NoMemory>
        ensures { OnOk result (HasWords self.old self.new (number value ∷ [])) }
    {
        self.words.push(Word::Number(value))?;
        Ok(())
    }

    /// Adds a natural number to the line.
    pub(crate) fn push_natural(&mut self, value: u64) -> Result<(), NoMemory>
        ensures { OnOk result (HasWords self.old self.new (number (pos value) ∷ [])) }
    {
        self.push_number(i128::from(value))
    }

    /// Writes the line, unless the text is too long already.
    pub(crate) fn end(&mut self) -> Result<(), NoMemory>
        ensures { OnOk result (HasEnded self.old self.new) }
    {
        if self.text.len() > CERTIFICATE_LIMIT {
            return Ok(());
        }
        push_line(&mut self.text, &self.words)
    }

    /// Writes the line of a tag alone.
    pub(crate) fn push_tagged(&mut self, letters: &'static [u8]) -> Result<(), NoMemory>
        ensures { OnOk result (HasLines self.old self.new (tagged letters.now [] ∷ [])) }
    {
        self.begin(letters)?;
        self.end()
    }

    /// Writes the line of a tag and a number.
    pub(crate) fn push_numbered(
        &mut self,
        letters: &'static [u8],
        value: u64,
    ) -> Result<(), NoMemory>
        ensures { OnOk result (HasLines self.old self.new (numbered letters.now value ∷ [])) }
    {
        self.begin(letters)?;
        self.push_natural(value)?;
        self.end()
    }
}
