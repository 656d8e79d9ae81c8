ghost use Rattle.std.specs.Prelude.{◌≡◌, ◌<◌, ◌≤◌, true, length, slice_index};
ghost use Rattle.std.specs.List.{prefix_len};
ghost use Rattle.tm_terms.specs.Lexis.{digit_value, is_digit_in, is_name_start};
ghost use Rattle.c_lexer.specs.reading.Runs.{belongs};

use tm_terms::{is_blank, is_name_byte};

/// A kind of run of bytes.
#[derive(Clone, Copy)]
pub enum Run {
    /// Letters, digits and `_`.
    Name,
    /// Letters, digits, `_` and `.`.
    Number,
    /// The rest of a line.
    Line,
    /// Blanks of one line.
    Blanks,
    /// Blanks that end a line for no compiler.
    InnerBlanks,
    /// Digits in this base, 8, 10 or 16.
    Digits(u8),
}

pub fn is_name_start(byte: u8) -> bool
    ensures { result ≡ is_name_start byte }
{
    byte.is_ascii_alphabetic() || byte == b'_'
}

/// The value of a digit, of `a` to `f` and `A` to `F` too.
pub fn digit_value(byte: u8) -> u8
    ensures { result ≡ digit_value byte }
{
    if byte.is_ascii_digit() {
        byte - b'0'
    } else if byte >= b'a' {
        byte - 87
    } else {
        byte.saturating_sub(55)
    }
}

pub fn is_digit_in(base: u8, byte: u8) -> bool
    ensures { result ≡ is_digit_in base byte }
{
    byte.is_ascii_hexdigit() && digit_value(byte) < base
}

fn belongs(run: Run, byte: u8) -> bool
    ensures { result ≡ belongs run byte }
{
    match run {
        Run::Name => is_name_byte(byte),
        Run::Number => is_name_byte(byte) || byte == b'.',
        Run::Line => byte != b'\n',
        Run::Blanks => is_blank(byte) && byte != b'\n',
        Run::InnerBlanks => is_blank(byte) && byte != b'\n' && byte != b'\r',
        Run::Digits(base) => is_digit_in(base, byte),
    }
}

/// How many bytes at the front belong to a run.
pub fn run_length(text: &[u8], run: Run) -> usize
    ensures value { result ≡ prefix_len (belongs run) text.now }
    ensures within { result ≤ length text.now }
    ensures some { 0 < length text.now → belongs run (slice_index text.now 0) ≡ true → 0 < result }
{
    for (i, byte) in text.iter().enumerate() {
        if !belongs(run, *byte) {
            return i;
        }
    }
    text.len()
}
