//! Runs of bytes, and the lines of a text.

ghost use Rattle.std.specs.Prelude.{◌≡◌, ◌<◌, ◌≤◌, ◌∷◌, length, drop, IfSome};
ghost use Rattle.std.specs.List.{prefix_len};
ghost use Rattle.std.specs.Char.{is_ascii_digit};
ghost use Rattle.tm_terms.specs.Splices.{is_blank_in_line};
ghost use Rattle.source_marks.specs.Marks.{lines_of};
ghost use Rattle.source_marks.specs.reading.Seen.{lines_behind};

use tm_terms::{behind, line_length};

/// Whether a byte is a blank of a line.
pub fn is_blank(byte: u8) -> bool
    ensures { result ≡ is_blank_in_line byte }
{
    byte == b' ' || (b'\t' <= byte && byte <= b'\r' && byte != b'\n')
}

/// How many blanks a line begins with.
pub fn blanks(line: &[u8]) -> usize
    ensures value { result ≡ prefix_len is_blank_in_line line.now }
    ensures within { result ≤ length line.now }
{
    for (i, byte) in line.iter().enumerate() {
        if !is_blank(*byte) {
            return i;
        }
    }
    line.len()
}

/// How many decimal digits a text begins with.
pub fn digits(text: &[u8]) -> usize
    ensures value { result ≡ prefix_len is_ascii_digit text.now }
    ensures within { result ≤ length text.now }
{
    for (i, byte) in text.iter().enumerate() {
        if !byte.is_ascii_digit() {
            return i;
        }
    }
    text.len()
}

/// The first line of a text, and what stands behind the byte 10 that ends it, if one does.
pub fn first_line(text: &[u8]) -> (&[u8], Option<&[u8]>)
    ensures lines { lines_of text.now ≡ result.0.now ∷ lines_behind result.1 }
    ensures smaller { IfSome result.1 (λ rest. length rest.now < length text.now) }
{
    let count = line_length(text);
    let line = &text[..count];
    if count == text.len() {
        (line, None)
    } else {
        (line, Some(behind(text, count + 1)))
    }
}

/// What follows the blanks that a line begins with.
pub fn behind_blanks(line: &[u8]) -> &[u8]
    ensures { result.now ≡ drop (prefix_len is_blank_in_line line.now) line.now }
{
    let count = blanks(line);
    &line[count..]
}
