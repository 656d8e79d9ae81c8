//! What a line mark says.

ghost use Rattle.std.specs.Prelude.{◌≡◌, ◌<◌, ◌≤◌, ◌+◌, ℕ, None, Some, length, slice_index, take, drop, IfSome};
ghost use Rattle.std.specs.Prelude.{option_map};
ghost use Rattle.std.specs.Prelude.{false};
ghost use Rattle.std.specs.List.{prefix_len};
ghost use Rattle.std.specs.Char.{is_ascii_digit};
ghost use Rattle.source_marks.specs.Marks.{begins_mark, behind_hash, greatest_line, is_line_word, mark_of, mark_text};
ghost use Rattle.source_marks.specs.Marks.{name_end, name_of, number_of, quoted};
ghost use Rattle.source_marks.specs.reading.Seen.{mark_seen, name_seen};

use crate::lines::{behind_blanks, blanks, digits};
use tm_terms::byte_at;

/// The greatest number of a line.
const GREATEST_LINE: u64 = 2_147_483_647;

/// What a mark says of the line behind it: its number, and its file where it names one.
#[derive(Clone, Copy)]
pub struct Mark<'a> {
    pub number: u64,
    pub name: Option<&'a [u8]>,
}

/// Whether a text begins with `line`.
fn is_line_word(text: &[u8]) -> bool
    ensures { result ≡ is_line_word text.now }
{
    text.starts_with(b"line")
}

/// What stands behind `#` and blanks, in a line that begins with them.
fn behind_hash(line: &[u8]) -> Option<&[u8]>
    ensures { option_map (λ text. text.now) result ≡ behind_hash line.now }
{
    let text = behind_blanks(line);
    if byte_at(text, 0) == b'#' {
        Some(behind_blanks(&text[1..]))
    } else {
        None
    }
}

/// Whether what stands behind `#` makes the line a mark.
fn begins_mark(text: &[u8]) -> bool
    ensures { result ≡ begins_mark text.now }
{
    byte_at(text, 0).is_ascii_digit() || is_line_word(text)
}

/// What a mark has from its number on, if the line is one.
pub fn mark_text(line: &[u8]) -> Option<&[u8]>
    ensures { option_map (λ text. text.now) result ≡ mark_text line.now }
{
    let text = behind_hash(line)?;
    if !begins_mark(text) {
        return None;
    }
    if is_line_word(text) {
        Some(behind_blanks(&text[4..]))
    } else {
        Some(text)
    }
}

/// The value of digits, unless it is too great.
fn value_of(digits: &[u8]) -> Option<u64>
    ensures { result ≡ number_of digits.now }
{
    let mut value: u64 = 0;
    for digit in digits {
        value = value * 10 + u64::from(digit.saturating_sub(b'0'));
        if value > GREATEST_LINE {
            return None;
        }
    }
    if digits.is_empty() { None } else { Some(value) }
}

/// Where the first quote stands that no `\` stands before.
fn name_end(text: &[u8]) -> Option<usize>
    ensures value { result ≡ name_end 0 false text.now }
    ensures within { IfSome result (λ end. end ≤ length text.now) }
{
    let mut escaped = false;
    for (i, byte) in text.iter().enumerate() {
        if escaped {
            escaped = false;
        } else if *byte == b'"' {
            return Some(i);
        } else {
            escaped = *byte == b'\\';
        }
    }
    None
}

/// A name in quotes, behind the first one.
fn quoted(text: &[u8]) -> Option<&[u8]>
    ensures { option_map (λ name. name.now) result ≡ quoted text.now }
{
    let end = name_end(text)?;
    Some(&text[..end])
}

/// What stands behind the number: nothing, or a name; the outer `None` where it is neither.
fn name_of(rest: &[u8]) -> Option<Option<&[u8]>>
    ensures { option_map name_seen result ≡ name_of rest.now }
{
    let count = blanks(rest);
    let text = &rest[count..];
    if text.is_empty() {
        Some(None)
    } else if count == 0 || text[0] != b'"' {
        None
    } else {
        let name = quoted(&text[1..])?;
        Some(Some(name))
    }
}

/// What a mark says, by what it has from its number on.
pub fn mark_of(text: &[u8]) -> Option<Mark<'_>>
    ensures value { option_map mark_seen result ≡ mark_of text.now }
    ensures number { IfSome result (λ mark. mark.number ≤ greatest_line) }
{
    let count = digits(text);
    let number = value_of(&text[..count])?;
    let name = name_of(&text[count..])?;
    Some(Mark { number, name })
}
