//! The lines of a text.

ghost use Rattle.std.specs.Prelude.{◌≡◌, ◌≤◌, length, min, IfOk};
ghost use Rattle.place_details.specs.TextLines.{line_from, line_of, longest_line, offset_of, place_from, start_of};
ghost use Rattle.place_details.specs.TextLines.{starts_of};

use std::alloc::{AllocError, Global};
use tm_terms::{Place, behind, front, line_length};

/// How many bytes of a line count.
const LONGEST_LINE: usize = 16_384;

/// Where the lines of a text begin.
pub fn line_starts(alloc: Global, text: &[u8]) -> Result<Vec<usize>, AllocError>
    ensures { IfOk result (λ starts. starts.items ≡ starts_of text.now) }
{
    let mut starts = Vec::new(alloc);
    starts.push(0)?;
    for (i, byte) in text.iter().enumerate() {
        if *byte == b'\n' {
            starts.push(i + 1)?;
        }
    }
    Ok(starts)
}

/// Where the line with a number begins, by where the lines of a text do.
fn start_of(text: &[u8], starts: &[usize], number: u32) -> Option<usize>
    requires { starts.now ≡ starts_of text.now }
    ensures { result ≡ start_of text.now number }
{
    let number = number as usize;
    if number == 0 {
        return None;
    }
    starts.get(number - 1).copied()
}

/// What counts of the line that begins here.
fn line_from(text: &[u8], start: Option<usize>) -> &[u8]
    ensures { result.now ≡ line_from text.now start }
{
    match start {
        None => &[],
        Some(start) => {
            let line = front(behind(text, start), LONGEST_LINE);
            let count = line_length(line);
            &line[..count]
        }
    }
}

/// What counts of the line with a number.
pub fn line_of<'a>(text: &'a [u8], starts: &[usize], number: u32) -> &'a [u8]
    requires { starts.now ≡ starts_of text.now }
    ensures { result.now ≡ line_of text.now number }
{
    line_from(text, start_of(text, starts, number))
}

/// How many bytes of a text stand before a column, where its line begins here.
fn place_from(text: &[u8], start: Option<usize>, col: u32) -> usize
    ensures value { result ≡ min (place_from start col) (length text.now) }
    ensures within { result ≤ length text.now }
{
    let Some(start) = start else {
        return 0;
    };
    let before = (col as usize).saturating_sub(1);
    if text.len() < start || text.len() - start < before {
        text.len()
    } else {
        start + before
    }
}

/// How many bytes of a text stand before a place.
pub fn offset_of(text: &[u8], starts: &[usize], place: Place) -> usize
    requires { starts.now ≡ starts_of text.now }
    ensures value { result ≡ offset_of text.now place }
    ensures within { result ≤ length text.now }
{
    place_from(text, start_of(text, starts, place.line), place.col)
}
