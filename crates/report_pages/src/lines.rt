//! The lines of a text.

ghost use Rattle.std.specs.Prelude.{◌≡◌, ◌<◌, ◌≤◌, ◌∷◌, drop, map, IfOk};
ghost use Rattle.source_marks.specs.Marks.{lines_of};
ghost use Rattle.report_pages.specs.Rows.{first_of};
ghost use Rattle.report_pages.specs.reading.Seen.{bytes_seen};

use source_marks::first_line;
use std::alloc::{AllocError, Global};

/// The lines of a text.
pub fn lines_of(alloc: Global, text: &[u8]) -> Result<Vec<&[u8]>, AllocError>
    ensures { IfOk result (λ lines. map bytes_seen lines.items ≡ lines_of text.now) }
{
    let mut lines = Vec::new(alloc);
    let mut rest = text;
    loop {
        let (line, behind) = first_line(rest);
        lines.push(line)?;
        match behind {
            Some(behind) => rest = behind,
            None => return Ok(lines),
        }
    }
}

/// The line at an index, or an empty one past the last.
pub fn line_at<'a>(lines: &[&'a [u8]], index: usize) -> &'a [u8]
    ensures { result.now ≡ first_of (drop index (map bytes_seen lines.now)) }
{
    if index < lines.len() {
        lines[index]
    } else {
        &[]
    }
}
