//! Which line of which file each line of a text comes from.

ghost use Rattle.std.specs.Prelude.{◌≡◌, ◌<◌, ◌≤◌, ◌+◌, ◌^◌, ◌⊎◌, ℕ, Some, None, map, option_map, IfOk, IfSome};
ghost use Rattle.std.specs.Prelude.{IsErrOf};
ghost use Rattle.source_marks.specs.Marks.{named, after, greatest_line, IsBrokenAt, lines_of, origins_of};
ghost use Rattle.source_marks.specs.reading.Seen.{mark_seen, origin_seen};

use crate::lines::first_line;
use crate::marks::{Mark, mark_of, mark_text};
use std::alloc::Global;

/// Where a line of a text comes from: a file, by its name as a mark spells it between the quotes, and a line of it.
#[derive(Clone, Copy)]
pub struct Origin<'a> {
    pub name: &'a [u8],
    pub line: u64,
}

/// Why the lines of a text have no origins.
#[derive(Clone, Copy)]
pub enum MarkFail {
    /// The line with this number, counted from 1, is a mark that cannot be read.
    Broken(usize),
    /// Memory ran out.
    NoMemory,
}

/// What a mark says of the line behind it, where the mark itself has this origin.
fn behind_mark<'a>(origin: Origin<'a>, mark: Mark<'a>) -> Origin<'a>
    ensures { origin_seen result ≡ named origin.entry.name.now (mark_seen mark.entry).name mark.entry.number }
{
    let name = match mark.name {
        Some(name) => name,
        None => origin.name,
    };
    Origin {
        name,
        line: mark.number,
    }
}

/// The origin of the line behind a line; none where the line is a mark that cannot be read.
fn after<'a>(origin: Origin<'a>, line: &'a [u8]) -> Option<Origin<'a>>
    requires { origin.line + 1 < 2 ^ 64 }
    ensures value { option_map origin_seen result ≡ after (origin_seen origin.entry) line.now }
    ensures bound { IfSome result (λ next. (next.line ≡ origin.entry.line + 1) ⊎ (next.line ≤ greatest_line)) }
{
    match mark_text(line) {
        None => Some(Origin {
            name: origin.name,
            line: origin.line + 1,
        }),
        Some(text) => {
            let mark = mark_of(text)?;
            Some(behind_mark(origin, mark))
        }
    }
}

/// The origin of each line of a text, where the first line is the first of the file of this name.
pub fn line_origins<'a>(
    alloc: Global,
    name: &'a [u8],
    text: &'a [u8],
) -> Result<Vec<Origin<'a>>, MarkFail>
    ensures ok { IfOk result (λ origins. origins_of name.now text.now ≡ Some (map origin_seen origins.items)) }
    ensures broken { (n : ℕ) → IsErrOf result (MarkFail.Broken n) →
        (origins_of name.now text.now ≡ None) × IsBrokenAt (lines_of text.now) n }
{
    let mut origins = Vec::new(alloc);
    let mut origin = Origin { name, line: 1 };
    let mut rest = text;
    loop {
        let (line, behind) = first_line(rest);
        match origins.push(origin) {
            Ok(()) => {}
            Err(_) => return Err(MarkFail::NoMemory),
        }
        let next = match after(origin, line) {
            Some(next) => next,
            None => return Err(MarkFail::Broken(origins.len())),
        };
        match behind {
            Some(behind) => {
                origin = next;
                rest = behind;
            }
            None => return Ok(origins),
        }
    }
}
