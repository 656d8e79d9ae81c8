//! The joined text: that of the units, with blanks for what is left out, and new names for old ones. What stands behind
//! a new name on its line begins a line of its own, with a mark and blanks before it, so that it keeps its place.

use source_marks::Origin;
use std::alloc::Global;
use tm_terms::limits::MOST_BYTES;
use tm_terms::{Place, Shape, Token};
use unit_plans::{Cause, JoinFail};
use unit_tokens::{Fate, Fated, new_name, unit_of};

/// What becomes of the bytes up to the next token.
#[derive(Clone, Copy, PartialEq, Eq)]
enum Mode {
    Copied,
    Blank,
    /// They are those of an old name, or stand behind it.
    Dropped,
}

/// What is written so far, and where the text of the units is read.
#[derive(Drop)]
struct Writer {
    out: Vec<u8>,
    place: Place,
    next: usize,
    mode: Mode,
    is_mark: bool,
}

/// Whether a line begins with `#`, behind blanks.
fn is_mark_line(text: &[u8]) -> bool {
    for byte in text {
        if *byte == b'#' {
            return true;
        }
        if *byte != b' ' && *byte != b'\t' {
            return false;
        }
    }
    false
}

/// Begins a line that comes from the same line as the present one, up to its present column.
fn push_mark(alloc: Global, writer: &mut Writer, origins: &[Origin<'_>]) -> Result<(), JoinFail> {
    let index = (writer.place.line as usize).saturating_sub(1);
    let Some(origin) = origins.get(index) else {
        return Err(JoinFail::Refused(Cause::Unlike));
    };
    let line = origin.line;
    let head = format!(in alloc; "\n# {line} \"")?;
    writer.out.extend_from_slice(head.as_bytes())?;
    writer.out.extend_from_slice(origin.name)?;
    writer.out.extend_from_slice(b"\"\n")?;
    for _ in 1..writer.place.col {
        writer.out.push(b' ')?;
    }
    Ok(())
}

/// Adds the new name of a token.
fn push_name(
    alloc: Global,
    writer: &mut Writer,
    plan: Plan<'_>,
    token: Token,
) -> Result<(), JoinFail> {
    if let Shape::Name(name) = token.shape {
        let unit = unit_of(plan.borders, token.place.line);
        let new = new_name(alloc, plan.text, plan.mark, unit, name)?;
        writer.out.extend_from_slice(&new)?;
    }
    Ok(())
}

/// What the writing of a text takes.
#[derive(Clone, Copy)]
pub struct Plan<'a> {
    pub text: &'a [u8],
    pub origins: &'a [Origin<'a>],
    pub borders: &'a [u32],
    pub tokens: &'a [Token],
    pub fated: &'a [Fated],
    pub mark: &'a [u8],
}

/// Begins the token that stands here, if one does.
fn begin_token(alloc: Global, writer: &mut Writer, plan: Plan<'_>) -> Result<(), JoinFail> {
    let next = writer.next;
    if next >= plan.tokens.len() || next >= plan.fated.len() {
        return Ok(());
    }
    let token = plan.tokens[next];
    if token.place != writer.place {
        return Ok(());
    }
    if writer.mode == Mode::Dropped {
        push_mark(alloc, writer, plan.origins)?;
    }
    writer.next = next + 1;
    writer.mode = match plan.fated[next].fate {
        Fate::Stays => Mode::Copied,
        Fate::LeftOut(_) => Mode::Blank,
        Fate::Renamed => {
            push_name(alloc, writer, plan, token)?;
            Mode::Dropped
        }
    };
    Ok(())
}

/// Ends a line; `rest` is what stands behind it.
fn end_line(writer: &mut Writer, rest: &[u8]) -> Result<(), JoinFail> {
    writer.out.push(b'\n')?;
    writer.place = Place {
        line: writer.place.line.saturating_add(1),
        col: 1,
    };
    if writer.mode == Mode::Dropped {
        writer.mode = Mode::Copied;
    }
    writer.is_mark = is_mark_line(rest);
    Ok(())
}

/// Writes what becomes of a byte of a line.
fn push_byte(writer: &mut Writer, byte: u8) -> Result<(), JoinFail> {
    if writer.is_mark || writer.mode == Mode::Copied {
        writer.out.push(byte)?;
    } else if writer.mode == Mode::Blank {
        writer.out.push(if byte == b'\t' { byte } else { b' ' })?;
    }
    writer.place.col = writer.place.col.saturating_add(1);
    Ok(())
}

/// The joined text.
pub fn written(alloc: Global, plan: Plan<'_>) -> Result<Vec<u8>, JoinFail> {
    let mut writer = Writer {
        out: Vec::new(alloc),
        place: Place { line: 1, col: 1 },
        next: 0,
        mode: Mode::Copied,
        is_mark: is_mark_line(plan.text),
    };
    for i in 0..plan.text.len() {
        let byte = plan.text[i];
        if writer.out.len() > MOST_BYTES as usize {
            return Err(JoinFail::Refused(Cause::Long));
        }
        if byte == b'\n' {
            end_line(&mut writer, &plan.text[i + 1..])?;
        } else {
            if !writer.is_mark {
                begin_token(alloc, &mut writer, plan)?;
            }
            push_byte(&mut writer, byte)?;
        }
    }
    let Writer {
        out,
        place: _place,
        next: _next,
        mode: _mode,
        is_mark: _is_mark,
    } = writer;
    Ok(out)
}
