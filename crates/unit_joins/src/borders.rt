//! The units of a text: its first line says how many they are, and a line of its own stands before each.

ghost use Rattle.std.specs.Prelude.{◌≡◌, ◌<◌, ◌≤◌, ◌++◌, IfErr, IfOk, ◌∷◌, OnOk, length, string_bytes};
ghost use Rattle.source_marks.specs.Marks.{lines_of};
ghost use Rattle.tm_terms.specs.Limits.{most_bytes};
ghost use Rattle.unit_joins.specs.Causes.{IsCause};
ghost use Rattle.unit_joins.specs.Parts.{AreBorders, border_at, border_numbers, head_text};

use source_marks::first_line;
use std::alloc::{AllocError, Global};
use unit_plans::{Cause, JoinFail};

/// The line that stands before each unit.
const BORDER: &[u8] = b"#pragma unit";

/// The most units of a text.
const UNITS: usize = 64;

/// Notes the number of a line, if it stands before a unit.
fn note(borders: &mut Vec<u32>, line: &[u8], number: u32) -> Result<(), AllocError>
    ensures { OnOk result (borders.new.items ≡ borders.old.items ++ border_at number line.now) }
{
    if line != BORDER {
        return Ok(());
    }
    borders.push(number)?;
    Ok(())
}

/// The numbers of the lines that stand before units.
fn border_lines(alloc: Global, text: &[u8]) -> Result<Vec<u32>, AllocError>
    requires { length text.now ≤ most_bytes }
    ensures { IfOk result (λ borders. borders.items ≡ border_numbers 1 (lines_of text.now)) }
{
    let mut borders = Vec::new(alloc);
    let mut rest = text;
    let mut number: u32 = 1;
    loop {
        let (line, behind) = first_line(rest);
        note(&mut borders, line, number)?;
        match behind {
            Some(behind) => {
                rest = behind;
                number += 1;
            }
            None => return Ok(borders),
        }
    }
}

/// The first line of a text of so many units.
fn head(alloc: Global, count: usize) -> Result<String, AllocError>
    ensures { IfOk result (λ text. string_bytes text ≡ head_text count) }
{
    format!(in alloc; "#pragma units {count}\n")
}

/// The lines that stand before the units of a text, where its first line tells their number.
pub fn parted(alloc: Global, text: &[u8]) -> Result<Vec<u32>, JoinFail>
    requires { length text.now ≤ most_bytes }
    ensures ok { IfOk result (λ borders. AreBorders text.now borders.items) }
    ensures refused { IfErr result (IsCause text.now) }
{
    let Ok(borders) = border_lines(alloc, text) else {
        return Err(JoinFail::NoMemory);
    };
    let count = borders.len();
    let Ok(head) = head(alloc, count) else {
        return Err(JoinFail::NoMemory);
    };
    if count == 0 || count > UNITS || !text.starts_with(head.as_bytes()) {
        return Err(JoinFail::Refused(Cause::NotUnits));
    }
    Ok(borders)
}
