//! Findings as compilers print them.

ghost use Rattle.std.specs.Prelude.{◌≡◌, ◌++◌, map, IfOk, OnOk, string_bytes};
ghost use Rattle.source_marks.specs.Names.{decoded};
ghost use Rattle.tm_terms.specs.Texts.{count_line};
ghost use Rattle.report_views.specs.Lines.{lines_text, place_in, rule_line, shown, shown_byte, spot_line};
ghost use Rattle.report_views.specs.reading.Seen.{spot_seen};

use crate::sentences::{Rule, level, rule_sentence, rule_word};
use crate::spots::Spot;
use source_marks::name_bytes;
use std::alloc::{AllocError, Global};
use tm_lattice::NoMemory;

/// Appends a byte of a name as it is shown.
fn push_byte(text: &mut Vec<u8>, byte: u8) -> Result<(), AllocError>
    ensures { OnOk result (text.new.items ≡ text.old.items ++ shown_byte byte) }
{
    if byte < 32 || byte == 127 {
        text.extend_from_slice(&[
            b'\\',
            b'0' + byte / 64,
            b'0' + byte / 8 % 8,
            b'0' + byte % 8,
        ])?;
    } else {
        text.push(byte)?;
    }
    Ok(())
}

/// Appends the name of a file as it is shown.
fn push_name(text: &mut Vec<u8>, name: &[u8]) -> Result<(), AllocError>
    ensures { OnOk result (text.new.items ≡ text.old.items ++ shown name.now) }
{
    for byte in name {
        push_byte(text, *byte)?;
    }
    Ok(())
}

/// The place of a finding in its file.
fn place_in(alloc: Global, spot: Spot<'_>) -> Result<String, AllocError>
    ensures { IfOk result (λ text. string_bytes text ≡ place_in (spot_seen spot.entry)) }
{
    let line = spot.origin.line;
    let col = spot.col;
    format!(in alloc; ":{line}:{col}: ")
}

/// The level of a rule, what it says, and its word.
fn rule_line(alloc: Global, rule: Rule) -> Result<String, AllocError>
    ensures { IfOk result (λ text. string_bytes text ≡ rule_line rule) }
{
    let level = level(rule);
    let said = rule_sentence(rule);
    let word = rule_word(rule);
    format!(in alloc; "{level}: {said} [{word}]\n")
}

/// A name that a line mark spells so.
pub fn name_in(alloc: Global, spelled: &[u8]) -> Result<Vec<u8>, AllocError>
    ensures { IfOk result (λ name. name.items ≡ decoded spelled.now) }
{
    match name_bytes(alloc, spelled) {
        Ok(name) => Ok(name),
        Err(NoMemory) => Err(AllocError),
    }
}

/// Appends the line of a finding.
fn push_spot(alloc: Global, text: &mut Vec<u8>, spot: Spot<'_>) -> Result<(), AllocError>
    ensures { OnOk result (text.new.items ≡ text.old.items ++ spot_line (spot_seen spot.entry)) }
{
    let name = name_in(alloc, spot.origin.name)?;
    push_name(text, &name)?;
    let place = place_in(alloc, spot)?;
    text.extend_from_slice(place.as_bytes())?;
    let rule = rule_line(alloc, spot.rule)?;
    text.extend_from_slice(rule.as_bytes())?;
    Ok(())
}

/// The line that ends a report: how many alarms it has.
pub fn count_line(alloc: Global, count: usize) -> Result<String, AllocError>
    ensures { IfOk result (λ text. string_bytes text ≡ count_line count) }
{
    format!(in alloc; "alarms {count}\n")
}

/// A line for each alarm, and then their number.
pub fn spot_lines(alloc: Global, spots: &[Spot<'_>]) -> Result<Vec<u8>, AllocError>
    ensures { IfOk result (λ text. text.items ≡ lines_text (map spot_seen spots.now)) }
{
    let mut text = Vec::new(alloc);
    for spot in spots {
        push_spot(alloc, &mut text, *spot)?;
    }
    let count = count_line(alloc, spots.len())?;
    text.extend_from_slice(count.as_bytes())?;
    Ok(text)
}
