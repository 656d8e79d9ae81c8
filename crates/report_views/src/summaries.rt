//! How many alarms each class has.

ghost use Rattle.std.specs.Prelude.{◌≡◌, ◌++◌, map, IfOk, OnOk, string_bytes};
ghost use Rattle.report_views.specs.Summaries.{class_line, count_of, summary_text};
ghost use Rattle.report_views.specs.reading.Seen.{spot_seen};

use crate::lines::count_line;
use crate::sentences::{CLASSES, rule_word};
use crate::spots::Spot;
use std::alloc::{AllocError, Global};
use tm_cint::Class;
use tm_terms::class_word;

/// How many alarms a class has.
fn count_of(spots: &[Spot<'_>], class: Class) -> usize
    ensures { result ≡ count_of (map spot_seen spots.now) class }
{
    let word = class_word(class);
    let mut count: usize = 0;
    for spot in spots {
        if rule_word(spot.rule) == word {
            count += 1;
        }
    }
    count
}

/// How many alarms a class has, in a line.
fn class_line(alloc: Global, spots: &[Spot<'_>], class: Class) -> Result<String, AllocError>
    ensures { IfOk result (λ text. string_bytes text ≡ class_line (map spot_seen spots.now) class) }
{
    let word = class_word(class);
    let count = count_of(spots, class);
    format!(in alloc; "{word} {count}\n")
}

/// Appends how many alarms a class has, in a line.
fn push_class(
    alloc: Global,
    text: &mut Vec<u8>,
    spots: &[Spot<'_>],
    class: Class,
) -> Result<(), AllocError>
    ensures { OnOk result (text.new.items ≡ text.old.items ++ class_line (map spot_seen spots.now) class) }
{
    let line = class_line(alloc, spots, class)?;
    text.extend_from_slice(line.as_bytes())?;
    Ok(())
}

/// A line for each class, and then the number of all alarms.
pub fn summary(alloc: Global, spots: &[Spot<'_>]) -> Result<Vec<u8>, AllocError>
    ensures { IfOk result (λ text. text.items ≡ summary_text (map spot_seen spots.now)) }
{
    let mut text = Vec::new(alloc);
    for class in &CLASSES {
        push_class(alloc, &mut text, spots, *class)?;
    }
    let count = count_line(alloc, spots.len())?;
    text.extend_from_slice(count.as_bytes())?;
    Ok(text)
}
