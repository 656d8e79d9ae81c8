//! Why a report has no view, and findings have no log.

ghost use Rattle.std.specs.Prelude.{◌≡◌, ◌++◌, decimal, IfOk, string_bytes};
ghost use Rattle.tm_terms.specs.Texts.{line_of};
ghost use Rattle.report_views.specs.Causes.{broken_text, cause_text, long_text, outside_text, strange_text};
ghost use Rattle.report_views.specs.Causes.{strange_way_text};

use report_reading::{Listing, place_words};
use std::alloc::{AllocError, Global};
use tm_lattice::NoMemory;
use tm_terms::Place;

/// Why a report has no view, and findings have no log.
#[derive(Clone, Copy)]
pub enum Cause {
    /// The report has more than 67,108,864 bytes.
    LongReport,
    /// The report is no JSON.
    NotJson,
    /// The report is JSON, and not the value of a report.
    NotReport,
    /// The text has more than 1,048,576 bytes.
    LongText,
    /// The line of the text with this number, counted from 1, is a line mark that cannot be read.
    BrokenMark(usize),
    /// What is found at this place of the text stands in no line of a file.
    Outside(Place),
    /// The text that lists places has more than 67,108,864 bytes.
    LongListing(Listing),
    /// The text that is to list places does not.
    NotListing(Listing),
    /// The text that lists assumptions has more than 67,108,864 bytes.
    LongAssumptions,
    /// The text that is to list assumptions does not.
    NotAssumptions,
    /// The text that tells ways has more than 67,108,864 bytes.
    LongWays,
    /// The text that is to tell ways does not.
    NotWays,
    /// What is told of an alarm at this place of the text is of no finding, or of one that has had its turn.
    StrangeWay(Place),
}

/// A text, and what stands behind it.
pub fn joined(alloc: Global, text: &str, behind: &str) -> Result<String, AllocError>
    ensures { IfOk result (λ both. string_bytes both ≡ text.now ++ behind.now) }
{
    let mut both = String::from_str(alloc, text)?;
    both.push_str(behind)?;
    Ok(both)
}

/// A number in a line.
fn number_line(alloc: Global, number: usize) -> Result<String, AllocError>
    ensures { IfOk result (λ text. string_bytes text ≡ line_of (decimal number)) }
{
    format!(in alloc; "{number}\n")
}

/// The line that tells of a broken mark.
fn broken_line(alloc: Global, number: usize) -> Result<String, AllocError>
    ensures { IfOk result (λ text. string_bytes text ≡ broken_text number) }
{
    let line = number_line(alloc, number)?;
    let text = "refused: a line mark that cannot be read is line ";
    joined(alloc, text, line.as_str())
}

/// The line that tells of a place outside the files.
fn outside_line(alloc: Global, place: Place) -> Result<String, AllocError>
    ensures { IfOk result (λ text. string_bytes text ≡ outside_text place) }
{
    let words = place_words(alloc, place)?;
    let text = "refused: in no line of a file stands the place ";
    let told = joined(alloc, text, words.as_str())?;
    joined(alloc, told.as_str(), "\n")
}

/// The line that tells of what is told of no alarm.
fn strange_way_line(alloc: Global, place: Place) -> Result<String, AllocError>
    ensures { IfOk result (λ text. string_bytes text ≡ strange_way_text place) }
{
    let words = place_words(alloc, place)?;
    let text = "refused: of no alarm in its turn is what is told at the place ";
    let told = joined(alloc, text, words.as_str())?;
    joined(alloc, told.as_str(), "\n")
}

/// The line that tells of a text that is too long to list places.
fn long_line(listing: Listing) -> &'static str
    ensures { result.now ≡ long_text listing }
{
    match listing {
        Listing::Waits => "refused: the text of the waits is too long\n",
        Listing::Dead => "refused: the text of the dead places is too long\n",
    }
}

/// The line that tells of a text that lists no places.
fn strange_line(listing: Listing) -> &'static str
    ensures { result.now ≡ strange_text listing }
{
    match listing {
        Listing::Waits => "refused: the text of the waits lists no places\n",
        Listing::Dead => "refused: the text of the dead places lists no places\n",
    }
}

/// A cause in words.
fn said(alloc: Global, cause: Cause) -> Result<String, AllocError>
    ensures { IfOk result (λ text. string_bytes text ≡ cause_text cause) }
{
    match cause {
        Cause::LongReport => String::from_str(alloc, "refused: the report is too long\n"),
        Cause::NotJson => String::from_str(alloc, "refused: the report is no JSON\n"),
        Cause::NotReport => String::from_str(
            alloc,
            "refused: the report is JSON, but no report of alarms\n",
        ),
        Cause::LongText => String::from_str(alloc, "refused: the text is too long\n"),
        Cause::BrokenMark(number) => broken_line(alloc, number),
        Cause::Outside(place) => outside_line(alloc, place),
        Cause::LongListing(listing) => String::from_str(alloc, long_line(listing)),
        Cause::NotListing(listing) => String::from_str(alloc, strange_line(listing)),
        Cause::LongAssumptions => String::from_str(
            alloc,
            "refused: the text of the assumptions is too long\n",
        ),
        Cause::NotAssumptions => String::from_str(
            alloc,
            "refused: the text of the assumptions lists no assumptions\n",
        ),
        Cause::LongWays => String::from_str(alloc, "refused: the text of the ways is too long\n"),
        Cause::NotWays => String::from_str(alloc, "refused: the text of the ways tells no ways\n"),
        Cause::StrangeWay(place) => strange_way_line(alloc, place),
    }
}

/// The line that tells a cause.
pub fn cause_line(alloc: Global, cause: Cause) -> Result<String, NoMemory>
    ensures { IfOk result (λ text. string_bytes text ≡ cause_text cause) }
{
    match said(alloc, cause) {
        Ok(text) => Ok(text),
        Err(_) => Err(NoMemory),
    }
}
