//! The log of a refusal.

ghost use Rattle.std.specs.Prelude.{◌≡◌, ◌∷◌, map, option_map, IfOk, OnOk, string_bytes};
ghost use Rattle.serde_json.specs.Data.{array};
ghost use Rattle.serde_json.specs.View.{items_of};
ghost use Rattle.source_marks.specs.reading.Seen.{origin_seen};
ghost use Rattle.report_logs.specs.Refusals.{file_line, notification_data, origin_file, origin_of, refused_data};
ghost use Rattle.report_logs.specs.Refusals.{refused_files, refused_invocation, refused_line, refused_place};
ghost use Rattle.report_logs.specs.Refusals.{refused_places, refusal_text};
ghost use Rattle.report_logs.specs.Sarif.{log_data};
ghost use Rattle.report_logs.specs.Uris.{uri_text};
ghost use Rattle.report_logs.specs.reading.Seen.{refusal_seen};
ghost use Rattle.report_logs.specs.reading.Written.{AppendsValue};

use crate::logs::{Frame, details_in};
use crate::places::write_location;
use crate::sarif::{write_back, write_front, write_invocation_front, written_line};
use crate::uris::uri;
use crate::writing::{write_string, write_text};
use json::Writer;
use place_details::Sight;
use report_views::name_in;
use source_marks::{MarkFail, Origin, line_origins};
use std::alloc::{AllocError, Global};
use tm_lattice::NoMemory;
use tm_terms::Place;

/// Why a source has no report: where it is refused, the word of the kind of the refusal, and what this means.
#[derive(Clone, Copy)]
pub struct Refusal<'a> {
    pub place: Place,
    pub word: &'a str,
    pub said: &'a str,
}

/// The status with which the analysis of a source that is refused ends.
const REFUSED: usize = 2;

/// Where the line with this number comes from, by these origins.
fn file_line<'a>(origins: &[Origin<'a>], number: u32) -> Option<Origin<'a>>
    ensures { option_map origin_seen result ≡ file_line (map origin_seen origins.now) number }
{
    let line = number as usize;
    if line == 0 || line > origins.len() {
        return None;
    }
    let origin = origins[line - 1];
    if origin.line == 0 {
        return None;
    }
    Some(origin)
}

/// Where a place of a text comes from, if its marks tell.
fn origin_of<'a>(
    alloc: Global,
    name: &'a [u8],
    text: &'a [u8],
    place: Place,
) -> Result<Option<Origin<'a>>, AllocError>
    ensures { IfOk result (λ found. option_map origin_seen found ≡ origin_of name.now text.now place) }
{
    match line_origins(alloc, name, text) {
        Ok(origins) => Ok(file_line(&origins, place.line)),
        Err(MarkFail::Broken(_)) => Ok(None),
        Err(MarkFail::NoMemory) => Err(AllocError),
    }
}

/// The file of an origin.
fn origin_file(alloc: Global, origin: Origin<'_>) -> Result<String, AllocError>
    ensures { IfOk result (λ file. string_bytes file ≡ origin_file (origin_seen origin.entry)) }
{
    let name = name_in(alloc, origin.name)?;
    uri(alloc, &name)
}

/// Writes where a refusal stands, in its file.
fn write_refused_place(
    alloc: Global,
    out: &mut Writer,
    text: &[u8],
    lines: &[u8],
    refusal: Refusal<'_>,
    origin: Origin<'_>,
) -> Result<(), AllocError>
    ensures { OnOk result (AppendsValue out.old out.new
        (refused_place text.now lines.now (refusal_seen refusal.entry) (origin_seen origin.entry))) }
{
    let file = origin_file(alloc, origin)?;
    let sight = Sight {
        place: refusal.place,
        name: origin.name,
        word: refusal.word,
    };
    let details = details_in(alloc, b"", text, lines, &[sight])?;
    write_location(
        alloc,
        out,
        file.as_str(),
        origin.line,
        details.regions[0],
        details.functions[0],
    )
}

/// Writes the place of a refusal, if the text tells it.
fn write_refused_places(
    alloc: Global,
    out: &mut Writer,
    text: &[u8],
    lines: &[u8],
    refusal: Refusal<'_>,
    origin: Option<Origin<'_>>,
) -> Result<(), AllocError>
    ensures { OnOk result (AppendsValue out.old out.new (array (items_of
        (refused_places text.now lines.now (refusal_seen refusal.entry) (option_map origin_seen origin.entry))))) }
{
    out.begin_array()?;
    match origin {
        None => out.end_array(),
        Some(origin) => {
            write_refused_place(alloc, out, text, lines, refusal, origin)?;
            out.end_array()
        }
    }
}

/// The file that is analysed, and that of the refusal, if the text tells it.
fn refused_files(
    alloc: Global,
    name: &[u8],
    origin: Option<Origin<'_>>,
) -> Result<Vec<String>, AllocError>
    ensures { IfOk result (λ files. map string_bytes files.items
        ≡ uri_text name.now ∷ refused_files (option_map origin_seen origin.entry)) }
{
    let mut files = Vec::new(alloc);
    files.push(uri(alloc, name)?)?;
    if let Some(origin) = origin {
        files.push(origin_file(alloc, origin)?)?;
    }
    Ok(files)
}

/// Writes what the tool tells of itself.
fn write_notification(
    alloc: Global,
    out: &mut Writer,
    text: &[u8],
    lines: &[u8],
    refusal: Refusal<'_>,
    origin: Option<Origin<'_>>,
) -> Result<(), AllocError>
    ensures { OnOk result (AppendsValue out.old out.new (notification_data (refusal_seen refusal.entry)
        (refused_places text.now lines.now (refusal_seen refusal.entry) (option_map origin_seen origin.entry)))) }
{
    out.begin_object()?;
    out.key("descriptor")?;
    out.begin_object()?;
    write_string(out, "id", refusal.word)?;
    out.end_object()?;
    write_string(out, "level", "error")?;
    out.key("locations")?;
    write_refused_places(alloc, out, text, lines, refusal, origin)?;
    out.key("message")?;
    write_text(out, refusal.said)?;
    out.end_object()
}

/// Writes the analysis that was refused.
fn write_refused_invocation(
    alloc: Global,
    out: &mut Writer,
    frame: Frame<'_, '_>,
    refusal: Refusal<'_>,
    origin: Option<Origin<'_>>,
) -> Result<(), AllocError>
    ensures { OnOk result (AppendsValue out.old out.new (refused_invocation frame.entry.text.now frame.entry.lines.now
        (refusal_seen refusal.entry) (option_map origin_seen origin.entry))) }
{
    write_invocation_front(out, false, REFUSED)?;
    write_notification(alloc, out, frame.text, frame.lines, refusal, origin)?;
    out.end_array()?;
    out.end_object()
}

/// Writes the log of a refusal.
fn write_refused(
    alloc: Global,
    out: &mut Writer,
    documents: &[u8],
    name: &[u8],
    frame: Frame<'_, '_>,
    refusal: Refusal<'_>,
    origin: Option<Origin<'_>>,
) -> Result<(), AllocError>
    ensures { OnOk result (AppendsValue out.old out.new (log_data (refused_data documents.now name.now
        frame.entry.text.now frame.entry.lines.now (refusal_seen refusal.entry)
        (option_map origin_seen origin.entry)))) }
{
    let files = refused_files(alloc, name, origin)?;
    write_front(alloc, out, &files)?;
    write_refused_invocation(alloc, out, frame, refusal, origin)?;
    out.end_array()?;
    out.key("results")?;
    out.begin_array()?;
    out.end_array()?;
    write_back(alloc, out, documents)
}

/// The log of that run in one line.
fn refused_line(
    alloc: Global,
    documents: &[u8],
    name: &[u8],
    frame: Frame<'_, '_>,
    refusal: Refusal<'_>,
    origin: Option<Origin<'_>>,
) -> Result<Vec<u8>, AllocError>
    ensures { IfOk result (λ log. log.items ≡ refused_line documents.now name.now frame.entry.text.now
        frame.entry.lines.now (refusal_seen refusal.entry) (option_map origin_seen origin.entry)) }
{
    let mut out = Writer::new(Vec::new(alloc));
    write_refused(alloc, &mut out, documents, name, frame, refusal, origin)?;
    written_line(out)
}

/// The log of a refusal.
fn refused_log(
    alloc: Global,
    frame: Frame<'_, '_>,
    refusal: Refusal<'_>,
) -> Result<Vec<u8>, AllocError>
    ensures { IfOk result (λ log. log.items ≡ refusal_text frame.entry.documents.now frame.entry.name.now
        frame.entry.text.now frame.entry.lines.now (refusal_seen refusal.entry)) }
{
    let documents = name_in(alloc, frame.documents)?;
    let name = name_in(alloc, frame.name)?;
    let origin = origin_of(alloc, frame.name, frame.text, refusal.place)?;
    refused_line(alloc, &documents, &name, frame, refusal, origin)
}

/// The log, in the format SARIF 2.1.0, of a refusal of a text: it has no results, and tells of the refusal as an error of
/// the analysis, at its place in its file where the marks of the text tell it.
pub fn refusal_log(
    alloc: Global,
    frame: Frame<'_, '_>,
    refusal: Refusal<'_>,
) -> Result<Vec<u8>, NoMemory>
    ensures { IfOk result (λ log. log.items ≡ refusal_text frame.entry.documents.now frame.entry.name.now
        frame.entry.text.now frame.entry.lines.now (refusal_seen refusal.entry)) }
{
    match refused_log(alloc, frame, refusal) {
        Ok(log) => Ok(log),
        Err(_) => Err(NoMemory),
    }
}
