//! Places of files, in the format SARIF 2.1.0.

ghost use Rattle.std.specs.Prelude.{◌≡◌, IfOk, OnOk, string_bytes};
ghost use Rattle.serde_json.specs.Data.{array};
ghost use Rattle.serde_json.specs.View.{items_of};
ghost use Rattle.source_marks.specs.Names.{decoded};
ghost use Rattle.report_views.specs.reading.Seen.{spot_seen};
ghost use Rattle.report_logs.specs.Sarif.{file_data, file_of, functions_data, location_data, physical_data};
ghost use Rattle.report_logs.specs.Sarif.{region_data};
ghost use Rattle.report_logs.specs.Uris.{uri_text};
ghost use Rattle.report_logs.specs.reading.Written.{Appends, AppendsValue, column_tokens};

use crate::uris::uri;
use crate::writing::{write_number, write_string};
use json::Writer;
use place_details::Region;
use report_views::{Spot, name_in};
use std::alloc::{AllocError, Global};

/// The file of a finding.
pub fn file_of(alloc: Global, spot: Spot<'_>) -> Result<String, AllocError>
    ensures { IfOk result (λ file. string_bytes file ≡ file_of (spot_seen spot.entry)) }
{
    let name = name_in(alloc, spot.origin.name)?;
    uri(alloc, &name)
}

/// A file, by its name as a line mark spells it, and as a URI: most places stand in the file of the one before.
#[derive(Drop)]
pub struct LastFile<'s> {
    name: &'s [u8],
    pub uri: String,
    ghost known: { string_bytes uri ≡ uri_text (decoded name.now) },
}

/// No file, which no place stands in: what it may be is said by the invariant of `LastFile` alone.
pub fn no_file<'s>(alloc: Global) -> LastFile<'s> {
    LastFile {
        name: b"",
        uri: String::new(alloc),
    }
}

/// Turns to the file of a finding.
pub fn turn_to<'s>(alloc: Global, last: &mut LastFile<'s>, spot: Spot<'s>) -> Result<(), AllocError>
    ensures { OnOk result (string_bytes last.new.uri ≡ file_of (spot_seen spot.entry)) }
{
    if last.name == spot.origin.name {
        return Ok(());
    }
    let uri = file_of(alloc, spot)?;
    *last = LastFile {
        name: spot.origin.name,
        uri,
    };
    Ok(())
}

/// Writes the columns between which a place stands, as far as they are known.
fn write_columns(out: &mut Writer, region: Region) -> Result<(), AllocError>
    ensures { OnOk result (Appends out.old out.new (column_tokens region)) }
{
    match region {
        Region::Whole => Ok(()),
        Region::From(start) => write_number(out, "startColumn", start as u64),
        Region::Within(start, end) => {
            write_number(out, "endColumn", end as u64)?;
            write_number(out, "startColumn", start as u64)
        }
    }
}

/// Writes where in its file a place stands.
fn write_region(out: &mut Writer, line: u64, region: Region) -> Result<(), AllocError>
    ensures { OnOk result (AppendsValue out.old out.new (region_data line region)) }
{
    out.begin_object()?;
    write_columns(out, region)?;
    write_number(out, "startLine", line)?;
    out.end_object()
}

/// Writes a file.
pub fn write_file(out: &mut Writer, file: &str) -> Result<(), AllocError>
    ensures { OnOk result (AppendsValue out.old out.new (file_data file.now)) }
{
    out.begin_object()?;
    write_string(out, "uri", file)?;
    out.end_object()
}

/// Writes a place of a file.
pub fn write_physical(
    out: &mut Writer,
    file: &str,
    line: u64,
    region: Region,
) -> Result<(), AllocError>
    ensures { OnOk result (AppendsValue out.old out.new (physical_data file.now line region)) }
{
    out.begin_object()?;
    out.key("artifactLocation")?;
    write_file(out, file)?;
    out.key("region")?;
    write_region(out, line, region)?;
    out.end_object()
}

/// Writes the function in which a place stands, if it stands in one.
fn write_functions(alloc: Global, out: &mut Writer, function: &[u8]) -> Result<(), AllocError>
    ensures { OnOk result (AppendsValue out.old out.new (array (items_of (functions_data function.now)))) }
{
    out.begin_array()?;
    if function.is_empty() {
        return out.end_array();
    }
    let name = uri(alloc, function)?;
    out.begin_object()?;
    write_string(out, "kind", "function")?;
    write_string(out, "name", name.as_str())?;
    out.end_object()?;
    out.end_array()
}

/// Writes where a finding stands.
pub fn write_location(
    alloc: Global,
    out: &mut Writer,
    file: &str,
    line: u64,
    region: Region,
    function: &[u8],
) -> Result<(), AllocError>
    ensures { OnOk result (AppendsValue out.old out.new (location_data file.now line region function.now)) }
{
    out.begin_object()?;
    out.key("logicalLocations")?;
    write_functions(alloc, out, function)?;
    out.key("physicalLocation")?;
    write_physical(out, file, line, region)?;
    out.end_object()
}
