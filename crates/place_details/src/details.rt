//! All that is told of places.

ghost use Rattle.std.specs.Prelude.{◌≡◌, ◌++◌, ◌∷◌, [], List, ℕ, length, map, IfOk, string_bytes};
ghost use Rattle.place_details.specs.Details.{AreDetails, front_at, function_of, known_line, region_of};
ghost use Rattle.place_details.specs.Functions.{code_of};
ghost use Rattle.place_details.specs.TextLines.{starts_of};
ghost use Rattle.place_details.specs.reading.Seen.{bytes_seen, front_seen, sight_seen};

use crate::code::code_of;
use crate::fingerprints::{fingerprints_of, front_of, relative};
use crate::functions::{bytes_in, nothing, scan_on};
use crate::lines::{line_of, line_starts, offset_of};
use crate::regions::{Region, region_at};
use source_marks::name_bytes;
use std::alloc::{AllocError, Global};
use tm_lattice::NoMemory;
use tm_terms::Place;

/// A place of the text: the name of its file, as a line mark spells it, and the word of the rule that found it.
#[derive(Clone, Copy)]
pub struct Sight<'a> {
    pub place: Place,
    pub name: &'a [u8],
    pub word: &'a str,
}

/// What is told of places, in their order.
#[derive(Drop)]
pub struct Details<'a> {
    pub regions: Vec<Region>,
    pub functions: Vec<&'a [u8]>,
    pub fingerprints: Vec<String>,
}

/// A text, and the lines of the files from which its lines come, each with where its lines begin.
#[derive(Clone, Copy)]
struct Known<'a, 's> {
    text: &'a [u8],
    starts: &'s [usize],
    lines: &'a [u8],
    line_starts: &'s [usize],
}

/// Where places begin and end in their lines of the files.
fn regions_of(
    alloc: Global,
    known: Known<'_, '_>,
    sights: &[Sight<'_>],
) -> Result<Vec<Region>, AllocError>
    requires starts { known.starts.now ≡ starts_of known.text.now }
    requires line_starts { known.line_starts.now ≡ starts_of known.lines.now }
    ensures { IfOk result (λ regions. regions.items
        ≡ map (region_of known.entry.text.now known.entry.lines.now) (map sight_seen sights.now)) }
{
    let mut regions = Vec::with_capacity(alloc, sights.len())?;
    for sight in sights {
        let line = line_of(known.lines, known.line_starts, sight.place.line);
        let text_line = line_of(known.text, known.starts, sight.place.line);
        regions.push(region_at(alloc, line, text_line, sight.place.col)?)?;
    }
    Ok(regions)
}

/// Where places begin and end, by the starts of the lines.
fn located(
    alloc: Global,
    text: &[u8],
    lines: &[u8],
    sights: &[Sight<'_>],
) -> Result<Vec<Region>, AllocError>
    ensures { IfOk result (λ regions. regions.items
        ≡ map (region_of text.now lines.now) (map sight_seen sights.now)) }
{
    let starts = line_starts(alloc, text)?;
    let own_starts = line_starts(alloc, lines)?;
    let known = Known {
        text,
        starts: &starts,
        lines,
        line_starts: &own_starts,
    };
    regions_of(alloc, known, sights)
}

/// Where places of a text begin and end in their lines of the files, where these are at hand.
pub fn regions_in(
    alloc: Global,
    text: &[u8],
    lines: &[u8],
    sights: &[Sight<'_>],
) -> Result<Vec<Region>, NoMemory>
    ensures { IfOk result (λ regions. regions.items
        ≡ map (region_of text.now lines.now) (map sight_seen sights.now)) }
{
    match located(alloc, text, lines, sights) {
        Ok(regions) => Ok(regions),
        Err(_) => Err(NoMemory),
    }
}

/// The line of the file with a number, or that of the text where the file is not at hand.
fn known_line<'a>(known: Known<'a, '_>, number: u32) -> &'a [u8]
    requires starts { known.starts.now ≡ starts_of known.text.now }
    requires line_starts { known.line_starts.now ≡ starts_of known.lines.now }
    ensures { result.now ≡ known_line known.entry.text.now known.entry.lines.now number }
{
    let line = line_of(known.lines, known.line_starts, number);
    if line.is_empty() {
        line_of(known.text, known.starts, number)
    } else {
        line
    }
}

/// What stays the same of a place when other lines move.
fn front_at(
    alloc: Global,
    folder: &[u8],
    known: Known<'_, '_>,
    function: &[u8],
    sight: Sight<'_>,
) -> Result<Vec<u8>, AllocError>
    requires starts { known.starts.now ≡ starts_of known.text.now }
    requires line_starts { known.line_starts.now ≡ starts_of known.lines.now }
    requires function { function.now ≡ function_of known.text.now (sight_seen sight) }
    ensures { IfOk result (λ front. front.items
        ≡ front_at folder.now known.entry.text.now known.entry.lines.now (sight_seen sight.entry)) }
{
    let name = match name_bytes(alloc, sight.name) {
        Ok(name) => name,
        Err(NoMemory) => return Err(AllocError),
    };
    let line = known_line(known, sight.place.line);
    front_of(alloc, sight.word, relative(folder, &name), function, line)
}

/// The functions in which places stand, and what stays the same of these when other lines move.
#[derive(Drop)]
struct Named<'a> {
    functions: Vec<&'a [u8]>,
    fronts: Vec<Vec<u8>>,
}

/// The functions in which places stand, by the code of their text, and what stays the same of these.
fn named_in<'a>(
    alloc: Global,
    folder: &[u8],
    known: Known<'a, '_>,
    code: &[u8],
    sights: &[Sight<'_>],
) -> Result<Named<'a>, AllocError>
    requires starts { known.starts.now ≡ starts_of known.text.now }
    requires line_starts { known.line_starts.now ≡ starts_of known.lines.now }
    requires code { code.now ≡ code_of known.text.now }
    requires long { length code.now ≡ length known.text.now }
    ensures functions { IfOk result (λ named. map bytes_seen named.functions.items
        ≡ map (function_of known.entry.text.now) (map sight_seen sights.now)) }
    ensures fronts { IfOk result (λ named. map front_seen named.fronts.items
        ≡ map (front_at folder.now known.entry.text.now known.entry.lines.now) (map sight_seen sights.now)) }
{
    let mut functions = Vec::with_capacity(alloc, sights.len())?;
    let mut fronts = Vec::with_capacity(alloc, sights.len())?;
    let mut at: usize = 0;
    let mut scan = nothing();
    for sight in sights {
        let offset = offset_of(known.text, known.starts, sight.place);
        if offset < at {
            at = 0;
            scan = nothing();
        }
        scan = scan_on(code, scan, at, offset);
        at = offset;
        let function = bytes_in(known.text, scan.body);
        functions.push(function)?;
        fronts.push(front_at(alloc, folder, known, function, *sight)?)?;
    }
    Ok(Named { functions, fronts })
}

/// What is told of places.
fn told<'a>(
    alloc: Global,
    folder: &[u8],
    text: &'a [u8],
    lines: &'a [u8],
    sights: &[Sight<'_>],
) -> Result<Details<'a>, AllocError>
    ensures { IfOk result (λ details. AreDetails folder.now text.now lines.now (map sight_seen sights.now)
        details.regions.items (map bytes_seen details.functions.items)
        (map string_bytes details.fingerprints.items)) }
{
    let starts = line_starts(alloc, text)?;
    let own_starts = line_starts(alloc, lines)?;
    let code = code_of(alloc, text)?;
    let known = Known {
        text,
        starts: &starts,
        lines,
        line_starts: &own_starts,
    };
    let regions = regions_of(alloc, known, sights)?;
    let named = named_in(alloc, folder, known, &code, sights)?;
    let fingerprints = fingerprints_of(alloc, &named.fronts)?;
    Ok(Details {
        regions,
        functions: named.functions,
        fingerprints,
    })
}

/// What is told of places of a text, by the lines of the files from which its lines come, as far as these are at hand,
/// and by the folder from which names of files are seen.
pub fn details_of<'a>(
    alloc: Global,
    folder: &[u8],
    text: &'a [u8],
    lines: &'a [u8],
    sights: &[Sight<'_>],
) -> Result<Details<'a>, NoMemory>
    ensures { IfOk result (λ details. AreDetails folder.now text.now lines.now (map sight_seen sights.now)
        details.regions.items (map bytes_seen details.functions.items)
        (map string_bytes details.fingerprints.items)) }
{
    match told(alloc, folder, text, lines, sights) {
        Ok(details) => Ok(details),
        Err(_) => Err(NoMemory),
    }
}
