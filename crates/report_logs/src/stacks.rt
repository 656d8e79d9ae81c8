//! What is told of alarms, in the format SARIF 2.1.0: the places that belong to each, and the call paths on which
//! control comes to it.

ghost use Rattle.std.specs.Prelude.{◌≡◌, ◌∷◌, length, map, take_while, IfOk, OnOk};
ghost use Rattle.serde_json.specs.Data.{array};
ghost use Rattle.serde_json.specs.View.{items_of};
ghost use Rattle.report_reading.specs.reading.Told.{way_seen};
ghost use Rattle.report_views.specs.reading.Seen.{spot_seen};
ghost use Rattle.report_logs.specs.Sarif.{frame_data, is_call, is_call_kind, is_with_kind, related_data, site_data};
ghost use Rattle.report_logs.specs.Sarif.{stack_data, stacks_data, ways_told};
ghost use Rattle.report_logs.specs.reading.Seen.{way_told_seen};
ghost use Rattle.report_logs.specs.reading.Written.{Appends, AppendsValue, related_tokens, stack_tokens};

use crate::places::{LastFile, turn_to, write_physical};
use crate::writing::write_text;
use json::Writer;
use place_details::Region;
use report_reading::{Way, WayKind};
use report_views::Spot;
use std::alloc::{AllocError, Global};

/// What is told of an alarm: what it is, its sentence, and where that begins and ends in its file.
#[derive(Clone, Copy)]
pub struct WayTold<'s, 't> {
    pub kind: WayKind,
    pub said: &'t str,
    pub spot: Spot<'s>,
    pub region: Region,
}

/// What is told of alarms, in their order, and how many of it each finding has.
#[derive(Clone, Copy)]
pub struct Ways<'w, 's, 't> {
    pub told: &'w [WayTold<'s, 't>],
    pub counts: &'w [usize],
}

/// What is told of an alarm, in its file.
fn way_told<'s, 't>(way: Way<'t>, spot: Spot<'s>, region: Region) -> WayTold<'s, 't>
    ensures { way_told_seen result ≡ record {
      kind = way.entry.kind;
      said = way.entry.said.now;
      spot = spot_seen spot.entry;
      region = region;
    } }
{
    WayTold {
        kind: way.kind,
        said: way.said,
        spot,
        region,
    }
}

/// What is told of alarms, in files.
pub fn ways_told<'s, 't>(
    alloc: Global,
    ways: &[Way<'t>],
    sites: &[Spot<'s>],
    regions: &[Region],
) -> Result<Vec<WayTold<'s, 't>>, AllocError>
    requires sites { length sites.now ≡ length ways.now }
    requires regions { length regions.now ≡ length ways.now }
    ensures { IfOk result (λ told. map way_told_seen told.items
        ≡ ways_told (map way_seen ways.now) (map spot_seen sites.now) regions.now) }
{
    let mut told = Vec::with_capacity(alloc, ways.len())?;
    for i in 0..ways.len() {
        let way = way_told(ways[i], sites[i], regions[i]);
        told.push(way)?;
    }
    Ok(told)
}

/// Writes where something stands, with its sentence.
fn write_site<'s>(
    alloc: Global,
    out: &mut Writer,
    last: &mut LastFile<'s>,
    way: WayTold<'s, '_>,
) -> Result<(), AllocError>
    ensures { OnOk result (AppendsValue out.old out.new (site_data (way_told_seen way.entry))) }
{
    turn_to(alloc, last, way.spot)?;
    out.begin_object()?;
    out.key("message")?;
    write_text(out, way.said)?;
    out.key("physicalLocation")?;
    write_physical(out, last.uri.as_str(), way.spot.origin.line, way.region)?;
    out.end_object()
}

/// Whether it is a place that belongs to the alarm.
fn is_with(kind: WayKind) -> bool
    ensures { result ≡ is_with_kind kind }
{
    match kind {
        WayKind::With => true,
        WayKind::Path => false,
        WayKind::Call => false,
    }
}

/// Whether it is a call of the path before it.
fn is_call(kind: WayKind) -> bool
    ensures { result ≡ is_call_kind kind }
{
    match kind {
        WayKind::With => false,
        WayKind::Path => false,
        WayKind::Call => true,
    }
}

/// Writes a place that belongs to the alarm, if this is one.
fn write_related_here<'s>(
    alloc: Global,
    out: &mut Writer,
    last: &mut LastFile<'s>,
    way: WayTold<'s, '_>,
) -> Result<(), AllocError>
    ensures { OnOk result (Appends out.old out.new
        (related_tokens (is_with_kind way.entry.kind) (way_told_seen way.entry))) }
{
    if is_with(way.kind) {
        write_site(alloc, out, last, way)
    } else {
        Ok(())
    }
}

/// Writes the places that belong to an alarm.
pub fn write_related<'s>(
    alloc: Global,
    out: &mut Writer,
    last: &mut LastFile<'s>,
    ways: &[WayTold<'s, '_>],
) -> Result<(), AllocError>
    ensures { OnOk result (AppendsValue out.old out.new
        (array (items_of (related_data (map way_told_seen ways.now))))) }
{
    out.begin_array()?;
    for i in 0..ways.len() {
        write_related_here(alloc, out, last, ways[i])?;
    }
    out.end_array()
}

/// Writes a place of a call path.
fn write_frame<'s>(
    alloc: Global,
    out: &mut Writer,
    last: &mut LastFile<'s>,
    way: WayTold<'s, '_>,
) -> Result<(), AllocError>
    ensures { OnOk result (AppendsValue out.old out.new (frame_data (way_told_seen way.entry))) }
{
    out.begin_object()?;
    out.key("location")?;
    write_site(alloc, out, last, way)?;
    out.end_object()
}

/// Writes the places of a call path that begins with this one, from the innermost on.
fn write_frames<'s>(
    alloc: Global,
    out: &mut Writer,
    last: &mut LastFile<'s>,
    way: WayTold<'s, '_>,
    behind: &[WayTold<'s, '_>],
) -> Result<(), AllocError>
    ensures { OnOk result (AppendsValue out.old out.new (array (items_of (map frame_data
        (way_told_seen way.entry ∷ take_while is_call (map way_told_seen behind.now)))))) }
{
    out.begin_array()?;
    write_frame(alloc, out, last, way)?;
    for i in 0..behind.len() {
        let call = behind[i];
        if !is_call(call.kind) {
            return out.end_array();
        }
        write_frame(alloc, out, last, call)?;
    }
    out.end_array()
}

/// Writes a call path that begins with this place.
fn write_stack<'s>(
    alloc: Global,
    out: &mut Writer,
    last: &mut LastFile<'s>,
    way: WayTold<'s, '_>,
    behind: &[WayTold<'s, '_>],
) -> Result<(), AllocError>
    ensures { OnOk result (AppendsValue out.old out.new
        (stack_data (way_told_seen way.entry) (map way_told_seen behind.now))) }
{
    out.begin_object()?;
    out.key("frames")?;
    write_frames(alloc, out, last, way, behind)?;
    out.key("message")?;
    write_text(out, way.said)?;
    out.end_object()
}

/// Writes a call path, where one begins here.
fn write_stack_here<'s>(
    alloc: Global,
    out: &mut Writer,
    last: &mut LastFile<'s>,
    way: WayTold<'s, '_>,
    behind: &[WayTold<'s, '_>],
) -> Result<(), AllocError>
    ensures { OnOk result (Appends out.old out.new
        (stack_tokens way.entry.kind (way_told_seen way.entry) (map way_told_seen behind.now))) }
{
    match way.kind {
        WayKind::With => Ok(()),
        WayKind::Path => write_stack(alloc, out, last, way, behind),
        WayKind::Call => Ok(()),
    }
}

/// Writes the call paths of an alarm.
pub fn write_stacks<'s>(
    alloc: Global,
    out: &mut Writer,
    last: &mut LastFile<'s>,
    ways: &[WayTold<'s, '_>],
) -> Result<(), AllocError>
    ensures { OnOk result (AppendsValue out.old out.new
        (array (items_of (stacks_data (map way_told_seen ways.now))))) }
{
    out.begin_array()?;
    for i in 0..ways.len() {
        write_stack_here(alloc, out, last, ways[i], &ways[i + 1..])?;
    }
    out.end_array()
}
