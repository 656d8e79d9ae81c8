//! That a joined text says what its units say, each token at its place in its file.

ghost use Rattle.std.specs.Prelude.{◌≡◌, ◌-◌, ◌<◌, ℕ, IfOk, IsTrue, length, map, option_map, slice_get};
ghost use Rattle.source_marks.specs.reading.Seen.{origin_seen};
ghost use Rattle.unit_joins.specs.Joins.{AreWritten, IsWritten};

use source_marks::Origin;
use std::alloc::Global;
use tm_lattice::NoMemory;
use tm_terms::Token;
use unit_tokens::{Fate, Fated, Renaming, is_wanted};

/// The origin of a line.
fn origin_at<'a>(origins: &[Origin<'a>], line: u32) -> Option<Origin<'a>>
    ensures { option_map origin_seen result ≡ slice_get (map origin_seen origins.now) (line - 1) }
{
    let index = (line as usize).saturating_sub(1);
    if index < origins.len() {
        Some(origins[index])
    } else {
        None
    }
}

/// Whether lines have one origin.
fn is_same_origin(one: Option<Origin<'_>>, other: Option<Origin<'_>>) -> bool
    ensures { IsTrue result → option_map origin_seen one.entry ≡ option_map origin_seen other.entry }
{
    let Some(one) = one else {
        return false;
    };
    let Some(other) = other else {
        return false;
    };
    one.name == other.name && one.line == other.line
}

/// A joined text and its units.
#[derive(Clone, Copy)]
pub struct Texts<'a> {
    pub renaming: Renaming<'a>,
    pub origins: &'a [Origin<'a>],
    pub joined: &'a [u8],
    pub joined_origins: &'a [Origin<'a>],
}

/// Whether a token of the joined text stands for one of the units.
fn is_written(alloc: Global, texts: Texts<'_>, fated: Fated, token: Token) -> Result<bool, NoMemory>
    ensures { IfOk result (λ is. IsTrue is → IsWritten texts.entry.renaming.units.now texts.entry.renaming.mark.now
        texts.entry.renaming.borders.now (map origin_seen texts.entry.origins.now) texts.entry.joined.now
        (map origin_seen texts.entry.joined_origins.now) fated token) }
{
    let place = fated.token.place;
    if token.place.col != place.col {
        return Ok(false);
    }
    let origin = origin_at(texts.origins, place.line);
    let joined_origin = origin_at(texts.joined_origins, token.place.line);
    if !is_same_origin(joined_origin, origin) {
        return Ok(false);
    }
    is_wanted(alloc, texts.renaming, fated, texts.joined, token.shape)
}

/// Whether the tokens of the joined text stand for those of the units, one for one.
pub fn are_written(
    alloc: Global,
    texts: Texts<'_>,
    kept: &[Fated],
    tokens: &[Token],
) -> Result<bool, NoMemory>
    ensures { IfOk result (λ are. IsTrue are → AreWritten texts.entry.renaming.units.now texts.entry.renaming.mark.now
        texts.entry.renaming.borders.now (map origin_seen texts.entry.origins.now) texts.entry.joined.now
        (map origin_seen texts.entry.joined_origins.now) kept.now tokens.now) }
{
    if kept.len() != tokens.len() {
        return Ok(false);
    }
    for k in 0..kept.len() {
        let stands = is_written(alloc, texts, kept[k], tokens[k])?;
        if !stands {
            return Ok(false);
        }
    }
    Ok(true)
}

fn is_same_fate(one: Fate, other: Fate) -> bool
    ensures { IsTrue result → one ≡ other }
{
    match (one, other) {
        (Fate::Stays, Fate::Stays) | (Fate::Renamed, Fate::Renamed) => true,
        (Fate::LeftOut(one), Fate::LeftOut(other)) => one == other,
        _ => false,
    }
}

/// Whether this becomes of the tokens.
pub fn are_fates(fated: &[Fated], fates: &[Fate]) -> bool
    ensures { IsTrue result → map (λ f. f.fate) fated.now ≡ fates.now }
{
    if fated.len() != fates.len() {
        return false;
    }
    for k in 0..fates.len() {
        if !is_same_fate(fated[k].fate, fates[k]) {
            return false;
        }
    }
    true
}
