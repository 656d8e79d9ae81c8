//! Lines of values, each behind its key.
ghost use Rattle.std.specs.Prelude.{◌≡◌, ◌≤◌, ◌^◌, length, IfOk, option_map};
ghost use Rattle.tm_laid.specs.Layouts.{laid_tree};
ghost use Rattle.temporary_extents.specs.Extents.{extent_at};
ghost use Rattle.post_recheck.specs.state_fits.Kinds.{InExtents};
ghost use Rattle.certificate_parts.specs.Runs.{AreDistinct};
ghost use Rattle.certificate_parts.specs.Rows.{IsTag};
ghost use Rattle.certificate_reading.specs.Values.{AreSizes};
ghost use Rattle.certificate_reading.specs.Rows.{IsReadRow, AreReadRows};

use crate::values::value_in;
use certificate_parts::{Ahead, behind};
use pointer_dom::AbsValue;
use std::alloc::Global;
use temporary_extents::Extent;
use tm_laid::Laid;
use tm_lattice::NoMemory;

/// What may stand behind a key.
pub(crate) fn extent_at(extents: &[Extent], key: u32) -> Extent
    ensures { result ≡ extent_at extents.now key }
{
    match extents.get(key as usize) {
        None => Extent::Nothing,
        Some(extent) => *extent,
    }
}

/// The value in the line of a tag and a key, within the extent that belongs to the key.
fn value_at(
    alloc: Global,
    ahead: &mut Ahead,
    laid: &Laid,
    sizes: &[u32],
    letters: &[u8],
    key: u32,
    extents: &[Extent],
) -> Result<Option<AbsValue>, NoMemory>
    requires letters { IsTag letters.now }
    requires sizes { AreSizes (laid_tree laid.now) sizes.now }
    requires few { length sizes.now ≤ 2 ^ 32 }
    ensures { IfOk result (λ found. IsReadRow letters.now (InExtents (laid_tree laid.now) extents.now) key ahead.old
        found ahead.new) }
{
    let Some(rest) = behind(ahead.words(), letters, &[i128::from(key)]) else {
        return Ok(None);
    };
    let Some(value) = value_in(alloc, rest, laid, sizes, &extent_at(extents, key))? else {
        return Ok(None);
    };
    ahead.step()?;
    Ok(Some(value))
}

/// For each key the value in its line, within the extent that belongs to the key: none where a line is missing.
pub(crate) fn values_in(
    alloc: Global,
    ahead: &mut Ahead,
    laid: &Laid,
    sizes: &[u32],
    letters: &[u8],
    keys: &[u32],
    extents: &[Extent],
) -> Result<Option<Vec<AbsValue>>, NoMemory>
    requires letters { IsTag letters.now }
    requires sizes { AreSizes (laid_tree laid.now) sizes.now }
    requires few { length sizes.now ≤ 2 ^ 32 }
    requires distinct { AreDistinct keys.now }
    ensures { IfOk result (λ found. AreReadRows letters.now (InExtents (laid_tree laid.now) extents.now) keys.now
        ahead.old (option_map (λ v. v.items) found) ahead.new) }
{
    let mut values = Vec::new(alloc);
    for key in keys {
        match value_at(alloc, ahead, laid, sizes, letters, *key, extents)? {
            None => return Ok(None),
            Some(value) => values.push(value)?,
        }
    }
    Ok(Some(values))
}
