//! Stores, from their lines.
ghost use Rattle.std.specs.Prelude.{◌<◌, ◌≤◌, ◌^◌, length, IfOk, MatchOption};
ghost use Rattle.tm_laid.specs.Layouts.{laid_tree};
ghost use Rattle.certificate_reading.specs.Values.{AreSizes};
ghost use Rattle.certificate_reading.specs.Stores.{AreNestedIn, HasNoStore, IsStoreIn};

use crate::entries::{Kind, next_entry, place_number};
use crate::growing::Growing;
use certificate_parts::Ahead;
use interfere_set::{Nested, Store};
use std::alloc::Global;
use tm_laid::Laid;
use tm_lattice::{Lattice, NoMemory};

/// Reads the entries of one kind, as many as there are.
fn nested_in(
    alloc: Global,
    ahead: &mut Ahead,
    kind: Kind,
    laid: &Laid,
    sizes: &[u32],
) -> Result<Nested, NoMemory>
    requires sizes { AreSizes (laid_tree laid.now) sizes.now }
    requires few { length sizes.now ≤ 2 ^ 32 }
    requires tasks { length laid.now.file.tasks.items < 2 ^ 32 }
    requires cells { length laid.now.abstract_cells.items ≤ 65536 }
    ensures { IfOk result (λ n. AreNestedIn (laid_tree laid.now) kind ahead.old n ahead.new) }
{
    let mut growing = Growing::new(alloc);
    let mut bound = 0u64;
    'entries: loop {
        let found = next_entry(alloc, ahead, kind, laid, sizes, bound)?;
        match found {
            None => {
                let nested = growing.finish()?;
                // The call tells that no table is empty, and no entry is nothing.
                let _empty = nested.is_nothing();
                return Ok(nested);
            }
            Some(entry) => {
                bound = place_number(entry.place) + 1;
                growing.push(alloc, entry)?;
            }
        }
    }
}

/// Reads a store: its first line, the weak entries and the sync entries.
pub(crate) fn store_in(
    alloc: Global,
    ahead: &mut Ahead,
    laid: &Laid,
    sizes: &[u32],
) -> Result<Option<Store>, NoMemory>
    requires sizes { AreSizes (laid_tree laid.now) sizes.now }
    requires few { length sizes.now ≤ 2 ^ 32 }
    requires tasks { length laid.now.file.tasks.items < 2 ^ 32 }
    requires cells { length laid.now.abstract_cells.items ≤ 65536 }
    ensures { IfOk result (λ found. MatchOption found (HasNoStore (laid_tree laid.now) ahead.old)
        (λ store. IsStoreIn (laid_tree laid.now) ahead.old store ahead.new)) }
{
    let taken = ahead.take(b"store", &[])?;
    if !taken {
        return Ok(None);
    }
    let weak = nested_in(alloc, ahead, Kind::Weak, laid, sizes)?;
    let sync = nested_in(alloc, ahead, Kind::Sync, laid, sizes)?;
    Ok(Some(Store::from_parts(weak, sync)))
}
