//! The entries of stores, from their lines.
ghost use Rattle.std.specs.Prelude.{◌≡◌, ◌↔◌, ◌<◌, ◌≤◌, ◌^◌, [], ◌∷◌, pos, length, IsTrue, IfOk, MatchOption};
ghost use Rattle.tm_laid.specs.Layouts.{laid_tree};
ghost use Rattle.post_recheck.specs.state_fits.Fits.{file_set};
ghost use Rattle.certificate_words.specs.Words.{AreWords, number};
ghost use Rattle.certificate_words.specs.Lines.{words_of};
ghost use Rattle.certificate_parts.specs.Risings.{HasNoEntry, IsNextEntry};
ghost use Rattle.certificate_reading.specs.Values.{AreSizes};
ghost use Rattle.certificate_reading.specs.Entries.{letters_of, IsUnder, IsPlace, IsSmall, place_number, place_words};
ghost use Rattle.certificate_reading.specs.Entries.{BeginsWithNoNatural, BeginsWithNoPlace, AreEntryWords};
ghost use Rattle.certificate_reading.specs.Entries.{HasNoEntryWords, entry_onto, IsNumbered, EndsKind};

use crate::values::cell_value_in;
use certificate_parts::{Ahead, behind, first_number};
use certificate_words::Word;
use edge_actions::is_shared_cell;
use pointer_dom::AbsValue;
use std::alloc::Global;
use tm_laid::Laid;
use tm_lattice::{Lattice, NoMemory};

/// The two kinds of entries.
#[derive(Clone, Copy)]
pub(crate) enum Kind {
    /// What a task wrote with a set of mutexes held.
    Weak,
    /// What a task left in a cell under a mutex.
    Sync,
}

/// The place of an entry: its task, its set of mutexes or its mutex, and its cell.
#[derive(Clone, Copy)]
pub(crate) struct Place {
    pub(crate) task: u32,
    pub(crate) set: u32,
    pub(crate) cell: u32,
}

/// An entry of a store.
#[derive(Drop)]
pub(crate) struct Entry {
    pub(crate) place: Place,
    pub(crate) value: AbsValue,
}

/// The tag of the lines.
fn letters_of(kind: Kind) -> &'static [u8]
    ensures { result.now ≡ letters_of kind }
{
    match kind {
        Kind::Weak => b"w",
        Kind::Sync => b"y",
    }
}

/// The set of all mutexes of the file.
pub(crate) fn file_set(laid: &Laid) -> u32
    ensures { result ≡ file_set (laid_tree laid.now) }
{
    let count = laid.file.mutexes.len().min(16);
    (1 << count) - 1
}

/// Whether entries of the kind stand under this set, or this mutex.
fn is_under(laid: &Laid, kind: Kind, set: u32) -> bool
    ensures { IsTrue result ↔ IsUnder (laid_tree laid.now) kind set }
{
    match kind {
        Kind::Weak => {
            let all = file_set(laid);
            set | all == all
        }
        Kind::Sync => (set as usize) < laid.file.mutexes.len() && set < 16,
    }
}

/// Whether entries of the kind may stand at a place.
fn is_place(laid: &Laid, kind: Kind, place: Place) -> bool
    ensures { IsTrue result ↔ IsPlace (laid_tree laid.now) kind place }
{
    if place.task as usize >= laid.file.tasks.len() {
        return false;
    }
    if place.cell as usize >= laid.abstract_cells.len() {
        return false;
    }
    if !is_shared_cell(laid, place.cell) {
        return false;
    }
    is_under(laid, kind, place.set)
}

/// The number of a place.
pub(crate) fn place_number(place: Place) -> u64
    requires { IsSmall place }
    ensures { result ≡ place_number place }
{
    (u64::from(place.task) * 65536 + u64::from(place.set)) * 65536 + u64::from(place.cell)
}

/// The number below 2^32 with which the words begin, and the words behind it.
fn natural_in<'w, 'a>(words: &'w [Word<'a>]) -> Option<(u32, &'w [Word<'a>])>
    ensures { MatchOption result (BeginsWithNoNatural (words_of words.now))
        (λ found. words_of words.now ≡ number (pos found.0) ∷ words_of found.1.now) }
{
    let Some((value, behind)) = first_number(words) else {
        return None;
    };
    match u32::try_from(value) {
        Err(_) => None,
        Ok(natural) => Some((natural, behind)),
    }
}

/// The place with which the words begin, and the words behind it.
fn place_in<'w, 'a>(words: &'w [Word<'a>]) -> Option<(Place, &'w [Word<'a>])>
    ensures { MatchOption result (BeginsWithNoPlace (words_of words.now))
        (λ found. words_of words.now ≡ place_words found.0 (words_of found.1.now)) }
{
    let Some((task, behind_task)) = natural_in(words) else {
        return None;
    };
    let Some((set, behind_set)) = natural_in(behind_task) else {
        return None;
    };
    let Some((cell, behind_cell)) = natural_in(behind_set) else {
        return None;
    };
    Some((Place { task, set, cell }, behind_cell))
}

/// The entry of which the words are.
fn entry_in(
    alloc: Global,
    words: &[Word],
    kind: Kind,
    laid: &Laid,
    sizes: &[u32],
) -> Result<Option<Entry>, NoMemory>
    requires lawful { AreWords (words_of words.now) }
    requires sizes { AreSizes (laid_tree laid.now) sizes.now }
    requires few { length sizes.now ≤ 2 ^ 32 }
    requires tasks { length laid.now.file.tasks.items < 2 ^ 32 }
    requires cells { length laid.now.abstract_cells.items ≤ 65536 }
    ensures { IfOk result (λ found. MatchOption found (HasNoEntryWords (laid_tree laid.now) kind (words_of words.now))
        (AreEntryWords (laid_tree laid.now) kind (words_of words.now))) }
{
    let Some(numbers) = behind(words, letters_of(kind), &[]) else {
        return Ok(None);
    };
    let Some((place, told)) = place_in(numbers) else {
        return Ok(None);
    };
    if !is_place(laid, kind, place) {
        return Ok(None);
    }
    let found = cell_value_in(alloc, told, laid, sizes, place.cell)?;
    match found {
        None => Ok(None),
        Some(value) => {
            if value.is_nothing() {
                Ok(None)
            } else {
                Ok(Some(Entry { place, value }))
            }
        }
    }
}

/// Reads the entry of the first line, where it is one of the kind and its place has this number at least. Else nothing
/// is read.
pub(crate) fn next_entry(
    alloc: Global,
    ahead: &mut Ahead,
    kind: Kind,
    laid: &Laid,
    sizes: &[u32],
    bound: u64,
) -> Result<Option<Entry>, NoMemory>
    requires sizes { AreSizes (laid_tree laid.now) sizes.now }
    requires few { length sizes.now ≤ 2 ^ 32 }
    requires tasks { length laid.now.file.tasks.items < 2 ^ 32 }
    requires cells { length laid.now.abstract_cells.items ≤ 65536 }
    ensures { IfOk result (λ found. MatchOption found
        (HasNoEntry (entry_onto kind) (IsNumbered (laid_tree laid.now) kind) (EndsKind kind) bound ahead.old
        × (ahead.new ≡ ahead.old))
        (λ e. IsNextEntry (entry_onto kind) (IsNumbered (laid_tree laid.now) kind) (EndsKind kind) bound ahead.old
        (place_number e.place, e) ahead.new)) }
{
    let found = entry_in(alloc, ahead.words(), kind, laid, sizes)?;
    match found {
        None => Ok(None),
        Some(entry) => {
            if place_number(entry.place) < bound {
                return Ok(None);
            }
            ahead.step()?;
            Ok(Some(entry))
        }
    }
}
