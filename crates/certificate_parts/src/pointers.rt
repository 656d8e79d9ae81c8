//! The offsets of pointers in objects, from their words.
ghost use Rattle.std.specs.Prelude.{◌≡◌, ◌≢◌, ◌≤◌, ◌^◌, [], ◌∷◌, drop, length, IfOk, IfSome, MatchOption};
ghost use Rattle.std.specs.FinMap.{entries};
ghost use Rattle.strided_dom.specs.Progression.{empty};
ghost use Rattle.certificate_words.specs.Words.{AreWords};
ghost use Rattle.certificate_words.specs.Lines.{words_of};
ghost use Rattle.certificate_parts.specs.Risings.{AreEntries, HasNoEntry, IsNextEntry};
ghost use Rattle.certificate_parts.specs.Objects.{AreAllOffsets, FitsObject, HasNoObjects, IsNoWord, LeavesObject};
ghost use Rattle.certificate_parts.specs.Objects.{IsNoObject, IsObject, object_onto};
ghost use Rattle.certificate_parts.specs.Pointers.{ArePointers, BeginsWithNoBit, HasNoPointers, bit_word};

use crate::sets::set_in;
use crate::words::first_number;
use certificate_words::Word;
use pointer_dom::{ObjectTable, Offsets, PointerSet};
use std::alloc::Global;
use strided_dom::Strided;
use tm_lattice::NoMemory;

/// The numbers of a set as offsets in an object of this size: none where one lies outside.
fn offsets_of(size: u32, set: &Strided) -> Option<Offsets>
    requires { set.now ≢ empty }
    ensures { MatchOption result (LeavesObject size set.now) (AreAllOffsets size set.now) }
{
    let offsets = Offsets::within(size, set);
    if set.below(&offsets.set()) {
        Some(offsets)
    } else {
        None
    }
}

/// The size of an object.
fn size_at(sizes: &[u32], object: i128) -> Option<(u32, u32)>
    requires { length sizes.now ≤ 2 ^ 32 }
    ensures { MatchOption result (IsNoObject sizes.now object) (λ found. IsObject sizes.now object found.0 found.1) }
{
    match u32::try_from(object) {
        Err(_) => None,
        Ok(number) => match sizes.get(number as usize) {
            None => None,
            Some(size) => Some((number, *size)),
        },
    }
}

/// The object with which the words begin, and its offsets, in four words. The number of the object is the bound at
/// least.
fn object_in(words: &[Word], sizes: &[u32], bound: u64) -> Option<(u32, Offsets)>
    requires lawful { AreWords (words_of words.now) }
    requires few { length sizes.now ≤ 2 ^ 32 }
    ensures object { MatchOption result (HasNoEntry object_onto (FitsObject sizes.now) IsNoWord bound (words_of words.now))
        (λ found. IsNextEntry object_onto (FitsObject sizes.now) IsNoWord bound (words_of words.now)
        (found.0, found.1) (words_of (drop 4 words.now))) }
    ensures long { IfSome result (λ found. 4 ≤ length words.now) }
{
    let Some((number, behind)) = first_number(words) else {
        return None;
    };
    let Some((object, size)) = size_at(sizes, number) else {
        return None;
    };
    if u64::from(object) < bound {
        return None;
    }
    let Some(found) = set_in(behind) else {
        return None;
    };
    match offsets_of(size, &found.0) {
        None => None,
        Some(offsets) => Some((object, offsets)),
    }
}

/// The objects that the words are, each with its offsets.
pub fn objects_in(
    alloc: Global,
    words: &[Word],
    sizes: &[u32],
) -> Result<Option<ObjectTable>, NoMemory>
    requires lawful { AreWords (words_of words.now) }
    requires few { length sizes.now ≤ 2 ^ 32 }
    ensures { IfOk result (λ found. MatchOption found (HasNoObjects sizes.now (words_of words.now))
        (λ t. AreEntries object_onto (FitsObject sizes.now) IsNoWord (words_of words.now) (entries t) [])) }
{
    let mut objects = ObjectTable::new(alloc);
    let mut at = 0;
    let mut bound = 0u64;
    while at < words.len() {
        match object_in(&words[at..], sizes, bound) {
            None => return Ok(None),
            Some(found) => {
                objects.put(found.0, found.1)?;
                bound = u64::from(found.0) + 1;
                at += 4;
            }
        }
    }
    Ok(Some(objects))
}

/// Whether the first word is 1, and the words behind it: none where it is neither 0 nor 1.
fn bit_in<'w, 'a>(words: &'w [Word<'a>]) -> Option<(bool, &'w [Word<'a>])>
    ensures { MatchOption result (BeginsWithNoBit (words_of words.now))
        (λ found. words_of words.now ≡ bit_word found.0 ∷ words_of found.1.now) }
{
    let Some((number, more)) = first_number(words) else {
        return None;
    };
    if number == 0 {
        return Some((false, more));
    }
    if number == 1 {
        return Some((true, more));
    }
    None
}

/// The pointers that the words are: whether null and the invalid pointer are there, as 0 or 1, and then the objects. Of
/// each object this is the number of its cells.
pub fn pointers_in(
    alloc: Global,
    words: &[Word],
    sizes: &[u32],
) -> Result<Option<PointerSet>, NoMemory>
    requires lawful { AreWords (words_of words.now) }
    requires few { length sizes.now ≤ 2 ^ 32 }
    ensures { IfOk result (λ found. MatchOption found (HasNoPointers sizes.now (words_of words.now))
        (ArePointers sizes.now (words_of words.now))) }
{
    let Some((null, behind)) = bit_in(words) else {
        return Ok(None);
    };
    let Some((invalid, more)) = bit_in(behind) else {
        return Ok(None);
    };
    match objects_in(alloc, more, sizes)? {
        None => Ok(None),
        Some(objects) => Ok(Some(PointerSet::from_parts(null, invalid, objects))),
    }
}
