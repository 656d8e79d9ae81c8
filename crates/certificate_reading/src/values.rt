//! Values from their words.
ghost use Rattle.std.specs.Prelude.{◌≡◌, ◌≢◌, ◌↔◌, ◌<◌, ◌≤◌, ◌^◌, [], ◌∷◌, codes, length, IfOk, IsTrue, MatchOption};
ghost use Rattle.strided_dom.specs.Progression.{empty};
ghost use Rattle.tm_laid.specs.Layouts.{abstract_at, laid_tree};
ghost use Rattle.pointer_dom.specs.PointerSets.{no_pointer};
ghost use Rattle.pointer_dom.specs.Values.{no_value};
ghost use Rattle.transfer_rows.specs.StateForms.{only_pointers};
ghost use Rattle.temporary_extents.specs.Extents.{AreBetween, IsWithin};
ghost use Rattle.post_recheck.specs.typed_values.Types.{IsOfType};
ghost use Rattle.certificate_words.specs.Words.{AreWords, tag};
ghost use Rattle.certificate_words.specs.Lines.{words_of};
ghost use Rattle.certificate_reading.specs.Values.{AreSizes, IsPointing, IsReadValue, LiesBetween};

use certificate_parts::{are_words, behind, pointers_in, set_in};
use certificate_words::Word;
use pointer_dom::{AbsValue, PointerSet};
use std::alloc::Global;
use strided_dom::Strided;
use temporary_extents::{Extent, scalar_extent};
use tm_laid::Laid;
use tm_lattice::{Lattice, NoMemory};

/// Whether the words say that there is no value.
fn is_nothing(words: &[Word]) -> bool
    ensures { IsTrue result ↔ (words_of words.now ≡ tag (codes "e") ∷ []) }
{
    are_words(words, b"e", &[])
}

/// No value.
fn nothing() -> AbsValue
    ensures { result ≡ no_value }
{
    AbsValue::from_numbers(Strided::empty())
}

/// Whether all numbers of a set lie between these.
fn lies_between(set: &Strided, low: i128, high: i128) -> bool
    requires { set.now ≢ empty }
    ensures { IsTrue result ↔ LiesBetween low high set.now }
{
    if set.lo() < low {
        return false;
    }
    if high < set.hi() {
        return false;
    }
    true
}

/// The value that the words are, of numbers that lie between these.
fn between_in(words: &[Word], low: i128, high: i128) -> Option<AbsValue>
    requires { AreWords (words_of words.now) }
    ensures { IsReadValue (AreBetween low high) (words_of words.now) result }
{
    if is_nothing(words) {
        return Some(nothing());
    }
    let Some(rest) = behind(words, b"i", &[]) else {
        return None;
    };
    let Some(found) = set_in(rest) else {
        return None;
    };
    if !found.1.is_empty() {
        return None;
    }
    if !lies_between(&found.0, low, high) {
        return None;
    }
    Some(AbsValue::from_numbers(found.0))
}

/// The value of pointers, where there are some.
fn some_pointers(pointers: PointerSet) -> Option<AbsValue>
    ensures { MatchOption result (pointers ≡ no_pointer)
        (λ value. (value ≡ only_pointers pointers) × (pointers ≢ no_pointer)) }
{
    let value = AbsValue::from_pointers(pointers);
    if value.is_nothing() {
        None
    } else {
        Some(value)
    }
}

/// The value that the words are, of pointers.
fn pointing_in(
    alloc: Global,
    words: &[Word],
    laid: &Laid,
    sizes: &[u32],
) -> Result<Option<AbsValue>, NoMemory>
    requires lawful { AreWords (words_of words.now) }
    requires sizes { AreSizes (laid_tree laid.now) sizes.now }
    requires few { length sizes.now ≤ 2 ^ 32 }
    ensures { IfOk result (IsReadValue (IsPointing (laid_tree laid.now)) (words_of words.now)) }
{
    if is_nothing(words) {
        return Ok(Some(nothing()));
    }
    let Some(rest) = behind(words, b"p", &[]) else {
        return Ok(None);
    };
    match pointers_in(alloc, rest, sizes)? {
        None => Ok(None),
        Some(pointers) => Ok(some_pointers(pointers)),
    }
}

/// The value that the words are, within an extent.
pub(crate) fn value_in(
    alloc: Global,
    words: &[Word],
    laid: &Laid,
    sizes: &[u32],
    extent: &Extent,
) -> Result<Option<AbsValue>, NoMemory>
    requires lawful { AreWords (words_of words.now) }
    requires sizes { AreSizes (laid_tree laid.now) sizes.now }
    requires few { length sizes.now ≤ 2 ^ 32 }
    ensures { IfOk result (IsReadValue (IsWithin (laid_tree laid.now) extent.now) (words_of words.now)) }
{
    match extent {
        Extent::Nothing => {
            if is_nothing(words) {
                Ok(Some(nothing()))
            } else {
                Ok(None)
            }
        }
        Extent::Between { low, high } => Ok(between_in(words, *low, *high)),
        Extent::Pointers => pointing_in(alloc, words, laid, sizes),
    }
}

/// The value of a cell that the words are. None where they are those of no value of the cell's type.
pub(crate) fn cell_value_in(
    alloc: Global,
    words: &[Word],
    laid: &Laid,
    sizes: &[u32],
    cell: u32,
) -> Result<Option<AbsValue>, NoMemory>
    requires lawful { AreWords (words_of words.now) }
    requires sizes { AreSizes (laid_tree laid.now) sizes.now }
    requires few { length sizes.now ≤ 2 ^ 32 }
    requires cell { cell < length laid.now.abstract_cells.items }
    ensures { let a = abstract_at (laid_tree laid.now) cell in
        IfOk result (IsReadValue (IsOfType (laid_tree laid.now) a.scalar) (words_of words.now)) }
{
    let extent = scalar_extent(laid.abstract_cells[cell as usize].scalar);
    value_in(alloc, words, laid, sizes, &extent)
}
