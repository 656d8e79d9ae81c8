//! Sets of numbers from their words.
ghost use Rattle.std.specs.Prelude.{◌≡◌, ◌↔◌, ◌≤ℤ◌, pos, IsTrue, MatchOption};
ghost use Rattle.strided_dom.specs.Progression.{Progression};
ghost use Rattle.certificate_words.specs.Words.{AreWords};
ghost use Rattle.certificate_words.specs.Lines.{words_of};
ghost use Rattle.certificate_parts.specs.Sets.{BeginsWithNoSet, BeginsWithSet, IsNoSet, IsSetOf, IsShort};

use crate::words::first_number;
use certificate_words::Word;
use strided_dom::Strided;

/// Whether a set has these ends and this stride.
fn is_set_of(set: &Strided, low: i128, high: i128, stride: i128) -> bool
    ensures { IsTrue result ↔ IsSetOf set.now low high stride }
{
    if set.is_empty() {
        return false;
    }
    if set.lo() != low {
        return false;
    }
    if set.hi() != high {
        return false;
    }
    if set.stride() != stride {
        return false;
    }
    true
}

/// The one set that may have these ends and this stride.
fn only_set(low: i128, high: i128, stride: i128) -> Strided
    requires low { IsShort low }
    requires high { IsShort high }
    requires stride { pos 0 ≤ℤ stride }
    ensures { (s : Progression) → IsSetOf s low high stride → s ≡ result }
{
    if stride == 0 {
        return Strided::one(low);
    }
    Strided::range(low, high, stride)
}

/// The set with this least number, this greatest number and this stride, where there is one.
pub fn set_of(low: i128, high: i128, stride: i128) -> Option<Strided>
    requires low { IsShort low }
    requires high { IsShort high }
    ensures { MatchOption result (IsNoSet low high stride) (λ set. IsSetOf set low high stride) }
{
    if stride < 0 {
        return None;
    }
    let set = only_set(low, high, stride);
    if is_set_of(&set, low, high, stride) {
        Some(set)
    } else {
        None
    }
}

/// The set of which the words begin with the words, and the words behind them.
pub fn set_in<'w, 'a>(words: &'w [Word<'a>]) -> Option<(Strided, &'w [Word<'a>])>
    requires lawful { AreWords (words_of words.now) }
    ensures { MatchOption result (BeginsWithNoSet (words_of words.now))
        (λ found. BeginsWithSet (words_of words.now) found.0 (words_of found.1.now)) }
{
    let Some((low, behind_low)) = first_number(words) else {
        return None;
    };
    let Some((high, behind_high)) = first_number(behind_low) else {
        return None;
    };
    let Some((stride, more)) = first_number(behind_high) else {
        return None;
    };
    match set_of(low, high, stride) {
        None => None,
        Some(set) => Some((set, more)),
    }
}
