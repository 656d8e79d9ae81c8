//! The assumptions that a text lists, read back from it.

ghost use Rattle.std.specs.Prelude.{◌≡◌, ◌++◌, ◌<◌, ◌^◌, ◌↔◌, ℕ, List, None, Some, length, decimal};
ghost use Rattle.std.specs.Prelude.{IfOk, IfSome, IsErrOf, IsTrue, OnOk, string_bytes};
ghost use Rattle.tm_terms.specs.Texts.{place_text};
ghost use Rattle.report_reading.specs.declared.assumptions.Assumption.{Assumption as AnAssumption};
ghost use Rattle.report_reading.specs.declared.assumptions.AssumptionKind.{AssumptionKind as AKind};
ghost use Rattle.report_reading.specs.Assumptions.{HavePlacesInRange, IsNoAssumptions, assumption_line};
ghost use Rattle.report_reading.specs.Assumptions.{assumptions_text, kind_text, number_line};
ghost use Rattle.report_reading.specs.Listings.{HasSmallNumbers};
ghost use Rattle.report_reading.specs.reading.Assumed.{IsTaken, kind_of, number_line_of, taken_before};

use crate::listings::{ListingFail, place_of};
use std::alloc::{AllocError, Global};
use tm_terms::Place;

/// What a compiler decides at a place, in the order of the words: `docs/ASSUMPTIONS.md` explains each kind.
#[derive(Clone, Copy, PartialEq, Eq)]
pub enum AssumptionKind {
    Const,
    Enum,
    Implementation,
    Layout,
    Lifetime,
    Member,
    Order,
    Pragma,
    Reserved,
    Restrict,
    Unset,
}

/// A place whose meaning in a compiled program depends on a choice of the compiler.
#[derive(Clone, Copy, PartialEq, Eq)]
pub struct Assumption {
    pub place: Place,
    pub kind: AssumptionKind,
}

/// The word of a kind.
pub fn kind_word(kind: AssumptionKind) -> &'static str
    ensures { result.now ≡ kind_text kind }
{
    match kind {
        AssumptionKind::Const => "CONST",
        AssumptionKind::Enum => "ENUM",
        AssumptionKind::Implementation => "IMPLEMENTATION",
        AssumptionKind::Layout => "LAYOUT",
        AssumptionKind::Lifetime => "LIFETIME",
        AssumptionKind::Member => "MEMBER",
        AssumptionKind::Order => "ORDER",
        AssumptionKind::Pragma => "PRAGMA",
        AssumptionKind::Reserved => "RESERVED",
        AssumptionKind::Restrict => "RESTRICT",
        AssumptionKind::Unset => "UNSET",
    }
}

/// The kind with this word.
fn kind_of(word: &str) -> Option<AssumptionKind>
    ensures { result ≡ kind_of word.now }
{
    match word {
        "CONST" => Some(AssumptionKind::Const),
        "ENUM" => Some(AssumptionKind::Enum),
        "IMPLEMENTATION" => Some(AssumptionKind::Implementation),
        "LAYOUT" => Some(AssumptionKind::Layout),
        "LIFETIME" => Some(AssumptionKind::Lifetime),
        "MEMBER" => Some(AssumptionKind::Member),
        "ORDER" => Some(AssumptionKind::Order),
        "PRAGMA" => Some(AssumptionKind::Pragma),
        "RESERVED" => Some(AssumptionKind::Reserved),
        "RESTRICT" => Some(AssumptionKind::Restrict),
        "UNSET" => Some(AssumptionKind::Unset),
        _ => None,
    }
}

/// The assumption of a kind at a place, where there are both.
fn joined(place: Option<Place>, kind: Option<AssumptionKind>) -> Option<Assumption>
    ensures both { (a : AnAssumption) → place ≡ Some a.place → kind ≡ Some a.kind → result ≡ Some a }
    ensures no_kind { kind ≡ None → result ≡ None }
{
    match (place, kind) {
        (Some(place), Some(kind)) => Some(Assumption { place, kind }),
        _ => None,
    }
}

/// The assumption that a place and a word tell, and the text behind their line.
fn taken<'a>(place: &str, word: &str, rest: &'a str) -> Option<(Assumption, &'a str)>
    ensures line { (a : AnAssumption) → HasSmallNumbers a.place → place.now ≡ place_text a.place
        → word.now ≡ kind_text a.kind → IsTaken result a rest.now }
    ensures other { kind_of word.now ≡ None → result ≡ None }
    ensures rest { IfSome result (λ found. found.1.now ≡ rest.now) }
{
    match joined(place_of(place), kind_of(word)) {
        Some(assumption) => Some((assumption, rest)),
        None => None,
    }
}

/// The assumption that the first line of a text lists, and the text behind that line.
fn first_assumption(text: &str) -> Option<(Assumption, &str)>
    ensures line { (a : AnAssumption) (rest : List ℕ) → HasSmallNumbers a.place → text.now ≡ taken_before a rest
        → IsTaken result a rest }
    ensures last { (count : ℕ) → count < 2 ^ 64 → text.now ≡ number_line_of count → result ≡ None }
    ensures smaller { IfSome result (λ found. length found.1.now < length text.now) }
{
    match text.split_once(' ') {
        Some((place, behind)) => match behind.split_once('\n') {
            Some((word, rest)) => taken(place, word, rest),
            None => None,
        },
        None => None,
    }
}

/// The assumptions of the lines that a text begins with.
fn assumptions_in(alloc: Global, text: &str) -> Result<Vec<Assumption>, AllocError>
    ensures { IfOk result (λ found. (list : List AnAssumption) → HavePlacesInRange list → length list < 2 ^ 64
        → text.now ≡ assumptions_text list → found.items ≡ list) }
{
    let mut list = Vec::new(alloc);
    let mut rest = text;
    while let Some((assumption, behind)) = first_assumption(rest) {
        list.push(assumption)?;
        rest = behind;
    }
    Ok(list)
}

/// A place in words.
pub fn place_words(alloc: Global, place: Place) -> Result<String, AllocError>
    ensures { IfOk result (λ text. string_bytes text ≡ place_text place) }
{
    let line = place.line;
    let col = place.col;
    format!(in alloc; "{line}:{col}")
}

/// The line of an assumption.
fn assumption_line(alloc: Global, assumption: Assumption) -> Result<String, AllocError>
    ensures { IfOk result (λ line. string_bytes line ≡ assumption_line assumption) }
{
    let place = place_words(alloc, assumption.place)?;
    let word = kind_word(assumption.kind);
    format!(in alloc; "{place} {word}\n")
}

/// The line with the number of assumptions.
fn number_line(alloc: Global, count: usize) -> Result<String, AllocError>
    ensures { IfOk result (λ line. string_bytes line ≡ number_line count) }
{
    format!(in alloc; "assumptions {count}\n")
}

/// Adds the line of an assumption.
fn push_assumption(
    alloc: Global,
    text: &mut Vec<u8>,
    assumption: Assumption,
) -> Result<(), AllocError>
    ensures { OnOk result (text.new.items ≡ text.old.items ++ assumption_line assumption) }
{
    let line = assumption_line(alloc, assumption)?;
    text.extend_from_slice(line.as_bytes())?;
    Ok(())
}

/// The text that lists assumptions.
fn written(alloc: Global, list: &[Assumption]) -> Result<Vec<u8>, AllocError>
    ensures { IfOk result (λ text. text.items ≡ assumptions_text list.now) }
{
    let mut text = Vec::new(alloc);
    for assumption in list {
        push_assumption(alloc, &mut text, *assumption)?;
    }
    let number = number_line(alloc, list.len())?;
    text.extend_from_slice(number.as_bytes())?;
    Ok(text)
}

/// Whether a text lists these assumptions.
fn lists(alloc: Global, text: &[u8], list: &[Assumption]) -> Result<bool, AllocError>
    ensures { IfOk result (λ same. IsTrue same ↔ (text.now ≡ assumptions_text list.now)) }
{
    let written = written(alloc, list)?;
    Ok(text == written.as_slice())
}

/// The assumptions that a text lists.
pub fn read_assumptions(alloc: Global, text: &[u8]) -> Result<Vec<Assumption>, ListingFail>
    // The text lists these assumptions, each once and in this order, and has nothing else.
    ensures ok { IfOk result (λ list. text.now ≡ assumptions_text list.items) }

    // The text lists no assumptions.
    ensures not_listing { IsErrOf result ListingFail.NotListing → IsNoAssumptions text.now }
{
    let Ok(words) = std::str::from_utf8(text) else {
        return Err(ListingFail::NotListing);
    };
    let Ok(list) = assumptions_in(alloc, words) else {
        return Err(ListingFail::NoMemory);
    };
    match lists(alloc, text, &list) {
        Ok(true) => Ok(list),
        Ok(false) => Err(ListingFail::NotListing),
        Err(AllocError) => Err(ListingFail::NoMemory),
    }
}
