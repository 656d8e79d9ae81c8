//! The places that a text lists, read back from it.

ghost use Rattle.std.specs.Prelude.{◌≡◌, ◌<◌, ◌^◌, ◌↔◌, ℕ, List, None, Some, length, decimal};
ghost use Rattle.std.specs.Prelude.{IfOk, IfSome, IsErrOf, IsTrue};
ghost use Rattle.tm_terms.specs.declared.places.Place.{Place as APlace};
ghost use Rattle.tm_terms.specs.Texts.{place_text};
ghost use Rattle.report_reading.specs.Listings.{HasSmallNumbers, HaveSmallNumbers, IsNoListing, listing_text};
ghost use Rattle.report_reading.specs.reading.Listed.{IsFound, count_line, line_before, word_text};

use solution_lines::{push_dead_places, waits_text};
use std::alloc::Global;
use tm_lattice::NoMemory;
use tm_terms::Place;

/// A text that lists places.
#[derive(Clone, Copy, PartialEq, Eq)]
pub enum Listing {
    /// The answer of `waits`: the locks at which tasks may wait for each other in a ring.
    Waits,
    /// What the answer of `ranges` has behind the bounds of objects: the places that no run reaches.
    Dead,
}

/// Why a text lists no places.
#[derive(Clone, Copy, PartialEq, Eq)]
pub enum ListingFail {
    /// It is no such text.
    NotListing,
    /// Memory ran out.
    NoMemory,
}

/// The word behind each place.
fn word_of(listing: Listing) -> &'static str
    ensures { result.now ≡ word_text listing }
{
    match listing {
        Listing::Waits => "WAIT",
        Listing::Dead => "DEAD",
    }
}

/// The number of 32 bits that a text writes.
fn number_of(text: &str) -> Option<u32>
    ensures { (n : ℕ) → n < 2 ^ 32 → text.now ≡ decimal n → result ≡ Some n }
{
    match text.parse::<u32>() {
        Ok(number) => Some(number),
        Err(_) => None,
    }
}

/// The place with a line and a column, where there are both.
fn joined(line: Option<u32>, col: Option<u32>) -> Option<Place>
    ensures { (place : APlace) → line ≡ Some place.line → col ≡ Some place.col → result ≡ Some place }
{
    match (line, col) {
        (Some(line), Some(col)) => Some(Place { line, col }),
        _ => None,
    }
}

/// The place that a text writes as LINE:COL.
pub fn place_of(text: &str) -> Option<Place>
    ensures { (place : APlace) → HasSmallNumbers place → text.now ≡ place_text place → result ≡ Some place }
{
    match text.split_once(':') {
        Some((line, col)) => joined(number_of(line), number_of(col)),
        None => None,
    }
}

/// The place that stands before a word, and the text behind the line, where the word is that of the listing.
fn placed<'a>(place: &str, word: &str, rest: &'a str, listing: Listing) -> Option<(Place, &'a str)>
    ensures line { (p : APlace) → HasSmallNumbers p → place.now ≡ place_text p → word.now ≡ word_text listing
        → IsFound result p rest.now }
    ensures other { (word.now ≡ word_text listing → ⊥) → result ≡ None }
    ensures rest { IfSome result (λ found. found.1.now ≡ rest.now) }
{
    if word != word_of(listing) {
        return None;
    }
    match place_of(place) {
        Some(place) => Some((place, rest)),
        None => None,
    }
}

/// The place that the first line of a text lists, and the text behind that line.
fn first_place(text: &str, listing: Listing) -> Option<(Place, &str)>
    ensures line { (place : APlace) (rest : List ℕ) → HasSmallNumbers place
        → text.now ≡ line_before listing place rest → IsFound result place rest }
    ensures last { (count : ℕ) → count < 2 ^ 64 → text.now ≡ count_line listing count → result ≡ None }
    ensures smaller { IfSome result (λ found. length found.1.now < length text.now) }
{
    match text.split_once(' ') {
        Some((place, behind)) => match behind.split_once('\n') {
            Some((word, rest)) => placed(place, word, rest, listing),
            None => None,
        },
        None => None,
    }
}

/// The places of the lines that a text begins with.
fn places_in(alloc: Global, text: &str, listing: Listing) -> Result<Vec<Place>, NoMemory>
    ensures { IfOk result (λ found. (places : List APlace) → HaveSmallNumbers places → length places < 2 ^ 64
        → text.now ≡ listing_text listing places → found.items ≡ places) }
{
    let mut places = Vec::new(alloc);
    let mut rest = text;
    while let Some((place, behind)) = first_place(rest, listing) {
        places.push(place)?;
        rest = behind;
    }
    Ok(places)
}

/// The text that lists places.
fn written(alloc: Global, places: &[Place], listing: Listing) -> Result<Vec<u8>, NoMemory>
    ensures { IfOk result (λ text. text.items ≡ listing_text listing places.now) }
{
    match listing {
        Listing::Waits => {
            let text = waits_text(alloc, places)?;
            match Vec::from_slice(alloc, text.as_bytes()) {
                Ok(text) => Ok(text),
                Err(_) => Err(NoMemory),
            }
        }
        Listing::Dead => {
            let mut text = Vec::new(alloc);
            push_dead_places(alloc, &mut text, places)?;
            Ok(text)
        }
    }
}

/// Whether a text lists these places.
fn lists(alloc: Global, text: &[u8], places: &[Place], listing: Listing) -> Result<bool, NoMemory>
    ensures { IfOk result (λ same. IsTrue same ↔ (text.now ≡ listing_text listing places.now)) }
{
    let written = written(alloc, places, listing)?;
    Ok(text == written.as_slice())
}

/// The places that a text lists.
pub fn read_places(alloc: Global, text: &[u8], listing: Listing) -> Result<Vec<Place>, ListingFail>
    // The text lists these places, each once and in this order, and has nothing else.
    ensures ok { IfOk result (λ places. text.now ≡ listing_text listing places.items) }

    // The text lists no places.
    ensures not_listing { IsErrOf result ListingFail.NotListing → IsNoListing listing text.now }
{
    let Ok(words) = std::str::from_utf8(text) else {
        return Err(ListingFail::NotListing);
    };
    let Ok(places) = places_in(alloc, words, listing) else {
        return Err(ListingFail::NoMemory);
    };
    match lists(alloc, text, &places, listing) {
        Ok(true) => Ok(places),
        Ok(false) => Err(ListingFail::NotListing),
        Err(NoMemory) => Err(ListingFail::NoMemory),
    }
}
