//! What a text tells of alarms, read back from it.

ghost use Rattle.std.specs.Prelude.{◌≡◌, ◌++◌, ◌<◌, ◌↔◌, ℕ, List, None, Some, length, map};
ghost use Rattle.std.specs.Prelude.{IfOk, IfSome, IsErrOf, IsTrue, OnOk, string_bytes};
ghost use Rattle.tm_terms.specs.Texts.{class_text, place_text};
ghost use Rattle.report_reading.specs.Listings.{HasSmallNumbers};
ghost use Rattle.report_reading.specs.Ways.{AreTellable, IsNoWays, IsTellable, Way as AWay};
ghost use Rattle.report_reading.specs.Ways.{way_line, way_text, ways_text};
ghost use Rattle.report_reading.specs.reading.Told.{IsFirst, IsSaid, told_before, way_kind_of, way_seen, words_of};

use crate::alarms::class_of;
use crate::assumptions::place_words;
use crate::listings::{ListingFail, place_of};
use std::alloc::{AllocError, Global};
use tm_cint::Class;
use tm_terms::{Place, class_word};

/// What it is that is told of an alarm.
#[derive(Clone, Copy, PartialEq, Eq)]
pub enum WayKind {
    /// What the alarm races with, or where the object of the race is declared.
    With,
    /// A call path on which control comes to the alarm, from its innermost place.
    Path,
    /// A call of the path told last, from the innermost one on.
    Call,
}

/// One thing that is told of the alarm of a class at a place: what it is, where that stands, and a sentence.
#[derive(Clone, Copy)]
pub struct Way<'a> {
    pub place: Place,
    pub class: Class,
    pub kind: WayKind,
    pub site: Place,
    pub said: &'a str,
}

/// The word of a kind.
fn way_word(kind: WayKind) -> &'static str
    ensures { result.now ≡ way_text kind }
{
    match kind {
        WayKind::With => "with",
        WayKind::Path => "path",
        WayKind::Call => "call",
    }
}

/// The kind with this word.
fn way_kind_of(word: &str) -> Option<WayKind>
    ensures { result ≡ way_kind_of word.now }
{
    match word {
        "with" => Some(WayKind::With),
        "path" => Some(WayKind::Path),
        "call" => Some(WayKind::Call),
        _ => None,
    }
}

/// What is told of an alarm, where there are all its parts.
fn joined<'a>(
    place: Option<Place>,
    class: Option<Class>,
    kind: Option<WayKind>,
    site: Option<Place>,
    said: &'a str,
) -> Option<Way<'a>>
    ensures { (w : AWay) → place ≡ Some w.place → class ≡ Some w.class → kind ≡ Some w.kind → site ≡ Some w.site
        → said.now ≡ w.said → IsSaid result w }
{
    match (place, class, kind, site) {
        (Some(place), Some(class), Some(kind), Some(site)) => Some(Way {
            place,
            class,
            kind,
            site,
            said,
        }),
        _ => None,
    }
}

/// What the words of a line tell, where the last of them are a sentence.
fn told<'a>(place: &str, class: &str, kind: &str, site: &str, said: &'a str) -> Option<Way<'a>>
    ensures { (w : AWay) → HasSmallNumbers w.place → HasSmallNumbers w.site → place.now ≡ place_text w.place
        → class.now ≡ class_text w.class → kind.now ≡ way_text w.kind → site.now ≡ place_text w.site → said.now ≡ w.said
        → IsSaid result w }
{
    joined(
        place_of(place),
        class_of(class),
        way_kind_of(kind),
        place_of(site),
        said,
    )
}

/// What a line tells.
fn way_in(line: &str) -> Option<Way<'_>>
    ensures { (w : AWay) → IsTellable w → line.now ≡ words_of w → IsSaid result w }
{
    let (place, behind) = line.split_once(' ')?;
    let (class, behind) = behind.split_once(' ')?;
    let (kind, behind) = behind.split_once(' ')?;
    let (site, said) = behind.split_once(' ')?;
    told(place, class, kind, site, said)
}

/// What the first line of a text tells, and the text behind that line.
fn first_way(text: &str) -> Option<(Way<'_>, &str)>
    ensures line { (w : AWay) (rest : List ℕ) → IsTellable w → text.now ≡ told_before w rest → IsFirst result w rest }
    ensures smaller { IfSome result (λ found. length found.1.now < length text.now) }
{
    let (line, rest) = text.split_once('\n')?;
    let way = way_in(line)?;
    Some((way, rest))
}

/// What the lines tell that a text begins with.
fn ways_in(alloc: Global, text: &str) -> Result<Vec<Way<'_>>, AllocError>
    ensures { IfOk result (λ found. (list : List AWay) → AreTellable list → text.now ≡ ways_text list
        → map way_seen found.items ≡ list) }
{
    let mut ways = Vec::new(alloc);
    let mut rest = text;
    while let Some((way, behind)) = first_way(rest) {
        ways.push(way)?;
        rest = behind;
    }
    Ok(ways)
}

/// The line that tells something of an alarm.
fn way_line(alloc: Global, way: Way<'_>) -> Result<String, AllocError>
    ensures { IfOk result (λ line. string_bytes line ≡ way_line (way_seen way.entry)) }
{
    let place = place_words(alloc, way.place)?;
    let class = class_word(way.class);
    let kind = way_word(way.kind);
    let site = place_words(alloc, way.site)?;
    let said = way.said;
    let mut line = format!(in alloc; "{place} {class} {kind} {site} {said}")?;
    line.push('\n')?;
    Ok(line)
}

/// Adds the line that tells something of an alarm.
fn push_way(alloc: Global, text: &mut Vec<u8>, way: Way<'_>) -> Result<(), AllocError>
    ensures { OnOk result (text.new.items ≡ text.old.items ++ way_line (way_seen way.entry)) }
{
    let line = way_line(alloc, way)?;
    text.extend_from_slice(line.as_bytes())?;
    Ok(())
}

/// The text that tells ways.
fn written(alloc: Global, ways: &[Way<'_>]) -> Result<Vec<u8>, AllocError>
    ensures { IfOk result (λ text. text.items ≡ ways_text (map way_seen ways.now)) }
{
    let mut text = Vec::new(alloc);
    for way in ways {
        push_way(alloc, &mut text, *way)?;
    }
    Ok(text)
}

/// Whether a text tells these ways.
fn tells(alloc: Global, text: &[u8], ways: &[Way<'_>]) -> Result<bool, AllocError>
    ensures { IfOk result (λ same. IsTrue same ↔ (text.now ≡ ways_text (map way_seen ways.now))) }
{
    let written = written(alloc, ways)?;
    Ok(text == written.as_slice())
}

/// What a text tells of alarms; the empty text tells nothing.
pub fn read_ways(alloc: Global, text: &[u8]) -> Result<Vec<Way<'_>>, ListingFail>
    // The text tells these ways, each once and in this order, and has nothing else.
    ensures ok { IfOk result (λ ways. text.now ≡ ways_text (map way_seen ways.items)) }

    // The text is no UTF-8, or tells no ways.
    ensures not_listing { IsErrOf result ListingFail.NotListing → IsNoWays text.now }
{
    let Ok(words) = std::str::from_utf8(text) else {
        return Err(ListingFail::NotListing);
    };
    let Ok(ways) = ways_in(alloc, words) else {
        return Err(ListingFail::NoMemory);
    };
    match tells(alloc, text, &ways) {
        Ok(true) => Ok(ways),
        Ok(false) => Err(ListingFail::NotListing),
        Err(AllocError) => Err(ListingFail::NoMemory),
    }
}
