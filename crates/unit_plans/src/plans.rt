//! From the tokens of the units to what becomes of them.

ghost use Rattle.std.specs.Prelude.{◌≡◌, IfErr, IfOk, List, None, Some, map};
ghost use Rattle.std.specs.Option.{option_or};
ghost use Rattle.unit_plans.specs.Linkages.{Lists};
ghost use Rattle.unit_plans.specs.Plans.{AreFates, IsRefusal, cause_by, fate_of, fates_by, fault_of, first_fault};
ghost use Rattle.unit_plans.specs.Plans.{is_end_of, linkage_at, linkage_by, linkage_of, open_place, parted_of};
ghost use Rattle.unit_plans.specs.Plans.{shared_by, shared_of, twice_by, twice_for, twice_of};
ghost use Rattle.unit_plans.specs.Linkages.{lists_of};
ghost use Rattle.unit_plans.specs.reading.Tables.{AreTables};

use crate::causes::{Cause, JoinFail};
use crate::copies::{knowns_of, name_of};
use crate::declarations::{Known, Local, Sight};
use crate::linkages::{
    Tables, common_name, defined_name, defined_token, internal_name, is_linked, is_renamed,
    known_at, known_named, name_like, tables_of,
};
use crate::scans::sights_of;
use crate::tables::first_named;
use std::alloc::Global;
use tm_lattice::NoMemory;
use tm_terms::{Place, Token};
use unit_tokens::Fate;

/// Whether no further token is of the unit.
fn is_end_of(unit: usize, sights: &[Sight]) -> bool
    ensures { result ≡ is_end_of unit sights.now }
{
    match sights {
        [sight, ..] => sight.unit != unit,
        [] => true,
    }
}

/// The last token of the first unit that ends in a declaration.
fn open_place(sights: &[Sight]) -> Option<Place>
    ensures { result ≡ open_place sights.now }
{
    let mut left = sights;
    while let [sight, rest @ ..] = left {
        if !sight.ends && is_end_of(sight.unit, rest) {
            return Some(sight.token.place);
        }
        left = rest;
    }
    None
}

fn linkage_by(one: Option<Known>, other: Option<Known>) -> Option<Cause>
    ensures { result ≡ linkage_by one other }
{
    let Some(one) = one else {
        return None;
    };
    match other {
        Some(other) => Some(Cause::Linkage(one.sight.token.place, other.sight.token.place)),
        None => None,
    }
}

fn linkage_at(knowns: &[Known], external: Option<usize>, internal: Option<usize>) -> Option<Cause>
    ensures { result ≡ linkage_at knowns.now external internal }
{
    let Some(first) = external else {
        return None;
    };
    match internal {
        Some(second) => {
            if first < second {
                linkage_by(
                    known_at(knowns, Some(first)),
                    known_at(knowns, Some(second)),
                )
            } else {
                None
            }
        }
        None => None,
    }
}

/// Whether a name has internal linkage or none behind a declaration with external linkage.
fn linkage_of(knowns: &[Known], tables: &Tables, name: Option<Local>) -> Option<Cause>
    ensures { (lists : Lists) → AreTables tables.now lists → result ≡ linkage_of knowns.now lists name }
{
    match name {
        Some(name) => linkage_at(
            knowns,
            first_named(&tables.externals, name),
            first_named(&tables.internals, name),
        ),
        None => None,
    }
}

fn twice_by(one: Option<Token>, other: Option<Token>) -> Option<Cause>
    ensures { result ≡ twice_by one other }
{
    let Some(one) = one else {
        return None;
    };
    match other {
        Some(other) => Some(Cause::Twice(one.place, other.place)),
        None => None,
    }
}

fn twice_for(known: Known, first: Option<Known>) -> Option<Cause>
    ensures { result ≡ twice_for known first }
{
    match first {
        Some(first) => {
            if first.sight.unit == known.sight.unit {
                None
            } else {
                twice_by(defined_token(first), defined_token(known))
            }
        }
        None => None,
    }
}

/// Whether what is defined here another unit defines before.
fn twice_of(knowns: &[Known], tables: &Tables, known: Known) -> Option<Cause>
    ensures { (lists : Lists) → AreTables tables.now lists → result ≡ twice_of knowns.now lists known }
{
    let name = defined_name(&tables.internals, known);
    twice_for(known, known_named(knowns, &tables.definitions, name))
}

fn shared_by(known: Known, first: Option<Known>) -> Option<Cause>
    ensures { result ≡ shared_by known first }
{
    match first {
        Some(first) => Some(Cause::Shared(first.sight.token.place, known.sight.token.place)),
        None => None,
    }
}

/// Whether a name has external linkage here that units share without linkage.
fn shared_of(knowns: &[Known], tables: &Tables, known: Known) -> Option<Cause>
    ensures { (lists : Lists) → AreTables tables.now lists → result ≡ shared_of knowns.now lists known }
{
    if is_linked(tables, name_of(known.sight)) {
        let first = known_named(knowns, &tables.shareds, common_name(known.sight));
        shared_by(known, first)
    } else {
        None
    }
}

/// Whether a name of a declaration that is left out is one of a unit alone.
fn parted_of(tables: &Tables, known: Known, like: Option<Sight>) -> Option<Cause>
    ensures { (lists : Lists) → AreTables tables.now lists → result ≡ parted_of lists known like }
{
    match like {
        Some(other) => {
            let common = common_name(known.sight);
            if is_renamed(tables, name_of(known.sight), common)
                || is_renamed(tables, name_like(known.sight, Some(other)), common)
            {
                let place = known.sight.token.place;
                Some(Cause::Shared(place, place))
            } else {
                None
            }
        }
        None => None,
    }
}

fn first_of(one: Option<Cause>, other: Option<Cause>) -> Option<Cause>
    ensures { result ≡ option_or one other }
{
    match one {
        Some(one) => Some(one),
        None => other,
    }
}

/// Why units with a token are refused.
fn fault_of(knowns: &[Known], tables: &Tables, known: Known) -> Option<Cause>
    ensures { (lists : Lists) → AreTables tables.now lists → result ≡ fault_of knowns.now lists known }
{
    let linkage = linkage_of(knowns, tables, internal_name(known));
    let twice = twice_of(knowns, tables, known);
    let shared = shared_of(knowns, tables, known);
    let parted = parted_of(tables, known, known.like);
    first_of(linkage, first_of(twice, first_of(shared, parted)))
}

/// Why units are refused.
fn first_fault(knowns: &[Known], tables: &Tables) -> Option<Cause>
    ensures { (lists : Lists) → AreTables tables.now lists → result ≡ first_fault knowns.now lists knowns.now }
{
    let mut left = knowns;
    while let [known, rest @ ..] = left {
        let fault = fault_of(knowns, tables, *known);
        if fault.is_some() {
            return fault;
        }
        left = rest;
    }
    None
}

fn fate_of(tables: &Tables, known: Known) -> Fate
    ensures { (lists : Lists) → AreTables tables.now lists → result ≡ fate_of lists known }
{
    match known.like {
        Some(other) => Fate::LeftOut(other.number),
        None => {
            if is_renamed(tables, name_of(known.sight), common_name(known.sight)) {
                Fate::Renamed
            } else {
                Fate::Stays
            }
        }
    }
}

fn fates_by(alloc: Global, knowns: &[Known], tables: &Tables) -> Result<Vec<Fate>, NoMemory>
    ensures { IfOk result (λ fates. (lists : Lists) → AreTables tables.now lists
        → fates.items ≡ map (fate_of lists) knowns.now) }
{
    let mut fates = Vec::new(alloc);
    for known in knowns {
        fates.push(fate_of(tables, *known))?;
    }
    Ok(fates)
}

/// What becomes of the tokens of units that stand behind border lines.
pub fn fates_of_units(
    alloc: Global,
    borders: &[u32],
    tokens: &[Token],
) -> Result<Vec<Fate>, JoinFail>
    // The units are not refused, and this becomes of their tokens.
    ensures ok { IfOk result (λ fates. AreFates borders.now tokens.now fates.items) }

    // What is refused has its cause, and this is the first.
    ensures refused { IfErr result (IsRefusal borders.now tokens.now) }
{
    let sights = sights_of(alloc, borders, tokens)?;
    if let Some(place) = open_place(&sights) {
        return Err(JoinFail::Refused(Cause::Open(place)));
    }
    let knowns = knowns_of(alloc, &sights)?;
    let tables = tables_of(alloc, &knowns)?;
    if let Some(cause) = first_fault(&knowns, &tables) {
        return Err(JoinFail::Refused(cause));
    }
    let fates = fates_by(alloc, &knowns, &tables)?;
    Ok(fates)
}
