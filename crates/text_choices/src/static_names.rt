//! The objects of static storage by their names.
ghost use Rattle.std.specs.Prelude.{◌≡◌, ◌++◌, [], ◌∷◌, OnOk, OnErr, IfOk, map, slice_get};
ghost use Rattle.tm_typed.specs.TypedFiles.{typed_static_tree};
ghost use Rattle.text_choices.specs.Initialisers.{is_not_before};
ghost use Rattle.text_choices.specs.reading.Named.{last_position, last_at, named_static};

use indexmap::IndexMap;
use std::alloc::Global;
use std::marker::Model;
use tm_lattice::NoMemory;
use tm_terms::{Name, Place};
use tm_typed::TypedStatic;

// An object with its name and place, and the number of the one before it with the same name.
#[derive(Clone, Copy)]
struct Declared {
    name: Name,
    place: Place,
    before: Option<usize>,
}

/// Names with the places at which they are declared, in the order of a file, and where each name stands last: a look-up
/// goes over the objects of one name alone.
#[derive(Drop)]
pub(crate) struct StaticNames {
    declared: Vec<Declared>,
    latest: IndexMap<Name, Option<usize>>,
}

impl Model for StaticNames {
    ghost use Rattle.std.specs.Prelude.{List};
    ghost use Rattle.tm_terms.specs.declared.tokens.Name.{Name};
    ghost use Rattle.std.specs.Prelude.{◌≡◌, ℕ, Some, slice_get, take};
    ghost use Rattle.indexmap.specs.IndexMap.{get};
    ghost use Rattle.tm_terms.specs.Names.{is_same_name};
    ghost use Rattle.text_choices.specs.declared.static_names.Declared.{Declared};
    ghost use Rattle.text_choices.specs.reading.Named.{Named, names_of, last_position, joined};

    ghost Value = { List Named };

    ghost view = { λ p. names_of p.declared.items };

    ghost invariant = { λ p. ((n : Name)
        → joined (get is_same_name p.latest n) ≡ last_position (names_of p.declared.items) n)
        × ((i : ℕ) (d : Declared) → slice_get p.declared.items i ≡ Some d
        → d.before ≡ last_position (names_of (take i p.declared.items)) d.name) };
}

// Whether a place does not come before another one.
fn is_not_before(place: Place, other: Place) -> bool
    ensures { result ≡ is_not_before place other }
{
    other.line < place.line || (place.line == other.line && other.col <= place.col)
}

// The entry at a number.
fn entry_at(declared: &[Declared], number: usize) -> Option<Declared>
    ensures { result ≡ slice_get declared.now number }
{
    match declared.get(number) {
        Some(found) => Some(*found),
        None => None,
    }
}

impl StaticNames {
    // No names.
    fn new(alloc: Global) -> StaticNames
        ensures { result ≡ [] }
    {
        StaticNames {
            declared: Vec::new(alloc),
            latest: IndexMap::new(alloc),
        }
    }

    // Where a name stands last.
    fn latest_of(&self, name: Name) -> Option<usize>
        ensures { result ≡ last_position self.now name }
    {
        match self.latest.get(&name) {
            Some(position) => *position,
            None => None,
        }
    }

    // One more name at the end. After want of memory all is as before.
    fn push(&mut self, name: Name, place: Place) -> Result<(), NoMemory>
        ensures ok { OnOk result (self.new ≡ self.old ++ record { name = name; place = place } ∷ []) }
        ensures err { OnErr result (self.new ≡ self.old) }
    {
        let before = self.latest_of(name);
        let position = self.declared.len();
        match self.declared.push(Declared {
            name,
            place,
            before,
        }) {
            Ok(()) => match self.latest.insert(name, Some(position)) {
                Ok(_) => Ok(()),
                Err(_) => {
                    let _ = self.declared.pop();
                    Err(NoMemory)
                }
            },
            Err(_) => Err(NoMemory),
        }
    }

    /// The number of the last object with a name that is declared at a place or before it.
    pub(crate) fn last(&self, name: Name, place: Place) -> Option<usize>
        ensures { result ≡ last_at self.now name place }
    {
        let mut at = self.latest_of(name);
        'earlier: while let Some(number) = at {
            match entry_at(&self.declared, number) {
                Some(found) => {
                    if is_not_before(place, found.place) {
                        return Some(number);
                    }
                    at = found.before;
                }
                None => return None,
            }
        }
        None
    }
}

/// The objects of static storage of a file by their names.
pub(crate) fn static_names(alloc: Global, statics: &[TypedStatic]) -> Result<StaticNames, NoMemory>
    ensures { IfOk result (λ names. names ≡ map named_static (map typed_static_tree statics.now)) }
{
    let mut names = StaticNames::new(alloc);
    for one in statics {
        names.push(one.name, one.place)?;
    }
    Ok(names)
}
