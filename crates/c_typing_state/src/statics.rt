//! Objects of static storage, and the names that are linked with them.
ghost use Rattle.std.specs.Prelude.{◌≡◌, ◌++◌, [], ◌∷◌, ◌||◌, length, map, get_or, slice_set, OnOk, IfOk};
ghost use Rattle.tm_typed.specs.TypedFiles.{typed_static_tree};
ghost use Rattle.tm_typed.specs.States.{no_static, static, static_type};
ghost use Rattle.tm_typed.specs.Declarations.{linked, with_static};

use crate::states::State;
use tm_lattice::NoMemory;
use tm_terms::Name;
use tm_typed::{Binding, Named, ObjectNumber, Qualified, StaticCell, TypedStatic};

// ## Objects

impl State {
    /// The type of an object.
    pub fn static_type(&self, number: u32) -> Qualified
        ensures { result ≡ static_type self.now number }
    {
        match self.statics.get(number as usize) {
            Some(entry) => entry.of,
            None => Qualified {
                number: 0,
                constant: false,
                volatile: false,
            },
        }
    }

    /// Whether an object has an initialiser so far.
    pub fn is_initialised(&self, number: u32) -> bool
        ensures { result ≡ (static self.now number).initialised }
    {
        match self.statics.get(number as usize) {
            Some(entry) => entry.initialised,
            None => false,
        }
    }

    /// Whether a declaration other than a bare `extern` defines an object.
    pub fn is_defined(&self, number: u32) -> bool
        ensures { result ≡ (static self.now number).defined }
    {
        match self.statics.get(number as usize) {
            Some(entry) => entry.defined,
            None => false,
        }
    }

    /// A further object, with its number.
    pub fn add_static(&mut self, entry: TypedStatic) -> Result<u32, NoMemory>
        ensures state { OnOk result (self.new ≡ record self.old
            { statics = self.old.statics ++ typed_static_tree entry ∷ [] }) }
        ensures number { IfOk result (λ k. k ≡ length self.old.statics) }
    {
        match u32::try_from(self.statics.len()) {
            Ok(number) => match self.statics.push(entry) {
                Ok(()) => Ok(number),
                Err(_) => Err(NoMemory),
            },
            Err(_) => Err(NoMemory),
        }
    }

    /// A further declaration of an object.
    pub fn redeclare_static(&mut self, number: u32, defined: bool, initialised: bool)
        ensures { self.new ≡ with_static self.old number (record
            (static self.old number) {
              defined = (static self.old number).defined || defined;
              initialised =
                  (static self.old number).initialised || initialised;
            }) }
    {
        redeclare(&mut self.statics, number as usize, defined, initialised);
    }

    /// The cells that the initialiser of an object gives.
    pub fn give_static(&mut self, number: u32, given: Vec<StaticCell>)
        ensures { self.new ≡ with_static self.old number (record (static self.old number) { given = given.items }) }
    {
        give(&mut self.statics, number as usize, given);
    }
}

fn either(first: bool, second: bool) -> bool
    ensures { result ≡ (first || second) }
{
    first || second
}

// A further declaration of the object at this index.
fn redeclare(statics: &mut [TypedStatic], index: usize, defined: bool, initialised: bool)
    ensures { let xs = map typed_static_tree statics.old in let x = get_or xs index no_static in map typed_static_tree
        statics.new ≡ slice_set xs index (record x {
          defined = x.defined || defined;
          initialised = x.initialised
              || initialised;
        }) }
{
    if index < statics.len() {
        let entry = &mut statics[index];
        entry.defined = either(entry.defined, defined);
        entry.initialised = either(entry.initialised, initialised);
    }
}

// The cells that are given to the object at this index.
fn give(statics: &mut [TypedStatic], index: usize, given: Vec<StaticCell>)
    ensures { let xs = map typed_static_tree statics.old in map typed_static_tree statics.new ≡ slice_set xs index
        (record (get_or xs index no_static) { given = given.items }) }
{
    if index < statics.len() {
        let entry = &mut statics[index];
        entry.given = given;
    }
}

// ## Linkage

impl State {
    /// The object whose name is linked with this one (C99 6.2.2).
    pub fn linked(&self, name: Name) -> Option<u32>
        ensures { result ≡ linked self.now name }
    {
        match self.linkage.named(name) {
            Some(
                Named::Object {
                    object: ObjectNumber::Static(number),
                    of: _,
                },
            ) => Some(number),
            _ => None,
        }
    }

    /// The name is linked with an object from now on.
    pub fn link(&mut self, name: Name, number: u32, of: Qualified) -> Result<(), NoMemory>
        ensures { OnOk result (self.new ≡ record self.old {
          linkage = self.old.linkage
              ++ record { name = name; named = Named.Object (ObjectNumber.Static number) of } ∷ [];
        }) }
    {
        self.linkage.push(Binding {
            name,
            named: Named::Object {
                object: ObjectNumber::Static(number),
                of,
            },
        })
    }
}
