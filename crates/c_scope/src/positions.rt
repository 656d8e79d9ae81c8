//! Names in the order of their declarations, and where each was declared last.
ghost use Rattle.std.specs.Prelude.{◌≡◌, ℕ, ◌-◌, ◌<◌, OnOk, OnErr, ◌++◌, [], ◌∷◌, length, take};
ghost use Rattle.c_scope.specs.reading.Positions.{last_position};

use indexmap::IndexMap;
use std::alloc::Global;
use std::marker::Model;
use tm_lattice::NoMemory;
use tm_terms::Name;

// A declared name, and where it was declared last before.
#[derive(Clone, Copy)]
struct Declared {
    name: Name,
    before: Option<usize>,
}

/// Names in the order of their declarations, with a look-up that does not go over them.
#[derive(Drop)]
pub(crate) struct Positions {
    declared: Vec<Declared>,
    latest: IndexMap<Name, Option<usize>>,
}

impl Model for Positions {
    ghost use Rattle.std.specs.Prelude.{List};
    ghost use Rattle.tm_terms.specs.declared.tokens.Name.{Name};
    ghost use Rattle.std.specs.Prelude.{◌≡◌, ℕ, Some, slice_get, take};
    ghost use Rattle.indexmap.specs.IndexMap.{get};
    ghost use Rattle.tm_terms.specs.Names.{is_same_name};
    ghost use Rattle.c_scope.specs.declared.positions.Declared.{Declared};
    ghost use Rattle.c_scope.specs.reading.Positions.{names_of, last_position, joined};

    ghost Value = { List Name };

    ghost view = { λ p. names_of p.declared.items };

    ghost invariant = { λ p. ((n : Name)
        → joined (get is_same_name p.latest n) ≡ last_position (names_of p.declared.items) n)
        × ((i : ℕ) (d : Declared) → slice_get p.declared.items i ≡ Some d
        → d.before ≡ last_position (names_of (take i p.declared.items)) d.name) };
}

impl Positions {
    /// No names.
    pub(crate) fn new(alloc: Global) -> Positions
        ensures { result ≡ [] }
    {
        Positions {
            declared: Vec::new(alloc),
            latest: IndexMap::new(alloc),
        }
    }

    /// The position of the last declaration of the name.
    pub(crate) fn last(&self, name: Name) -> Option<usize>
        ensures { result ≡ last_position self.now name }
    {
        match self.latest.get(&name) {
            Some(position) => *position,
            None => None,
        }
    }

    /// A further declaration. After want of memory all is as before.
    pub(crate) fn push(&mut self, name: Name) -> Result<(), NoMemory>
        ensures ok { OnOk result (self.new ≡ self.old ++ name ∷ []) }
        ensures err { OnErr result (self.new ≡ self.old) }
    {
        let before = self.last(name);
        let position = self.declared.len();
        match self.declared.push(Declared { name, before }) {
            Ok(()) => match self.latest.insert(name, Some(position)) {
                Ok(_) => Ok(()),
                Err(_) => {
                    let _ = self.declared.pop();
                    Err(NoMemory)
                }
            },
            Err(_) => Err(NoMemory),
        }
    }

    /// How many names there are.
    pub(crate) fn len(&self) -> usize
        ensures { result ≡ length self.now }
    {
        self.declared.len()
    }

    /// The last declaration is gone.
    pub(crate) fn pop(&mut self)
        requires { 0 < length self.old }
        ensures { self.new ≡ take (length self.old - 1) self.old }
    {
        if let Some(declared) = self.declared.pop() {
            match self.latest.insert(declared.name, declared.before) {
                Ok(_) => {}
                Err(_) => unreachable!(),
            }
        }
    }

    /// Only the first `len` declarations are left.
    pub(crate) fn truncate(&mut self, len: usize)
        ensures { self.new ≡ take len self.old }
    {
        'names: while self.len() > len {
            self.pop();
        }
    }
}
