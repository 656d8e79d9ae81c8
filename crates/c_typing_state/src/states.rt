//! The state of typing, its beginning and its end.
ghost use Rattle.std.specs.Prelude.{◌≡◌, map, IfOk, length};
ghost use Rattle.tm_typed.specs.Scopes.{structure_of};
ghost use Rattle.tm_typed.specs.TypedFiles.{typed_static_tree};
ghost use Rattle.tm_typed.specs.Files.{first_state};

use c_scope::{Bindings, Scope};
use std::alloc::Global;
use std::marker::Model;
use tm_lattice::NoMemory;
use tm_terms::Place;
use tm_typed::{LocalEntry, StructEntry, TypeEntry, TypedStatic, Use};

/// What typing has found so far.
pub struct State {
    pub(crate) scope: Scope,
    pub(crate) statics: Vec<TypedStatic>,
    pub(crate) linkage: Bindings,
    pub(crate) locals: Vec<LocalEntry>,
    pub(crate) site: u32,
    pub(crate) uses: Vec<Use>,
    pub(crate) lengths: Vec<u32>,
    pub(crate) constants: Vec<i128>,
    pub(crate) labels: Vec<i128>,
    pub(crate) sizes: Vec<Place>,
}

// By hand: a function that lets one go calls this, and its check does not go through the fields.
impl Drop for State {
    fn drop(self) {
        let State {
            scope: _scope,
            statics: _statics,
            linkage: _linkage,
            locals: _locals,
            site: _site,
            uses: _uses,
            lengths: _lengths,
            constants: _constants,
            labels: _labels,
            sizes: _sizes,
        } = self;
    }
}

impl Model for State {
    ghost use Rattle.std.specs.Prelude.{map};
    ghost use Rattle.tm_typed.specs.States.{State as PlainState};
    ghost use Rattle.tm_typed.specs.TypedFiles.{typed_static_tree};

    ghost Value = { PlainState };

    ghost view = { λ s. record {
      scope = s.scope;
      statics = map typed_static_tree s.statics.items;
      linkage = s.linkage;
      locals = s.locals.items;
      site = s.site;
      uses = s.uses.items;
      lengths = s.lengths.items;
      constants = s.constants.items;
      labels = s.labels.items;
      sizes = s.sizes.items;
    } };
}

/// What is left of the state at the end of a file.
#[derive(Drop)]
pub struct Tables {
    pub types: Vec<TypeEntry>,
    pub structs: Vec<StructEntry>,
    pub statics: Vec<TypedStatic>,
    pub uses: Vec<Use>,
    pub lengths: Vec<u32>,
    pub constants: Vec<i128>,
    pub labels: Vec<i128>,
    pub sizes: Vec<Place>,
}

impl State {
    /// The state before the first item of a file.
    pub fn new(alloc: Global) -> Result<State, NoMemory>
        ensures { IfOk result (λ s. s ≡ first_state) }
    {
        let scope = Scope::first(alloc)?;
        Ok(State {
            scope,
            statics: Vec::new(alloc),
            linkage: Bindings::new(alloc),
            locals: Vec::new(alloc),
            site: 0,
            uses: Vec::new(alloc),
            lengths: Vec::new(alloc),
            constants: Vec::new(alloc),
            labels: Vec::new(alloc),
            sizes: Vec::new(alloc),
        })
    }

    /// What is visible.
    pub fn scope(&self) -> &Scope
        ensures { result.now ≡ self.now.scope }
    {
        &self.scope
    }

    /// The tables and lists at the end of a file.
    pub fn into_tables(self) -> Tables
        ensures types { result.types.items ≡ self.scope.types }
        ensures structs { map structure_of result.structs.items ≡ self.scope.structs }
        ensures statics { map typed_static_tree result.statics.items ≡ self.statics }
        ensures uses { result.uses.items ≡ self.uses }
        ensures lengths { result.lengths.items ≡ self.lengths }
        ensures constants { result.constants.items ≡ self.constants }
        ensures labels { result.labels.items ≡ self.labels }
        ensures sizes { result.sizes.items ≡ self.sizes }
    {
        let State {
            scope,
            statics,
            linkage: _linkage,
            locals: _locals,
            site: _site,
            uses,
            lengths,
            constants,
            labels,
            sizes,
        } = self;
        let tables = scope.into_tables();
        Tables {
            types: tables.types,
            structs: tables.structs,
            statics,
            uses,
            lengths,
            constants,
            labels,
            sizes,
        }
    }

    // ## Lists that later layers read

    /// How many local objects the body has so far, its parameters among them.
    pub fn locals_len(&self) -> usize
        ensures { result ≡ length self.now.locals }
    {
        self.locals.len()
    }

    /// The local objects of the body so far, its parameters first.
    pub fn locals(&self) -> &[LocalEntry]
        ensures { result.now ≡ self.now.locals }
    {
        &self.locals
    }

    /// The functions and objects that are used so far, in the order of the text.
    pub fn uses(&self) -> &[Use]
        ensures { result.now ≡ self.now.uses }
    {
        &self.uses
    }
}
