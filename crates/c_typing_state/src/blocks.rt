//! Blocks that begin and end, and functions.
ghost use Rattle.std.specs.Prelude.{◌≡◌, ◌++◌, [], ◌∷◌, length, slice_set, true, OnOk, IfOk};
ghost use Rattle.tm_typed.specs.Scopes.{function_of};
ghost use Rattle.tm_typed.specs.States.{in_scope, left_to};
ghost use Rattle.tm_typed.specs.StatementTyping.{enter};
ghost use Rattle.tm_typed.specs.Functions.{function, names_here, entered_with, left_names, left_tags, to_file};
ghost use Rattle.tm_typed.specs.Functions.{body_begins};

use crate::states::State;
use c_scope::Outside;
use std::alloc::Global;
use tm_lattice::NoMemory;
use tm_typed::{Binding, FunctionEntry, LocalEntry};

// ## Blocks

impl State {
    /// How many names and tags stand outside the present block.
    pub fn outside(&self) -> Outside
        ensures { result ≡ record { names = self.now.scope.outer_names; tags = self.now.scope.outer_tags } }
    {
        self.scope.outside()
    }

    /// A block begins.
    pub fn enter(&mut self)
        ensures { self.new ≡ enter self.old }
    {
        self.scope.enter();
    }

    /// The present block ends; `outside` stand outside the one around it.
    pub fn leave(&mut self, outside: Outside)
        ensures { self.new ≡ in_scope self.old (left_to outside.names outside.tags self.old.scope) }
    {
        self.scope.leave(outside);
    }

    /// The declarations of names in the present block.
    pub fn names_here(&self, alloc: Global) -> Result<Vec<Binding>, NoMemory>
        ensures { IfOk result (λ v. v.items ≡ names_here self.now.scope) }
    {
        self.scope.names_here(alloc)
    }

    /// A block of names begins, with these names.
    pub fn enter_names_with(&mut self, names: &[Binding]) -> Result<(), NoMemory>
        ensures { OnOk result (self.new ≡ in_scope self.old (entered_with names.now self.old.scope)) }
    {
        self.scope.enter_names();
        self.scope.add_names(names)
    }

    /// The names of a block at file scope are left, its tags are not.
    pub fn leave_names(&mut self)
        ensures { self.new ≡ in_scope self.old (left_names self.old.scope) }
    {
        self.scope.leave_names(0);
    }

    /// The tags of a block at file scope are left, its names are not.
    pub fn leave_tags(&mut self)
        ensures { self.new ≡ in_scope self.old (left_tags self.old.scope) }
    {
        self.scope.leave_tags(0);
    }

    /// A block at file scope ends, outside which nothing stands.
    pub fn leave_to_file(&mut self)
        ensures { self.new ≡ to_file self.old }
    {
        self.scope.leave(Outside { names: 0, tags: 0 });
    }

    /// A body begins, which has no objects and calls so far; with the objects of the one before it.
    pub fn begin_body(&mut self, alloc: Global) -> Vec<LocalEntry>
        ensures locals { result.items ≡ self.old.locals }
        ensures state { self.new ≡ body_begins self.old }
    {
        self.site = 0;
        std::mem::replace(&mut self.locals, Vec::new(alloc))
    }
}

// ## Functions

impl State {
    /// How many functions are declared so far.
    pub fn functions_len(&self) -> usize
        ensures { result ≡ length self.now.scope.functions }
    {
        self.scope.functions_len()
    }

    /// A further function.
    pub fn add_function(&mut self, entry: FunctionEntry) -> Result<(), NoMemory>
        ensures { OnOk result (self.new ≡ in_scope self.old (record self.old.scope
            { functions = self.old.scope.functions ++ function_of entry ∷ [] })) }
    {
        self.scope.add_function(entry)
    }

    /// A function has a body from now on.
    pub fn define_function(&mut self, number: u32)
        ensures { self.new ≡ in_scope self.old (record self.old.scope {
          functions = slice_set self.old.scope.functions number
              (record (function self.old.scope number) { defined = true });
        }) }
    {
        self.scope.define_function(number);
    }
}
