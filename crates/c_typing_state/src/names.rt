//! Names, tags and types that are declared.
ghost use Rattle.std.specs.Prelude.{◌≡◌, ◌++◌, [], ◌∷◌, length, OnOk, IfOk};
ghost use Rattle.tm_typed.specs.Scopes.{function_of};
ghost use Rattle.tm_typed.specs.TypeRows.{number_in, with_type};
ghost use Rattle.tm_typed.specs.TypeNames.{pointed};
ghost use Rattle.tm_typed.specs.Specifiers.{mentioned, with_struct_tag};
ghost use Rattle.tm_typed.specs.Structures.{is_declared_here};
ghost use Rattle.tm_typed.specs.States.{in_scope, with_name, with_tag};

use crate::states::State;
use std::alloc::Global;
use tm_lattice::NoMemory;
use tm_terms::{Name, PointerWord, SpecWord};
use tm_typed::{CType, LocalEntry, Named, Shape, Tagged};

impl State {
    /// One more ordinary name in the present block.
    pub fn add_name(&mut self, name: Name, named: Named) -> Result<(), NoMemory>
        ensures { OnOk result (self.new ≡ in_scope self.old (with_name name named self.old.scope)) }
    {
        self.scope.add_name(name, named)
    }

    /// The tag of an enumeration in the present block, whose constants may all be from 0 on.
    pub fn add_enum_tag(&mut self, tag: Name, is_from_zero: bool) -> Result<(), NoMemory>
        ensures { OnOk result (self.new
            ≡ in_scope self.old (with_tag tag (Tagged.Enumeration is_from_zero) self.old.scope)) }
    {
        self.scope
            .add_tag(tag, Tagged::Enumeration { is_from_zero })
    }

    /// A new structure with this tag in the present block.
    pub fn add_struct_tag(&mut self, alloc: Global, tag: Name) -> Result<u32, NoMemory>
        ensures state { OnOk result (self.new ≡ in_scope self.old (with_struct_tag tag self.old.scope)) }
        ensures number { IfOk result (λ k. k ≡ length self.old.scope.structs) }
    {
        c_type_names::add_struct_tag(alloc, &mut self.scope, tag)
    }

    /// A word of a list of specifiers, whose tag is declared where none of that name is visible.
    pub fn mention(&mut self, alloc: Global, word: SpecWord) -> Result<(), NoMemory>
        ensures { OnOk result (self.new ≡ in_scope self.old (mentioned self.old.scope word)) }
    {
        c_type_names::mention(alloc, &mut self.scope, word)
    }

    /// The number of a type, which the table has from now on.
    pub fn add_type(&mut self, ctype: CType) -> Result<u32, NoMemory>
        ensures state { OnOk result (self.new ≡ in_scope self.old (with_type self.old.scope ctype)) }
        ensures number { IfOk result (λ n. n ≡ number_in self.new.scope ctype) }
    {
        self.scope.add_type(ctype)
    }

    /// Stars and their qualifiers behind a type. The table has the types from now on.
    pub fn add_pointers(&mut self, shape: Shape, words: &[PointerWord]) -> Result<Shape, NoMemory>
        ensures shape { IfOk result (λ s. s ≡ (pointed (shape, self.old.scope) words.now).0) }
        ensures state { OnOk result (self.new ≡ in_scope self.old (pointed (shape, self.old.scope) words.now).1) }
    {
        c_type_names::add_pointers(&mut self.scope, shape, words)
    }

    /// One more local object of the body, with its number.
    pub fn add_local(&mut self, entry: LocalEntry) -> Result<u32, NoMemory>
        ensures state { OnOk result (self.new ≡ record self.old { locals = self.old.locals ++ entry ∷ [] }) }
        ensures number { IfOk result (λ k. k ≡ length self.old.locals) }
    {
        match u32::try_from(self.locals.len()) {
            Ok(number) => match self.locals.push(entry) {
                Ok(()) => Ok(number),
                Err(_) => Err(NoMemory),
            },
            Err(_) => Err(NoMemory),
        }
    }

    /// The length of an array that the text gives.
    pub fn add_length(&mut self, length: u32) -> Result<(), NoMemory>
        ensures { OnOk result (self.new ≡ record self.old { lengths = self.old.lengths ++ length ∷ [] }) }
    {
        match self.lengths.push(length) {
            Ok(()) => Ok(()),
            Err(_) => Err(NoMemory),
        }
    }

    /// The converted label of a `case`.
    pub fn add_label(&mut self, label: i128) -> Result<(), NoMemory>
        ensures { OnOk result (self.new ≡ record self.old { labels = self.old.labels ++ label ∷ [] }) }
    {
        match self.labels.push(label) {
            Ok(()) => Ok(()),
            Err(_) => Err(NoMemory),
        }
    }
}

/// Whether the present block declares an ordinary name.
pub fn is_declared_here(state: &State, name: Name) -> bool
    ensures { result ≡ is_declared_here state.now name }
{
    state.scope.named_here(name).is_some()
}
