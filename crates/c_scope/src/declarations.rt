//! Declarations of names, of which the innermost of a name counts.
ghost use Rattle.std.specs.Prelude.{◌≡◌, OnOk, OnErr, IfOk, ◌++◌, [], ◌∷◌, drop, length, take, option_map, slice_get};
ghost use Rattle.std.specs.List.{list_all};
ghost use Rattle.tm_terms.specs.declared.tokens.Name.{Name as AName};
ghost use Rattle.tm_typed.specs.Scopes.{last_declared};
ghost use Rattle.tm_typed.specs.Structures.{is_from_zero};

use crate::positions::Positions;
use std::alloc::Global;
use std::marker::Model;
use tm_lattice::NoMemory;
use tm_terms::Name;
use tm_typed::{Binding, Named, TagBinding, Tagged};

/// A declaration of a name.
pub trait Declaration: Copy {
    /// What a name is declared to name.
    type Meaning: Copy;

    // The name.
    ghost name: { Self → AName };

    // What it names.
    ghost meaning: { Self → Self.Meaning };

    /// The name.
    fn name(&self) -> Name
        ensures { result ≡ name self.now };

    /// What it names.
    fn meaning(&self) -> Self::Meaning
        ensures { result ≡ meaning self.now };
}

impl Declaration for Binding {
    type Meaning = Named;

    ghost name = { λ d. d.name };

    ghost meaning = { λ d. d.named };

    fn name(&self) -> Name {
        self.name
    }

    fn meaning(&self) -> Named {
        self.named
    }
}

impl Declaration for TagBinding {
    type Meaning = Tagged;

    ghost name = { λ d. d.name };

    ghost meaning = { λ d. d.tagged };

    fn name(&self) -> Name {
        self.name
    }

    fn meaning(&self) -> Tagged {
        self.tagged
    }
}

/// Declarations of names, innermost last.
#[derive(Drop)]
pub struct Declarations<D: Declaration> {
    positions: Positions,
    declarations: Vec<D>,
}

/// Declarations of ordinary names.
pub type Bindings = Declarations<Binding>;

/// Declarations of tags.
pub type Tags = Declarations<TagBinding>;

impl<D: Declaration> Model for Declarations<D> {
    ghost use Rattle.std.specs.Prelude.{◌≡◌, List, map};

    ghost Value = { List D };

    ghost view = { λ a. a.declarations.items };

    ghost invariant = { λ a. a.positions ≡ map D.name a.declarations.items };
}

impl<D: Declaration> Declarations<D> {
    /// No declarations.
    pub fn new(alloc: Global) -> Self
        ensures { result ≡ [] }
    {
        Declarations {
            positions: Positions::new(alloc),
            declarations: Vec::new(alloc),
        }
    }

    // What the declaration at this position declares.
    fn at(&self, position: usize) -> Option<D::Meaning>
        ensures { result ≡ option_map D.meaning (slice_get self.now position) }
    {
        match self.declarations.get(position) {
            Some(declaration) => Some(declaration.meaning()),
            None => None,
        }
    }

    /// What a name names: its innermost declaration.
    pub fn named(&self, name: Name) -> Option<D::Meaning>
        ensures { result ≡ option_map D.meaning (last_declared D.name name self.now) }
    {
        match self.positions.last(name) {
            Some(position) => self.at(position),
            None => None,
        }
    }

    /// What a name names by a declaration from the one at `start` on.
    pub fn named_since(&self, start: usize, name: Name) -> Option<D::Meaning>
        ensures { result ≡ option_map D.meaning (last_declared D.name name (drop start self.now)) }
    {
        match self.positions.last(name) {
            Some(position) => {
                if position < start {
                    None
                } else {
                    self.at(position)
                }
            }
            None => None,
        }
    }

    /// A further declaration. After want of memory all is as before.
    pub fn push(&mut self, declaration: D) -> Result<(), NoMemory>
        ensures ok { OnOk result (self.new ≡ self.old ++ declaration ∷ []) }
        ensures err { OnErr result (self.new ≡ self.old) }
    {
        match self.declarations.push(declaration) {
            Ok(()) => match self.positions.push(declaration.name()) {
                Ok(()) => Ok(()),
                Err(_) => {
                    let _ = self.declarations.pop();
                    Err(NoMemory)
                }
            },
            Err(_) => Err(NoMemory),
        }
    }

    /// How many declarations there are.
    pub fn len(&self) -> usize
        ensures { result ≡ length self.now }
    {
        self.declarations.len()
    }

    /// Only the first `len` declarations are left.
    pub fn truncate(&mut self, len: usize)
        ensures { self.new ≡ take len self.old }
    {
        self.positions.truncate(len);
        self.declarations.truncate(len);
    }
}

// ## Ordinary names

// Whether a name names no negative constant.
fn is_from_zero(named: Named) -> bool
    ensures { result ≡ is_from_zero named }
{
    match named {
        Named::Enumerator(value) => value >= 0,
        Named::Object { .. }
        | Named::Function(_)
        | Named::Alias(_)
        | Named::Task
        | Named::Mutex(_) => true,
    }
}

impl Declarations<Binding> {
    /// Whether none of the declarations from the one at `start` on is that of a negative constant.
    pub fn are_from_zero(&self, start: usize) -> bool
        ensures { result ≡ list_all (λ d. is_from_zero d.named) (drop start self.now) }
    {
        if start <= self.declarations.len() {
            for binding in &self.declarations[start..] {
                if !is_from_zero(binding.named) {
                    return false;
                }
            }
        }
        true
    }

    /// Copies of the declarations from the one at `start` on.
    pub fn since(&self, alloc: Global, start: usize) -> Result<Vec<Binding>, NoMemory>
        ensures { IfOk result (λ v. v.items ≡ drop start self.now) }
    {
        let mut found = Vec::new(alloc);
        if start <= self.declarations.len() {
            for binding in &self.declarations[start..] {
                found.push(*binding)?;
            }
        }
        Ok(found)
    }
}
