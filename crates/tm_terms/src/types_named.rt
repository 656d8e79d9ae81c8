ghost use Rattle.std.specs.Prelude.{◌≡◌, [], OnOk, OnErr};
ghost use Rattle.tm_terms.specs.Names.{is_typedef, with_typedef};

use crate::places::Place;
use crate::tokens::Name;
use indexmap::IndexSet;
use std::alloc::Global;
use std::marker::Model;
use tm_lattice::NoMemory;

/// A storage word (C99 6.7.1).
#[derive(Clone, Copy, PartialEq, Eq)]
pub enum Storage {
    Static,
    Extern,
    Register,
    Auto,
    Typedef,
}

/// A qualifier (C99 6.7.3), or `inline` (C99 6.7.4).
#[derive(Clone, Copy, PartialEq, Eq)]
pub enum Qualifier {
    Inline,
    Const,
    Volatile,
    Restrict,
}

/// A type word (C99 6.7.2) that stands alone.
#[derive(Clone, Copy, PartialEq, Eq)]
pub enum Basic {
    Void,
    Bool,
    Char,
    Short,
    Int,
    Long,
    Signed,
    Unsigned,
}

/// What a tag names.
#[derive(Clone, Copy, PartialEq, Eq)]
pub enum TagKind {
    Struct,
    Enum,
}

/// One specifier of a list, as in `static const unsigned long`, `struct point` or `counter_t`.
#[derive(Clone, Copy, PartialEq, Eq)]
pub enum SpecWord {
    Storage(Storage),
    Qualifier(Qualifier),
    Basic(Basic),
    /// `struct` or `enum` with a tag, which stands at `tag_place`.
    Tagged {
        kind: TagKind,
        tag: Name,
        tag_place: Place,
    },
    /// A name that a typedef has declared.
    Alias(Name),
}

/// A specifier and the place of its first token.
#[derive(Clone, Copy, PartialEq, Eq)]
pub struct Spec {
    pub word: SpecWord,
    pub place: Place,
}

/// A token of the pointer part of a declarator, as in `* const *`.
#[derive(Clone, Copy, PartialEq, Eq)]
pub enum PointerWord {
    Star,
    Const,
    Volatile,
    Restrict,
}

/// A type name (C99 6.7.6) of a cast or of `sizeof`: specifiers and stars, as in `const char *`.
#[derive(Drop)]
pub struct TypeName {
    pub specs: Vec<Spec>,
    pub pointers: Vec<PointerWord>,
}

/// The names that the typedefs so far have declared, in the order of their declarations.
pub struct Names {
    set: IndexSet<Name>,
}

// By hand, as for expressions.
impl Drop for Names {
    fn drop(self) {
        let Names { set: _set } = self;
    }
}

impl Model for Names {
    ghost use Rattle.std.specs.Prelude.{List};
    ghost use Rattle.tm_terms.specs.declared.tokens.Name.{Name};

    ghost Value = { List Name };

    ghost view = { λ names. names.set.keys };
}

impl Names {
    /// No names.
    pub fn new(alloc: Global) -> Names
        ensures { result ≡ [] }
    {
        Names {
            set: IndexSet::new(alloc),
        }
    }

    /// Whether a typedef has declared this name.
    pub fn contains(&self, name: Name) -> bool
        ensures { result ≡ is_typedef self.now name }
    {
        self.set.contains(&name)
    }

    /// Notes that a typedef declares this name. After want of memory the names are as before.
    pub fn add(&mut self, name: Name) -> Result<(), NoMemory>
        ensures ok { OnOk result (self.new ≡ with_typedef self.old name) }
        ensures err { OnErr result (self.new ≡ self.old) }
    {
        match self.set.insert(name) {
            Ok(_) => Ok(()),
            Err(_) => Err(NoMemory),
        }
    }
}
