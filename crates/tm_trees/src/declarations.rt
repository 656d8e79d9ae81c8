//! Declarations (C99 6.7).
use tm_terms::{Expr, Name, Place, PointerWord, Spec};

/// The length of an array between its brackets, where one is written, and the place of the `[`.
#[derive(Drop)]
pub struct Length {
    pub value: Option<Expr>,
    pub place: Place,
}

/// A declarator (C99 6.7.5): stars with their qualifiers; a name, or a declarator in parentheses; and the
/// lengths of arrays.
pub enum Declarator {
    /// `*x[4]`
    Name {
        pointers: Vec<PointerWord>,
        name: Name,
        lengths: Vec<Length>,
        place: Place,
    },
    /// `*(*x)[4]`
    Nested {
        pointers: Vec<PointerWord>,
        inside: Box<Declarator>,
        lengths: Vec<Length>,
    },
}

impl Drop for Declarator {
    fn drop(self) {
        match self {
            Declarator::Name {
                pointers: _pointers,
                name: _name,
                lengths: _lengths,
                place: _place,
            } => {}
            Declarator::Nested {
                pointers: _pointers,
                inside: _inside,
                lengths: _lengths,
            } => {}
        }
    }
}

/// The tag of a structure or an enumeration, and its place.
#[derive(Clone, Copy, PartialEq, Eq)]
pub struct Tag {
    pub name: Name,
    pub place: Place,
}

/// An enumeration constant, with its value where one is written (C99 6.7.2.2).
#[derive(Drop)]
pub struct Enumerator {
    pub name: Name,
    pub value: Option<Expr>,
    pub place: Place,
}

/// A specifier of a declaration (C99 6.7). The place is that of its first token.
#[cycle(specifiers)]
pub enum Specifier {
    /// A word, a typedef name, or `struct` or `enum` with a tag alone.
    Plain(Spec),
    /// `struct` with its members (C99 6.7.2.1).
    Struct {
        tag: Option<Tag>,
        members: Vec<Member>,
        place: Place,
    },
    /// `enum` with its constants (C99 6.7.2.2).
    Enum {
        tag: Option<Tag>,
        enumerators: Vec<Enumerator>,
        place: Place,
    },
}

impl Drop for Specifier {
    #[cycle(specifiers)]
    fn drop(self) {
        match self {
            Specifier::Plain(_part) => {}
            Specifier::Struct {
                tag: _tag,
                members: _members,
                place: _place,
            } => {}
            Specifier::Enum {
                tag: _tag,
                enumerators: _enumerators,
                place: _place,
            } => {}
        }
    }
}

/// The members of a structure that one declaration gives, as in `int x, *y;`.
#[derive(Drop)]
#[cycle(specifiers)]
pub struct Member {
    pub specifiers: Vec<Specifier>,
    pub declarators: Vec<Declarator>,
}

/// What an object is initialised with (C99 6.7.8).
pub enum Value {
    Expression(Expr),
    /// `{e, ..}`, with the place of the `{`.
    List { values: Vec<Value>, place: Place },
}

impl Drop for Value {
    fn drop(self) {
        match self {
            Value::Expression(_part) => {}
            Value::List {
                values: _values,
                place: _place,
            } => {}
        }
    }
}

/// A value and the place of the `=` before it.
#[derive(Drop)]
pub struct Initialiser {
    pub value: Value,
    pub place: Place,
}

/// A declarator and what is declared by it is initialised with, as in `x = 1`.
#[derive(Drop)]
pub struct InitDeclarator {
    pub declarator: Declarator,
    pub initialiser: Option<Initialiser>,
}

/// A declaration, as in `static int x = 1, y;` (C99 6.7).
#[derive(Drop)]
pub struct Declaration {
    pub specifiers: Vec<Specifier>,
    pub declarators: Vec<InitDeclarator>,
}
