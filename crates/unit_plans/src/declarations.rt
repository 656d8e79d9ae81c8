//! What the tokens of a unit are to its declarations and to its names.

use crate::rooms::{Lead, Room};
use tm_terms::{Name, Token};

/// What a declaration at file scope makes of a name.
#[derive(Clone, Copy, PartialEq, Eq)]
pub enum Declared {
    /// An object or a function with internal linkage.
    Static,
    /// An object or a function with external linkage, which is not defined by this alone.
    Extern,
    /// An object or a function with external linkage, which is defined by this alone.
    Defined,
    Mutex,
    Typedef,
    Enumerator,
}

/// What a token is to the names of its unit.
#[derive(Clone, Copy)]
pub enum Role {
    /// No name, or that of a member.
    None,
    /// An ordinary name that no declaration at file scope declares here.
    Used,
    /// An ordinary name that a declaration at file scope declares here.
    Declared(Declared),
    /// A tag.
    Tag,
    /// A tag with braces behind it, at file scope.
    Opened,
    /// A tag with braces behind it, in a body or among parameters.
    OpenedWithin,
    /// The `=` or the `{` behind which stands what defines the name of this token.
    Defines(Token),
}

/// A name in its name space (C99 6.2.3), of a unit, or with the unit 0 of all of them.
#[derive(Clone, Copy, PartialEq, Eq, PartialOrd, Ord)]
pub struct Local {
    pub unit: usize,
    pub is_tag: bool,
    pub name: Name,
}

/// Where a token stands in its declaration.
#[derive(Clone, Copy)]
pub struct Spot {
    /// The number of the first token of the declaration.
    pub from: usize,
    pub room: Room,
    pub lead: Lead,
    /// What the specifiers before it say of linkage.
    pub storage: Option<Declared>,
    /// Whether it stands in a value, or behind one in brackets.
    pub in_value: bool,
    /// Whether a body has begun before it.
    pub has_body: bool,
    /// Whether the declaration defines nothing before it.
    pub declares: bool,
    /// The first name without linkage or of a mutex that the declaration declares before it, of all units.
    pub key: Option<Local>,
    /// The token at which the present declarator declares a name.
    pub declared: Option<Token>,
}

/// A token of a unit, where it stands, and what it is.
#[derive(Clone, Copy)]
pub struct Sight {
    /// Its number among the tokens of all units, from 0.
    pub number: usize,
    pub token: Token,
    /// The number of its unit, from 1.
    pub unit: usize,
    pub spot: Spot,
    pub role: Role,
    /// Whether a declaration ends with it.
    pub ends: bool,
}

/// A token of a unit, and the one of an earlier unit for which it is left out, if it is.
#[derive(Clone, Copy)]
pub struct Known {
    pub sight: Sight,
    pub like: Option<Sight>,
}
