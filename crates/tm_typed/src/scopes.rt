//! What names mean (C99 6.2.1 to 6.2.3).
use crate::types::Qualified;
use tm_trees::Name;

/// An object by its number: among those of static storage, or among those of its function.
#[derive(Clone, Copy, PartialEq, Eq)]
pub enum ObjectNumber {
    Static(u32),
    Local(u32),
}

/// What an ordinary name names.
#[derive(Clone, Copy)]
pub enum Named {
    Object { object: ObjectNumber, of: Qualified },
    /// A function, by its number.
    Function(u32),
    /// A type, by a typedef.
    Alias(Qualified),
    Task,
    /// A mutex, by its number.
    Mutex(u32),
    /// An enumeration constant, with its value.
    Enumerator(i128),
}

/// A declaration of an ordinary name.
#[derive(Clone, Copy)]
pub struct Binding {
    pub name: Name,
    pub named: Named,
}

/// What a tag names.
#[derive(Clone, Copy)]
pub enum Tagged {
    /// A structure, by its number.
    Structure(u32),
    /// An enumeration, whose type is `int`, and whether all its constants are from 0 on.
    Enumeration { is_from_zero: bool },
}

/// A declaration of a tag.
#[derive(Clone, Copy)]
pub struct TagBinding {
    pub name: Name,
    pub tagged: Tagged,
}

/// A part of a structure: its type, and the scalar cell of the structure at which it begins.
#[derive(Clone, Copy)]
pub struct Part {
    pub of: Qualified,
    pub cell: u32,
}

/// A member of a structure.
#[derive(Clone, Copy)]
pub struct Member {
    pub name: Name,
    pub part: Part,
}

/// A structure (C99 6.7.2.1). It is opened at its `{` and complete from its `}` on: then its members can be named, and
/// its size is known.
pub struct StructEntry {
    pub opened: bool,
    pub complete: bool,
    pub members: Vec<Member>,
    /// Scalar cells, 65,537 where there are more than 65,536.
    pub cells: u32,
    /// The cells that an analysis tells apart, likewise: an array of 65 elements and more counts as one element.
    pub abstract_cells: u32,
    /// Bytes modulo 2^32.
    pub size: u32,
    /// Bytes likewise, where `long long` is aligned to 4, as on i386.
    pub tight_size: u32,
    /// Bytes to a multiple of which its address is aligned.
    pub alignment: u32,
}

// By hand: a function that lets one go calls this, and its check does not go through the fields.
impl Drop for StructEntry {
    fn drop(self) {
        let StructEntry {
            opened: _opened,
            complete: _complete,
            members: _members,
            cells: _cells,
            abstract_cells: _abstract_cells,
            size: _size,
            tight_size: _tight_size,
            alignment: _alignment,
        } = self;
    }
}

/// A function: the types of its result and of its parameters, by their numbers, and whether it has a body so far.
pub struct FunctionEntry {
    pub result: u32,
    pub parameters: Vec<u32>,
    pub defined: bool,
}

// By hand: a function that lets one go calls this, and its check does not go through the fields.
impl Drop for FunctionEntry {
    fn drop(self) {
        let FunctionEntry {
            result: _result,
            parameters: _parameters,
            defined: _defined,
        } = self;
    }
}
