//! Objects.
use tm_typed::{Name, Place, Qualified};

/// The declaration of an object on its path, before it has cells.
#[derive(Clone, Copy)]
pub struct DeclaredObject {
    pub name: Name,
    pub place: Place,
    pub of: Qualified,
    pub owner: Option<u32>,
}

/// An object: its name, the place of its first declaration, its type, and the call path whose parameter or local object
/// it is, none for one of static storage.
#[derive(Clone, Copy)]
pub struct LaidObject {
    pub name: Name,
    pub place: Place,
    pub of: Qualified,
    pub owner: Option<u32>,
    /// Its cells stand one behind the other.
    pub first_cell: u32,
    pub cells: u32,
    /// And so do its abstract cells.
    pub first_abstract: u32,
    pub abstract_cells: u32,
}

/// What a cell of an object of static storage holds before the program runs.
#[derive(Clone, Copy)]
pub enum Initial {
    Number(i128),
    /// A null pointer.
    Null,
    /// A pointer to a cell of an object, or to what is behind its last.
    To { object: u32, offset: u32 },
}
