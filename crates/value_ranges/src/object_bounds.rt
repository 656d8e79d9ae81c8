//! Bounds of objects, and what is found of a program.
use tm_terms::Place;

/// What bounds are told of: of objects, or of abstract cells.
#[derive(Clone, Copy)]
pub enum Grouping {
    Objects,
    Cells,
}

/// The least and the greatest number that an integer cell of an object is told to hold, or an abstract cell.
#[derive(Clone, Copy)]
pub struct ObjectBounds {
    /// The number of the object, or of the abstract cell.
    pub object: u32,
    pub low: i128,
    pub high: i128,
}

/// What tables and a store tell of a program's objects and places.
#[derive(Drop)]
pub struct Ranges {
    /// The objects of static storage that have integer cells, in their order.
    pub bounds: Vec<ObjectBounds>,
    /// The places of loads, stores, locks and unlocks that no state leads to, in their order.
    pub dead: Vec<Place>,
}
