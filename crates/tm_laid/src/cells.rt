//! Cells and abstract cells.
use tm_typed::Scalar;

/// A cell: its object, its type, and its abstract cell.
#[derive(Clone, Copy)]
pub struct LaidCell {
    pub object: u32,
    pub scalar: Scalar,
    pub abstract_cell: u32,
}

/// An abstract cell: its object, the offset there of the first cell for which it stands, the type of its cells, and
/// whether it is smashed: it stands for a cell of each element of an array of 65 elements or more.
#[derive(Clone, Copy)]
pub struct AbstractCell {
    pub object: u32,
    pub offset: u32,
    pub scalar: Scalar,
    pub smashed: bool,
}
