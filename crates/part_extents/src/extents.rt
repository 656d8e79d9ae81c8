//! Arrays in objects.

/// An array in an object, by the offsets of its first cell and of its end.
#[derive(Clone, Copy, PartialEq, Eq)]
pub struct Extent {
    pub begin: u32,
    pub end: u32,
}
