//! Uses of functions and of objects of static storage.
use tm_trees::Place;

/// What an expression uses: a function that it calls, or an object of static storage that it names, by its number.
#[derive(Clone, Copy, PartialEq, Eq)]
pub enum Used {
    Function(u32),
    Static(u32),
}

/// A use, and the place of the name.
#[derive(Clone, Copy, PartialEq, Eq)]
pub struct Use {
    pub used: Used,
    pub place: Place,
}
