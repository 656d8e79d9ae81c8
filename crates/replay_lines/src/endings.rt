//! How a run by given choices ends.
use tm_cint::Class;
use tm_terms::Place;

/// How a run by given choices ends. Choices are numbered from 1.
#[derive(Clone, Copy)]
pub enum Ending {
    /// All of them were done, so many.
    Ran(usize),
    /// The choice of this number is not allowed.
    NotAllowed(usize),
    /// The choice of this number stops the run with an error.
    Stopped {
        choice: usize,
        class: Class,
        place: Place,
    },
}
