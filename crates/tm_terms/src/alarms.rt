use crate::places::Place;
use tm_cint::Class;

/// An error of this class may occur at this place.
#[derive(Clone, Copy, PartialEq, Eq, PartialOrd, Ord)]
pub struct Alarm {
    pub place: Place,
    pub class: Class,
}

/// The alarms of a source, sorted by line, column and class, without repeats.
#[derive(Drop)]
pub struct Report {
    pub alarms: Vec<Alarm>,
}
