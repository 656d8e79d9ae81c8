//! Accesses of objects.
use tm_terms::Place;

/// The accesses of one kind that a task makes to an object at a place while it holds the same mutexes. A set of mutexes
/// is a number, in which bit m stands for the mutex with the number m.
#[derive(Clone, Copy, PartialEq, Eq, PartialOrd, Ord)]
pub struct ObjectAccess {
    pub place: Place,
    /// The number of the task.
    pub task: u32,
    /// Whether they are stores; else they are loads.
    pub stores: bool,
    /// The mutexes that the task holds.
    pub held: u16,
    /// Those that it has found free on each way there.
    pub free: u16,
    /// Whether one of them races with an access of another task to the object.
    pub racing: bool,
}

/// An object that has races, and all accesses to it, in their order.
#[derive(Drop)]
pub struct AccessGroup {
    /// The number of the object.
    pub object: u32,
    pub accesses: Vec<ObjectAccess>,
}
