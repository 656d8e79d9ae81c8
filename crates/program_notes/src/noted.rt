//! What is noted of a program.
use access_groups::AccessGroup;
use access_partners::AccessDetails;
use alarm_contexts::AlarmContexts;
use note_details::Details;
use tm_terms::Report;
use value_ranges::{ObjectBounds, Ranges};

/// What tables and a store tell of a program.
#[derive(Drop)]
pub struct Contents {
    /// All alarms.
    pub report: Report,
    /// Those that are not races, with their contexts, in the same order.
    pub others: Vec<AlarmContexts>,
    /// The objects with races, with all accesses to each.
    pub groups: Vec<AccessGroup>,
    /// Of each access, in the same order, those with which it races.
    pub accesses: Vec<Vec<AccessDetails>>,
    /// The bounds of objects, and the dead places.
    pub ranges: Ranges,
    /// The bounds of abstract cells, by their numbers.
    pub cells: Vec<Option<ObjectBounds>>,
    /// Details of the alarms, the groups and the objects, of which nothing is promised.
    pub details: Details,
}
