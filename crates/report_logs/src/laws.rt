//! The laws of logs, each as the contract of a function that does nothing.

ghost use Rattle.report_logs.specs.Laws.{AllTold, AllWaysTold};

/// A log has each finding once, in their order: none is left out.
pub fn all_told()
    ensures { AllTold }
{}

/// A log has each thing that is told of alarms once, in their order, where none is left when each finding has had its
/// turn, as in the logs that `log` makes.
pub fn all_ways_told()
    ensures { AllWaysTold }
{}
