//! Laws of worlds: each is the contract of a function that does nothing.
ghost use Rattle.concrete_steps.specs.Laws.{StepsAreMoves, PrioritiesStay};
ghost use Rattle.concrete_steps.specs.Laws.{RefusalsChangeNothing, ErrorsEndRuns, HeldApart, BlockedAtLocks};
ghost use Rattle.concrete_steps.specs.Laws.{DoneAtEnds};

/// A choice that is not allowed changes nothing.
pub fn refusals_change_nothing()
    ensures { RefusalsChangeNothing }
{}

/// An error ends the run: after it no choice is allowed.
pub fn errors_end_runs()
    ensures { ErrorsEndRuns }
{}

/// No two tasks hold one mutex.
pub fn held_apart()
    ensures { HeldApart }
{}

/// A task that is blocked stands at the lock of that mutex, which it does not hold.
pub fn blocked_at_locks()
    ensures { BlockedAtLocks }
{}

/// A task that is done stands at the end of its body.
pub fn done_at_ends()
    ensures { DoneAtEnds }
{}

/// Each step that is done is a move, which changes what its clauses say and nothing else.
pub fn steps_are_moves()
    ensures { StepsAreMoves }
{}

/// Each task keeps its priority.
pub fn priorities_stay()
    ensures { PrioritiesStay }
{}
