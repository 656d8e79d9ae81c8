//! Laws of progress.
ghost use Rattle.progress_laws.specs.Progress.{ActionsAreAnswerable, ProgressIsMade, EndsAreDone};
ghost use Rattle.progress_laws.specs.Progress.{RunsEndAtRest, BlockedAwaitHolders};

/// After whatever answers, fitting or not, some number answers a task's next action: a volatile load is one of an
/// integer, and the bounds of a choice are in order.
pub fn actions_are_answerable()
    ensures { ActionsAreAnswerable }
{}

/// In each world that is reached, whose turn it is has not come to its end; each number that its action leaves open is
/// allowed, and leads on or to the action's error; and there is such a number. While the initial section is not done it
/// is its turn. Once it is done, or where there is none, each task that waits may be woken.
pub fn progress_is_made()
    ensures { ProgressIsMade }
{}

/// In each world that is reached, whoever has come to its end is done.
pub fn ends_are_done()
    ensures { EndsAreDone }
{}

/// In each world that is reached, where no choice is allowed each task, and the initial section, is done or waits for a
/// mutex.
pub fn runs_end_at_rest()
    ensures { RunsEndAtRest }
{}

/// In each world that is reached, whoever is blocked waits for a mutex that another holds.
pub fn blocked_await_holders()
    ensures { BlockedAwaitHolders }
{}
