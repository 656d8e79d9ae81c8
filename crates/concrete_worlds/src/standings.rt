//! Standings of tasks.
ghost use Rattle.std.specs.Prelude.{◌≡◌, ◌≤◌, length, map, slice_set};
ghost use Rattle.tm_laid.specs.Layouts.{laid_tree};
ghost use Rattle.concrete_steps.specs.Worlds.{holds, with_mutex, with_status, is_ready, is_waiting, is_done};
ghost use Rattle.concrete_steps.specs.Worlds.{is_blocked_on, is_ended, is_section, is_taken, settled, yielded};
ghost use Rattle.concrete_worlds.specs.Views.{standing_of};
ghost use Rattle.concrete_worlds.specs.reading.Standings.{none_ready_above, awake};

use crate::held::Held;
use concrete_steps::Status;
use concrete_values::Next;
use tm_laid::Laid;

/// A task: its priority, where it stands, and the mutexes that it holds.
#[derive(Clone, Copy)]
pub struct TaskStanding {
    pub priority: u8,
    pub status: Status,
    pub held: Held,
}

pub(crate) fn is_ready(status: Status) -> bool
    ensures { result ≡ is_ready status }
{
    match status {
        Status::Ready => true,
        _ => false,
    }
}

pub(crate) fn is_waiting(status: Status) -> bool
    ensures { result ≡ is_waiting status }
{
    match status {
        Status::Waiting => true,
        _ => false,
    }
}

pub(crate) fn is_done(status: Status) -> bool
    ensures { result ≡ is_done status }
{
    match status {
        Status::Done => true,
        _ => false,
    }
}

fn is_blocked_on(mutex: u32, status: Status) -> bool
    ensures { result ≡ is_blocked_on mutex status }
{
    match status {
        Status::Blocked(other) => mutex == other,
        _ => false,
    }
}

fn is_ended(action: Next) -> bool
    ensures { result ≡ is_ended action }
{
    match action {
        Next::Ended => true,
        _ => false,
    }
}

impl TaskStanding {
    /// Whether the task holds the mutex, in a file with so many.
    #[tactic(auto, using(crate::proofs::Sets::holds_digit, crate::proofs::Sets::holds_none))]
    pub fn holds(self, mutexes: usize, mutex: u32) -> bool
        requires { mutexes ≤ 16 }
        ensures { result ≡ holds mutex (standing_of mutexes self) }
    {
        (mutex as usize) < mutexes && self.held.has(mutex)
    }

    /// With the mutex held or free.
    #[tactic(auto, using(crate::proofs::Sets::more, crate::proofs::Sets::less, crate::proofs::Sets::same))]
    pub(crate) fn with_mutex(self, mutexes: usize, mutex: u32, held: bool) -> TaskStanding
        requires { mutexes ≤ 16 }
        ensures { standing_of mutexes result ≡ with_mutex mutex held (standing_of mutexes self) }
    {
        if mutex as usize >= mutexes {
            return self;
        }
        let held = if held {
            self.held.with(mutex)
        } else {
            self.held.without(mutex)
        };
        TaskStanding { held, ..self }
    }

    /// With this status.
    pub(crate) fn with_status(self, status: Status) -> TaskStanding
        ensures { result ≡ record self { status = status } }
    {
        TaskStanding { status, ..self }
    }
}

// Whether this is the number of the initial section.
fn is_section(laid: &Laid, task: u32) -> bool
    ensures { result ≡ is_section (laid_tree laid.now) task }
{
    task as usize == laid.file.tasks.len()
}

/// A task whose next action is the end of its body is done. The initial section holds no mutex then.
#[tactic(auto, using(crate::proofs::Sets::set_empty))]
pub(crate) fn settled(laid: &Laid, task: u32, action: Next, standing: TaskStanding) -> TaskStanding
    ensures { standing_of (length laid.now.file.mutexes.items) result
        ≡ settled (laid_tree laid.now) task action (standing_of (length laid.now.file.mutexes.items) standing) }
{
    if !is_ended(action) {
        return standing;
    }
    let held = if is_section(laid, task) {
        Held::none()
    } else {
        standing.held
    };
    TaskStanding {
        status: Status::Done,
        held,
        ..standing
    }
}

/// A task that yields waits; the initial section stays ready.
pub(crate) fn yielded(laid: &Laid, task: u32, standing: TaskStanding) -> TaskStanding
    ensures { standing_of (length laid.now.file.mutexes.items) result
        ≡ yielded (laid_tree laid.now) task (standing_of (length laid.now.file.mutexes.items) standing) }
{
    if is_section(laid, task) {
        standing.with_status(Status::Ready)
    } else {
        standing.with_status(Status::Waiting)
    }
}

/// No task that is ready is more urgent.
pub(crate) fn none_above(priority: u8, standings: &[TaskStanding]) -> bool
    ensures { result ≡ none_ready_above priority standings.now }
{
    for standing in standings {
        if is_ready(standing.status) && priority < standing.priority {
            return false;
        }
    }
    true
}

/// Some task, or the initial section, holds the mutex.
pub(crate) fn is_taken(mutexes: usize, mutex: u32, standings: &[TaskStanding]) -> bool
    requires { mutexes ≤ 16 }
    ensures { result ≡ is_taken mutex (map (standing_of mutexes) standings.now) }
{
    for standing in standings {
        if standing.holds(mutexes, mutex) {
            return true;
        }
    }
    false
}

fn awake(mutex: u32, standing: TaskStanding) -> TaskStanding
    ensures { result ≡ awake mutex standing }
{
    if is_blocked_on(mutex, standing.status) {
        standing.with_status(Status::Ready)
    } else {
        standing
    }
}

fn wake_each(standings: &mut [TaskStanding], mutex: u32)
    ensures { standings.new ≡ map (awake mutex) standings.old }
{
    for standing in standings.iter_mut() {
        *standing = awake(mutex, *standing);
    }
}

/// Those who wait for the mutex are ready again.
pub(crate) fn wake_waiting(standings: &mut Vec<TaskStanding>, mutex: u32)
    ensures { standings.new.items ≡ map (awake mutex) standings.old.items }
{
    wake_each(standings, mutex);
}

/// The task stands so.
pub(crate) fn stand(standings: &mut Vec<TaskStanding>, task: u32, standing: TaskStanding)
    ensures { standings.new.items ≡ slice_set standings.old.items task standing }
{
    if let Some(place) = standings.get_mut(task as usize) {
        *place = standing;
    }
}
