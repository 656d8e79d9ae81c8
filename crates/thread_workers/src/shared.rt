//! The store core behind a lock, and the loop of a worker.
ghost use Rattle.std.specs.Prelude.{◌≡◌, IfOk};

use std::alloc::Global;
use std::sync::{Condvar, Mutex, Wait};
use store_core::{Contribution, Refused, Snapshot, StoreCore, Taken};
use tm_io::Gate;
use tm_lattice::{NoMemory, Warm};

// What lies behind the lock: the core, and whether some worker has ended the work of all.
#[derive(Drop)]
pub(crate) struct Shared<P: Warm> {
    pub(crate) core: StoreCore<P>,
    pub(crate) ended: bool,
}

/// A store core that threads share. At each moment at which no worker holds the lock, a core with a legal history lies
/// behind it.
#[derive(Drop)]
pub struct SharedStore<P: Warm> {
    pub(crate) state: Mutex<Shared<P>>,
    pub(crate) changed: Condvar,
}

impl<P: Warm> SharedStore<P> {
    /// Puts the core behind a lock. It takes no memory.
    pub fn new(core: StoreCore<P>) -> SharedStore<P> {
        SharedStore {
            state: Mutex::new(Shared { core, ended: false }),
            changed: Condvar::new(),
        }
    }

    // Takes the core back out.
    pub(crate) fn into_core(self) -> StoreCore<P> {
        let SharedStore { state, changed } = self;
        drop(changed);
        let Shared { core, ended: _ } = state.into_inner();
        core
    }
}

/// Takes, passes and publishes as one worker of the core, until all is quiet; the gate is told when a pass begins and
/// when it has ended.
///
/// It waits for other workers only while each task that is not settled is lent to one of them. Where the core has no
/// such worker, or the worker's answers are for another one (a task that it holds already, a publication that is not
/// taken in), it ends with Ok. Where it finds no memory, it ends the work of all: every other worker ends with Ok at
/// its next turn.
pub fn work<R: Wait, P: Warm, G: Gate>(
    rt: &R,
    alloc: Global,
    shared: &SharedStore<P>,
    worker: u32,
    gate: &G,
) -> Result<(), NoMemory> {
    for _ in rt.forever() {
        match next(rt, shared, worker) {
            Ok(Some(snapshot)) => {
                let Ok(contribution) = passed(alloc, snapshot, worker, gate) else {
                    end(rt, shared);
                    return Err(NoMemory);
                };
                if !publish(rt, shared, worker, contribution)? {
                    return Ok(());
                }
            }
            Ok(None) => return Ok(()),
            Err(none) => return Err(none),
        }
    }
    unreachable!()
}

// The pass of what the worker was lent, between the two calls of the gate.
pub(crate) fn passed<P: Warm, G: Gate>(
    alloc: Global,
    snapshot: Snapshot<P>,
    worker: u32,
    gate: &G,
) -> Result<Contribution<P>, NoMemory>
    ensures program { IfOk result (λ brought. brought.program ≡ snapshot.program) }
    ensures task { IfOk result (λ brought. brought.task ≡ snapshot.task) }
    ensures store { IfOk result (λ brought. brought.store ≡ snapshot.store) }
{
    let task = snapshot.task();
    gate.began(worker, task);
    let contribution = Contribution::of(alloc, snapshot);
    gate.ended(worker, task);
    contribution
}

// Ends the work of all: the others end at their next turn.
fn end<R: Wait, P: Warm>(rt: &R, shared: &SharedStore<P>) {
    let mut state = shared.state.lock(rt);
    state.ended = true;
    drop(state);
    shared.changed.notify_all();
}

// The next task for the worker, or None where it is to end. It waits while all that is left is lent to others.
fn next<R: Wait, P: Warm>(
    rt: &R,
    shared: &SharedStore<P>,
    worker: u32,
) -> Result<Option<Snapshot<P>>, NoMemory> {
    let mut state = shared.state.lock(rt);
    for _ in rt.forever() {
        if state.ended || worker >= state.core.workers() {
            return Ok(None);
        }
        match state.core.take(worker) {
            Ok(Taken::Next(snapshot)) => return Ok(Some(snapshot)),
            Ok(Taken::Others) => state = shared.changed.wait(rt, state),
            Ok(Taken::Holding(_)) => return Ok(None),
            Ok(Taken::AllQuiet) => {
                drop(state);
                shared.changed.notify_all();
                return Ok(None);
            }
            Err(none) => {
                state.ended = true;
                drop(state);
                shared.changed.notify_all();
                return Err(none);
            }
        }
    }
    unreachable!()
}

// Publishes what the worker brings, and wakes all that wait. Whether the worker goes on.
fn publish<R: Wait, P: Warm>(
    rt: &R,
    shared: &SharedStore<P>,
    worker: u32,
    contribution: Contribution<P>,
) -> Result<bool, NoMemory> {
    let mut state = shared.state.lock(rt);
    let published = state.core.publish(worker, contribution);
    let wants_memory = matches!(&published, Err(Refused::NoMemory));
    if wants_memory {
        state.ended = true;
    }
    drop(state);
    shared.changed.notify_all();
    if wants_memory {
        return Err(NoMemory);
    }
    Ok(published.is_ok())
}
