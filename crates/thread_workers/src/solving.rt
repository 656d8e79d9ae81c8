//! The whole solution, by several workers.
ghost use Rattle.std.specs.Prelude.{◌≡◌, ◌↔◌, ◌<◌, ◌≤◌, IfOk, IsTrue};
ghost use Rattle.std.specs.Arc.{arc_value};
ghost use Rattle.store_core.specs.Histories.{IsQuiet};

use crate::shared::{SharedStore, passed, work};
use std::alloc::Global;
use std::sync::{Arc, Wait};
use std::thread::{Threads, map_indices};
use store_core::{Refused, StoreCore, Taken};
use tm_io::Gate;
use tm_lattice::{NoMemory, Warm};

/// A quiet core of this program and for this number of workers, 1 to 16, with its legal history. So its store is the
/// one in which every order of publications ends.
///
/// Each worker works in a thread of its own, where one can be made; one without memory ends the call after all were
/// joined. What comes out of the lock is tested, since nothing is known of it but its type: where it is no such core,
/// the caller goes on by itself, as worker 0 of a new one.
pub fn solve<R: Threads + Wait + Sync, P: Warm, G: Gate>(
    rt: &R,
    alloc: Global,
    program: Arc<P>,
    workers: u32,
    gate: &G,
) -> Result<StoreCore<P>, NoMemory>
    requires some { 1 ≤ workers }
    requires most { workers ≤ 16 }
    ensures program { IfOk result (λ core. core.program ≡ arc_value program) }
    ensures workers { IfOk result (λ core. core.workers ≡ workers) }
    ensures quiet { IfOk result (λ core. IsQuiet (P.task_count core.program) core.past) }
{
    let shared = SharedStore::new(StoreCore::open(alloc, Arc::try_clone(&program)?, workers)?);
    let answers = map_indices(
        rt,
        alloc,
        workers as usize,
        &|worker| -> Result<(), NoMemory>
            requires { worker < 16 }
        { work(rt, alloc, &shared, worker as u32, gate) },
    )?;
    for answer in answers {
        answer?;
    }
    let core = shared.into_core();
    if is_solution(&core, &*program, workers) {
        return Ok(core);
    }
    alone(rt, alloc, program, workers, gate)
}

// Whether it is a quiet core of this program and for this number of workers.
fn is_solution<P: Warm>(core: &StoreCore<P>, program: &P, workers: u32) -> bool
    ensures { IsTrue result ↔ ((core.now.program ≡ program.now) × (core.now.workers ≡ workers)
        × IsQuiet (P.task_count core.now.program) core.now.past) }
{
    if !core.program().same(program) {
        return false;
    }
    if core.workers() != workers {
        return false;
    }
    core.quiet()
}

// A quiet core, by worker 0 alone. Nothing is lent to another worker, so the core gives no answer that speaks of one.
fn alone<R: Wait, P: Warm, G: Gate>(
    rt: &R,
    alloc: Global,
    program: Arc<P>,
    workers: u32,
    gate: &G,
) -> Result<StoreCore<P>, NoMemory>
    requires some { 1 ≤ workers }
    requires most { workers ≤ 16 }
    ensures program { IfOk result (λ core. core.program ≡ arc_value program) }
    ensures workers { IfOk result (λ core. core.workers ≡ workers) }
    ensures quiet { IfOk result (λ core. IsQuiet (P.task_count core.program) core.past) }
{
    let mut core = StoreCore::open(alloc, program, workers)?;
    for _ in rt.forever() {
        match core.take(0)? {
            Taken::Next(snapshot) => {
                let contribution = passed(alloc, snapshot, 0, gate)?;
                match core.publish(0, contribution) {
                    Ok(_) => {}
                    Err(Refused::NoMemory) => return Err(NoMemory),
                    Err(Refused::NotLent) => unreachable!(),
                    Err(
                        Refused::Stranger {
                            lent: _,
                            brought: _,
                        },
                    ) => unreachable!(),
                }
            }
            Taken::AllQuiet => return Ok(core),
            Taken::Holding(_) => unreachable!(),
            Taken::Others => unreachable!(),
        }
    }
    unreachable!()
}
