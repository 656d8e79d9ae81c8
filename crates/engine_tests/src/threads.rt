//! Workers in threads.
ghost use Rattle.std.specs.Prelude.{◌≤◌};

use crate::toy::{Numbers, TwoTasks};
use held_passes::HoldsTheFirst;
use std::alloc::Global;
use std::process::Abort;
use std::sync::{Arc, Wait};
use std::test::Fail;
use std::thread::Threads;
use store_core::{Event, StoreCore};
use thread_workers::{SharedStore, solve, work};
use tm_io::OpenGate;
use tm_lattice::NoMemory;

// How many readings of a worker for a task stand in a history.
fn readings(history: &[Event<TwoTasks>], which: u32, of: u32) -> u64 {
    let mut count: u64 = 0;
    for event in history {
        if let Event::Read {
            worker,
            task,
            version: _,
        } = event
        {
            if (*worker == which) & (*task == of) {
                count = count.saturating_add(1);
            }
        }
    }
    count
}

// Whether as many passes of a worker for a task began as the history has readings.
fn is_counted(gate: &HoldsTheFirst, history: &[Event<TwoTasks>], worker: u32, task: u32) -> bool {
    gate.passes(worker, task) == Some(readings(history, worker, task))
}

// Two passes began before the first ended, each behind what told the gate of it, and each stands in the history.
fn are_beside(rt: &impl Abort, gate: &HoldsTheFirst, history: &[Event<TwoTasks>]) {
    assert!(rt; gate.begun_before_an_end() > 1);
    // No pass computed before the gate was told that it began, and none ended before it computed.
    assert!(rt; gate.out_of_order() == 0);
    assert!(rt; is_counted(gate, history, 0, 0) & is_counted(gate, history, 0, 1));
    assert!(rt; is_counted(gate, history, 1, 0) & is_counted(gate, history, 1, 1));
    assert!(rt; gate.begun() == history.len() as u64 / 2);
}

fn solve_beside<R: Abort + Threads + Wait + Sync>(
    rt: &R,
    alloc: Global,
    gate: &Arc<HoldsTheFirst>,
) -> Result<(), Fail> {
    let program = TwoTasks::told_to(Arc::try_clone(gate)?);
    let core = solve(rt, alloc, Arc::new(alloc, program)?, 2, &**gate)?;
    are_beside(rt, gate, core.history());
    Ok(())
}

#[test]
fn two_passes_begin_before_the_first_ends(rt: HostRuntime) -> Result<(), Fail> {
    let gate = Arc::new(rt.alloc(), HoldsTheFirst::after(0))?;
    solve_beside(&rt, rt.alloc(), &gate)
}

// Whether so many workers end in this store.
fn ends_in<R: Threads + Wait + Sync>(
    rt: &R,
    alloc: Global,
    first: bool,
    workers: u32,
    wanted: &Numbers,
) -> Result<bool, NoMemory>
    requires some { 1 ≤ workers }
    requires most { workers ≤ 16 }
{
    let program = Arc::new(alloc, TwoTasks::new(first))?;
    let core = solve(rt, alloc, program, workers, &OpenGate)?;
    Ok(core.quiet() & (core.workers() == workers) & core.store().same(wanted))
}

#[test]
fn every_number_of_workers_ends_in_one_store(rt: HostRuntime) -> Result<(), Fail> {
    let alloc = rt.alloc();
    let all = Numbers::new(true, true, true, true);
    let none = Numbers::new(false, false, false, false);
    for workers in 1..17 {
        assert!(rt; ends_in(&rt, alloc, true, workers, &all)?);
        assert!(rt; ends_in(&rt, alloc, false, workers, &none)?);
    }
    Ok(())
}

// What a gate saw of a worker that works by itself on a core for two workers; two passes have gone by it already.
fn seen_alone<R: Wait>(rt: &R, alloc: Global, worker: u32) -> Result<Arc<HoldsTheFirst>, NoMemory> {
    let gate = Arc::new(alloc, HoldsTheFirst::after(2))?;
    let program = TwoTasks::told_to(Arc::try_clone(&gate)?);
    let core = StoreCore::open(alloc, Arc::new(alloc, program)?, 2)?;
    let shared = SharedStore::new(core);
    work(rt, alloc, &shared, worker, &*gate)?;
    Ok(gate)
}

#[test]
fn a_worker_alone_ends(rt: HostRuntime) -> Result<(), Fail> {
    let alloc = rt.alloc();
    // Each of the two tasks passes twice, and the gate begins at 2. There is no worker 2.
    for (worker, begun) in [(0, 6), (1, 6), (2, 2)] {
        let gate = seen_alone(&rt, alloc, worker)?;
        assert!(rt; gate.begun() == begun, "of worker {worker}");
        assert!(rt; gate.out_of_order() == 0, "of worker {worker}");
    }
    Ok(())
}
