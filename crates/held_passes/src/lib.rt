//! A gate for tests of workers beside each other: it holds the first passes until so many have begun, and counts
//! passes. What a pass is it does not know; one that tells the gate of itself is compared with what the workers say of
//! it. No clause says what its counts hold, since other threads may change them.
//!
//! Two workers that pass two tasks tell it of four passes or more, and before the first of them ends two have begun. A
//! worker that says that a pass begins when it is over is found out at the first one, since a pass computed and none
//! had begun.
#![tactic(auto)]

use std::sync::atomic::{AtomicU64, Ordering};
use tm_io::Gate;

/// At most so many turns a pass is held.
const TURNS: u64 = 300_000_000;

/// Holds the first passes until so many have begun, and counts the passes of two workers for two tasks.
#[derive(Drop)]
pub struct HoldsTheFirst {
    wanted: u64,
    begun: AtomicU64,
    computed: AtomicU64,
    ended: AtomicU64,
    begun_before_an_end: AtomicU64,
    out_of_order: AtomicU64,
    passes: [AtomicU64; 4],
}

impl HoldsTheFirst {
    /// A gate that holds the first pass until a second has begun. So many passes have come and gone already: where
    /// there were two, none is held.
    pub fn after(passes: u64) -> HoldsTheFirst {
        HoldsTheFirst::new(2, passes)
    }

    /// A gate that holds each pass until so many have begun.
    pub fn until(wanted: u64) -> HoldsTheFirst {
        HoldsTheFirst::new(wanted, 0)
    }

    /// A gate that holds each pass until so many have begun, of which some have come and gone already.
    fn new(wanted: u64, passes: u64) -> HoldsTheFirst {
        HoldsTheFirst {
            wanted,
            begun: AtomicU64::new(passes),
            computed: AtomicU64::new(passes),
            ended: AtomicU64::new(passes),
            begun_before_an_end: AtomicU64::new(0),
            out_of_order: AtomicU64::new(0),
            passes: [
                AtomicU64::new(0),
                AtomicU64::new(0),
                AtomicU64::new(0),
                AtomicU64::new(0),
            ],
        }
    }

    /// How many passes have begun.
    pub fn begun(&self) -> u64 {
        self.begun.load(Ordering::SeqCst)
    }

    /// How many had begun when the first one ended, 0 where none has ended.
    pub fn begun_before_an_end(&self) -> u64 {
        self.begun_before_an_end.load(Ordering::SeqCst)
    }

    /// Is told by a pass that it computes. By then the gate must have been told that it began: at no moment have more
    /// passes computed than begun.
    pub fn computes(&self) {
        let before = self.computed.fetch_add(1, Ordering::SeqCst);
        if before >= self.begun() {
            self.out_of_order.fetch_add(1, Ordering::SeqCst);
        }
    }

    /// How often a pass computed that had not begun, or ended that had not computed. Where passes do not tell the gate
    /// that they compute, it is as many as have ended.
    pub fn out_of_order(&self) -> u64 {
        self.out_of_order.load(Ordering::SeqCst)
    }

    /// How many passes of this worker for this task have begun, none for other workers and tasks than 0 and 1.
    pub fn passes(&self, worker: u32, task: u32) -> Option<u64> {
        let count = self.passes.get(place_of(worker, task))?;
        Some(count.load(Ordering::SeqCst))
    }
}

/// Where the passes of a worker for a task are counted: past the end for any other worker or task.
fn place_of(worker: u32, task: u32) -> usize {
    if (worker < 2) & (task < 2) {
        2 * worker as usize + task as usize
    } else {
        4
    }
}

impl Gate for HoldsTheFirst {
    fn began(&self, worker: u32, task: u32) {
        if let Some(count) = self.passes.get(place_of(worker, task)) {
            count.fetch_add(1, Ordering::SeqCst);
        }
        self.begun.fetch_add(1, Ordering::SeqCst);
        for _ in 0..TURNS {
            if self.begun() >= self.wanted {
                break;
            }
        }
    }

    fn ended(&self, _worker: u32, _task: u32) {
        if self.begun_before_an_end() == 0 {
            self.begun_before_an_end
                .store(self.begun(), Ordering::SeqCst);
        }
        let before = self.ended.fetch_add(1, Ordering::SeqCst);
        if before >= self.computed.load(Ordering::SeqCst) {
            self.out_of_order.fetch_add(1, Ordering::SeqCst);
        }
    }
}
