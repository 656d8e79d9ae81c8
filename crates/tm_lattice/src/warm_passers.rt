//! Programs whose passes can start from what an earlier pass kept.
ghost use Rattle.std.specs.Prelude.{◌≡◌, ◌<◌, ℕ, IfOk};
ghost use Rattle.std.specs.Arc.{arc_value};

use crate::memory::NoMemory;
use crate::passers::Passer;
use std::alloc::Global;
use std::sync::Arc;

/// A program whose passes can start from what an earlier pass of the same task kept.
pub trait Warm: Passer {
    /// What a pass keeps for the next one.
    type Kept: Drop + Send;

    // Holds of a value that a pass of this program for this task has kept.
    ghost made: { Self → ℕ → Self.Kept → Type 0 };

    // The store over which it was kept.
    ghost made_over: { Self.Kept → Self.Store };

    /// What a task adds to a store, and what is kept of this pass.
    fn cold(
        &self,
        alloc: Global,
        task: u32,
        store: &Arc<Self::Store>,
    ) -> Result<(Self::Kept, Self::Store), NoMemory>
        requires program { Self.is_program self.now }
        requires task { task < Self.task_count self.now }
        requires fits { Self.fits self.now (arc_value store.now) }
        ensures made { IfOk result (λ r. made self.now task r.0) }
        ensures over { IfOk result (λ r. made_over r.0 ≡ arc_value store.now) }
        ensures added { IfOk result (λ r. r.1 ≡ Self.passed self.now task (arc_value store.now)) };

    /// The same, begun from what an earlier pass of the task has kept, over a store that fits and lies below this one.
    fn warm(
        &self,
        alloc: Global,
        task: u32,
        kept: Self::Kept,
        store: &Arc<Self::Store>,
    ) -> Result<(Self::Kept, Self::Store), NoMemory>
        requires program { Self.is_program self.now }
        requires task { task < Self.task_count self.now }
        requires fits { Self.fits self.now (arc_value store.now) }
        requires kept { made self.now task kept }
        requires kept_fits { Self.fits self.now (made_over kept) }
        requires below { Self.Store.leq (made_over kept) (arc_value store.now) }
        ensures made { IfOk result (λ r. made self.now task r.0) }
        ensures over { IfOk result (λ r. made_over r.0 ≡ arc_value store.now) }
        ensures added { IfOk result (λ r. r.1 ≡ Self.passed self.now task (arc_value store.now)) };
}
