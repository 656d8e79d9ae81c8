//! What passes keep.
ghost use Rattle.std.specs.Prelude.{◌≡◌};
ghost use Rattle.std.specs.Arc.{arc_value};

use crate::starts::TaskStart;
use interfere_set::Store;
use program_systems::BodyState;
use std::marker::Model;
use std::sync::Arc;

/// What a pass keeps for the next pass of its task: its table, what the table's edges contribute, the store over which
/// both were made, how many edges it applied, where that is told, and what the next pass may go on from by slots, where
/// that is worth keeping.
#[derive(Drop)]
pub struct Kept {
    pub(crate) table: Vec<Option<BodyState>>,
    pub(crate) added: Store,
    pub(crate) store: Arc<Store>,
    pub(crate) visits: Option<u64>,
    pub(crate) start: Option<TaskStart>,
}

impl Model for Kept {
    ghost use Rattle.std.specs.Arc.{arc_value};
    ghost use Rattle.thread_pass.specs.Kept.{KeptTable};
    ghost use Rattle.thread_pass.specs.contracts.starts.TaskStart as of_start;
    ghost use Rattle.thread_pass.specs.laws.Codes.{kept_code};

    ghost Value = { KeptTable };

    ghost coded = { kept_code of_start.the_row.coded };

    ghost view = { λ a. record {
      table = a.table.items;
      added = a.added;
      store = arc_value a.store;
      visits = a.visits;
      start = a.start;
    } };
}

impl Kept {
    /// The table: a state for each node of the task's configured graph, none where it is not reached.
    pub fn table(&self) -> &[Option<BodyState>]
        ensures { result.now ≡ self.now.table }
    {
        &self.table
    }

    /// What its edges contribute.
    pub fn added(&self) -> &Store
        ensures { result.now ≡ self.now.added }
    {
        &self.added
    }

    /// The store over which both were made.
    pub fn store(&self) -> &Arc<Store>
        ensures { arc_value result.now ≡ self.now.store }
    {
        &self.store
    }

    /// How many edges the pass applied for its table: so many, one after another, lead to it from the table with which
    /// the pass began. 2^64 - 1 stands for that many or more. None where the table was found by slots.
    pub fn visits(&self) -> Option<u64>
        ensures { result ≡ self.now.visits }
    {
        self.visits
    }
}
