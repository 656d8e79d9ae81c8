//! What a check answers.
ghost use Rattle.std.specs.Prelude.{◌≡◌};
ghost use Rattle.std.specs.Arc.{arc_value};
ghost use Rattle.post_recheck.specs.Pairs.{pair_of, lists_of};

use interfere_set::Store;
use shared_programs::BodyState;
use std::marker::Model;
use std::sync::Arc;

/// A table of a body: for each node of its configured graph a state, none where it is not reached.
pub type Table = Vec<Option<BodyState>>;

/// Tables and a store that are to be a solution, as a check has found them, or as what made them promises: those of the
/// tasks by their numbers, then that of the initial section, where there is one.
pub struct Solution {
    tables: Vec<Table>,
    store: Arc<Store>,
}

// By hand: a function that lets one go calls this, and its check does not go through the fields.
impl Drop for Solution {
    fn drop(self) {
        let Solution {
            tables: _tables,
            store: _store,
        } = self;
    }
}

impl Model for Solution {
    ghost use Rattle.std.specs.Arc.{arc_value};
    ghost use Rattle.post_recheck.specs.Pairs.{Pair, pair_of};
    ghost use Rattle.post_recheck.specs.laws.Codes.{pair_code};

    ghost Value = { Pair };

    ghost coded = { pair_code };

    ghost view = { λ a. pair_of a.tables.items (arc_value a.store) };
}

impl Solution {
    /// These tables and this store. That they are a solution, the contract of whoever made them says, or a check.
    pub fn new(tables: Vec<Table>, store: Arc<Store>) -> Solution
        ensures { result ≡ pair_of tables.items (arc_value store) }
    {
        Solution { tables, store }
    }

    /// The tables of the tasks by their numbers, then that of the initial section.
    pub fn tables(&self) -> &[Table]
        ensures { lists_of result.now ≡ self.now.tables }
    {
        &self.tables
    }

    /// The store.
    pub fn store(&self) -> &Arc<Store>
        ensures { arc_value result.now ≡ self.now.store }
    {
        &self.store
    }
}

/// The answer of a check.
#[derive(Drop)]
pub enum Checked {
    /// The pair is a solution.
    Solution(Solution),
    /// An edge of a body is not covered, by its number counted from 1; 0 stands for the entry.
    Uncovered { body: u32, edge: usize },
    /// Every edge is covered, and the store is not.
    UncoveredStore,
}
