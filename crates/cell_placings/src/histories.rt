//! Where a cell is kept along a walk.
ghost use Rattle.std.specs.Prelude.{◌≡◌, ◌∷◌, ◌++◌, [], IfOk, true};
ghost use Rattle.cell_placings.specs.Histories.{node_at};

use std::alloc::Global;
use std::marker::Model;
use tm_lattice::NoMemory;

/// From a time on a cell is kept at a node.
#[derive(Clone, Copy)]
pub struct Change {
    pub time: usize,
    pub node: usize,
}

/// Where a cell is kept along a walk: at node 0 at first.
#[derive(Drop)]
pub struct History {
    changes: Vec<Change>,
}

impl Model for History {
    ghost use Rattle.std.specs.Prelude.{List};
    ghost use Rattle.std.specs.List.Sorted.{IsNonDecreasingBy};
    ghost use Rattle.cell_placings.specs.declared.histories.Change.{Change};

    ghost Value = { List Change };

    ghost view = { λ history. history.changes.items };

    ghost invariant = { λ history. IsNonDecreasingBy (λ change. change.time) history.changes.items };
}

impl History {
    /// The history in which nothing changes.
    pub fn new(alloc: Global) -> History
        ensures { result ≡ [] }
    {
        History {
            changes: Vec::new(alloc),
        }
    }

    /// Notes that the cell is kept at a node from a time on. False where a change stands there that came later.
    pub fn note(&mut self, time: usize, node: usize) -> Result<bool, NoMemory>
        ensures { IfOk result (λ noted. noted ≡ true → self.new ≡ self.old ++ record { time = time; node = node } ∷ []) }
    {
        if let Some(last) = self.changes.last() {
            if last.time > time {
                return Ok(false);
            }
        }
        self.changes.push(Change { time, node })?;
        Ok(true)
    }

    /// The node at which the cell is kept at a time. It takes time logarithmic in the number of changes.
    pub fn at(&self, time: usize) -> usize
        ensures { result ≡ node_at 0 self.now time }
    {
        let behind = self.changes.partition_point(|change| change.time <= time);
        if behind == 0 {
            return 0;
        }
        self.changes[behind - 1].node
    }
}
