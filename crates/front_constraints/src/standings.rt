//! What stands at a variable.
ghost use Rattle.std.specs.Prelude.{◌≡◌, ◌↔◌, IsTrue, IfOk};

use std::alloc::Global;
use tm_lattice::{Lattice, NoMemory};

/// What stands at a variable: a front or a cell, or neither, where all that counts is that something came there.
#[derive(Drop)]
pub struct Standing<F: Drop, D: Drop> {
    /// The front of a node.
    pub front: Option<F>,
    /// What stands at a cell.
    pub cell: Option<D>,
}

impl<F: Lattice, D: Lattice> Lattice for Standing<F, D> {
    ghost use Rattle.front_constraints.specs.Standings.{HasParts, IsStandingBelow, joined_standing, changed_standing};
    ghost use Rattle.front_constraints.specs.laws.StandingLaws.{standing_order, standing_join, standing_closure};
    ghost use Rattle.front_constraints.specs.laws.StandingLaws.{standing_nothing};

    type Marks = (F::Marks, D::Marks);

    ghost is_value = { HasParts F.is_value D.is_value };

    ghost is_marks = { λ marks. F.is_marks marks.0 × D.is_marks marks.1 };

    ghost leq = { IsStandingBelow F.leq D.leq };

    ghost joined = { joined_standing F.joined D.joined };

    ghost rounded = { λ marks. changed_standing (F.rounded marks.0) (D.rounded marks.1) };

    ghost nothing = { λ w. ⊥ };

    fn is_nothing(&self) -> bool {
        if let Some(front) = &self.front {
            let _front = front.is_nothing();
        }
        if let Some(cell) = &self.cell {
            let _cell = cell.is_nothing();
        }
        false
    }

    fn below(&self, other: &Self) -> bool {
        let is_front_below = match (&self.front, &other.front) {
            (None, _) => true,
            (Some(_), None) => false,
            (Some(front), Some(above)) => front.below(above),
        };
        let is_cell_below = match (&self.cell, &other.cell) {
            (None, _) => true,
            (Some(_), None) => false,
            (Some(cell), Some(above)) => cell.below(above),
        };
        is_front_below && is_cell_below
    }

    fn join(&self, alloc: Global, other: &Self) -> Result<Self, NoMemory> {
        let front = match (&self.front, &other.front) {
            (None, None) => None,
            (None, Some(front)) => Some(front.copied(alloc)?),
            (Some(front), None) => Some(front.copied(alloc)?),
            (Some(front), Some(other)) => Some(front.join(alloc, other)?),
        };
        let cell = match (&self.cell, &other.cell) {
            (None, None) => None,
            (None, Some(cell)) => Some(cell.copied(alloc)?),
            (Some(cell), None) => Some(cell.copied(alloc)?),
            (Some(cell), Some(other)) => Some(cell.join(alloc, other)?),
        };
        Ok(Standing { front, cell })
    }

    fn round(&self, alloc: Global, marks: &(F::Marks, D::Marks)) -> Result<Self, NoMemory> {
        let front = match &self.front {
            None => None,
            Some(front) => Some(front.round(alloc, &marks.0)?),
        };
        let cell = match &self.cell {
            None => None,
            Some(cell) => Some(cell.round(alloc, &marks.1)?),
        };
        Ok(Standing { front, cell })
    }

    fn copied(&self, alloc: Global) -> Result<Self, NoMemory> {
        let front = match &self.front {
            None => None,
            Some(front) => Some(front.copied(alloc)?),
        };
        let cell = match &self.cell {
            None => None,
            Some(cell) => Some(cell.copied(alloc)?),
        };
        Ok(Standing { front, cell })
    }

    ghost order = { standing_order F.is_value D.is_value F.leq D.leq F.order D.order };

    ghost join_laws = { standing_join F.is_value D.is_value F.leq D.leq F.order D.order F.joined D.joined F.join_laws
        D.join_laws };

    ghost closure = { standing_closure F.is_value D.is_value F.leq D.leq F.is_marks D.is_marks F.rounded D.rounded
        F.closure D.closure };

    ghost nothing_laws = { standing_nothing F.is_value D.is_value F.leq D.leq F.is_marks D.is_marks F.rounded D.rounded
        F.closure D.closure };
}
