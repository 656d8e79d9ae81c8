//! States of a task at a node.
ghost use Rattle.std.specs.Prelude.{◌≡◌, IfOk};
ghost use Rattle.std.specs.Option.{option_copied};
ghost use Rattle.std.specs.FinMap as map;

use crate::cells::CellState;
use crate::temps::TempState;
use state_tree::Tree;
use std::alloc::Global;
use std::marker::Model;
use tm_lattice::{Keyed, Lattice, NoMemory};

/// The live temporaries with their copies, and the cells by their numbers. Copies of a state share the cells until
/// one of them changes.
pub struct State<V: Lattice> {
    temps: Keyed<TempState<V>>,
    cells: Tree<CellState<V>>,
}

// By hand: a function that lets one go calls this, and its check does not go through the fields.
impl<V: Lattice> Drop for State<V> {
    fn drop(self) {
        let State {
            temps: _temps,
            cells: _cells,
        } = self;
    }
}

impl<V: Lattice> Model for State<V> {
    ghost use Rattle.cell_env.specs.States.{TaskState};
    ghost use Rattle.cell_env.specs.laws.Codes.{state_code};

    ghost Value = { TaskState V V.Marks };

    ghost coded = { state_code V.code };

    ghost view = { λ a. record { temps = a.temps; cells = a.cells } };
}

impl<V: Lattice> State<V> {
    ghost use Rattle.cell_env.specs.States.{rounded_state_at};

    /// The state of these temporaries and cells. It takes no memory.
    pub fn new(temps: Keyed<TempState<V>>, cells: Tree<CellState<V>>) -> State<V>
        ensures { result ≡ record { temps = temps; cells = cells } }
    {
        State { temps, cells }
    }

    /// The live temporaries, and the cells.
    pub fn into_parts(self) -> (Keyed<TempState<V>>, Tree<CellState<V>>)
        ensures temps { result.0 ≡ self.temps }
        ensures cells { result.1 ≡ self.cells }
    {
        let State { temps, cells } = self;
        (temps, cells)
    }

    /// The live temporaries.
    pub fn temps(&self) -> &Keyed<TempState<V>>
        ensures { result.now ≡ self.now.temps }
    {
        &self.temps
    }

    /// The cells.
    pub fn cells(&self) -> &Tree<CellState<V>>
        ensures { result.now ≡ self.now.cells }
    {
        &self.cells
    }

    /// What the state says of a temporary: None exactly where it is not live.
    pub fn temp(&self, temp: u32) -> Option<&TempState<V>>
        ensures { option_copied result ≡ map.get self.now.temps temp }
    {
        self.temps.get(temp)
    }

    /// What the state says of a cell: None exactly where it has no entry.
    pub fn cell(&self, cell: u32) -> Option<&CellState<V>>
        ensures { option_copied result ≡ map.get self.now.cells cell }
    {
        self.cells.get(cell)
    }

    /// The state with the values of these cells rounded, as at a head. A cell may be given more than once.
    pub fn rounded_at(
        &self,
        alloc: Global,
        cells: &[u32],
        marks: &V::Marks,
    ) -> Result<State<V>, NoMemory>
        requires { V.is_marks marks.now }
        ensures { IfOk result (λ outer. outer ≡ rounded_state_at (V.rounded marks.now) cells.now self.now) }
    {
        let temps = self.temps.copied(alloc)?;
        let cells = self.cells.rounded_at(alloc, cells, marks)?;
        Ok(State { temps, cells })
    }
}

impl<V: Lattice> Lattice for State<V> {
    ghost use Rattle.cell_env.specs.States.{IsState, IsStateBelow, joined_state, rounded_state};
    ghost use Rattle.cell_env.specs.laws.StateLaws.{state_order, state_join, state_closure, state_nothing};

    type Marks = V::Marks;

    ghost is_value = { IsState V.is_value };

    ghost is_marks = { V.is_marks };

    ghost leq = { IsStateBelow V.leq };

    ghost joined = { joined_state V.joined };

    ghost rounded = { λ marks. rounded_state (V.rounded marks) };

    ghost nothing = { λ s. ⊥ };

    fn is_nothing(&self) -> bool {
        let _temps = Lattice::is_nothing(&self.temps);
        let _cells = Lattice::is_nothing(&self.cells);
        false
    }

    fn below(&self, other: &Self) -> bool {
        Lattice::below(&self.temps, &other.temps) && Lattice::below(&self.cells, &other.cells)
    }

    fn join(&self, alloc: Global, other: &Self) -> Result<Self, NoMemory> {
        let temps = self.temps.join(alloc, &other.temps)?;
        let cells = self.cells.join(alloc, &other.cells)?;
        Ok(State { temps, cells })
    }

    fn round(&self, alloc: Global, marks: &V::Marks) -> Result<Self, NoMemory> {
        let temps = self.temps.copied(alloc)?;
        let cells = self.cells.round(alloc, marks)?;
        Ok(State { temps, cells })
    }

    fn copied(&self, alloc: Global) -> Result<Self, NoMemory> {
        let temps = self.temps.copied(alloc)?;
        let cells = self.cells.copied(alloc)?;
        Ok(State { temps, cells })
    }

    ghost order = { state_order V.is_value V.is_marks V.leq V.joined V.rounded V.order V.join_laws V.closure };

    ghost join_laws = { state_join V.is_value V.is_marks V.leq V.joined V.rounded V.order V.join_laws V.closure };

    ghost closure = { state_closure V.is_value V.is_marks V.leq V.joined V.rounded V.order V.join_laws V.closure };

    ghost nothing_laws = { state_nothing V.is_value V.is_marks V.leq V.joined V.rounded V.order V.join_laws V.closure };
}
