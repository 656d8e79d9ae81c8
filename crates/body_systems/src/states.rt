//! The state of a body at a node.
ghost use Rattle.std.specs.Prelude.{◌≡◌};

use cell_env::State;
use pointer_dom::AbsValue;
use std::alloc::Global;
use std::marker::Model;
use strided_dom::Marks;
use tm_lattice::{Lattice, NoMemory};

/// The state of a body at a node, whose cells and temporaries have sets of values.
#[derive(Drop)]
pub struct BodyState {
    state: State<AbsValue>,
}

impl Model for BodyState {
    ghost use Rattle.pointer_dom.specs.laws.Codes.{values_code};
    ghost use Rattle.cell_env.specs.laws.Codes.{state_code};
    ghost use Rattle.transfer_mem.specs.edge_actions.transfer_rows.StateForms.{State};

    ghost Value = { State };

    ghost coded = { state_code values_code };

    ghost view = { λ a. a.state };
}

impl BodyState {
    /// What stands at a node where this state stands.
    pub fn new(state: State<AbsValue>) -> BodyState
        ensures { result ≡ state }
    {
        BodyState { state }
    }

    /// The state itself.
    pub fn state(&self) -> &State<AbsValue>
        ensures { result.now ≡ self.now }
    {
        &self.state
    }
}

impl Lattice for BodyState {
    ghost use Rattle.std.specs.Prelude.{ℤ, List};
    ghost use Rattle.pointer_dom.specs.Values.{joined_values, rounded_values};
    ghost use Rattle.cell_env.specs.States.{joined_state, rounded_state};
    ghost use Rattle.transfer_mem.specs.edge_actions.transfer_rows.StateForms.{IsStateForm, IsStateUnder};
    ghost use Rattle.task_equations.specs.state_fits.laws.PlacesFit.{states_order, states_join};
    ghost use Rattle.body_systems.specs.laws.States.{states_closure, states_nothing};

    type Marks = Marks;

    ghost is_value = { IsStateForm };

    ghost is_marks = { λ marks. Unit {0} };

    ghost leq = { IsStateUnder };

    ghost joined = { joined_state joined_values };

    ghost rounded = { λ marks. rounded_state (rounded_values marks) };

    ghost nothing = { λ s. ⊥ };

    fn is_nothing(&self) -> bool {
        self.state.is_nothing()
    }

    fn below(&self, other: &Self) -> bool {
        self.state.below(&other.state)
    }

    fn join(&self, alloc: Global, other: &Self) -> Result<Self, NoMemory> {
        let state = self.state.join(alloc, &other.state)?;
        Ok(BodyState { state })
    }

    fn round(&self, alloc: Global, marks: &Marks) -> Result<Self, NoMemory> {
        let state = self.state.round(alloc, marks)?;
        Ok(BodyState { state })
    }

    fn copied(&self, alloc: Global) -> Result<Self, NoMemory> {
        let state = self.state.copied(alloc)?;
        Ok(BodyState { state })
    }

    ghost order = { states_order };

    ghost join_laws = { states_join };

    ghost closure = { states_closure };

    ghost nothing_laws = { states_nothing };
}
