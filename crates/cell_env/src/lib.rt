//! States of a task at a node: live temporaries with the cells of which they are copies, and for each cell its own
//! value, the mutexes that are pending there, and whether it is fresh and stored. It knows of the values only that
//! they are a lattice, and of no operation.
//!
//! Two states join to a third: where the temporary 3 is a copy of the cell 7 in both, it is one in the join, with the
//! join of the values; where the cell 7 is fresh in one alone, it is not fresh in the join. Rounded at the cell 7,
//! the state has the value of that cell moved outward.
#![tactic(auto)]

mod cells;
mod laws;
mod states;
mod temps;

pub use cells::CellState;
pub use laws::{rounding_at_cells, state_heights};
pub use states::State;
pub use temps::TempState;
