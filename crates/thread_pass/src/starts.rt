//! What passes keep of slots, from which the next pass of their task goes on.
ghost use Rattle.std.specs.Prelude.{◌≡◌, option_map, IfOk};
ghost use Rattle.std.specs.Arc.{arc_value};
ghost use Rattle.thread_pass.specs.Starts.{StartOf};

use body_slots::{BodySlots, SlotValues};
use std::marker::Model;
use std::sync::Arc;
use tm_lattice::NoMemory;

/// For each body of a program its slots, none where its tables are to be found without.
pub(crate) struct ProgramSlots {
    pub(crate) each: Vec<Option<BodySlots>>,
}

// By hand: a function that lets one go calls this, and its check does not go through the fields.
impl Drop for ProgramSlots {
    fn drop(self) {
        let ProgramSlots { each: _each } = self;
    }
}

impl Model for ProgramSlots {
    ghost use Rattle.std.specs.Prelude.{List, Option};
    ghost use Rattle.body_slots.specs.Slots.{Slots};

    ghost Value = { List (Option Slots) };

    ghost view = { λ a. a.each.items };
}

/// The slots of a program's bodies, and what stood at the variables of one of them. They belong together.
#[derive(Drop)]
pub struct TaskStart {
    pub(crate) slots: Arc<ProgramSlots>,
    pub(crate) values: SlotValues,
}

impl Model for TaskStart {
    ghost use Rattle.std.specs.Arc.{arc_value};
    ghost use Rattle.body_slots.specs.contracts.starts.SlotValues as of_values;
    ghost use Rattle.thread_pass.specs.contracts.starts.ProgramSlots as of_slots;
    ghost use Rattle.thread_pass.specs.Starts.{StartOf};
    ghost use Rattle.thread_pass.specs.laws.Codes.{start_code};

    ghost Value = { StartOf };

    ghost coded = { start_code of_slots.the_row.coded of_values.the_row.coded };

    ghost view = { λ a. record { slots = arc_value a.slots; values = a.values } };
}

/// The slots with what stands at the variables of one of the bodies, where that is kept.
pub(crate) fn started(
    slots: &Arc<ProgramSlots>,
    values: Option<SlotValues>,
) -> Result<Option<TaskStart>, NoMemory>
    ensures { IfOk result (λ made. made ≡ option_map (λ v. record { slots = arc_value slots.now; values = v }) values) }
{
    match values {
        None => Ok(None),
        Some(values) => Ok(Some(TaskStart {
            slots: slots.clone()?,
            values,
        })),
    }
}
