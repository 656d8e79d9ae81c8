//! What stands over a store, from which a later table is found.
use crate::systems::SlotValue;
use std::marker::Model;

/// What stands at the variables of a body: the temporaries of its nodes, and what is said of cells where they are kept.
/// It belongs to the body, its slots and the store over which it was found.
#[derive(Drop)]
pub struct SlotValues {
    pub(crate) values: Vec<Option<SlotValue>>,
}

impl Model for SlotValues {
    ghost use Rattle.std.specs.Prelude.{List, Option};
    ghost use Rattle.body_slots.specs.Rows.{Stand};
    ghost use Rattle.body_slots.specs.laws.Codes.{slot_values_code};

    ghost Value = { List (Option Stand) };

    ghost coded = { slot_values_code };

    ghost view = { λ a. a.values.items };
}
