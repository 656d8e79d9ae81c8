//! What a constraint brings, brought to its targets.
ghost use Rattle.std.specs.Prelude.{◌≡◌, ◌<◌, ℕ, length, None, IfSome, IsOk, slice_index_or};
ghost use Rattle.least_assignments.specs.Constraints.{at};
ghost use Rattle.least_assignments.specs.Solutions.{AreRound};
ghost use Rattle.least_assignments.specs.reading.WorkLists.{IsRise, HoldsAt, HoldsBelow};

use crate::constraint_systems::ConstraintSystem;
use crate::pending::{Order, mark};
use crate::raising::raise;
use std::alloc::Global;
use tm_lattice::NoMemory;

/// Brings to each target the value of its number, if there is one. Constraints that read a variable which rose become
/// pending.
pub fn bring_all<C: ConstraintSystem>(
    alloc: Global,
    system: &C,
    values: &mut [Option<C::Value>],
    pending: &mut [bool],
    order: &mut Order,
    targets: &[usize],
    mut brought: Vec<Option<C::Value>>,
) -> Result<(), NoMemory>
    requires system { C.is_system system.now }
    requires variables { length values.old ≡ (C.system_of system.now).variable_count }
    requires constraints { length pending.old ≡ (C.system_of system.now).constraint_count }
    requires round { AreRound C.Value.Lattice (C.fits system.now) (C.allows system.now) (C.system_of system.now)
        (at values.old) }
    requires count { length brought.items ≡ length targets.now }
    requires within { (j : ℕ) → j < length targets.now
        → slice_index_or targets.now j 0 < (C.system_of system.now).variable_count }
    requires fits { (j : ℕ) → j < length targets.now
        → IfSome (slice_index_or brought.items j None) (C.fits system.now (slice_index_or targets.now j 0)) }
    ensures { IsOk result → IsRise C.Value.Lattice (C.fits system.now) (C.allows system.now) (C.system_of system.now)
        (HoldsBelow C.Value.Lattice (C.fits system.now) (C.allows system.now) (C.system_of system.now)
        (length targets.now) targets.now (at brought.items)) values.old pending.old values.new pending.new }
{
    for j in 0..targets.len() {
        if let Some(value) = brought[j].take() {
            bring(alloc, system, values, pending, order, targets[j], value)?;
        }
    }
    Ok(())
}

// Brings one value to a variable. Constraints that read it become pending if it rose.
fn bring<C: ConstraintSystem>(
    alloc: Global,
    system: &C,
    values: &mut [Option<C::Value>],
    pending: &mut [bool],
    order: &mut Order,
    variable: usize,
    value: C::Value,
) -> Result<(), NoMemory>
    requires system { C.is_system system.now }
    requires variables { length values.old ≡ (C.system_of system.now).variable_count }
    requires constraints { length pending.old ≡ (C.system_of system.now).constraint_count }
    requires round { AreRound C.Value.Lattice (C.fits system.now) (C.allows system.now) (C.system_of system.now)
        (at values.old) }
    requires variable { variable < (C.system_of system.now).variable_count }
    requires fits { C.fits system.now variable value }
    ensures { IsOk result → IsRise C.Value.Lattice (C.fits system.now) (C.allows system.now) (C.system_of system.now)
        (HoldsAt C.Value.Lattice (C.fits system.now) (C.allows system.now) (C.system_of system.now) variable value)
        values.old pending.old values.new pending.new }
{
    let rose = raise(alloc, system, values, variable, value)?;
    if rose {
        mark(pending, order, system.readers(variable))?;
        return Ok(());
    }
    Ok(())
}
