//! One value brought to a variable.
ghost use Rattle.std.specs.Prelude.{◌≡◌, ◌<◌, ℕ, length, Some, None, IfSome, IfOk, MatchBool, slice_set};
ghost use Rattle.std.specs.Prelude.{slice_index_or};
ghost use Rattle.tm_lattice.specs.Tables.{IsBelow, joined_value};

use crate::constraint_systems::ConstraintSystem;
use std::alloc::Global;
use tm_lattice::{Lattice, NoMemory};

/// Joins a value to what stands at a variable, and rounds there. Where the variable was at least that value nothing
/// changes; true where it rose.
pub fn raise<C: ConstraintSystem>(
    alloc: Global,
    system: &C,
    values: &mut [Option<C::Value>],
    variable: usize,
    value: C::Value,
) -> Result<bool, NoMemory>
    requires system { C.is_system system.now }
    requires length { length values.old ≡ (C.system_of system.now).variable_count }
    requires variable { variable < (C.system_of system.now).variable_count }
    requires fits { C.fits system.now variable value }
    requires stands { IfSome (slice_index_or values.old variable None) (C.fits system.now variable) }
    ensures { IfOk result (λ rose. MatchBool rose
        ((IsBelow C.Value.leq (Some value) (slice_index_or values.old variable None) → ⊥)
        × (values.new ≡ slice_set values.old variable (Some ((C.system_of system.now).outward variable
        (joined_value C.Value.joined (slice_index_or values.old variable None) value)))))
        ((values.new ≡ values.old) × IsBelow C.Value.leq (Some value) (slice_index_or values.old variable None))) }
{
    let joined = match &values[variable] {
        None => value,
        Some(before) => {
            if value.below(before) {
                return Ok(false);
            }
            joined_onto(alloc, before, value)?
        }
    };
    values[variable] = Some(system.rounded(alloc, variable, joined)?);
    Ok(true)
}

// The join of two values. Mostly the second has risen from the first, and is the join itself.
fn joined_onto<L: Lattice>(alloc: Global, before: &L, value: L) -> Result<L, NoMemory>
    ensures { IfOk result (λ joined. joined ≡ L.joined before.now value) }
{
    // The calls tell that both are values.
    let _before = before.is_nothing();
    let _value = value.is_nothing();
    if before.below(&value) {
        return Ok(value);
    }
    Ok(before.join(alloc, &value)?)
}
