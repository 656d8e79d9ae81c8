//! The work list.
ghost use Rattle.std.specs.Prelude.{◌≡◌, ◌<◌, ℕ, length, true, false, slice_index_or, IfOk, IfSome, IsTrue, MatchBool};
ghost use Rattle.std.specs.Prelude.{MatchOption, None};
ghost use Rattle.least_assignments.specs.Constraints.{at, IsPointwiseBelow};
ghost use Rattle.least_assignments.specs.Solutions.{AreRound, IsClosed, IsLeast, AreAllowed, IsRefused};
ghost use Rattle.least_assignments.specs.Solutions.{AreDoneOrPending, IsLeastAbove};
ghost use Rattle.least_assignments.specs.reading.WorkLists.{IsStep};

use crate::bringing::bring_all;
use crate::constraint_systems::ConstraintSystem;
use crate::pending::{Order, all_pending, next_pending};
use std::alloc::Global;
use tm_lattice::NoMemory;

/// The least closed assignment, at which each constraint may be applied. None where some constraint may not be applied
/// at an assignment below it.
pub fn least_assignment<C: ConstraintSystem>(
    alloc: Global,
    system: &C,
) -> Result<Option<Vec<Option<C::Value>>>, NoMemory>
    requires { C.is_system system.now }
    ensures variables { IfOk result (λ found. IfSome found (λ last.
        length last.items ≡ (C.system_of system.now).variable_count)) }
    ensures least { IfOk result (λ found. IfSome found (λ last.
        IsLeast C.Value.Lattice (C.fits system.now) (C.allows system.now) (C.system_of system.now) (at last.items))) }
    ensures allowed { IfOk result (λ found. IfSome found (λ last.
        AreAllowed C.Value.Lattice (C.fits system.now) (C.allows system.now) (C.system_of system.now)
        (at last.items))) }
    ensures refused { IfOk result (λ found. found ≡ None
        → IsRefused C.Value.Lattice (C.fits system.now) (C.allows system.now) (C.system_of system.now) (λ i. None)) }
{
    let start = no_values(alloc, system.variables())?;
    let pending = all_pending(alloc, system.constraints())?;
    let found = settle(alloc, system, start, pending)?;
    Ok(found)
}

/// Applies the pending constraints, and those that read a variable which rose, until none brings more: a closed
/// assignment, and the least one above the given one, at which each constraint may be applied. The start may be bottom
/// with all constraints pending, or an earlier least assignment of less with those that now bring more. None where
/// some constraint may not be applied at an assignment below that.
pub fn settle<C: ConstraintSystem>(
    alloc: Global,
    system: &C,
    mut values: Vec<Option<C::Value>>,
    mut pending: Vec<bool>,
) -> Result<Option<Vec<Option<C::Value>>>, NoMemory>
    requires system { C.is_system system.now }
    requires variables { length values.items ≡ (C.system_of system.now).variable_count }
    requires constraints { length pending.items ≡ (C.system_of system.now).constraint_count }
    requires round { AreRound C.Value.Lattice (C.fits system.now) (C.allows system.now) (C.system_of system.now)
        (at values.items) }
    requires done { AreDoneOrPending C.Value.Lattice (C.fits system.now) (C.allows system.now)
        (C.system_of system.now) (at values.items) pending.items }
    ensures variables { IfOk result (λ found. IfSome found (λ last. length last.items ≡ length values.items)) }
    ensures closed { IfOk result (λ found. IfSome found (λ last.
        IsClosed C.Value.Lattice (C.fits system.now) (C.allows system.now) (C.system_of system.now)
        (at last.items))) }
    ensures allowed { IfOk result (λ found. IfSome found (λ last.
        AreAllowed C.Value.Lattice (C.fits system.now) (C.allows system.now) (C.system_of system.now)
        (at last.items))) }
    ensures risen { IfOk result (λ found. IfSome found (λ last.
        IsPointwiseBelow (C.system_of system.now) C.Value.leq (at values.items) (at last.items))) }
    ensures least { IfOk result (λ found. IfSome found (λ last.
        IsLeastAbove C.Value.Lattice (C.fits system.now) (C.allows system.now) (C.system_of system.now)
        (at values.items) (at last.items))) }
    ensures refused { IfOk result (λ found. found ≡ None
        → IsRefused C.Value.Lattice (C.fits system.now) (C.allows system.now) (C.system_of system.now)
        (at values.items)) }
{
    let mut order = Order::new(alloc, system.first_urgent());
    let is_settled = run(alloc, system, &mut values, &mut pending, &mut order)?;
    if is_settled {
        return Ok(Some(values));
    }
    Ok(None)
}

// The loop: true where it ends, false where some constraint may not be applied.
fn run<C: ConstraintSystem>(
    alloc: Global,
    system: &C,
    values: &mut [Option<C::Value>],
    pending: &mut [bool],
    order: &mut Order,
) -> Result<bool, NoMemory>
    requires system { C.is_system system.now }
    requires variables { length values.old ≡ (C.system_of system.now).variable_count }
    requires constraints { length pending.old ≡ (C.system_of system.now).constraint_count }
    requires round { AreRound C.Value.Lattice (C.fits system.now) (C.allows system.now) (C.system_of system.now)
        (at values.old) }
    requires done { AreDoneOrPending C.Value.Lattice (C.fits system.now) (C.allows system.now)
        (C.system_of system.now) (at values.old) pending.old }
    ensures closed { IfOk result (λ settled. IsTrue settled
        → IsClosed C.Value.Lattice (C.fits system.now) (C.allows system.now) (C.system_of system.now)
        (at values.new)) }
    ensures allowed { IfOk result (λ settled. IsTrue settled
        → AreAllowed C.Value.Lattice (C.fits system.now) (C.allows system.now) (C.system_of system.now)
        (at values.new)) }
    ensures risen { IfOk result (λ settled. IsTrue settled
        → IsPointwiseBelow (C.system_of system.now) C.Value.leq (at values.old) (at values.new)) }
    ensures least { IfOk result (λ settled. IsTrue settled
        → IsLeastAbove C.Value.Lattice (C.fits system.now) (C.allows system.now) (C.system_of system.now)
        (at values.old) (at values.new)) }
    ensures refused { IfOk result (λ settled. settled ≡ false
        → IsRefused C.Value.Lattice (C.fits system.now) (C.allows system.now) (C.system_of system.now)
        (at values.old)) }
{
    while let Some(constraint) = next_pending(pending, order) {
        let is_applied = step(alloc, system, values, pending, order, constraint)?;
        if !is_applied {
            return Ok(false);
        }
    }
    Ok(true)
}

// Applies one constraint, which is pending no longer unless it reads what it raised. False where it may not be applied.
fn step<C: ConstraintSystem>(
    alloc: Global,
    system: &C,
    values: &mut [Option<C::Value>],
    pending: &mut [bool],
    order: &mut Order,
    constraint: usize,
) -> Result<bool, NoMemory>
    requires system { C.is_system system.now }
    requires variables { length values.old ≡ (C.system_of system.now).variable_count }
    requires constraints { length pending.old ≡ (C.system_of system.now).constraint_count }
    requires constraint { constraint < (C.system_of system.now).constraint_count }
    requires pending { slice_index_or pending.old constraint true ≡ true }
    requires round { AreRound C.Value.Lattice (C.fits system.now) (C.allows system.now) (C.system_of system.now)
        (at values.old) }
    requires done { AreDoneOrPending C.Value.Lattice (C.fits system.now) (C.allows system.now)
        (C.system_of system.now) (at values.old) pending.old }
    ensures { IfOk result (λ applied. MatchBool applied
        (IsStep C.Value.Lattice (C.fits system.now) (C.allows system.now) (C.system_of system.now)
        values.old pending.old values.new pending.new)
        (C.allows system.now constraint (at values.old) → ⊥)) }
{
    pending[constraint] = false;
    let Some(brought) = system.apply(alloc, constraint, values)? else {
        return Ok(false);
    };
    bring_all(
        alloc,
        system,
        values,
        pending,
        order,
        system.targets(constraint),
        brought,
    )?;
    Ok(true)
}

// Bottom at each variable.
fn no_values<V: Drop>(alloc: Global, variables: usize) -> Result<Vec<Option<V>>, NoMemory>
    ensures { IfOk result (λ values. (length values.items ≡ variables)
        × ((i : ℕ) → slice_index_or values.items i None ≡ None)) }
{
    let mut values = Vec::with_capacity(alloc, variables)?;
    for _ in 0..variables {
        values.push(None)?;
    }
    Ok(values)
}
