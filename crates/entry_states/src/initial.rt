//! What cells of static storage hold before a program runs.
ghost use Rattle.std.specs.Prelude.{◌≡◌, ℤ, IfOk, OnOk, replicate};
ghost use Rattle.strided_dom.specs.Progression.{IsInReach};
ghost use Rattle.tm_laid.specs.declared.objects.Initial.TheVariants as Initials;
ghost use Rattle.tm_laid.specs.Layouts.{laid_tree};
ghost use Rattle.pointer_dom.specs.Values.{no_value};
ghost use Rattle.body_systems.specs.program_equations.Readings.{read_layout};
ghost use Rattle.body_systems.specs.program_equations.Entries.{initial_value};
ghost use Rattle.entry_states.specs.Beginnings.{BeginsInTypes, AreInitialValues};
ghost use Rattle.entry_states.specs.reading.Joining.{with_joined};

use body_systems::pointer_value;
use concrete_values::Pointer;
use pointer_dom::{AbsValue, PointerSet};
use std::alloc::Global;
use strided_dom::Strided;
use tm_laid::{Initial, Laid, cell_at};
use tm_lattice::{Lattice, NoMemory};

// What a cell holds at first, as a set of values.
fn initial_value(alloc: Global, laid: &Laid, initial: Initial) -> Result<AbsValue, NoMemory>
    requires { (n : ℤ) → initial ≡ Initials.Number n → IsInReach n }
    ensures { IfOk result (λ value. value ≡ initial_value (read_layout (laid_tree laid.now)) initial) }
{
    match initial {
        Initial::Number(number) => Ok(AbsValue::from_numbers(Strided::one(number))),
        Initial::Null => Ok(AbsValue::from_pointers(PointerSet::null(alloc))),
        Initial::To { object, offset } => {
            let pointers = pointer_value(alloc, laid, Pointer::To { object, offset })?;
            Ok(AbsValue::from_pointers(pointers))
        }
    }
}

// Nothing for each of so many cells.
fn no_values(alloc: Global, count: usize) -> Result<Vec<AbsValue>, NoMemory>
    ensures { IfOk result (λ values. values.items ≡ replicate count no_value) }
{
    let mut values = Vec::new(alloc);
    for _ in 0..count {
        values.push(AbsValue::from_numbers(Strided::empty()))?;
    }
    Ok(values)
}

// Joins one more value to what a cell holds, where there is such a cell.
fn join_at(
    alloc: Global,
    values: &mut Vec<AbsValue>,
    cell: u32,
    value: &AbsValue,
) -> Result<(), NoMemory>
    ensures { OnOk result (values.new.items ≡ with_joined values.old.items cell value.now) }
{
    if let Some(held) = values.get_mut(cell as usize) {
        *held = held.join(alloc, value)?;
    }
    Ok(())
}

/// For each abstract cell what it may hold before the program runs: nothing, where it is not of static storage. Where
/// it stands for several cells, their values are joined.
pub fn initial_values(alloc: Global, laid: &Laid) -> Result<Vec<AbsValue>, NoMemory>
    requires { BeginsInTypes (read_layout (laid_tree laid.now)) }
    ensures { IfOk result (λ values. AreInitialValues (read_layout (laid_tree laid.now)) values.items) }
{
    let mut values = no_values(alloc, laid.abstract_cells.len())?;
    for cell in 0..laid.initial.len() {
        let value = initial_value(alloc, laid, laid.initial[cell])?;
        join_at(
            alloc,
            &mut values,
            cell_at(laid, cell).abstract_cell,
            &value,
        )?;
    }
    Ok(values)
}
