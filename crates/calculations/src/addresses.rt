//! Calculations with pointers.
ghost use Rattle.std.specs.Prelude.{ℤ, IfOk, not};
ghost use Rattle.strided_dom.specs.Progression.{Has};
ghost use Rattle.pointer_dom.specs.Advances.{IsInteger};
ghost use Rattle.transfer_rows.specs.StateForms.{value_of};
ghost use Rattle.transfer_rows.specs.Actions.{part, element, moved};
ghost use Rattle.calculations.specs.Given.{IsCalculated};

use crate::values::{Calculated, no_classes, numbers_of, pointers_of};
use cell_env::State;
use pointer_dom::{AbsValue, PointerSet};
use std::alloc::Global;
use tm_lattice::NoMemory;
use transfer_int::Classes;

/// The part that begins so many cells behind an address.
pub fn part(
    alloc: Global,
    state: &State<AbsValue>,
    cells: u32,
    source: u32,
) -> Result<Calculated, NoMemory>
    ensures { IfOk result (λ given. IsCalculated (part cells source) state.now given) }
{
    let none = PointerSet::new(alloc);
    let pointers = pointers_of(state, source, &none);
    let parts = pointers.offset(alloc, cells)?;
    // The calls tell that these are sets of pointers.
    let _ = pointers.objects();
    let _ = parts.objects();
    Ok(Calculated {
        value: AbsValue::from_pointers(parts),
        classes: no_classes(),
    })
}

/// The element with the subscript `index`, of an array of `count` elements of so many cells.
pub fn element(
    alloc: Global,
    state: &State<AbsValue>,
    count: u32,
    cells: u32,
    source: u32,
    index: u32,
) -> Result<Calculated, NoMemory>
    ensures { IfOk result (λ given. IsCalculated (element count cells source index) state.now given) }
{
    let none = PointerSet::new(alloc);
    let subscripts = numbers_of(state, index);
    let pointers = pointers_of(state, source, &none);
    let reached = pointers.index(alloc, count, cells, &subscripts)?;
    // The calls tell that these are sets of pointers.
    let _ = pointers.objects();
    let _ = reached.pointers.objects();
    Ok(Calculated {
        value: AbsValue::from_pointers(reached.pointers),
        classes: Classes {
            index: reached.may_fail,
            ..no_classes()
        },
    })
}

/// A pointer moved by a number of elements of so many cells, forward or back.
pub fn moved(
    alloc: Global,
    state: &State<AbsValue>,
    forward: bool,
    cells: u32,
    source: u32,
    count: u32,
) -> Result<Calculated, NoMemory>
    requires { (n : ℤ) → Has (value_of state.now count).numbers n → IsInteger n }
    ensures { IfOk result (λ given. IsCalculated (moved forward cells source count) state.now given) }
{
    let none = PointerSet::new(alloc);
    let counts = numbers_of(state, count);
    let pointers = pointers_of(state, source, &none);
    let reached = pointers.moved(alloc, forward, cells, &counts)?;
    // The calls tell that these are sets of pointers.
    let _ = pointers.objects();
    let _ = reached.pointers.objects();
    Ok(Calculated {
        value: AbsValue::from_pointers(reached.pointers),
        classes: Classes {
            pointer: reached.may_fail,
            ..no_classes()
        },
    })
}
