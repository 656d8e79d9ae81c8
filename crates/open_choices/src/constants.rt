//! CONST: stores to objects and members that are declared `const`.
ghost use Rattle.std.specs.Prelude.{◌↔◌, IsTrue, IfOk};
ghost use Rattle.tm_laid.specs.Layouts.{laid_tree};
ghost use Rattle.operand_orders.specs.reading.Views.{solved};
ghost use Rattle.open_choices.specs.reading.Marks.{AreConstants};
ghost use Rattle.open_choices.specs.reading.Found.{StoresConstant};

use crate::marks::{Marks, inside_at, marks_one};
use cell_env::State;
use operand_orders::BodyView;
use part_extents::is_constant;
use pointer_dom::AbsValue;
use std::alloc::Global;
use tm_laid::Laid;
use tm_lattice::NoMemory;
use tm_typed::Scalar;

/// For each abstract cell whether it is of an object or a member that is declared `const`.
pub(crate) fn constant_cells(alloc: Global, laid: &Laid) -> Result<Marks, NoMemory>
    ensures { IfOk result (λ marks. AreConstants (laid_tree laid.now) marks) }
{
    let mut cells = Vec::new(alloc);
    for cell in &laid.abstract_cells {
        cells.push(is_constant(laid, inside_at(laid, cell.object, cell.offset)))?;
    }
    let other = is_constant(laid, inside_at(laid, 0, 0));
    Ok(Marks { cells, other })
}

/// Whether a store by an address may reach such a cell (C99 6.7.3p5).
pub(crate) fn stores_constant(
    view: BodyView<'_>,
    marks: &Marks,
    state: &State<AbsValue>,
    address: u32,
    scalar: Scalar,
) -> Result<bool, NoMemory>
    requires { AreConstants (laid_tree view.laid.now) marks.now }
    ensures { IfOk result (λ is. IsTrue is ↔ StoresConstant (solved view.entry) state.now scalar address) }
{
    let targets = view.targets(state, address, scalar)?;
    Ok(marks_one(marks, targets.as_slice()))
}
