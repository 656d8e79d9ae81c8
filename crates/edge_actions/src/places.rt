//! What edges read of a layout.
ghost use Rattle.std.specs.Prelude.{◌≡◌};
ghost use Rattle.strided_dom.specs.Progression.{IsInReach};
ghost use Rattle.tm_laid.specs.Layouts.{laid_tree, abstract_at};
ghost use Rattle.edge_actions.specs.Layouts.{is_reachable, is_shared_cell, is_smashed_cell, open_value};
ghost use Rattle.edge_actions.specs.Layouts.{numbers_between};

use pointer_dom::{AbsValue, PointerSet};
use std::alloc::Global;
use strided_dom::Strided;
use tm_laid::{Laid, abstract_at, object_at, path_at};
use tm_typed::Scalar;

/// Whether an object has static storage or is on a call path of the task.
pub fn is_reachable(laid: &Laid, task: u32, object: u32) -> bool
    ensures { result ≡ is_reachable (laid_tree laid.now) task object }
{
    match object_at(laid, object).owner {
        None => true,
        Some(path) => path_at(laid, path).body == task,
    }
}

/// Whether an abstract cell is of an object of static storage.
pub fn is_shared_cell(laid: &Laid, cell: u32) -> bool
    ensures { result ≡ is_shared_cell (laid_tree laid.now) cell }
{
    object_at(laid, abstract_at(laid, cell).object)
        .owner
        .is_none()
}

/// Whether an abstract cell stands for several cells.
pub fn is_smashed_cell(laid: &Laid, cell: u32) -> bool
    ensures { result ≡ is_smashed_cell (laid_tree laid.now) cell }
{
    abstract_at(laid, cell).smashed
}

/// The numbers from low to high.
pub fn numbers_between(low: i128, high: i128) -> Strided
    requires low { IsInReach low }
    requires high { IsInReach high }
    ensures { result ≡ numbers_between low high }
{
    Strided::range(low, high, 1)
}

/// What a cell of the type may hold that was not stored yet.
pub fn open_value(alloc: Global, scalar: Scalar) -> AbsValue
    ensures { result ≡ open_value scalar }
{
    match scalar {
        Scalar::Int(of) => AbsValue::from_numbers(numbers_between(of.lo(), of.hi())),
        Scalar::Pointer(_) => AbsValue::from_pointers(PointerSet::invalid(alloc)),
    }
}

/// What an abstract cell may hold that was not stored yet.
pub fn open_cell(alloc: Global, laid: &Laid, cell: u32) -> AbsValue
    ensures { let c = abstract_at (laid_tree laid.now) cell in result ≡ open_value c.scalar }
{
    open_value(alloc, abstract_at(laid, cell).scalar)
}
