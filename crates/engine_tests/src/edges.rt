//! Edges that may be applied.
ghost use Rattle.std.specs.Prelude.{IsTrue};
ghost use Rattle.tm_cint.specs.Operators.{IsComparison};
ghost use Rattle.tm_typed.specs.TypedFiles.{typed_file_tree};
ghost use Rattle.tm_laid.specs.Layable.{IsLayable};
ghost use Rattle.edge_actions.specs.transfer_rows.StateForms.{State as TaskState};
ghost use Rattle.transfer_mem.specs.Applicable.{IsOperable};

use crate::edge_pictures::pictured;
use crate::stores::have_priorities;
use cell_env::State;
use edge_actions::EdgeView;
use flow_graph::{Operation, Test};
use interfere_set::Store;
use pointer_dom::AbsValue;
use std::alloc::Global;
use std::test::Fail;
use tm_cint::BinOp;
use transfer_mem::apply;

// Whether an operator is one of the comparisons that these tests make.
fn is_compared(operator: BinOp) -> bool
    ensures { IsTrue result → IsComparison operator }
{
    match operator {
        BinOp::Gt => true,
        BinOp::Eq => true,
        _ => false,
    }
}

// Whether an operation of these tests may be applied to every state.
fn is_operable(operation: Operation) -> bool
    ensures { IsTrue result → (state : TaskState) → IsOperable operation state }
{
    match operation {
        Operation::Load { .. } => true,
        Operation::Store { .. } => true,
        Operation::Yield => true,
        Operation::Assume {
            test: Test::Numbers { operator, .. },
        } => is_compared(operator),
        Operation::Lock { mutex, .. } => mutex < 16,
        Operation::Unlock { mutex, .. } => mutex < 16,
        Operation::Probe { mutex, .. } => mutex < 16,
        _ => false,
    }
}

/// What an edge does, as text, where it may be applied.
pub fn applied(
    alloc: Global,
    view: &EdgeView,
    state: &State<AbsValue>,
    store: &Store,
) -> Result<String, Fail>
    requires { IsLayable (typed_file_tree view.now.laid.now.file) view.now.laid.now.file.order.items }
{
    let tasks = view.priorities.len();
    if view.task as usize >= tasks
        || view.laid.cells.len() > 65_536
        || !have_priorities(store, tasks)
        || !is_operable(view.operation)
    {
        return Ok(String::from_str(alloc, "not applicable")?);
    }
    let after = apply(alloc, view, state, store)?;
    pictured(alloc, &after)
}
