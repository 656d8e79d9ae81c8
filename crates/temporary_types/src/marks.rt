//! Which temporaries hold pointers.
ghost use Rattle.std.specs.Prelude.{◌≡◌, IfOk, false, replicate, slice_index_or};
ghost use Rattle.temporary_types.specs.PointerMarks.{is_pointer_value, gives_pointer, marked};
ghost use Rattle.temporary_types.specs.PointerMarks.{pointer_marks};

use concrete_values::Value;
use flow_graph::{Graph, Operation};
use graph_facts::given;
use std::alloc::Global;
use tm_lattice::NoMemory;
use tm_typed::is_pointer_scalar;

/// For each of so many temporaries whether it holds pointers, by one pass over the edges in order: an operation that
/// gives an address, loads a pointer or is a pointer's constant marks what it gives, and a copy takes the mark of what
/// it copies. A temporary that no edge gives is not marked, and one of a greater number has no mark.
pub fn pointer_temps(alloc: Global, graph: &Graph, count: u32) -> Result<Vec<bool>, NoMemory>
    ensures { IfOk result (λ v. v.items ≡ pointer_marks graph.now.edges.items count) }
{
    let mut marks = no_marks(alloc, count)?;
    for number in 0..graph.edges.len() {
        mark(&mut marks, graph.edges[number].op);
    }
    Ok(marks)
}

// No mark.
fn no_marks(alloc: Global, count: u32) -> Result<Vec<bool>, NoMemory>
    ensures { IfOk result (λ v. v.items ≡ replicate count false) }
{
    let mut marks = Vec::new(alloc);
    for _ in 0..count {
        marks.push(false)?;
    }
    Ok(marks)
}

// The marks after an operation.
fn mark(marks: &mut Vec<bool>, operation: Operation)
    ensures { marks.new.items ≡ marked marks.old.items operation }
{
    if let Some(to) = given(operation) {
        let holds = gives_pointer(marks, operation);
        let place = to as usize;
        if place < marks.len() {
            marks[place] = holds;
        }
    }
}

// Whether a temporary is marked.
fn is_marked(marks: &Vec<bool>, temporary: u32) -> bool
    ensures { result ≡ slice_index_or marks.now.items temporary false }
{
    let place = temporary as usize;
    if place < marks.len() {
        marks[place]
    } else {
        false
    }
}

// Whether a value is a pointer.
fn is_pointer_value(value: Value) -> bool
    ensures { result ≡ is_pointer_value value }
{
    match value {
        Value::Number(_) => false,
        Value::Pointer(_) => true,
    }
}

// Whether an operation gives pointers.
fn gives_pointer(marks: &Vec<bool>, operation: Operation) -> bool
    ensures { result ≡ gives_pointer marks.now.items operation }
{
    match operation {
        Operation::Const { value, .. } => is_pointer_value(value),
        Operation::Copy { from, .. } => is_marked(marks, from),
        Operation::Load { scalar, .. } | Operation::LoadAny { scalar, .. } => {
            is_pointer_scalar(scalar)
        }
        Operation::Base { .. }
        | Operation::Offset { .. }
        | Operation::Index { .. }
        | Operation::Move { .. }
        | Operation::Deref { .. } => true,
        Operation::Skip
        | Operation::Un { .. }
        | Operation::Bin { .. }
        | Operation::BinPointers { .. }
        | Operation::Convert { .. }
        | Operation::Store { .. }
        | Operation::Any { .. }
        | Operation::Clear { .. }
        | Operation::Usable { .. }
        | Operation::Assume { .. }
        | Operation::Lock { .. }
        | Operation::Unlock { .. }
        | Operation::Yield
        | Operation::Probe { .. } => false,
    }
}
