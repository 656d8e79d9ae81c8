//! Ways back from operands.
ghost use Rattle.std.specs.Prelude.{◌≤◌, ◌+◌, length, IfOk, OnOk};

use crate::advices::{Cause, LONGEST, Step, StepKind};
use crate::marks::is_marked;
use alarm_contexts::ContextEdge;
use concrete_values::{Pointer, Value};
use flow_graph::Operation;
use program_reports::place_of;
use std::alloc::Global;
use tm_lattice::NoMemory;
use tm_terms::Place;
use value_origins::{
    Access, Analysed, Extent, Giving, StoreSite, Stores, Use, bounds, cells_at, is_flagged,
    may_be_open, operation_at, source_of, value_at, weight, widest_store,
};

/// What ways lead through: a program with its tables and its stores, the edges at which alarms stand, and the place of
/// the alarm.
#[derive(Clone, Copy)]
pub(crate) struct Ground<'a> {
    pub(crate) analysed: Analysed<'a>,
    pub(crate) stores: &'a Stores,
    pub(crate) marks: &'a [Vec<bool>],
    pub(crate) place: Place,
}

/// A way back, and what is found at its end.
#[derive(Drop)]
pub(crate) struct Way {
    pub(crate) cause: Cause,
    pub(crate) trace: Vec<Step>,
}

// Where a way stands.
#[derive(Clone, Copy)]
enum Stand {
    // Before the use of a temporary.
    Before(Use),
    // At a load that gives a temporary for this use.
    Reading { load: Access, used: Use },
    Ended(Cause),
}

// A step, and where the way stands behind it.
#[derive(Clone, Copy)]
struct Onward {
    step: Option<Step>,
    stand: Stand,
}

// The step to an edge, from which these values go on.
fn step(ground: Ground<'_>, kind: StepKind, edge: ContextEdge, values: &Extent) -> Step {
    Step {
        kind,
        place: place_of(operation_at(ground.analysed, edge)),
        task: edge.body,
        bounds: bounds(values),
        null: values.null,
        invalid: values.invalid,
        cell: None,
        object: None,
    }
}

// The step to an edge that loads or stores, with one of the cells that are loaded.
fn cell_step(
    ground: Ground<'_>,
    kind: StepKind,
    edge: ContextEdge,
    values: &Extent,
    cells: &[u32],
) -> Step {
    let cell = cells.first().copied();
    let laid = &ground.analysed.program.laid;
    let object = match cell {
        None => None,
        Some(number) => match laid.abstract_cells.get(number as usize) {
            None => None,
            Some(found) => Some(found.object),
        },
    };
    Step {
        cell,
        object,
        ..step(ground, kind, edge, values)
    }
}

// The last step of a way.
fn last(step: Step, cause: Cause) -> Onward {
    Onward {
        step: Some(step),
        stand: Stand::Ended(cause),
    }
}

// The end of a way where it was.
fn ended(cause: Cause) -> Onward {
    Onward {
        step: None,
        stand: Stand::Ended(cause),
    }
}

// A step behind which the way stands before the use of a temporary.
fn back_to(step: Step, edge: ContextEdge, temp: u32) -> Onward {
    Onward {
        step: Some(step),
        stand: Stand::Before(Use { edge, temp }),
    }
}

// Of the operands of an edge that with the most values, in doubt the first.
fn wider(ground: Ground<'_>, edge: ContextEdge, first: u32, second: u32) -> u32 {
    let one = value_at(ground.analysed, Use { edge, temp: first });
    let other = value_at(ground.analysed, Use { edge, temp: second });
    if weight(&one) < weight(&other) {
        second
    } else {
        first
    }
}

// Of a pointer and the number by which it is moved at an edge: the number where it is not single, and the pointer is
// neither null nor invalid.
fn mover(ground: Ground<'_>, edge: ContextEdge, pointer: u32, by: u32) -> u32 {
    let pointers = value_at(
        ground.analysed,
        Use {
            edge,
            temp: pointer,
        },
    );
    let counts = value_at(ground.analysed, Use { edge, temp: by });
    if is_flagged(&pointers) || weight(&counts) == 0 {
        pointer
    } else {
        by
    }
}

// What a constant comes to.
fn constant(value: Value) -> (StepKind, Cause) {
    match value {
        Value::Number(_) => (StepKind::Constant, Cause::Values),
        Value::Pointer(pointer) => match pointer {
            Pointer::Null => (StepKind::Constant, Cause::Null),
            Pointer::Invalid => (StepKind::Unset, Cause::Unset),
            Pointer::To { .. } => (StepKind::Address, Cause::Values),
        },
    }
}

// What an operation without operands comes to that gives a temporary; none of any other.
fn origin(operation: Operation) -> Option<(StepKind, Cause)> {
    match operation {
        Operation::Const { value, .. } => Some(constant(value)),
        Operation::Any { .. } => Some((StepKind::Input, Cause::Input)),
        Operation::LoadAny { .. } => Some((StepKind::Volatile, Cause::Volatile)),
        Operation::Base { .. } => Some((StepKind::Address, Cause::Values)),
        Operation::Probe { .. } => Some((StepKind::IsLocked, Cause::Values)),
        _ => None,
    }
}

// The operand of an operator from which the way goes on; none of any other operation.
fn operand(ground: Ground<'_>, edge: ContextEdge) -> Option<u32> {
    match operation_at(ground.analysed, edge) {
        Operation::Un { from, .. } | Operation::Deref { from, .. } => Some(from),
        Operation::Bin { left, right, .. } | Operation::BinPointers { left, right, .. } => {
            Some(wider(ground, edge, left, right))
        }
        Operation::Index { from, by, .. } | Operation::Move { from, by, .. } => {
            Some(mover(ground, edge, from, by))
        }
        _ => None,
    }
}

// On from a load.
fn from_load(
    alloc: Global,
    ground: Ground<'_>,
    load: Access,
    used: Use,
) -> Result<Onward, NoMemory> {
    let cells = cells_at(alloc, ground.analysed, load)?;
    let values = value_at(ground.analysed, used);
    Ok(Onward {
        step: Some(cell_step(ground, StepKind::Load, load.edge, &values, &cells)),
        stand: Stand::Reading { load, used },
    })
}

// On from an operation that gives a temporary with these values, and loads none.
fn from_other(ground: Ground<'_>, edge: ContextEdge, values: &Extent) -> Onward {
    if let Some((kind, cause)) = origin(operation_at(ground.analysed, edge)) {
        return last(step(ground, kind, edge, values), cause);
    }
    match operand(ground, edge) {
        None => ended(Cause::Values),
        Some(temp) => back_to(step(ground, StepKind::Computed, edge, values), edge, temp),
    }
}

// Whether another alarm than that of the way stands at an edge.
fn has_other_alarm(ground: Ground<'_>, edge: ContextEdge) -> bool {
    is_marked(ground.marks, edge)
        && place_of(operation_at(ground.analysed, edge)) != Some(ground.place)
}

// On from the operation that gives a temporary.
fn from_giver(
    alloc: Global,
    ground: Ground<'_>,
    seen: &mut Vec<ContextEdge>,
    giving: Giving,
) -> Result<Onward, NoMemory> {
    let edge = giving.giver;
    let values = value_at(ground.analysed, giving.used);
    if seen.contains(&edge) {
        return Ok(last(step(ground, StepKind::Loop, edge, &values), Cause::Loop));
    }
    if has_other_alarm(ground, edge) {
        return Ok(last(step(ground, StepKind::Alarm, edge, &values), Cause::Alarm));
    }
    seen.push(edge)?;
    match operation_at(ground.analysed, edge) {
        Operation::Load {
            address,
            scalar,
            ..
        } => {
            let load = Access {
                edge,
                address,
                scalar,
            };
            from_load(alloc, ground, load, giving.used)
        }
        _ => Ok(from_other(ground, edge, &values)),
    }
}

// On from a store to one of the cells.
fn from_store(
    ground: Ground<'_>,
    seen: &mut Vec<ContextEdge>,
    cells: &[u32],
    site: &StoreSite,
) -> Result<Onward, NoMemory> {
    let edge = site.stored.edge;
    if seen.contains(&edge) {
        let step = cell_step(ground, StepKind::Loop, edge, &site.values, cells);
        return Ok(last(step, Cause::Loop));
    }
    seen.push(edge)?;
    let step = cell_step(ground, StepKind::Store, edge, &site.values, cells);
    Ok(back_to(step, edge, site.stored.temp))
}

// On from the cells that a load reaches.
fn from_cells(
    alloc: Global,
    ground: Ground<'_>,
    seen: &mut Vec<ContextEdge>,
    load: Access,
    used: Use,
) -> Result<Onward, NoMemory> {
    let cells = cells_at(alloc, ground.analysed, load)?;
    let values = value_at(ground.analysed, used);
    if may_be_open(ground.analysed, load.edge, &cells) {
        let step = cell_step(ground, StepKind::Open, load.edge, &values, &cells);
        return Ok(last(step, Cause::Open));
    }
    match widest_store(ground.analysed, ground.stores, load.edge, &cells, &values) {
        Some(site) => from_store(ground, seen, &cells, &site),
        None => {
            let step = cell_step(ground, StepKind::Initial, load.edge, &values, &cells);
            Ok(last(step, Cause::Initial))
        }
    }
}

// On from where a way stands.
fn next_step(
    alloc: Global,
    ground: Ground<'_>,
    seen: &mut Vec<ContextEdge>,
    stand: Stand,
) -> Result<Onward, NoMemory> {
    match stand {
        Stand::Before(used) => match source_of(ground.analysed, used) {
            None => Ok(ended(Cause::Values)),
            Some(giving) => from_giver(alloc, ground, seen, giving),
        },
        Stand::Reading { load, used } => from_cells(alloc, ground, seen, load, used),
        Stand::Ended(cause) => Ok(ended(cause)),
    }
}

// Puts a step behind the others, if there is one.
fn add_step(trace: &mut Vec<Step>, step: Option<Step>) -> Result<(), NoMemory>
    ensures { OnOk result (length trace.new.items ≤ length trace.old.items + 1) }
{
    if let Some(step) = step {
        trace.push(step)?;
    }
    Ok(())
}

// What is found where a way stands.
fn cause_of(stand: Stand) -> Cause {
    match stand {
        Stand::Ended(cause) => cause,
        Stand::Before(_) | Stand::Reading { .. } => Cause::Values,
    }
}

/// The way back from the use of a temporary.
pub(crate) fn way_from(alloc: Global, ground: Ground<'_>, used: Use) -> Result<Way, NoMemory>
    ensures { IfOk result (λ way. length way.trace.items ≤ 24) }
{
    let mut seen = Vec::new(alloc);
    seen.push(used.edge)?;
    let mut trace = Vec::new(alloc);
    let mut stand = Stand::Before(used);
    for _ in 0..LONGEST {
        let found = next_step(alloc, ground, &mut seen, stand)?;
        add_step(&mut trace, found.step)?;
        stand = found.stand;
    }
    Ok(Way {
        cause: cause_of(stand),
        trace,
    })
}
