//! The types of operands, and the objects from which they are loaded.
ghost use Rattle.std.specs.Prelude.{◌≡◌, ◌≤◌, IfOk, length};

use alarm_contexts::ContextEdge;
use flow_graph::{Edge, Graph, Operation};
use graph_facts::given;
use std::alloc::Global;
use tm_cint::{BinOp, IntType};
use tm_laid::Scalar;
use tm_lattice::NoMemory;

// How far back the operation is looked for that gives a temporary, and through how many copies.
const FURTHEST: usize = 4096;

const LONGEST: usize = 24;

// Whether an operation gives the temporary.
fn gives(operation: Operation, temp: u32) -> bool {
    match given(operation) {
        Some(to) => to == temp,
        None => false,
    }
}

// The last edge before this one that gives a temporary.
fn giver(edges: &[Edge], before: usize, temp: u32) -> Option<usize> {
    for back in 1..before.min(FURTHEST) + 1 {
        let at = before.saturating_sub(back);
        if let Some(edge) = edges.get(at) {
            if gives(edge.op, temp) {
                return Some(at);
            }
        }
    }
    None
}

// The type in which a comparison gives its value, and else the one in which an operator works.
fn type_of_binary(operator: BinOp, of: IntType) -> IntType {
    match operator {
        BinOp::Lt | BinOp::Le | BinOp::Gt | BinOp::Ge | BinOp::Eq | BinOp::Ne => IntType::Int,
        _ => of,
    }
}

// The first of the types int and long long that has these numbers, and else unsigned long long.
fn type_of_bounds(low: i128, high: i128) -> IntType {
    if -2_147_483_648 <= low && high <= 2_147_483_647 {
        IntType::Int
    } else if low == 0 && high <= 4_294_967_295 {
        IntType::UInt
    } else if high <= 9_223_372_036_854_775_807 {
        IntType::LLong
    } else {
        IntType::ULLong
    }
}

// The type of what an operation gives, where an operator of the type `works_in` uses it; another temporary where it is
// the same; or none.
#[derive(Clone, Copy)]
enum Given {
    Of(IntType),
    Same(u32),
    Unknown,
}

// What an operation gives.
fn type_given(operation: Operation) -> Given {
    match operation {
        Operation::Copy { from, .. } => Given::Same(from),
        Operation::Un { of, .. } => Given::Of(of),
        Operation::Bin { operator, of, .. } => Given::Of(type_of_binary(operator, of)),
        Operation::BinPointers { .. } | Operation::Probe { .. } => Given::Of(IntType::Int),
        Operation::Convert { of, .. } => Given::Of(of),
        Operation::Load {
            scalar: Scalar::Int(of),
            ..
        } => Given::Of(of),
        Operation::LoadAny {
            scalar: Scalar::Int(of),
            ..
        } => Given::Of(of),
        Operation::Any { low, high, .. } => Given::Of(type_of_bounds(low, high)),
        _ => Given::Unknown,
    }
}

// Whether a type is signed.
fn is_signed(of: IntType) -> bool {
    match of {
        IntType::Char | IntType::Short | IntType::Int | IntType::Long | IntType::LLong => true,
        IntType::Bool
        | IntType::UChar
        | IntType::UShort
        | IntType::UInt
        | IntType::ULong
        | IntType::ULLong => false,
    }
}

// The type of a constant of which an operator in this type makes no other number: it is `int` where the type is signed.
fn type_of_constant(works_in: IntType) -> IntType {
    if is_signed(works_in) {
        IntType::Int
    } else {
        works_in
    }
}

// The type of a temporary before an edge.
fn type_of_temp(edges: &[Edge], edge: usize, temp: u32, works_in: IntType) -> IntType {
    let mut before = edge;
    let mut temp = temp;
    for _ in 0..LONGEST {
        let Some(at) = giver(edges, before, temp) else {
            return type_of_constant(works_in);
        };
        let Some(found) = edges.get(at) else {
            return works_in;
        };
        match type_given(found.op) {
            Given::Of(of) => return of,
            Given::Same(from) => {
                temp = from;
                before = at;
            }
            Given::Unknown => return type_of_constant(works_in),
        }
    }
    works_in
}

/// An operand: a number, with its type, or a pointer; and its temporary.
#[derive(Clone, Copy)]
pub(crate) struct OperandTemp {
    pub(crate) temp: u32,
    pub(crate) works_in: Option<IntType>,
}

// A number, of which an operator makes this.
fn number(temp: u32, works_in: IntType) -> Option<OperandTemp> {
    Some(OperandTemp {
        temp,
        works_in: Some(works_in),
    })
}

// A pointer.
fn pointer(temp: u32) -> Option<OperandTemp> {
    Some(OperandTemp {
        temp,
        works_in: None,
    })
}

// Whether an operator is a shift: its right operand has a type of its own.
fn is_shift(operator: BinOp) -> bool {
    match operator {
        BinOp::Shl | BinOp::Shr => true,
        _ => false,
    }
}

// The first operand of an operation.
fn first_operand(operation: Operation) -> Option<OperandTemp> {
    match operation {
        Operation::Un { of, from, .. } => number(from, of),
        Operation::Bin { of, left, .. } => number(left, of),
        Operation::Index { from, .. }
        | Operation::Move { from, .. }
        | Operation::Deref { from, .. } => pointer(from),
        Operation::Usable { pointer: from, .. } => pointer(from),
        _ => None,
    }
}

// The second one.
fn second_operand(operation: Operation) -> Option<OperandTemp> {
    match operation {
        Operation::Bin {
            operator,
            of,
            right,
            ..
        } => {
            if is_shift(operator) {
                number(right, IntType::Int)
            } else {
                number(right, of)
            }
        }
        Operation::Index { by, .. } | Operation::Move { by, .. } => number(by, IntType::Int),
        _ => None,
    }
}

// Those of an edge.
fn edge_at(graphs: &[Graph], context: ContextEdge) -> Option<&Edge> {
    match graphs.get(context.body as usize) {
        Some(graph) => graph.edges.get(context.edge),
        None => None,
    }
}

// Adds the type of an operand, if there is one.
fn push_type_of(
    graphs: &[Graph],
    context: ContextEdge,
    operand: Option<OperandTemp>,
    types: &mut Vec<Option<IntType>>,
) -> Result<(), NoMemory> {
    let Some(operand) = operand else {
        return Ok(());
    };
    let of = match operand.works_in {
        None => None,
        Some(works_in) => match graphs.get(context.body as usize) {
            Some(graph) => Some(type_of_temp(&graph.edges, context.edge, operand.temp, works_in)),
            None => Some(works_in),
        },
    };
    types.push(of)?;
    Ok(())
}

/// The types of the operands of the operation of an edge, none for a pointer.
pub(crate) fn operand_types(
    alloc: Global,
    graphs: &[Graph],
    context: Option<ContextEdge>,
) -> Result<Vec<Option<IntType>>, NoMemory> {
    let mut types = Vec::new(alloc);
    let Some(context) = context else {
        return Ok(types);
    };
    let operation = match edge_at(graphs, context) {
        Some(edge) => edge.op,
        None => Operation::Skip,
    };
    push_type_of(graphs, context, first_operand(operation), &mut types)?;
    push_type_of(graphs, context, second_operand(operation), &mut types)?;
    Ok(types)
}

// What leads on to the object from which a temporary is loaded.
#[derive(Clone, Copy)]
enum Leads {
    To(u32),
    From(u32),
    Nowhere,
}

// Where an operation leads on.
fn leads_on(operation: Operation) -> Leads {
    match operation {
        Operation::Base { object, .. } => Leads::To(object),
        Operation::Copy { from, .. }
        | Operation::Convert { from, .. }
        | Operation::Offset { from, .. }
        | Operation::Index { from, .. } => Leads::From(from),
        Operation::Load { address, .. } | Operation::LoadAny { address, .. } => {
            Leads::From(address)
        }
        _ => Leads::Nowhere,
    }
}

// The object from which a temporary is loaded, if it is loaded by name.
fn origin(edges: &[Edge], edge: usize, temp: u32) -> Option<u32> {
    let mut before = edge;
    let mut temp = temp;
    for _ in 0..LONGEST {
        let at = giver(edges, before, temp)?;
        let found = edges.get(at)?;
        match leads_on(found.op) {
            Leads::To(object) => return Some(object),
            Leads::From(from) => {
                temp = from;
                before = at;
            }
            Leads::Nowhere => return None,
        }
    }
    None
}

// Marks the object from which an operand is loaded.
fn mark_of(graph: &Graph, edge: usize, operand: Option<OperandTemp>, named: &mut Vec<bool>)
    ensures { length named.new.items ≡ length named.old.items }
{
    if let Some(operand) = operand {
        if let Some(object) = origin(&graph.edges, edge, operand.temp) {
            let at = object as usize;
            if at < named.len() {
                named[at] = true;
            }
        }
    }
}

/// Marks the objects from which the operands at an edge are loaded.
pub(crate) fn mark_origins(graphs: &[Graph], context: ContextEdge, named: &mut Vec<bool>)
    ensures { length named.new.items ≡ length named.old.items }
{
    let Some(graph) = graphs.get(context.body as usize) else {
        return;
    };
    let operation = match graph.edges.get(context.edge) {
        Some(edge) => edge.op,
        None => Operation::Skip,
    };
    mark_of(graph, context.edge, first_operand(operation), named);
    mark_of(graph, context.edge, second_operand(operation), named);
}
