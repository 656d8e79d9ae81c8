//! Extents, by one pass over the edges.
ghost use Rattle.std.specs.Prelude.{◌≡◌, IfOk, replicate};
ghost use Rattle.temporary_types.specs.Sorts.{outcome_type};
ghost use Rattle.temporary_extents.specs.declared.extents.Extent.TheVariants.{Nothing};
ghost use Rattle.temporary_extents.specs.Extents.{joined_extent, type_extent, scalar_extent, value_extent};
ghost use Rattle.temporary_extents.specs.Extents.{given_extent, extended, extents_of, extents_in, extent_at};
ghost use Rattle.temporary_extents.specs.Extents.{lesser, greater};

use concrete_values::Value;
use flow_graph::{Graph, Operation};
use graph_facts::given;
use std::alloc::Global;
use temporary_types::count_of_temporaries;
use tm_cint::{BinOp, IntType};
use tm_lattice::NoMemory;
use tm_typed::Scalar;

/// What a temporary may hold.
#[derive(Clone, Copy)]
pub enum Extent {
    /// Nothing: no edge gives it.
    Nothing,
    /// Numbers from the least to the greatest, both inclusive.
    Between { low: i128, high: i128 },
    /// Pointers.
    Pointers,
}

/// The extents of the temporaries of a graph: of each what the edges that give it can give, by one pass over the edges
/// in order.
pub fn extents_in(alloc: Global, graph: &Graph) -> Result<Vec<Extent>, NoMemory>
    ensures { IfOk result (λ v. v.items ≡ extents_in graph.now.edges.items) }
{
    let count = count_of_temporaries(graph)?;
    extents_of(alloc, graph, count)
}

// The extents of so many temporaries.
fn extents_of(alloc: Global, graph: &Graph, count: u32) -> Result<Vec<Extent>, NoMemory>
    ensures { IfOk result (λ v. v.items ≡ extents_of graph.now.edges.items count) }
{
    let mut known = no_extents(alloc, count)?;
    for number in 0..graph.edges.len() {
        extend(&mut known, graph.edges[number].op);
    }
    Ok(known)
}

// Nothing for each temporary.
fn no_extents(alloc: Global, count: u32) -> Result<Vec<Extent>, NoMemory>
    ensures { IfOk result (λ v. v.items ≡ replicate count Nothing) }
{
    let mut known = Vec::new(alloc);
    for _ in 0..count {
        known.push(Extent::Nothing)?;
    }
    Ok(known)
}

// The extents after an operation.
fn extend(known: &mut Vec<Extent>, operation: Operation)
    ensures { known.new.items ≡ extended known.old.items operation }
{
    if let Some(to) = given(operation) {
        let more = joined(extent_at(known, to), given_extent(known, operation));
        let place = to as usize;
        if place < known.len() {
            known[place] = more;
        }
    }
}

// The extent of a temporary.
fn extent_at(known: &Vec<Extent>, temporary: u32) -> Extent
    ensures { result ≡ extent_at known.now.items temporary }
{
    let place = temporary as usize;
    if place < known.len() {
        known[place]
    } else {
        Extent::Nothing
    }
}

// All of both.
#[tactic(auto, unfolding(crate::specs::Extents::joined_extent))]
fn joined(one: Extent, other: Extent) -> Extent
    ensures { result ≡ joined_extent one other }
{
    match one {
        Extent::Nothing => other,
        Extent::Pointers => one,
        Extent::Between { low, high } => match other {
            Extent::Between {
                low: least,
                high: most,
            } => Extent::Between {
                low: lesser(low, least),
                high: greater(high, most),
            },
            Extent::Nothing | Extent::Pointers => one,
        },
    }
}

fn lesser(a: i128, b: i128) -> i128
    ensures { result ≡ lesser a b }
{
    if a <= b { a } else { b }
}

fn greater(a: i128, b: i128) -> i128
    ensures { result ≡ greater a b }
{
    if a <= b { b } else { a }
}

// All numbers of a type.
fn type_extent(of: IntType) -> Extent
    ensures { result ≡ type_extent of }
{
    Extent::Between {
        low: of.lo(),
        high: of.hi(),
    }
}

/// What a scalar of this type may hold.
pub fn scalar_extent(scalar: Scalar) -> Extent
    ensures { result ≡ scalar_extent scalar }
{
    match scalar {
        Scalar::Int(of) => type_extent(of),
        Scalar::Pointer(_) => Extent::Pointers,
    }
}

fn value_extent(value: Value) -> Extent
    ensures { result ≡ value_extent value }
{
    match value {
        Value::Number(n) => Extent::Between { low: n, high: n },
        Value::Pointer(_) => Extent::Pointers,
    }
}

// The type of what an operator gives.
fn outcome_type(operator: BinOp, of: IntType) -> IntType
    ensures { result ≡ outcome_type operator of }
{
    match operator {
        BinOp::Lt | BinOp::Le | BinOp::Gt | BinOp::Ge | BinOp::Eq | BinOp::Ne => IntType::Bool,
        BinOp::Add
        | BinOp::Sub
        | BinOp::Mul
        | BinOp::Div
        | BinOp::Rem
        | BinOp::Shl
        | BinOp::Shr
        | BinOp::And
        | BinOp::Or
        | BinOp::Xor => of,
    }
}

// What an operation gives.
#[tactic(auto, unfolding(crate::specs::Extents::given_extent))]
fn given_extent(known: &Vec<Extent>, operation: Operation) -> Extent
    ensures { result ≡ given_extent known.now.items operation }
{
    match operation {
        Operation::Const { value, .. } => value_extent(value),
        Operation::Copy { from, .. } => extent_at(known, from),
        Operation::Un { of, .. } | Operation::Convert { of, .. } => type_extent(of),
        Operation::Bin { operator, of, .. } => type_extent(outcome_type(operator, of)),
        Operation::BinPointers { .. } | Operation::Probe { .. } => type_extent(IntType::Bool),
        Operation::Load { scalar, .. } | Operation::LoadAny { scalar, .. } => scalar_extent(scalar),
        Operation::Base { .. }
        | Operation::Offset { .. }
        | Operation::Index { .. }
        | Operation::Move { .. }
        | Operation::Deref { .. } => Extent::Pointers,
        Operation::Any { low, high, .. } => Extent::Between { low, high },
        Operation::Skip
        | Operation::Store { .. }
        | Operation::Clear { .. }
        | Operation::Usable { .. }
        | Operation::Assume { .. }
        | Operation::Lock { .. }
        | Operation::Unlock { .. }
        | Operation::Yield => Extent::Nothing,
    }
}
