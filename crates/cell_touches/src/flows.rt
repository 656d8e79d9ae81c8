//! Where pointers are passed on: by edges from temporary to temporary, and by loads and stores through what a
//! temporary points to.

use crate::holders::Holders;
use crate::pointees::Pointees;
use concrete_values::{Pointer, Value};
use flow_graph::{Graph, Operation};
use std::alloc::Global;
use tm_laid::Scalar;
use tm_lattice::NoMemory;

/// A holder to which pointers are passed on: all, or those to objects that are alive on a call path.
#[derive(Clone, Copy)]
pub(crate) struct Pass {
    pub(crate) to: usize,
    pub(crate) path: Option<u32>,
}

/// What an access to pointer cells does: it loads for a holder, or stores what a holder has.
#[derive(Clone, Copy)]
pub(crate) enum Way {
    LoadsFor(usize),
    Stores(usize),
}

/// An access by a body to pointer cells of a type.
#[derive(Clone, Copy)]
pub(crate) struct Access {
    pub(crate) body: usize,
    pub(crate) scalar: Scalar,
    pub(crate) way: Way,
}

/// For each holder where its pointers are passed on, and the accesses of which it is the address.
#[derive(Drop)]
pub(crate) struct Flows {
    pub(crate) passes: Vec<Vec<Pass>>,
    pub(crate) accesses: Vec<Vec<Access>>,
}

/// No flows for so many holders.
pub(crate) fn no_flows(alloc: Global, holders: usize) -> Result<Flows, NoMemory> {
    let mut passes = Vec::new(alloc);
    let mut accesses = Vec::new(alloc);
    for _ in 0..holders {
        passes.push(Vec::new(alloc))?;
        accesses.push(Vec::new(alloc))?;
    }
    Ok(Flows { passes, accesses })
}

impl Flows {
    /// The pointers of one holder are passed on to another.
    pub(crate) fn pass(
        &mut self,
        from: usize,
        to: usize,
        path: Option<u32>,
    ) -> Result<(), NoMemory> {
        if let Some(passes) = self.passes.get_mut(from) {
            passes.push(Pass { to, path })?;
        }
        Ok(())
    }

    // A body has an access whose address is this holder; accesses to numbers do not count.
    fn access(
        &mut self,
        body: usize,
        address: usize,
        scalar: Scalar,
        way: Way,
    ) -> Result<(), NoMemory> {
        let Scalar::Pointer(_) = scalar else {
            return Ok(());
        };
        if let Some(accesses) = self.accesses.get_mut(address) {
            accesses.push(Access { body, scalar, way })?;
        }
        Ok(())
    }
}

// The object to which a constant points.
fn object_of(value: Value) -> Option<u32> {
    match value {
        Value::Pointer(Pointer::To { object, .. }) => Some(object),
        Value::Pointer(Pointer::Null | Pointer::Invalid) | Value::Number(_) => None,
    }
}

// What an operation of a body gives and passes on.
fn add_operation(
    holders: &Holders,
    body: usize,
    operation: Operation,
    flows: &mut Flows,
    pointees: &mut Pointees,
) -> Result<(), NoMemory> {
    match operation {
        Operation::Base { to, object } => pointees.put(holders.temporary(body, to), object),
        Operation::Const { to, value } => match object_of(value) {
            None => Ok(()),
            Some(object) => pointees.put(holders.temporary(body, to), object),
        },
        Operation::Copy { to, from }
        | Operation::Offset { to, from, .. }
        | Operation::Index { to, from, .. }
        | Operation::Move { to, from, .. } => flows.pass(
            holders.temporary(body, from),
            holders.temporary(body, to),
            None,
        ),
        Operation::Deref { to, from, path, .. } => flows.pass(
            holders.temporary(body, from),
            holders.temporary(body, to),
            Some(path),
        ),
        Operation::Load {
            to,
            address,
            scalar,
            ..
        } => flows.access(
            body,
            holders.temporary(body, address),
            scalar,
            Way::LoadsFor(holders.temporary(body, to)),
        ),
        Operation::Store {
            address,
            value,
            scalar,
            ..
        } => flows.access(
            body,
            holders.temporary(body, address),
            scalar,
            Way::Stores(holders.temporary(body, value)),
        ),
        _ => Ok(()),
    }
}

/// What the edges of a body give and pass on.
pub(crate) fn add_body(
    holders: &Holders,
    body: usize,
    graph: &Graph,
    flows: &mut Flows,
    pointees: &mut Pointees,
) -> Result<(), NoMemory> {
    for edge in &graph.edges {
        add_operation(holders, body, edge.op, flows, pointees)?;
    }
    Ok(())
}
