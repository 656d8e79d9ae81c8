//! Live temporaries.
ghost use Rattle.std.specs.Prelude.{◌≡◌, ◌<◌, ◌↔◌, IfOk, OnOk, IsTrue, length, Some, ◌||◌};
ghost use Rattle.flow_graph.specs.Operations.{given};
ghost use Rattle.graph_facts.specs.Edges.{AreInRange};
ghost use Rattle.graph_facts.specs.Live.{AreLive};
ghost use Rattle.graph_facts.specs.Lists.{numbers};
ghost use Rattle.graph_facts.specs.reading.Live.{IsRisingList, HasPut, IsBehind, IsBrought, ArePartlyLive, Brings};
ghost use Rattle.graph_facts.specs.reading.Live.{Sweeps};

use crate::lists::no_numbers;
use crate::uses::{given, used};
use flow_graph::{Graph, Operation};
use std::alloc::Global;
use tm_lattice::NoMemory;

/// For each node the temporaries that are live there, in rising order.
#[derive(Drop)]
pub struct LiveTemporaries {
    pub lists: Vec<Vec<u32>>,
}

// Puts a temporary in its place, where it does not stand yet.
fn put(list: &mut Vec<u32>, temporary: u32) -> Result<(), NoMemory>
    requires { IsRisingList list.old.items }
    ensures { OnOk result (HasPut (λ t. t ≡ temporary) list.old.items list.new.items) }
{
    match list.binary_search(&temporary) {
        Ok(_) => Ok(()),
        Err(at) => {
            list.insert(at, temporary)?;
            Ok(())
        }
    }
}

// The same for one that there may be.
fn put_some(list: &mut Vec<u32>, temporary: Option<u32>) -> Result<(), NoMemory>
    requires { IsRisingList list.old.items }
    ensures { OnOk result (HasPut (λ t. temporary ≡ Some t) list.old.items list.new.items) }
{
    match temporary {
        Some(temporary) => {
            put(list, temporary)?;
            Ok(())
        }
        None => Ok(()),
    }
}

// Whether an operation gives this temporary.
fn gives(operation: Operation, temporary: u32) -> bool
    ensures { IsTrue result ↔ (given operation ≡ Some temporary) }
{
    match given(operation) {
        Some(to) => to == temporary,
        None => false,
    }
}

// The same for those that an operation does not give.
fn put_others(
    list: &mut Vec<u32>,
    operation: Operation,
    temporaries: &[u32],
) -> Result<(), NoMemory>
    requires { IsRisingList list.old.items }
    ensures { OnOk result (HasPut (IsBehind operation temporaries.now) list.old.items list.new.items) }
{
    for temporary in temporaries {
        if !gives(operation, *temporary) {
            put(list, *temporary)?;
        }
    }
    Ok(())
}

// What was known to be live where an edge with this operation leaves, with what is by what is live behind the edge.
fn brought(
    alloc: Global,
    operation: Operation,
    before: &[u32],
    behind: &[u32],
) -> Result<Vec<u32>, NoMemory>
    requires { IsRisingList before.now }
    ensures { IfOk result (λ v. HasPut (IsBrought operation behind.now) before.now v.items) }
{
    let mut list = Vec::from_slice(alloc, before)?;
    let uses = used(operation);
    put_some(&mut list, uses.first)?;
    put_some(&mut list, uses.second)?;
    put_others(&mut list, operation, behind)?;
    Ok(list)
}

// Puts what an edge brings to the node that it leaves. Whether that is more than was known.
fn bring(
    alloc: Global,
    graph: &Graph,
    number: usize,
    lists: &mut Vec<Vec<u32>>,
) -> Result<bool, NoMemory>
    requires range { AreInRange graph.now.edges.items graph.now.nodes }
    requires edge { number < length graph.now.edges.items }
    requires lists { ArePartlyLive graph.now.edges.items graph.now.nodes (numbers lists.old.items) }
    ensures { IfOk result (λ more. Brings graph.now.edges.items graph.now.nodes number more (numbers lists.old.items)
        (numbers lists.new.items)) }
{
    let edge = &graph.edges[number];
    let from = edge.from as usize;
    let list = brought(alloc, edge.op, &lists[from], &lists[edge.to as usize])?;
    if lists[from].len() < list.len() {
        lists[from] = list;
        Ok(true)
    } else {
        Ok(false)
    }
}

fn either(first: bool, second: bool) -> bool
    ensures { result ≡ first || second }
{
    first || second
}

// Brings along all edges, the last first. Whether that is more than was known.
fn sweep(alloc: Global, graph: &Graph, lists: &mut Vec<Vec<u32>>) -> Result<bool, NoMemory>
    requires range { AreInRange graph.now.edges.items graph.now.nodes }
    requires lists { ArePartlyLive graph.now.edges.items graph.now.nodes (numbers lists.old.items) }
    ensures { IfOk result (λ more. Sweeps graph.now.edges.items graph.now.nodes 0 more (numbers lists.old.items)
        (numbers lists.new.items)) }
{
    let mut more = false;
    for number in (0..graph.edges.len()).rev() {
        let brings = bring(alloc, graph, number, lists)?;
        more = either(more, brings);
    }
    Ok(more)
}

/// The temporaries that are live at each node. Edges mostly lead forward, so that few sweeps from the last edge to the
/// first find all.
pub fn live_temporaries(alloc: Global, graph: &Graph) -> Result<LiveTemporaries, NoMemory>
    requires { AreInRange graph.now.edges.items graph.now.nodes }
    ensures { IfOk result (λ live. AreLive graph.now.edges.items graph.now.nodes (numbers live.lists.items)) }
{
    let mut lists = no_numbers(alloc, graph.nodes)?;
    let mut more = true;
    while more {
        more = sweep(alloc, graph, &mut lists)?;
    }
    Ok(LiveTemporaries { lists })
}
