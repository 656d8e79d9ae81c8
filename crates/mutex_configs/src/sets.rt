//! Sets of at most sixteen mutexes as numbers.
ghost use Rattle.std.specs.Prelude.{◌≡◌, ◌<◌, Contains};
ghost use Rattle.flow_graph.specs.declared.operations.Operation.{Operation as AnOperation};
ghost use Rattle.mutex_configs.specs.Sets.{has, with_mutex, without_mutex, held_after, found_after, is_probe};
ghost use Rattle.mutex_configs.specs.Sets.{leads_nowhere, node_after, IsOfSixteen};

use crate::nodes::ConfiguredNode;
use flow_graph::Operation;

// Whether the mutex is in the set.
fn has_mutex(set: u16, mutex: u32) -> bool
    requires { mutex < 16 }
    ensures { result ≡ has set mutex }
{
    (set >> mutex) % 2 == 1
}

fn with(set: u16, mutex: u32) -> u16
    requires { mutex < 16 }
    ensures { result ≡ with_mutex set mutex }
{
    set | (1 << mutex)
}

fn without(set: u16, mutex: u32) -> u16
    requires { mutex < 16 }
    ensures { result ≡ without_mutex set mutex }
{
    set & (65535 - (1 << mutex))
}

/// What a task holds after an operation.
#[tactic(auto, unfolding(crate::specs::Sets::held_after, crate::specs::Sets::IsOfSixteen))]
fn held(op: Operation, held: u16) -> u16
    requires { IsOfSixteen op }
    ensures { result ≡ held_after op held }
{
    match op {
        Operation::Lock { mutex, .. } => with(held, mutex),
        Operation::Unlock { mutex, .. } => without(held, mutex),
        _ => held,
    }
}

/// What it has found free after an operation with this answer.
#[tactic(auto, unfolding(crate::specs::Sets::found_after, crate::specs::Sets::IsOfSixteen))]
fn found(op: Operation, answer: bool, found: u16) -> u16
    requires { IsOfSixteen op }
    ensures { result ≡ found_after op answer found }
{
    match op {
        Operation::Lock { .. } => 0,
        Operation::Yield => 0,
        Operation::Probe { mutex, .. } => { if answer { found } else { with(found, mutex) } }
        _ => found,
    }
}

/// Whether the copy of an edge with this operation and answer leads nowhere.
#[tactic(auto, unfolding(crate::specs::Sets::leads_nowhere, crate::specs::Sets::IsOfSixteen))]
pub(crate) fn is_nowhere(op: Operation, answer: bool, held: u16) -> bool
    requires { IsOfSixteen op }
    ensures { result ≡ leads_nowhere op answer held }
{
    match op {
        Operation::Lock { mutex, .. } => has_mutex(held, mutex),
        Operation::Unlock { mutex, .. } => !has_mutex(held, mutex),
        Operation::Probe { mutex, .. } => !answer && has_mutex(held, mutex),
        _ => false,
    }
}

/// The node to which an operation leads from a node.
pub(crate) fn node(op: Operation, answer: bool, q: ConfiguredNode, place: u32) -> ConfiguredNode
    requires { IsOfSixteen op }
    ensures { result ≡ node_after op answer q place }
{
    ConfiguredNode {
        place,
        held: held(op, q.held),
        found: found(op, answer, q.found),
    }
}

/// Whether an operation asks: its edge has a copy for each answer.
#[tactic(auto, unfolding(crate::specs::Sets::is_probe))]
pub(crate) fn asks(op: Operation) -> bool
    ensures { result ≡ is_probe op }
{
    match op {
        Operation::Probe { .. } => true,
        _ => false,
    }
}
