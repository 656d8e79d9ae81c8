//! The requests of a body's copies of edges.
ghost use Rattle.std.specs.Prelude.{◌≡◌, ◌<◌, ◌⊎◌, ◌↔◌, length, Contains, OnOk};
ghost use Rattle.request_circles.specs.declared.requests.Request.{Request as ARequest};
ghost use Rattle.lock_waits.specs.reading.Copies.{asked_by, asked_at, IsAskedBelow, AreInRange};

use flow_graph::{Edge, Operation};
use mutex_configs::{ConfiguredNode, EdgeCopy};
use program_reports::BodyState;
use request_circles::{Request, has_mutex, push_request};
use tm_lattice::NoMemory;

// What is read of a task: its number, the edges, nodes and copies of its body, and its table.
#[derive(Clone, Copy)]
pub(crate) struct TaskParts<'a> {
    pub(crate) number: u32,
    pub(crate) edges: &'a [Edge],
    pub(crate) nodes: &'a [ConfiguredNode],
    pub(crate) copies: &'a [EdgeCopy],
    pub(crate) table: &'a [Option<BodyState>],
}

// The request of an operation of a task at a node where it holds these mutexes.
#[tactic(auto, unfolding(crate::specs::reading::Copies::asked_by))]
fn asked(operation: Operation, task: u32, held: u16) -> Option<Request>
    ensures { result ≡ asked_by operation task held }
{
    match operation {
        Operation::Lock { mutex, place } => {
            if has_mutex(held, mutex) {
                None
            } else {
                Some(Request {
                    task,
                    held,
                    mutex,
                    place,
                })
            }
        }
        _ => None,
    }
}

// The request of a copy that leaves a node with a state.
fn request_of(parts: TaskParts<'_>, copy: usize) -> Option<Request>
    requires parts { AreInRange parts }
    requires copy { copy < length parts.copies.now }
    ensures { result ≡ asked_at parts.entry.number parts.entry.edges.now parts.entry.nodes.now
        parts.entry.copies.now parts.entry.table.now copy }
{
    let copy = parts.copies[copy];
    match &parts.table[copy.from as usize] {
        Some(_) => {
            let held = parts.nodes[copy.from as usize].held;
            asked(parts.edges[copy.edge].op, parts.number, held)
        }
        None => None,
    }
}

// Adds the request of a copy.
fn add_copy(parts: TaskParts<'_>, copy: usize, requests: &mut Vec<Request>) -> Result<(), NoMemory>
    requires parts { AreInRange parts }
    requires copy { copy < length parts.copies.now }
    ensures { OnOk result ((r : ARequest) → Contains requests.new.items r
        ↔ (Contains requests.old.items r ⊎ (asked_at parts.entry.number parts.entry.edges.now parts.entry.nodes.now
        parts.entry.copies.now parts.entry.table.now copy ≡ Some r))) }
{
    match request_of(parts, copy) {
        Some(request) => push_request(requests, request),
        None => Ok(()),
    }
}

// Adds the requests of all copies.
pub(crate) fn add_copies(parts: TaskParts<'_>, requests: &mut Vec<Request>) -> Result<(), NoMemory>
    requires { AreInRange parts }
    ensures { OnOk result ((r : ARequest) → Contains requests.new.items r
        ↔ (Contains requests.old.items r ⊎ IsAskedBelow parts.entry.number parts.entry.edges.now
        parts.entry.nodes.now parts.entry.copies.now parts.entry.table.now (length parts.entry.copies.now) r)) }
{
    for copy in 0..parts.copies.len() {
        add_copy(parts, copy, requests)?;
    }
    Ok(())
}
