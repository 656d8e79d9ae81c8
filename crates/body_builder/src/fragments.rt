//! Fragments of graphs.
use flow_graph::Edge;

/// A call: in its place stands the body of the call path that it calls, below which chains of calls are at most `depth`
/// long; from which node it goes on, and how many nodes and temporaries stand before it.
#[derive(Clone, Copy)]
pub struct Call {
    pub path: u32,
    pub depth: u32,
    pub node: u32,
    pub nodes: u32,
    pub temps: u32,
}

/// A part of a fragment.
#[derive(Clone, Copy)]
pub enum Item {
    Edge(Edge),
    Call(Call),
}

/// What is built so far: edges and calls in order, the present node, and how many nodes and temporaries there are.
#[derive(Drop)]
pub struct Fragment {
    pub items: Vec<Item>,
    pub node: u32,
    pub nodes: u32,
    pub temps: u32,
}

/// How many nodes and temporaries the body of a call path makes, and the temporary of its value, where nothing stands
/// before it.
#[derive(Clone, Copy)]
pub struct Size {
    pub depth: u32,
    pub nodes: u32,
    pub temps: u32,
    pub result: Option<u32>,
}

/// What an expression is wanted for.
#[derive(Clone, Copy)]
pub enum Wanted {
    Value,
    /// Its value without an implied conversion around it.
    Bare,
    Branch,
}

/// The temporary of a value, if there is one; of a branch the node of its other way.
#[derive(Clone, Copy)]
pub struct Found {
    pub temp: Option<u32>,
    pub other: u32,
}
