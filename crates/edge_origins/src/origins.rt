//! What is noted of the edges of graphs.
use path_origins::{Form, Life, Overwrite, Passing, Reload, Unsequenced};
use tm_terms::Place;

/// Where an edge comes from: its call path, the place of the smallest expression or declaration that gave it, and the
/// form of its operation. The place of what no expression gave is 0:0.
#[derive(Clone, Copy, PartialEq, Eq)]
pub struct EdgeOrigin {
    pub path: u32,
    pub place: Place,
    pub form: Form,
}

/// The end of a function without `return`, at an edge, where its value is used (C99 6.9.1p12); and the place of the
/// function.
#[derive(Clone, Copy, PartialEq, Eq)]
pub struct Fall {
    pub place: Place,
    pub edge: u32,
}

/// What is noted of the edges of a body: of each edge, in their order, where it comes from; and beside it, by the
/// numbers of edges, what is noted of the call paths that the graph goes along.
pub struct BodyOrigins {
    pub edges: Vec<EdgeOrigin>,
    pub operands: Vec<Unsequenced>,
    pub reloads: Vec<Reload>,
    pub overwrites: Vec<Overwrite>,
    pub lives: Vec<Life>,
    pub falls: Vec<Fall>,
    pub passings: Vec<Passing>,
}

// By hand: a function that lets one go calls this, and its check does not go through the fields.
impl Drop for BodyOrigins {
    fn drop(self) {
        let BodyOrigins {
            edges: _edges,
            operands: _operands,
            reloads: _reloads,
            overwrites: _overwrites,
            lives: _lives,
            falls: _falls,
            passings: _passings,
        } = self;
    }
}
