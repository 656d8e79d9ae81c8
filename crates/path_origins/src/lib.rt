//! From which expression or declaration each edge of the body of a call path comes. The statements of its function are
//! walked as lowering goes over them, and of each edge the place and the form of its operation are noted; beside it,
//! which edges each of two unsequenced operands gave (C99 6.5p2), where objects begin to live and how far the scopes of
//! their declarations go, and where a pointer is given to what has another pointer type, or a number to an enumeration
//! by a cast. The edges of the bodies of calls are counted, and no more: what they are, and what all this is noted for,
//! this crate does not know.
//!
//! Of `x = f(y)` there are noted the address of `x`; the address and the load of `y`; the address and the store of the
//! parameter; the call of `f`, whose body has as many edges as it is said to have; and the store, at the sign `=`.
//! Unsequenced operands of the assignment are the first edge, and all of the following up to the store.
#![tactic(auto)]

mod addresses;
mod bodies;
mod expressions;
mod lookups;
mod notes;
mod opens;
mod operators;
mod origins;
mod statements;
mod types;
mod walks;

pub use bodies::noted_path;
pub use opens::{Opens, opens_of};
pub use origins::{
    Form, Life, NotedCall, NotedEdge, Notes, Overwrite, Passed, Passing, Reload, Span, Unsequenced,
};
