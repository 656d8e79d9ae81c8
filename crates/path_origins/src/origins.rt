//! What is noted of edges.
use std::alloc::Global;
use tm_lattice::NoMemory;
use tm_terms::Place;

/// The form of an operation.
#[derive(Clone, Copy, PartialEq, Eq)]
pub enum Form {
    Skip,
    Constant,
    Copy,
    /// An operator on one operand, and whether that is a value of an enumeration that compilers may make unsigned (C99
    /// 6.7.2.2p4), in `int` or `long`.
    Unary(bool),
    /// An operator on two operands, and whether one of them is such a value.
    Binary(bool),
    /// `==` or `!=` of pointers for its value.
    Equality,
    Conversion,
    Base,
    Part,
    Element,
    /// A pointer to the type with this number is moved (C99 6.5.6).
    Move(u32),
    Follow,
    Load,
    Store,
    /// A cell of an object is stored by its initialiser (C99 6.7.8).
    Initialise,
    Any,
    Clear,
    Usable,
    /// A test, and whether it compares such a value.
    Test(bool),
    /// `==` or `!=` of pointers as a branch.
    EqualityTest,
    Lock,
    Unlock,
    Yield,
    Probe,
}

/// An edge by its number among those of the body of a path: the place of the smallest expression or declaration that
/// gave it, and the form of its operation. The place of what no expression gave is 0:0.
#[derive(Clone, Copy, PartialEq, Eq)]
pub struct NotedEdge {
    pub at: u32,
    pub place: Place,
    pub form: Form,
}

/// A call: the path that goes on there, the number of the first edge of its body, and whether its value is used.
#[derive(Clone, Copy, PartialEq, Eq)]
pub struct NotedCall {
    pub path: u32,
    pub at: u32,
    pub used: bool,
}

/// Edges in a row: from the first one up to the one behind the last.
#[derive(Clone, Copy, PartialEq, Eq)]
pub struct Span {
    pub first: u32,
    pub end: u32,
}

/// Two operands between which there is no sequence point (C99 6.5p2), in the order of the text, by the edges that each
/// gave; and the place of the operator, of the name of the call, or of the `=` of the initialiser. An argument stands
/// against all arguments before it, and an element of an initialiser against all elements before it.
#[derive(Clone, Copy, PartialEq, Eq)]
pub struct Unsequenced {
    pub place: Place,
    pub first: Span,
    pub second: Span,
}

/// The load of what `op=` changes, and the edges of its right side (C99 6.5.16.2).
#[derive(Clone, Copy, PartialEq, Eq)]
pub struct Reload {
    pub place: Place,
    pub load: u32,
    pub right: Span,
}

/// The store of an assignment, `++` or `--`, and an earlier store by one of its operands, with no sequence point
/// between both (C99 6.5p2).
#[derive(Clone, Copy, PartialEq, Eq)]
pub struct Overwrite {
    pub place: Place,
    pub store: u32,
    pub earlier: u32,
}

/// A parameter or a local object of a call path: the place of its name, the edge where its lifetime begins (its
/// `Clear`, or the store of its argument), the edges in the scope of its declaration, and those of its initialiser.
#[derive(Clone, Copy, PartialEq, Eq)]
pub struct Life {
    pub object: u32,
    pub place: Place,
    pub begins: u32,
    pub scope: Span,
    pub initialiser: Option<Span>,
}

/// What is given so that a compiler may make something else of it.
#[derive(Clone, Copy, PartialEq, Eq)]
pub enum Passed {
    /// A pointer to what has a pointer type with another target: one without `const`, or one that differs below (C99
    /// 6.5.16.1p1).
    Pointer,
    /// A number by a cast to an enumeration that compilers may make unsigned (C99 6.7.2.2p4).
    Enumeration,
}

/// What is given so, and its place.
#[derive(Clone, Copy, PartialEq, Eq)]
pub struct Passing {
    pub place: Place,
    pub passed: Passed,
}

/// What is noted of the body of a path. Edges are counted from its first one, with those of the bodies of calls, of
/// which nothing else is noted here.
pub struct Notes {
    /// How many edges there are.
    pub size: u32,
    pub edges: Vec<NotedEdge>,
    pub calls: Vec<NotedCall>,
    pub operands: Vec<Unsequenced>,
    pub reloads: Vec<Reload>,
    pub overwrites: Vec<Overwrite>,
    pub lives: Vec<Life>,
    /// Where the function ends without `return`, with any value (C99 6.9.1p12).
    pub falls: Vec<u32>,
    pub passings: Vec<Passing>,
    /// The stores that no sequence point follows so far.
    pub pending: Vec<u32>,
    /// The lives whose scope has not ended.
    pub unended: Vec<Life>,
}

// By hand: a function that lets one go calls this, and its check does not go through the fields.
impl Drop for Notes {
    fn drop(self) {
        let Notes {
            size: _,
            edges: _edges,
            calls: _calls,
            operands: _operands,
            reloads: _reloads,
            overwrites: _overwrites,
            lives: _lives,
            falls: _falls,
            passings: _passings,
            pending: _pending,
            unended: _unended,
        } = self;
    }
}
