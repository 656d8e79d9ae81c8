//! What is told of an alarm.
use crate::flaws::ObjectFlaw;
use pointer_dom::AbsValue;
use tm_cint::Class;
use tm_terms::Place;

/// An edge of a body's graph at which the class of an alarm is not excluded.
#[derive(Clone, Copy, PartialEq, Eq)]
pub struct ContextEdge {
    /// The number of the body: a task by its number, or the initial section behind them.
    pub body: u32,
    /// The number of the edge in the graph of the body.
    pub edge: usize,
}

/// What the tables tell of an alarm of a class other than that of races.
#[derive(Drop)]
pub struct AlarmContexts {
    pub place: Place,
    pub class: Class,
    /// The edges by rising bodies, then by rising numbers, at least one.
    pub edges: Vec<ContextEdge>,
    /// The values of each temporary that the operation uses, over all these edges, in the order in which it uses them.
    pub operands: Vec<AbsValue>,
    /// What is wrong with the pointers that it follows or moves, over all these edges, by rising numbers of objects.
    pub flaws: Vec<ObjectFlaw>,
    /// Whether control goes on behind none of these edges.
    pub always: bool,
}
