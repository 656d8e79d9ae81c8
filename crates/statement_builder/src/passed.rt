//! What statements leave behind.

/// How control leaves a statement for a node that is not placed yet.
#[derive(Clone, Copy)]
pub enum Way {
    Break,
    Continue,
    Return,
}

/// A node from which control goes on so.
#[derive(Clone, Copy)]
pub struct Pending {
    pub node: u32,
    pub way: Way,
}

/// The nodes that wait, in the order in which they were placed, and the temporary of the value of the call in which the
/// statements stand, if there is one yet.
#[derive(Drop)]
pub struct Passed {
    pub pending: Vec<Pending>,
    pub result: Option<u32>,
}

/// Where `continue` goes: to a head that is there, or to what is placed later.
#[derive(Clone, Copy)]
pub(crate) enum Onward {
    Head(u32),
    Later,
}
