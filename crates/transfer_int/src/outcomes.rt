//! What an operator gives.
use strided_dom::Strided;

/// The value of an operator, and the classes of errors that it does not exclude.
#[derive(Clone, Copy, PartialEq, Eq)]
pub struct Outcome {
    pub value: Strided,
    pub classes: Classes,
}

/// For each class of errors but `Race`, whether it is not excluded.
#[derive(Clone, Copy, PartialEq, Eq)]
pub struct Classes {
    pub overflow: bool,
    pub div: bool,
    pub shift: bool,
    pub index: bool,
    pub pointer: bool,
    pub deref: bool,
    pub lock: bool,
}
