//! Call paths.

/// The call by which a call path goes on from another one: the number of that path, and the number of the call among
/// those of its function, in the order of the text.
#[derive(Clone, Copy)]
pub struct Caller {
    pub path: u32,
    pub site: u32,
}

/// A call path: the number of the body in which it begins, the function in which it ends, and the call that leads
/// there, none for a body itself.
#[derive(Clone, Copy)]
pub struct CallPath {
    pub body: u32,
    pub function: u32,
    pub caller: Option<Caller>,
    /// How many call paths begin with this one, itself counted: they have the numbers from its own on.
    pub paths: u32,
}
