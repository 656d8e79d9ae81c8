//! What is wrong with a pointer.

/// What is wrong with a pointer to an object, where an operation follows or moves it.
#[derive(Clone, Copy, PartialEq, Eq, PartialOrd, Ord)]
pub enum Flaw {
    /// It is followed, and the object is not alive on the call path (C99 6.2.4).
    Gone,
    /// It is followed at an offset at which no value of its type stands, as one past the last cell (C99 6.5.3.2).
    Offset,
    /// It is moved to before the object (C99 6.5.6).
    Before,
    /// It is moved to behind one past the last cell of the object (C99 6.5.6).
    Behind,
}

/// An object, and what is wrong with a pointer to it.
#[derive(Clone, Copy, PartialEq, Eq, PartialOrd, Ord)]
pub struct ObjectFlaw {
    /// The number of the object.
    pub object: u32,
    pub flaw: Flaw,
}
