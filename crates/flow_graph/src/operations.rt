//! The operations of edges.
use concrete_values::{BinOp, IntType, Place, Scalar, Unary, Value};

/// What an `Assume` lets through. Each test has its opposite.
#[derive(Clone, Copy)]
pub enum Test {
    /// A comparison of integers in the type `of` gives 1.
    Numbers {
        operator: BinOp,
        of: IntType,
        left: u32,
        right: u32,
    },
    /// Two pointers are equal, or are not.
    Pointers {
        equal: bool,
        left: u32,
        right: u32,
    },
    /// A value is neither 0 nor null, or is one of them.
    Truth {
        holds: bool,
        value: u32,
    },
    /// The value of a `switch` is that of a label, or is not.
    Case {
        holds: bool,
        label: i128,
        value: u32,
    },
}

/// Where the address of a store comes from.
#[derive(Clone, Copy)]
pub enum Into {
    /// It is made from the object's own address: it points into it.
    Object(u32),
    /// It is made with a `Deref`.
    Pointed,
}

/// What an edge does. Temporaries, objects, mutexes and call paths stand by their numbers; `to` is the temporary that
/// is given. A number of cells above 65,536 stands as 65,537: no object has as many.
#[derive(Clone, Copy)]
pub enum Operation {
    /// Nothing: control goes on.
    Skip,
    Const {
        to: u32,
        value: Value,
    },
    Copy {
        to: u32,
        from: u32,
    },
    /// `-` or `~` in the type `of`.
    Un {
        to: u32,
        operator: Unary,
        of: IntType,
        from: u32,
        place: Place,
    },
    /// A binary operator that works in the type `of`.
    Bin {
        to: u32,
        operator: BinOp,
        of: IntType,
        left: u32,
        right: u32,
        place: Place,
    },
    /// `==` or `!=` of pointers.
    BinPointers {
        to: u32,
        equal: bool,
        left: u32,
        right: u32,
    },
    /// A conversion from a type to one that has not all its values.
    Convert {
        to: u32,
        was: IntType,
        of: IntType,
        from: u32,
    },
    /// The address of an object.
    Base {
        to: u32,
        object: u32,
    },
    /// The address of a part that begins so many cells behind an address.
    Offset {
        to: u32,
        from: u32,
        cells: u32,
    },
    /// The address of an element of an array of `length` elements of `cells` cells.
    Index {
        to: u32,
        from: u32,
        length: u32,
        cells: u32,
        by: u32,
        place: Place,
    },
    /// A pointer plus or minus an integer, times so many cells.
    Move {
        to: u32,
        from: u32,
        cells: u32,
        minus: bool,
        by: u32,
        place: Place,
    },
    /// A pointer that is followed on a call path to a value of the type `target`.
    Deref {
        to: u32,
        from: u32,
        target: u32,
        path: u32,
        place: Place,
    },
    Load {
        to: u32,
        address: u32,
        scalar: Scalar,
        place: Place,
    },
    /// A load of a volatile cell: it gives any value of its type.
    LoadAny {
        to: u32,
        address: u32,
        scalar: Scalar,
        place: Place,
    },
    Store {
        address: u32,
        value: u32,
        scalar: Scalar,
        into: Into,
        place: Place,
    },
    /// Any number within bounds.
    Any {
        to: u32,
        low: i128,
        high: i128,
    },
    /// The cells of a local object hold nothing yet.
    Clear {
        object: u32,
    },
    /// A pointer that is compared is not the invalid one.
    Usable {
        pointer: u32,
        place: Place,
    },
    Assume {
        test: Test,
    },
    Lock {
        mutex: u32,
        place: Place,
    },
    Unlock {
        mutex: u32,
        place: Place,
    },
    Yield,
    /// Whether some task holds the mutex.
    Probe {
        to: u32,
        mutex: u32,
        place: Place,
    },
}
