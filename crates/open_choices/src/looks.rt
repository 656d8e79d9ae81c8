//! What is looked for at an edge.
ghost use Rattle.std.specs.Prelude.{◌≡◌};
ghost use Rattle.open_choices.specs.reading.Looks.{look_of, store_of, bin_of, test_of};

use flow_graph::{Into, Operation, Test};
use tm_cint::{BinOp, IntType};
use tm_terms::Place;
use tm_typed::{Scalar, Unary};

/// What is looked for at an edge, by its operation.
#[derive(Clone, Copy)]
pub enum Look {
    Nothing,
    /// Cells that were never stored are loaded.
    Load {
        address: u32,
        scalar: Scalar,
        place: Place,
    },
    /// Constant cells are stored through a pointer.
    Store {
        address: u32,
        scalar: Scalar,
        place: Place,
    },
    /// A number is converted to a type that has it not.
    Conversion {
        of: IntType,
        from: u32,
    },
    /// A negative number is shifted to the right.
    Shift {
        left: u32,
        place: Place,
    },
    /// A pointer is moved out of its array.
    Move {
        from: u32,
        cells: u32,
        minus: bool,
        by: u32,
        place: Place,
    },
    /// A pointer is used to an object that is not open.
    Use {
        pointer: u32,
        place: Place,
    },
    /// An end is compared with a beginning.
    Comparison {
        left: u32,
        right: u32,
    },
    /// A negative number is stored to an enumeration.
    Negative {
        address: u32,
        value: u32,
        scalar: Scalar,
    },
    /// An operator works on a negative number beside or in an enumeration, or gives one.
    Unary {
        operator: Unary,
        value: u32,
    },
    Binary {
        operator: BinOp,
        left: u32,
        right: u32,
    },
    /// Such numbers are compared as a branch.
    Branch {
        left: u32,
        right: u32,
    },
}

// At a store, by where its address comes from.
fn store_of(into: Into, address: u32, scalar: Scalar, place: Place) -> Look
    ensures { result ≡ store_of into address scalar place }
{
    match into {
        Into::Pointed => Look::Store {
            address,
            scalar,
            place,
        },
        Into::Object(_) => Look::Nothing,
    }
}

// At a binary operator.
fn bin_of(operator: BinOp, left: u32, place: Place) -> Look
    ensures { result ≡ bin_of operator left place }
{
    match operator {
        BinOp::Shr => Look::Shift { left, place },
        _ => Look::Nothing,
    }
}

// At a test.
fn test_of(test: Test) -> Look
    ensures { result ≡ test_of test }
{
    match test {
        Test::Pointers { left, right, .. } => Look::Comparison { left, right },
        _ => Look::Nothing,
    }
}

/// What is looked for where an operation stands.
pub(crate) fn look_of(operation: Operation) -> Look
    ensures { result ≡ look_of operation }
{
    match operation {
        Operation::Load {
            address,
            scalar,
            place,
            ..
        }
        | Operation::LoadAny {
            address,
            scalar,
            place,
            ..
        } => Look::Load {
            address,
            scalar,
            place,
        },
        Operation::Store {
            address,
            scalar,
            into,
            place,
            ..
        } => store_of(into, address, scalar, place),
        Operation::Convert { of, from, .. } => Look::Conversion { of, from },
        Operation::Bin {
            operator,
            left,
            place,
            ..
        } => bin_of(operator, left, place),
        Operation::Move {
            from,
            cells,
            minus,
            by,
            place,
            ..
        } => Look::Move {
            from,
            cells,
            minus,
            by,
            place,
        },
        Operation::Deref { from, place, .. } => Look::Use {
            pointer: from,
            place,
        },
        Operation::Usable { pointer, place } => Look::Use { pointer, place },
        Operation::BinPointers { left, right, .. } => Look::Comparison { left, right },
        Operation::Assume { test } => test_of(test),
        _ => Look::Nothing,
    }
}
