//! Typed programs: the table of types, what names mean, and the trees of typed expressions, statements and files.
//! The rules of typing stand in specs/ as definitions; how a tree of the source becomes a typed one, this crate does
//! not know.
//!
//! In `int a[3]; int *p; .. p = a + 1` the assignment is `Assign` of the scalar `int *` to the object `p`, and its
//! value a `Move` by one cell of `Address` of the object `a`: the array has become a pointer to its first element.
#![tactic(auto)]

mod expressions;
mod files;
mod operands;
mod scopes;
mod specifiers;
mod statements;
mod types;
mod uses;

pub use expressions::{Lvalue, Rvalue, Step, Unary};
pub use files::{
    LocalEntry, MutexEntry, StaticCell, StaticValue, TypedBody, TypedFile, TypedFunction,
    TypedStatic, TypedTask,
};
pub use operands::{Fold, Operand, Sort, Valued};
pub use scopes::{
    Binding, FunctionEntry, Member, Named, ObjectNumber, Part, StructEntry, TagBinding, Tagged,
};
pub use specifiers::{Said, Shape};
pub use statements::{GivenCell, LocalInitialiser, LocalObject, TypedStatement, TypedSwitchPart};
pub use tm_trees::{Limit, Name, Place};
pub use types::{
    CType, CastType, Qualified, Scalar, TypeEntry, bytes_of, enumeration_number, int_index,
    is_enumerated, is_pointer_scalar, is_same_int,
};
pub use uses::{Use, Used};
