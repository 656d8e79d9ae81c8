//! What runs are made of: values, answers, the actions of a task, and what C's operators give on values. The next
//! action of a task and the lowered graphs cite these definitions alike, so that both mean the same by an operator.
//! What a statement or an expression does with them, this crate does not know.
//!
//! So in `int a[4]; int *p = a + 3;` the value of `p + 1` is the pointer to the object `a` at the offset 4, one past
//! its last cell; `p + 2` has an error of the class POINTER, and `*(p + 1)` one of the class DEREF.
#![tactic(auto)]

mod actions;
mod operators;
mod pointers;
mod values;

pub use actions::{Next, answer_of, clear_at, is_of, load_at, store_at};
pub use operators::{binary, converted, is_case, unary};
pub use pointers::{base, compared, element, moved, part, size_of, usable};
pub use tm_cint::{BinOp, IntType};
pub use tm_laid::{Place, Scalar, Unary};
pub use values::{
    Answer, Pointer, Value, is_true, nothing, number_in, number_of, pointer_of, truth_value,
};
