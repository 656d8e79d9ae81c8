//! C's integers in the data model of the analyser: types, conversions, operators and the classes of errors. It works on
//! single values: it knows no variables, no pointers and no sets.
//!
//! So `arith` of `/` at the type `int` gives -3 for -7 and 2, `Class::Div` for 1 and 0, and `Class::Overflow` for the
//! least `int` and -1.
#![tactic(auto)]

mod conversions;
mod int_types;
mod laws;
mod operators;

pub use conversions::{convert, promote, represents_all, usual};
pub use int_types::IntType;
pub use laws::{
    conversion_is_congruent, conversion_keeps_values, converted_value_is_in_its_type,
    outcome_is_in_its_type, promotion_keeps_values, quotient_and_remainder_give_the_dividend,
    unsigned_never_overflows, usual_type_is_one_of_three, usual_type_is_symmetric,
};
pub use operators::{BinOp, arith};

/// A class of run-time error, in the order in which reports list them.
#[derive(Clone, Copy, PartialEq, Eq, PartialOrd, Ord)]
pub enum Class {
    /// Signed `+ - *` or unary `-` leaves its type; the least value divided by -1 or taken modulo -1.
    Overflow,
    /// `/` or `%` by zero.
    Div,
    /// A bad count of a shift, or a signed `<<` whose result the type does not hold.
    Shift,
    /// A subscript outside its array.
    Index,
    /// Arithmetic on, or a comparison of, a pointer that does not allow it.
    Pointer,
    /// A dereference of a pointer that reaches no cell of its type.
    Deref,
    /// Locking a mutex that the task holds, or unlocking one that it does not hold.
    Lock,
    /// Two tasks may access one cell at a time, and one of them stores.
    Race,
}
