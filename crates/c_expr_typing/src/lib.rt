//! Expressions: from trees to typed trees, exactly by the rules of typing. Which names and types are visible is given;
//! declarations and statements, this crate does not know.
//!
//! In the scope of `int a[3];` the tree of `a[1] + 'x'` becomes a `Binary` in `int` of a `Load` of the element 1 of `a`
//! and the constant 120; that of `a + a` is refused as Mismatch at the `+`.
#![tactic(auto)]

mod expressions;
mod laws;

pub use expressions::{typed_expr, typed_expr_at};
pub use laws::{typed_expressions_are_well_formed, typed_expressions_stay_well_formed};
