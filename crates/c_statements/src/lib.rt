//! Statements: from trees to typed trees, exactly by the rules of typing, with conditions that are scalars, labels that
//! are converted and different, and jumps that stand where they may. How expressions and declarations are typed, this
//! crate does not know.
//!
//! In a function without a result the tree of `while (x) break;` becomes a `While` of a load of `x` and a `Break`; that
//! of `break;` alone is refused as Mismatch at the `break`.
#![tactic(auto)]

mod labels;
mod nodes;
mod parts;
mod rules;
mod statements;

pub use statements::body_parts;
