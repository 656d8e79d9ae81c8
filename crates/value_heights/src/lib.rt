//! The height of a value: a number that rises where a set of numbers and pointers does, so that rising values come to
//! an end below a greatest one. What a state or a store is, this crate does not know: their heights are sums of those
//! of their values.
//!
//! {1, 2} is of height 2, the row 0, 2, .. , 8 of height 5; the pointer to the object 3 of two cells, at the offset 0,
//! of height 4: the entry of the object counts one, its size two, and its one offset one.
#![tactic(auto)]

ghost use Rattle.pointer_dom.specs.tm_lattice.Heights.{IsHeight};
ghost use Rattle.pointer_dom.specs.Values.{IsValues, IsValuesBelow};
ghost use Rattle.value_heights.specs.Heights.{value_height};

/// A value's height rises where the value does. The law speaks of definitions alone: no call is made.
pub fn value_heights()
    ensures { IsHeight IsValues IsValuesBelow value_height }
{}
