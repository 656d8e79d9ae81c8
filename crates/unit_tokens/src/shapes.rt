//! Whether tokens are the same.

ghost use Rattle.std.specs.Prelude.{◌≡◌, IsTrue};

use tm_terms::{IntConstant, Shape, Sign, Word};

/// Whether two words are the same.
fn is_same_word(one: Word, other: Word) -> bool
    ensures { IsTrue result → one ≡ other }
{
    one == other
}

/// Whether two signs are the same.
fn is_same_sign(one: Sign, other: Sign) -> bool
    ensures { IsTrue result → one ≡ other }
{
    one == other
}

/// Whether two constants are the same.
fn is_same_constant(one: IntConstant, other: IntConstant) -> bool
    ensures { IsTrue result → one ≡ other }
{
    one.value == other.value
        && one.decimal == other.decimal
        && one.unsigned == other.unsigned
        && one.longs == other.longs
}

/// Whether two tokens are the same.
pub fn is_same_shape(one: Shape, other: Shape) -> bool
    ensures { IsTrue result → one ≡ other }
{
    match (one, other) {
        (Shape::Name(one), Shape::Name(other)) => {
            one.start == other.start && one.length == other.length
        }
        (Shape::Word(one), Shape::Word(other)) => is_same_word(one, other),
        (Shape::Integer(one), Shape::Integer(other)) => is_same_constant(one, other),
        (Shape::Character(one), Shape::Character(other)) => one == other,
        (Shape::Sign(one), Shape::Sign(other)) => is_same_sign(one, other),
        _ => false,
    }
}
