//! The names of tokens.

ghost use Rattle.std.specs.Prelude.{◌≡◌};
ghost use Rattle.unit_tokens.specs.Sayings.{name_of};

use tm_terms::{Name, Shape};

/// The name that a token is, if it is one.
pub fn name_of(shape: Shape) -> Option<Name>
    ensures { result ≡ name_of shape }
{
    match shape {
        Shape::Name(name) => Some(name),
        Shape::Word(_) | Shape::Integer(_) | Shape::Character(_) | Shape::Sign(_) => None,
    }
}
