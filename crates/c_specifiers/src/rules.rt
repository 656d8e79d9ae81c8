//! What a declarator declares.
ghost use Rattle.std.specs.Prelude.{◌≡◌};
ghost use Rattle.tm_trees.specs.DeclarationTrees.{declared_name, declarator_tree};
ghost use Rattle.tm_typed.specs.Structures.{declared_place, is_no_object};

use c_scope::Scope;
use tm_terms::{Name, Place};
use tm_trees::Declarator;
use tm_typed::Shape;

/// The name that a declarator declares.
pub fn declared_name(declarator: &Declarator) -> Name
    ensures { result ≡ declared_name (declarator_tree declarator.now) }
{
    match declarator {
        Declarator::Name { name, .. } => *name,
        Declarator::Nested { inside, .. } => declared_name(inside),
    }
}

/// The place of the declared name.
pub fn declared_place(declarator: &Declarator) -> Place
    ensures { result ≡ declared_place (declarator_tree declarator.now) }
{
    match declarator {
        Declarator::Name { place, .. } => *place,
        Declarator::Nested { inside, .. } => declared_place(inside),
    }
}

/// Whether it may be no object: an array without a length, or of a type whose size is not known.
pub fn is_no_object(scope: &Scope, shape: Shape) -> bool
    ensures { result ≡ is_no_object scope.now shape }
{
    shape.mismatch || shape.is_open || !scope.is_complete(shape.of.number)
}
