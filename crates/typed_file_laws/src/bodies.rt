//! What stands in the bodies of functions.
ghost use Rattle.typed_file_laws.specs.TypedBodies.{BodiesAreWellFormed, NumbersAreOfTypes};
ghost use Rattle.typed_file_laws.specs.Sites.{SitesStand};

/// Each expression of each body gives a value of its kind, and all that it names exists: conditions are numbers or
/// pointers, cells are given values of their scalar types, and `return` gives a value exactly where the function has a
/// result.
pub fn bodies_are_well_formed()
    ensures { BodiesAreWellFormed }
{}

/// Each constant and each label that a typed file keeps is a number of some integer type.
pub fn numbers_are_of_integer_types()
    ensures { NumbersAreOfTypes }
{}

/// Each call in the body of a function calls the function that stands at its site among those that the function calls,
/// and the file defines all of these, and all objects of static storage that the body names. No pointer is loaded as
/// volatile, each `~` works in another type than `_Bool`, and the bounds of each `__input` are in order.
pub fn calls_stand_at_their_sites()
    ensures { SitesStand }
{}
