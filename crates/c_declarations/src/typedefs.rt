//! Typedefs (C99 6.7.7).
ghost use Rattle.std.specs.Prelude.{◌≡◌};
ghost use Rattle.tm_typed.specs.Declarations.{typedef_rules};
ghost use Rattle.c_typing_state.specs.Steps.{MovesTo};
ghost use Rattle.c_declarations.specs.reading.Declared.{with_value};

use crate::declared::Declared;
use c_type_names::refusal;
use c_typing_state::{State, is_declared_here};
use tm_terms::{Fail, Kind};
use tm_trees::Initialiser;
use tm_typed::Named;

/// A typedef has one declaration and no value, and is of no array without a length.
pub(crate) fn declare_typedef(
    state: &mut State,
    declared: Declared,
    initialiser: &Option<Initialiser>,
) -> Result<(), Fail>
    ensures { MovesTo state.new result (typedef_rules state.old (with_value declared initialiser.now)) }
{
    let shape = declared.shape;
    if shape.left_out {
        return Err(refusal(Kind::Unsupported, declared.place));
    }
    if is_declared_here(state, declared.name) {
        return Err(refusal(Kind::Redeclared, declared.place));
    }
    if shape.mismatch || shape.is_open || initialiser.is_some() {
        return Err(refusal(Kind::Mismatch, declared.place));
    }
    state.add_name(declared.name, Named::Alias(shape.of))?;
    Ok(())
}
