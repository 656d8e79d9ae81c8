//! What a file has to define, and that no function of it reaches itself.
ghost use Rattle.std.specs.Prelude.{◌≡◌, is_some, option_map, find};
ghost use Rattle.tm_typed.specs.Files.{typed_function, is_undefined, undefined_use, defined_by, main_of};
ghost use Rattle.c_typing.specs.Views.{found_of};

use crate::found::Found;
use tm_terms::{Name, Place};
use tm_typed::{Named, Use, Used};

// Whether a function has a body.
fn has_body(found: &Found, number: u32) -> bool
    ensures { result ≡ is_some (typed_function (found_of found.now) number).body }
{
    match found.functions.get(number as usize) {
        Some(function) => function.body.is_some(),
        None => false,
    }
}

// Whether the file does not define what is used.
fn is_undefined(found: &Found, used: Used) -> bool
    ensures { result ≡ is_undefined (found_of found.now) used }
{
    match used {
        Used::Function(function) => !has_body(found, function),
        Used::Static(object) => !found.state.is_defined(object),
    }
}

// The first of some uses of what the file does not define.
fn first_undefined(found: &Found, uses: &[Use]) -> Option<Place>
    ensures { result ≡ option_map (λ u. u.place) (find (λ u. is_undefined (found_of found.now) u.used) uses.now) }
{
    'uses: for one in uses {
        if is_undefined(found, one.used) {
            return Some(one.place);
        }
    }
    None
}

/// The first use, in the order of the text, of what the file does not define.
pub(crate) fn undefined_use(found: &Found) -> Option<Place>
    ensures { result ≡ undefined_use (found_of found.now) }
{
    first_undefined(found, found.state.uses())
}

// A function of this name that is defined.
fn defined_by(found: &Found, named: Option<Named>) -> Option<u32>
    ensures { result ≡ defined_by (found_of found.now) named }
{
    match named {
        Some(Named::Function(function)) => {
            if has_body(found, function) {
                Some(function)
            } else {
                None
            }
        }
        Some(_) | None => None,
    }
}

/// The function `main`, by its name.
pub(crate) fn main_of(found: &Found, main: Option<Name>) -> Option<u32>
    ensures { result ≡ main_of (found_of found.now) main }
{
    match main {
        Some(name) => defined_by(found, found.state.scope().named(name)),
        None => None,
    }
}
