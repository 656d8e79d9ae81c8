//! The smallest parts of objects.
ghost use Rattle.std.specs.Prelude.{◌≡◌};
ghost use Rattle.tm_laid.specs.Layouts.{laid_tree};
ghost use Rattle.part_extents.specs.Parts.{innermost, cell_type, is_constant, is_of_enumeration, unenumerated};
ghost use Rattle.part_extents.specs.reading.Sought.{part_in};

use crate::sizes::type_at;
use source_names::{Down, Inside, step_down};
use tm_laid::Laid;
use tm_typed::{CType, enumeration_number, is_enumerated};

// How deep types are made of others at most.
const DEEPEST: usize = 1024;

// The part to which a step leads.
fn part_in(down: Down) -> Inside
    ensures { result ≡ part_in down }
{
    match down {
        Down::Element { inside, .. } => inside,
        Down::Member { inside, .. } => inside,
    }
}

// The smallest part in which a cell stands.
fn innermost(laid: &Laid, inside: Inside) -> Inside
    ensures { result ≡ innermost (laid_tree laid.now) inside }
{
    let mut at = inside;
    for _step in 0..DEEPEST {
        match step_down(&laid.file, at) {
            Some(down) => at = part_in(down),
            None => return at,
        }
    }
    at
}

/// The type of the scalar in a part.
pub fn cell_type(laid: &Laid, inside: Inside) -> CType
    ensures { result ≡ cell_type (laid_tree laid.now) inside }
{
    type_at(laid, innermost(laid, inside).of.number)
}

/// Whether the scalar in a part is declared `const`, or what it is a part of (C99 6.5.2.3p3).
pub fn is_constant(laid: &Laid, inside: Inside) -> bool
    ensures { result ≡ is_constant (laid_tree laid.now) inside }
{
    innermost(laid, inside).of.constant
}

/// Whether the scalar in a part is of an enumeration that compilers may make unsigned (C99 6.7.2.2p4).
pub fn is_of_enumeration(laid: &Laid, inside: Inside) -> bool
    ensures { result ≡ is_of_enumeration (laid_tree laid.now) inside }
{
    is_enumerated(innermost(laid, inside).of.number)
}

/// The number of a type, enumerations being `int` as they are here.
pub fn unenumerated(number: u32) -> u32
    ensures { result ≡ unenumerated number }
{
    if is_enumerated(number) {
        return enumeration_number(false);
    }
    number
}
