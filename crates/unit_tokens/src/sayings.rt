//! What tokens say.

ghost use Rattle.std.specs.Prelude.{◌≡◌, IfOk, IsTrue};
ghost use Rattle.unit_tokens.specs.Sayings.{Says, said, wanted};

use crate::fates::{Fate, Fated};
use crate::names::{new_name, unit_of};
use crate::shapes::is_same_shape;
use crate::texts::name_of;
use std::alloc::Global;
use tm_lattice::NoMemory;
use tm_terms::{Name, Shape, text_of};

/// By what tokens of the units get new names: the text of the units, the mark, and the lines that stand before units.
#[derive(Clone, Copy)]
pub struct Renaming<'a> {
    pub units: &'a [u8],
    pub mark: &'a [u8],
    pub borders: &'a [u32],
}

/// Whether tokens of two texts say the same.
fn is_same(units: &[u8], shape: Shape, joined: &[u8], other: Shape) -> bool
    ensures { IsTrue result → said joined.now other ≡ said units.now shape }
{
    match name_of(shape) {
        Some(name) => match name_of(other) {
            Some(new) => text_of(joined, new) == text_of(units, name),
            None => false,
        },
        None => match name_of(other) {
            Some(_) => false,
            None => is_same_shape(other, shape),
        },
    }
}

/// Whether a token is this new name.
fn is_new(joined: &[u8], other: Shape, wanted: &[u8]) -> bool
    ensures { IsTrue result → said joined.now other ≡ Says.Named wanted.now }
{
    match name_of(other) {
        Some(new) => text_of(joined, new) == wanted,
        None => false,
    }
}

/// Whether a token of a joined text says what it should, by the token of the units for which it stands.
pub fn is_wanted(
    alloc: Global,
    renaming: Renaming<'_>,
    fated: Fated,
    joined: &[u8],
    other: Shape,
) -> Result<bool, NoMemory>
    ensures { IfOk result (λ is. IsTrue is → said joined.now other
        ≡ wanted renaming.entry.units.now renaming.entry.mark.now renaming.entry.borders.now fated) }
{
    let shape = fated.token.shape;
    match fated.fate {
        Fate::Stays | Fate::LeftOut(_) => Ok(is_same(renaming.units, shape, joined, other)),
        Fate::Renamed => match name_of(shape) {
            Some(name) => {
                let unit = unit_of(renaming.borders, fated.token.place.line);
                let new = new_name(alloc, renaming.units, renaming.mark, unit, name)?;
                Ok(is_new(joined, other, &new))
            }
            None => Ok(is_same(renaming.units, shape, joined, other)),
        },
    }
}
