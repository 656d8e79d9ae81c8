//! New names: an old one, a mark that stands nowhere in the units, and the number of the unit.

ghost use Rattle.std.specs.Prelude.{◌≡◌, ◌++◌, IfOk, IsTrue, decimal, string_bytes};
ghost use Rattle.tm_terms.specs.Spelling.{text_of};
ghost use Rattle.unit_tokens.specs.Units.{IsNowhere, unit_of};

use std::alloc::{AllocError, Global};
use tm_lattice::NoMemory;
use tm_terms::{Name, behind, text_of};

/// The unit, counted from 1, in which a line stands, by the lines that stand before units; 0 before the first.
pub fn unit_of(borders: &[u32], line: u32) -> usize
    ensures { result ≡ unit_of borders.now line }
{
    borders.iter().filter(|border| **border < line).count()
}

/// Whether a mark stands nowhere in a text.
pub fn is_nowhere(mark: &[u8], text: &[u8]) -> bool
    ensures { IsTrue result → IsNowhere mark.now text.now }
{
    if mark.is_empty() {
        return false;
    }
    for k in 0..text.len() {
        if behind(text, k).starts_with(mark) {
            return false;
        }
    }
    true
}

/// A number in decimal.
fn digits(alloc: Global, number: usize) -> Result<String, AllocError>
    ensures { IfOk result (λ text. string_bytes text ≡ decimal number) }
{
    format!(in alloc; "{number}")
}

/// The new name of a name of a unit.
pub fn new_name(
    alloc: Global,
    source: &[u8],
    mark: &[u8],
    unit: usize,
    name: Name,
) -> Result<Vec<u8>, NoMemory>
    ensures { IfOk result (λ made. made.items ≡ text_of source.now name ++ (mark.now ++ decimal unit)) }
{
    let number = digits(alloc, unit)?;
    let mut made = Vec::new(alloc);
    made.extend_from_slice(text_of(source, name))?;
    made.extend_from_slice(mark)?;
    made.extend_from_slice(number.as_bytes())?;
    Ok(made)
}
