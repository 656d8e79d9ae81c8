//! The numbers of cells of types.
ghost use Rattle.std.specs.Prelude.{◌≡◌, ◌*◌, IfOk};
ghost use Rattle.tm_laid.specs.Layouts.{laid_tree};
ghost use Rattle.tm_laid.specs.TypeCells.{entry_of, summed, cell_count, cells_of_type};

use body_builder::more;
use tm_laid::{Laid, members_of};
use tm_lattice::NoMemory;
use tm_typed::{CType, Member};

/// What a type is.
pub fn type_at(laid: &Laid, number: u32) -> CType
    ensures { result ≡ (entry_of (laid_tree laid.now).file number).ctype }
{
    match laid.file.types.get(number as usize) {
        Some(entry) => entry.ctype,
        None => CType::Void,
    }
}

/// So many times a number.
pub(crate) fn times(count: u32, number: u32) -> Result<u32, NoMemory>
    ensures { IfOk result (λ n. n ≡ count * number) }
{
    match count.checked_mul(number) {
        Some(product) => Ok(product),
        None => Err(NoMemory),
    }
}

// The cells of a type that is made of others at most so deep.
#[cycle(sizes)]
fn cell_count(laid: &Laid, depth: usize, number: u32) -> Result<u32, NoMemory>
    ensures { IfOk result (λ n. n ≡ cell_count (laid_tree laid.now).file depth number) }
{
    if depth == 0 {
        return Ok(0);
    }
    match type_at(laid, number) {
        CType::Void => Ok(0),
        CType::Int(_) => Ok(1),
        CType::Pointer(_) => Ok(1),
        CType::Array { element, length } => {
            let cells = cell_count(laid, depth - 1, element)?;
            times(length, cells)
        }
        CType::Struct(structure) => summed(laid, depth - 1, members_of(&laid.file, structure)),
    }
}

// Those of some members together.
#[cycle(sizes)]
fn summed(laid: &Laid, depth: usize, members: &[Member]) -> Result<u32, NoMemory>
    ensures { IfOk result (λ n. n ≡ summed (cell_count (laid_tree laid.now).file depth) members.now) }
{
    let mut total = 0;
    for member in members {
        let cells = cell_count(laid, depth, member.part.of.number)?;
        total = more(total, cells)?;
    }
    Ok(total)
}

/// The cells of a type.
pub fn cells_of_type(laid: &Laid, number: u32) -> Result<u32, NoMemory>
    ensures { IfOk result (λ n. n ≡ cells_of_type (laid_tree laid.now).file number) }
{
    cell_count(
        laid,
        laid.file.types.len() + laid.file.structs.len(),
        number,
    )
}
