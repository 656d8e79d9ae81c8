//! Many lists of numbers in little memory.
ghost use Rattle.std.specs.Prelude.{◌≡◌, ◌<◌, ◌≤◌, ◌++◌, ◌∷◌, [], length, IfOk};
ghost use Rattle.cell_placings.specs.CellLists.{cells_at};
ghost use Rattle.slot_numbers.specs.reading.Flat.{start_of};

use crate::number_lists::NumberList;
use crate::variable_numbers::total;
use std::alloc::Global;
use std::marker::Model;
use tm_lattice::NoMemory;

/// Lists of numbers, one behind another in one vector: so many short lists take little memory.
#[derive(Drop)]
pub struct FlatLists {
    // Where each list ends. It begins where the one before it ends.
    ends: Vec<usize>,
    numbers: Vec<usize>,
}

impl Model for FlatLists {
    ghost use Rattle.std.specs.Prelude.{List, ℕ};
    ghost use Rattle.slot_numbers.specs.reading.Flat.{cut_from, AreCuts};

    ghost Value = { List (List ℕ) };

    ghost view = { λ lists. cut_from 0 lists.ends.items lists.numbers.items };

    ghost invariant = { λ lists. AreCuts lists.ends.items lists.numbers.items };
}

impl FlatLists {
    /// No list, with room for so many lists and for so many numbers in all.
    pub fn with_capacity(alloc: Global, lists: usize, numbers: usize) -> Result<FlatLists, NoMemory>
        ensures { IfOk result (λ flat. flat ≡ []) }
    {
        let ends = Vec::with_capacity(alloc, lists)?;
        let numbers = Vec::with_capacity(alloc, numbers)?;
        Ok(FlatLists { ends, numbers })
    }

    /// Adds a list at the end.
    pub fn push_list(&mut self, list: &[usize]) -> Result<(), NoMemory>
        ensures { IfOk result (λ done. self.new ≡ self.old ++ list.now ∷ []) }
    {
        // Once the numbers are there, nothing may fail: else they would belong to no list.
        self.ends.reserve(1)?;
        self.numbers.extend_from_slice(list)?;
        self.ends.push_reserved(self.numbers.len());
        Ok(())
    }

    /// Gives back the memory that further lists would have taken.
    pub fn shrink_to_fit(&mut self)
        ensures { self.new ≡ self.old }
    {
        self.ends.shrink_to_fit();
        self.numbers.shrink_to_fit();
    }

    /// How many lists there are.
    pub fn len(&self) -> usize
        ensures { result ≡ length self.now }
    {
        self.ends.len()
    }

    /// A list.
    pub fn list(&self, i: usize) -> &[usize]
        requires { i < length self.now }
        ensures { result.now ≡ cells_at self.now i }
    {
        let start = start_of(&self.ends, i);
        &self.numbers[start..self.ends[i]]
    }
}

// The place where a list begins.
fn start_of(ends: &[usize], i: usize) -> usize
    requires { i ≤ length ends.now }
    ensures { result ≡ start_of ends.now i }
{
    if i == 0 { 0 } else { ends[i - 1] }
}

/// The same lists one behind another.
pub fn flattened(alloc: Global, lists: &[NumberList]) -> Result<FlatLists, NoMemory>
    ensures { IfOk result (λ flat. flat ≡ lists.now) }
{
    let mut count = 0;
    for list in lists {
        count = total(count, list.numbers().len())?;
    }
    let mut flat = FlatLists::with_capacity(alloc, lists.len(), count)?;
    for list in lists {
        flat.push_list(list.numbers())?;
    }
    Ok(flat)
}
