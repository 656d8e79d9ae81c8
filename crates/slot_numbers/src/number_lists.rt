//! Lists of numbers.
ghost use Rattle.std.specs.Prelude.{◌≡◌, ◌∷◌, ◌++◌, [], IfOk, replicate};

use std::alloc::Global;
use std::marker::Model;
use tm_lattice::NoMemory;

/// Some numbers in order.
#[derive(Drop)]
pub struct NumberList {
    numbers: Vec<usize>,
}

impl Model for NumberList {
    ghost use Rattle.std.specs.Prelude.{List, ℕ};

    ghost Value = { List ℕ };

    ghost view = { λ list. list.numbers.items };
}

impl NumberList {
    /// No number.
    pub fn new(alloc: Global) -> NumberList
        ensures { result ≡ [] }
    {
        NumberList {
            numbers: Vec::new(alloc),
        }
    }

    /// Adds a number at the end.
    pub fn push(&mut self, number: usize) -> Result<(), NoMemory>
        ensures { IfOk result (λ done. self.new ≡ self.old ++ number ∷ []) }
    {
        self.numbers.push(number)?;
        Ok(())
    }

    /// The numbers.
    pub fn numbers(&self) -> &[usize]
        ensures { result.now ≡ self.now }
    {
        self.numbers.as_slice()
    }
}

/// Empty lists.
pub fn no_lists(alloc: Global, count: usize) -> Result<Vec<NumberList>, NoMemory>
    ensures { IfOk result (λ lists. lists.items ≡ replicate count []) }
{
    let mut lists = Vec::new(alloc);
    for _ in 0..count {
        lists.push(NumberList::new(alloc))?;
    }
    Ok(lists)
}
