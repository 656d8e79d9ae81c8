//! Sets of requests, by their numbers in a list.
ghost use Rattle.std.specs.Prelude.{◌≡◌, ◌↔◌, ◌<◌, true, false, length, replicate, set, IfOk, IsTrue};
ghost use Rattle.request_circles.specs.reading.Steps.{IsMarked};

use std::alloc::Global;
use tm_lattice::NoMemory;

// A set of numbers below a bound.
#[derive(Drop)]
pub(crate) struct Numbers {
    pub(crate) marks: Vec<bool>,
}

// All numbers below the bound, or none.
pub(crate) fn filled(alloc: Global, count: usize, mark: bool) -> Result<Numbers, NoMemory>
    ensures { IfOk result (λ numbers. numbers.marks.items ≡ replicate count mark) }
{
    let marks = vec![in alloc; mark; count]?;
    Ok(Numbers { marks })
}

impl Numbers {
    pub(crate) fn has(&self, number: usize) -> bool
        ensures { IsTrue result ↔ IsMarked self.now.marks.items number }
    {
        match self.marks.get(number) {
            Some(mark) => *mark,
            None => false,
        }
    }

    pub(crate) fn put(&mut self, number: usize, mark: bool)
        requires { number < length self.old.marks.items }
        ensures { self.new.marks.items ≡ set self.old.marks.items number mark }
    {
        self.marks[number] = mark;
    }
}
