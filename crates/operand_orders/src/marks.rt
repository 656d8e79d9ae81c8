//! Marks of edges, and whether there is one in a range.
ghost use Rattle.std.specs.Prelude.{◌≡◌, ◌↔◌, IfOk, IsTrue};
ghost use Rattle.operand_orders.specs.reading.Marks.{AreMarks, IsMarkedBetween};

use crate::lists::small;
use std::alloc::Global;
use tm_lattice::NoMemory;

/// For each number whether it is marked, and for each number of first ones how many there are up to the last one of
/// them that is marked.
pub(crate) struct Marks {
    marks: Vec<bool>,
    lasts: Vec<u32>,
}

// By hand: a function that lets one go calls this, and its check does not go through the fields.
impl Drop for Marks {
    fn drop(self) {
        let Marks {
            marks: _marks,
            lasts: _lasts,
        } = self;
    }
}

/// Marks with what is looked up of them.
pub(crate) fn marks_of(alloc: Global, marks: Vec<bool>) -> Result<Marks, NoMemory>
    ensures { IfOk result (λ made. AreMarks marks.items made) }
{
    let mut lasts = Vec::new(alloc);
    let mut last = 0;
    lasts.push(last)?;
    for at in 0..marks.len() {
        if marks[at] {
            last = small(at + 1)?;
        }
        lasts.push(last)?;
    }
    Ok(Marks { marks, lasts })
}

impl Marks {
    /// Whether a number of a range is marked.
    pub(crate) fn is_between(&self, first: u32, end: u32) -> bool
        requires { AreMarks self.now.marks.items self.now }
        ensures { IsTrue result ↔ IsMarkedBetween self.now.marks.items first end }
    {
        let end = (end as usize).min(self.marks.len());
        first < self.lasts[end]
    }
}
