//! Lists of plain values.
ghost use Rattle.std.specs.Prelude.{◌≡◌, ◌↔◌, IsTrue};
ghost use Rattle.graph_facts.specs.Lists.{numbers};

use strided_dom::Marks;

/// Whether two lists of priorities are the same.
pub fn are_same_priorities(one: &[u8], other: &[u8]) -> bool
    ensures { IsTrue result ↔ (one.now ≡ other.now) }
{
    one == other
}

/// Whether two lists of lists of numbers are the same.
pub fn are_same_lists(one: &[Vec<u32>], other: &[Vec<u32>]) -> bool
    ensures { IsTrue result ↔ (numbers one.now ≡ numbers other.now) }
{
    one == other
}

/// Whether two lists of thresholds are the same.
pub fn are_same_marks(one: &Marks, other: &Marks) -> bool
    ensures { IsTrue result ↔ (one.now ≡ other.now) }
{
    one.ends() == other.ends()
}
