//! Parts of a set, and what the rows of results on them are made of.
ghost use Rattle.std.specs.Prelude.{◌≡◌, ℤ};
ghost use Rattle.std.specs.Int.{int_max, int_min};
ghost use Rattle.strided_dom.specs.Progression.{IsExactly, IsInReach};
ghost use Rattle.congruence_dom.specs.Class.{InClass};
ghost use Rattle.transfer_int.specs.reading.Parts.{IsPart};

use congruence_dom::Cong;
use interval_dom::Interval;
use strided_dom::Strided;

/// The members from `lo` to `hi`.
pub(crate) fn part(a: &Strided, lo: i128, hi: i128) -> Strided
    requires low { IsInReach lo }
    requires high { IsInReach hi }
    ensures { IsExactly (IsPart a.now lo hi) result }
{
    a.meet(&Strided::range(lo, hi, 1))
}

/// The least interval that holds both.
pub(crate) fn joined(p: Interval, q: Interval) -> Interval
    ensures low { result.lo ≡ int_min p.lo q.lo }
    ensures high { result.hi ≡ int_max p.hi q.hi }
{
    Interval {
        lo: p.lo.min(q.lo),
        hi: p.hi.max(q.hi),
    }
}

/// The class of all integers.
pub(crate) fn all_integers() -> Cong
    ensures { (v : ℤ) → InClass result v }
{
    Cong {
        residue: 0,
        modulus: 1,
    }
}
