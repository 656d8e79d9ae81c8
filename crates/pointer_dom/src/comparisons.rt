//! Comparisons of pointers.
ghost use Rattle.std.specs.Prelude.{◌≡◌, ◌≢◌, ◌↔◌, ◌⊎◌, pos, IsTrue, MatchOption};
ghost use Rattle.std.specs.Option.{option_copied};
ghost use Rattle.strided_dom.specs.Progression.{empty, single, Has, IsExactly};
ghost use Rattle.pointer_dom.specs.PointerSets.{offsets_or_none};
ghost use Rattle.pointer_dom.specs.Equality.{IsEqualityValue, Meet, Differ, IsOnly, HasNoneOrTwo, MeetTables, MeetAt};
ghost use Rattle.pointer_dom.specs.Equality.{HasTwo};
ghost use Rattle.pointer_dom.specs.PointerForms.{pointer_of, flag_alone};

use crate::offsets::Offsets;
use crate::pointer_set::{ObjectTable, PointerSet};
use strided_dom::Strided;
use tm_lattice::Lattice;

/// A pointer of C as a value.
#[derive(Clone, Copy, PartialEq, Eq)]
pub enum PointerValue {
    /// The null pointer.
    Null,
    /// The invalid pointer.
    Invalid,
    /// A pointer to an object, by its number, at an offset that counts scalar cells.
    To { object: u32, offset: u32 },
}

/// The values of `p == q` for a pointer of each set, or of `p != q` where `equal` is false: 1 where it holds, 0 where
/// it does not, and none where a set is empty (C99 6.5.9). Two pointers are equal where both are null, both are
/// invalid, or both lead to one offset in one object. It takes no memory.
pub fn equality(equal: bool, p: &PointerSet, q: &PointerSet) -> Strided
    ensures { IsExactly (IsEqualityValue equal p.now q.now) result }
{
    let same = may_be_same(p, q);
    let differ = may_differ(p, q);
    if equal {
        truths(same, differ)
    } else {
        truths(differ, same)
    }
}

/// 1 where something may hold, and 0 where it may not hold.
fn truths(may_hold: bool, may_fail: bool) -> Strided
    ensures { IsExactly (λ v. ((v ≡ pos 1) × IsTrue may_hold) ⊎ ((v ≡ pos 0) × IsTrue may_fail)) result }
{
    if may_hold {
        if may_fail {
            Strided::range(0, 1, 1)
        } else {
            Strided::one(1)
        }
    } else if may_fail {
        Strided::one(0)
    } else {
        Strided::empty()
    }
}

/// Whether the sets have a pointer in common.
fn may_be_same(p: &PointerSet, q: &PointerSet) -> bool
    ensures { IsTrue result ↔ Meet p.now q.now }
{
    (p.has_null() & q.has_null())
        | (p.has_invalid() & q.has_invalid())
        | have_common_offset(p.objects(), q.objects())
}

/// Whether some object has an offset in both tables.
fn have_common_offset(one: &ObjectTable, other: &ObjectTable) -> bool
    ensures { IsTrue result ↔ MeetTables one.now other.now }
{
    for (object, offsets) in one.entries() {
        if has_common(offsets, other.get(*object)) {
            return true;
        }
    }
    false
}

/// Whether there is an offset in both sets, where None has none.
fn has_common(offsets: &Offsets, others: Option<&Offsets>) -> bool
    ensures { IsTrue result ↔ MeetAt offsets.now (offsets_or_none (option_copied others.entry)) }
{
    match others {
        None => false,
        Some(others) => !offsets.set().meet(&others.set()).is_empty(),
    }
}

/// Whether a pointer of the one set differs from one of the other.
fn may_differ(p: &PointerSet, q: &PointerSet) -> bool
    ensures { IsTrue result ↔ Differ p.now q.now }
{
    if p.is_nothing() {
        return false;
    }
    if q.is_nothing() {
        return false;
    }
    let right = q.only();
    match p.only() {
        None => true,
        Some(left) => match right {
            None => true,
            Some(right) => left != right,
        },
    }
}

impl PointerSet {
    /// The one pointer of the set, None where it has none or several.
    pub fn only(&self) -> Option<PointerValue>
        ensures { MatchOption result (HasNoneOrTwo self.now) (λ x. IsOnly self.now (pointer_of x)) }
    {
        match self.objects().entries() {
            [] => only_flag(self.has_null(), self.has_invalid()),
            [(object, offsets)] => {
                if self.has_null() | self.has_invalid() {
                    return None;
                }
                match only_offset(offsets) {
                    None => None,
                    Some(offset) => Some(PointerValue::To {
                        object: *object,
                        offset,
                    }),
                }
            }
            _ => None,
        }
    }
}

/// Null or the invalid pointer, where one of them is there and the other is not.
fn only_flag(null: bool, invalid: bool) -> Option<PointerValue>
    ensures { result ≡ flag_alone null invalid }
{
    if null {
        if invalid {
            None
        } else {
            Some(PointerValue::Null)
        }
    } else if invalid {
        Some(PointerValue::Invalid)
    } else {
        None
    }
}

/// The one offset of the set, None where it has several.
fn only_offset(offsets: &Offsets) -> Option<u32>
    requires { offsets.now.offsets ≢ empty }
    ensures { MatchOption result (HasTwo offsets.now.offsets)
        (λ offset. offsets.now.offsets ≡ single (pos offset)) }
{
    let _size = offsets.size();
    let set = offsets.set();
    let first = set.lo();
    if first == set.hi() {
        Some(first as u32)
    } else {
        None
    }
}
