//! What holds of the operations on sets of pointers whatever computes them. Each law speaks of the definitions alone,
//! so its function does nothing. `holds`: no result for a pointer of the operands is lost; `classes`: where the class
//! of an operation is excluded, no pointer of the operands has the error; `grows`: smaller operands reach less;
//! `fewer`: they exclude the class as well.
ghost use Rattle.std.specs.Prelude.{◌≡◌, ◌≢◌, ◌≤◌, ℕ, ℤ, Bool, true, pos, ◌+ℤ◌, ◌*ℤ◌};
ghost use Rattle.strided_dom.specs.Progression.{Progression, single, Has, IsSubset, IsExactly};
ghost use Rattle.strided_dom.specs.Combinations.{IsProduct};
ghost use Rattle.pointer_dom.specs.Offset.{IsOffset};
ghost use Rattle.pointer_dom.specs.Pointer.{Pointer, null, invalid, to};
ghost use Rattle.pointer_dom.specs.PointerSets.{Pointers, IsPointers, IsPointer, IsPointersBelow, HaveEqualSizes};
ghost use Rattle.pointer_dom.specs.PointerSets.{offsets_at};
ghost use Rattle.pointer_dom.specs.Advances.{IsAdvance, IsSafeAdvance, IsSubscript, AreSubscripts, IsElementStep};
ghost use Rattle.pointer_dom.specs.Advances.{usable_pointers};
ghost use Rattle.pointer_dom.specs.Selections.{IsHullOfPointers, IsTarget, Reaches};
ghost use Rattle.pointer_dom.specs.Equality.{IsEqualityOf, IsEqualityValue, Meet, IsOnly};

use crate::dereferences::Layout;

/// Arithmetic: it holds each pointer that stays in its object. Where its class is excluded, no pointer is null or
/// invalid, and each one stays. Smaller operands exclude the class as well where no object has two sizes.
pub fn moves()
    ensures holds { (by n : ℤ) (counts : Progression) (p r : Pointers) (object from offset : ℕ)
        → IsAdvance (IsProduct counts by) p r → IsPointer p (to object from) → Has counts n
        → pos offset ≡ pos from +ℤ n *ℤ by → let o = offsets_at p object in offset ≤ o.size
        → IsPointer r (to object offset) }
    ensures classes { (by n : ℤ) (counts : Progression) (p : Pointers) (object from : ℕ)
        → IsSafeAdvance (IsProduct counts by) p → IsPointer p (to object from) → Has counts n
        → let o = offsets_at p object in IsOffset o.size (pos from +ℤ n *ℤ by) }
    ensures classes_null { (by : ℤ) (counts : Progression) (p : Pointers) → IsSafeAdvance (IsProduct counts by) p
        → ¬ IsPointer p null }
    ensures classes_invalid { (by : ℤ) (counts : Progression) (p : Pointers) → IsSafeAdvance (IsProduct counts by) p
        → ¬ IsPointer p invalid }
    ensures grows { (by : ℤ) (counts counts' : Progression) (p p' r r' : Pointers) → IsPointers r
        → IsPointersBelow p p' → IsSubset counts counts' → IsAdvance (IsProduct counts by) p r
        → IsAdvance (IsProduct counts' by) p' r' → IsPointersBelow r r' }
    ensures fewer { (by : ℤ) (counts counts' : Progression) (p p' : Pointers) → HaveEqualSizes p p'
        → IsPointersBelow p p' → IsSubset counts counts' → IsSafeAdvance (IsProduct counts' by) p'
        → IsSafeAdvance (IsProduct counts by) p }
{}

/// A subscript: it holds each element that lies in the object. Where its class is excluded, each number is a subscript.
pub fn subscripts()
    ensures holds { (n cells : ℕ) (i : ℤ) (s : Progression) (p r : Pointers) (object from offset : ℕ)
        → IsAdvance (IsElementStep n cells s) p r → IsPointer p (to object from) → Has s i → IsSubscript n i
        → pos offset ≡ pos from +ℤ i *ℤ pos cells → let o = offsets_at p object in offset ≤ o.size
        → IsPointer r (to object offset) }
    ensures classes { (n : ℕ) (i : ℤ) (s : Progression) → AreSubscripts n s → Has s i → IsSubscript n i }
    ensures grows { (n cells : ℕ) (s s' : Progression) (p p' r r' : Pointers) → IsPointers r → IsPointersBelow p p'
        → IsSubset s s' → IsAdvance (IsElementStep n cells s) p r → IsAdvance (IsElementStep n cells s') p' r'
        → IsPointersBelow r r' }
    ensures fewer { (n : ℕ) (s s' : Progression) → IsSubset s s' → AreSubscripts n s' → AreSubscripts n s }
{}

/// The offset of a part: it holds each part that lies in the object.
pub fn parts()
    ensures holds { (cells : ℕ) (p r : Pointers) (object from offset : ℕ) → IsAdvance (λ step. step ≡ pos cells) p r
        → IsPointer p (to object from) → pos offset ≡ pos from +ℤ pos cells
        → let o = offsets_at p object in offset ≤ o.size → IsPointer r (to object offset) }
    ensures grows { (cells : ℕ) (p p' r r' : Pointers) → IsPointers r → IsPointersBelow p p'
        → IsAdvance (λ step. step ≡ pos cells) p r → IsAdvance (λ step. step ≡ pos cells) p' r' → IsPointersBelow r r' }
{}

/// A dereference, over any layout: it holds each pointer at which it finds cells.
pub fn dereferences<L: Layout>()
    ensures holds { (layout : L) (p r : Pointers) (x : Pointer)
        → IsHullOfPointers (IsTarget (L.alive layout) (L.stands layout) p) p r → IsPointer p x
        → Reaches (L.alive layout) (L.stands layout) x → IsPointer r x }
    ensures grows { (layout : L) (p p' r r' : Pointers) → IsPointers r → IsPointersBelow p p'
        → IsHullOfPointers (IsTarget (L.alive layout) (L.stands layout) p) p r
        → IsHullOfPointers (IsTarget (L.alive layout) (L.stands layout) p') p' r' → IsPointersBelow r r' }
    ensures fewer { (layout : L) (p p' : Pointers) → IsPointersBelow p p'
        → ((x : Pointer) → IsPointer p' x → Reaches (L.alive layout) (L.stands layout) x)
        → (x : Pointer) → IsPointer p x → Reaches (L.alive layout) (L.stands layout) x }
{}

/// What may be compared: all pointers but the invalid one.
pub fn compared_pointers()
    ensures holds { (p : Pointers) (x : Pointer) → IsPointer p x → x ≢ invalid → IsPointer (usable_pointers p) x }
    ensures grows { (p p' : Pointers) → IsPointersBelow p p'
        → IsPointersBelow (usable_pointers p) (usable_pointers p') }
{}

/// A comparison: it gives 0 alone where no pointer is in both sets, and 1 alone where both are the same one pointer.
pub fn equalities()
    ensures holds { (equal : Bool) (p q : Pointers) (s : Progression) (x y : Pointer) (v : ℤ)
        → IsExactly (IsEqualityValue equal p q) s → IsPointer p x → IsPointer q y → IsEqualityOf equal x y v → Has s v }
    ensures grows { (equal : Bool) (p q p' q' : Pointers) (s s' : Progression) → IsExactly (IsEqualityValue equal p q) s
        → IsExactly (IsEqualityValue equal p' q') s' → IsPointersBelow p p' → IsPointersBelow q q' → IsSubset s s' }
    ensures apart { (p q : Pointers) (s : Progression) → IsExactly (IsEqualityValue true p q) s → ¬ Meet p q
        → IsSubset s (single (pos 0)) }
    ensures same { (p q : Pointers) (x : Pointer) (s : Progression) → IsExactly (IsEqualityValue true p q) s
        → IsOnly p x
        → IsOnly q x → s ≡ single (pos 1) }
{}
