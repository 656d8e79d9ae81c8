//! What holds of sets of offsets, pointers and values whatever computes them. Each law speaks of the definitions alone,
//! so its function does nothing.
ghost use Rattle.std.specs.Prelude.{◌≡◌, ◌↔◌, ◌⊎◌, ◌≤◌, ℕ, ℤ, List, IsTrue};
ghost use Rattle.strided_dom.specs.Progression.{Progression, empty, Has, IsExactly, IsHull};
ghost use Rattle.strided_dom.specs.Combinations.{IsInEither};
ghost use Rattle.strided_dom.specs.Rounding.{IsInRounding};
ghost use Rattle.tm_lattice.specs.LatticeLaws.{IsOrder, IsJoin, IsClosure, IsLeastNothing};
ghost use Rattle.pointer_dom.specs.Offset.{IsOffset, IsInRoundingWithin};
ghost use Rattle.pointer_dom.specs.Pointer.{Pointer, ScalarValue, to};
ghost use Rattle.pointer_dom.specs.StridedSets.{hull, rounding, rounding_within};
ghost use Rattle.pointer_dom.specs.PointerSets.{Pointers, IsPointers, IsPointer, IsPointersBelow, IsMeet};
ghost use Rattle.pointer_dom.specs.PointerSets.{HaveEqualSizes, offsets_at, no_pointer, joined_pointers};
ghost use Rattle.pointer_dom.specs.PointerSets.{rounded_pointers};
ghost use Rattle.pointer_dom.specs.Values.{Values, IsValues, IsValueIn, IsValuesBelow, IsValuesMeet, no_value};
ghost use Rattle.pointer_dom.specs.Values.{joined_values, rounded_values};

/// The joins and the roundings are what their names say: the hull of a union, and exactly the numbers of a rounding,
/// within an object or not.
pub fn joins_and_roundings_of_numbers()
    ensures hull { (s t : Progression) → IsHull (IsInEither s t) (hull s t) }
    ensures rounding { (marks : List ℤ) (s : Progression) → IsExactly (IsInRounding marks s) (rounding marks s) }
    ensures within { (size : ℕ) (marks : List ℤ) (s : Progression)
        → IsExactly (IsInRoundingWithin size marks s) (rounding_within size marks s) }
{}

/// Sets of pointers are a lattice, and rounding by any marks is a closure.
pub fn pointer_sets_are_a_lattice()
    ensures order { IsOrder IsPointers IsPointersBelow }
    ensures join { IsJoin IsPointers IsPointersBelow joined_pointers }
    ensures closure { IsClosure IsPointers (λ marks. Unit {0}) IsPointersBelow rounded_pointers }
    ensures nothing { IsLeastNothing IsPointers (λ marks. Unit {0}) IsPointersBelow rounded_pointers
        (λ p. p ≡ no_pointer) }
{}

/// The order is inclusion, where no object has two sizes.
pub fn order_of_pointer_sets_is_inclusion()
    ensures included { (p q : Pointers) (v : Pointer) → IsPointersBelow p q → IsPointer p v → IsPointer q v }
    ensures below { (p q : Pointers) → IsPointers p → HaveEqualSizes p q
        → ((v : Pointer) → IsPointer p v → IsPointer q v) → IsPointersBelow p q }
{}

/// The join has the pointers of both sets. A pointer of the meet is one of both, and the other way round.
pub fn join_and_meet_of_pointer_sets()
    ensures join { (p q : Pointers) (v : Pointer) → IsPointers p → IsPointers q → IsPointer p v ⊎ IsPointer q v
        → IsPointer (joined_pointers p q) v }
    ensures meet { (p q met : Pointers) (v : Pointer) → IsMeet p q met
        → (IsPointer met v ↔ (IsPointer p v × IsPointer q v)) }
{}

/// The meet of two sets of pointers is their greatest lower bound, so there is one only.
pub fn meet_is_the_greatest_lower_bound()
    ensures left { (p q met : Pointers) → IsPointers met → IsMeet p q met → IsPointersBelow met p }
    ensures right { (p q met : Pointers) → IsPointers met → IsMeet p q met → IsPointersBelow met q }
    ensures greatest { (p q met below : Pointers) → IsPointers below → IsMeet p q met
        → IsPointersBelow below p → IsPointersBelow below q → IsPointersBelow below met }
    ensures one { (p q met met' : Pointers) → IsPointers met → IsPointers met' → IsMeet p q met → IsMeet p q met'
        → met ≡ met' }
{}

/// Rounding loses no pointer, and leads to none outside of an object: each offset is at most the size.
pub fn pointers_stay_in_their_objects()
    ensures kept { (marks : List ℤ) (p : Pointers) (v : Pointer) → IsPointers p → IsPointer p v
        → IsPointer (rounded_pointers marks p) v }
    ensures within { (p : Pointers) (object offset : ℕ) → IsPointers p → IsPointer p (to object offset)
        → let o = offsets_at p object in offset ≤ o.size }
    ensures rounded { (marks : List ℤ) (p : Pointers) (object offset : ℕ) → IsPointers p
        → IsPointer (rounded_pointers marks p) (to object offset)
        → let o = offsets_at p object in offset ≤ o.size }
{}

/// Values are a lattice, and rounding by any marks is a closure, whatever kinds of values meet.
pub fn values_are_a_lattice()
    ensures order { IsOrder IsValues IsValuesBelow }
    ensures join { IsJoin IsValues IsValuesBelow joined_values }
    ensures closure { IsClosure IsValues (λ marks. Unit {0}) IsValuesBelow rounded_values }
    ensures nothing { IsLeastNothing IsValues (λ marks. Unit {0}) IsValuesBelow rounded_values (λ v. v ≡ no_value) }
{}

/// What the order, the join, the meet and the rounding of values hold.
pub fn meaning_of_values()
    ensures included { (v w : Values) (x : ScalarValue) → IsValuesBelow v w → IsValueIn v x → IsValueIn w x }
    ensures below { (v w : Values) → IsValues v → HaveEqualSizes v.pointers w.pointers
        → ((x : ScalarValue) → IsValueIn v x → IsValueIn w x) → IsValuesBelow v w }
    ensures join { (v w : Values) (x : ScalarValue) → IsValues v → IsValues w → IsValueIn v x ⊎ IsValueIn w x
        → IsValueIn (joined_values v w) x }
    ensures meet { (v w met : Values) (x : ScalarValue) → IsValuesMeet v w met
        → (IsValueIn met x ↔ (IsValueIn v x × IsValueIn w x)) }
    ensures rounding { (marks : List ℤ) (v : Values) (x : ScalarValue) → IsValues v → IsValueIn v x
        → IsValueIn (rounded_values marks v) x }
{}
