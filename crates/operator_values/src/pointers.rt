//! The operators on sets of pointers, and the meet of sets of values. Each law speaks of definitions alone, so its
//! function does nothing. That a set is one in which each pointer leads into its object (`IsPointers`) is what the code
//! knows of every set that it makes.
ghost use Rattle.std.specs.Prelude.{◌≡◌, ℕ, Bool, ℤ, pos};
ghost use Rattle.filters.specs.strided_dom.Progression.{Progression, IsExactly};
ghost use Rattle.filters.specs.strided_dom.Combinations.{IsProduct};
ghost use Rattle.filters.specs.pointer_dom.PointerSets.{Pointers, IsPointers, IsMeet};
ghost use Rattle.filters.specs.pointer_dom.Values.{Values, IsValues, IsValuesMeet};
ghost use Rattle.filters.specs.pointer_dom.Advances.{IsAdvance, IsElementStep, directed};
ghost use Rattle.filters.specs.pointer_dom.Selections.{IsHullOfPointers};
ghost use Rattle.filters.specs.pointer_dom.Equality.{IsEqualityValue};
ghost use Rattle.filters.specs.PointerPartners.{ArePointersAssumed};
ghost use Rattle.operator_values.specs.SetsOfPointers.{common_pointers, offset_by, indexed, moved, IsReachable};
ghost use Rattle.operator_values.specs.SetsOfPointers.{dereferenced, equality, left_pointers, right_pointers};
ghost use Rattle.operator_values.specs.MetValues.{met_values};

/// Pointers that advance: to a part, to elements of an array, and by numbers of elements.
pub fn advanced_pointers()
    ensures parts { (cells : ℕ) (p : Pointers) → IsPointers (offset_by cells p)
        × IsAdvance (λ step. step ≡ pos cells) p (offset_by cells p) }
    ensures one_part { (cells : ℕ) (p r : Pointers) → IsPointers p → IsPointers r
        → IsAdvance (λ step. step ≡ pos cells) p r → r ≡ offset_by cells p }
    ensures elements { (n cells : ℕ) (s : Progression) (p : Pointers) → IsPointers (indexed n cells s p)
        × IsAdvance (IsElementStep n cells s) p (indexed n cells s p) }
    ensures one_element { (n cells : ℕ) (s : Progression) (p r : Pointers) → IsPointers p → IsPointers r
        → IsAdvance (IsElementStep n cells s) p r → r ≡ indexed n cells s p }
    ensures moves { (forward : Bool) (cells : ℕ) (counts : Progression) (p : Pointers)
        → IsPointers (moved forward cells counts p)
        × IsAdvance (IsProduct counts (directed forward cells)) p (moved forward cells counts p) }
    ensures one_move { (forward : Bool) (cells : ℕ) (counts : Progression) (p r : Pointers) → IsPointers p
        → IsPointers r → IsAdvance (IsProduct counts (directed forward cells)) p r → r ≡ moved forward cells counts p }
{}

/// What a dereference reaches, by tests of which objects are alive and at which offsets the cells of its type stand.
pub fn reached_pointers()
    ensures is { (alive : ℕ → Bool) (stands : ℕ → ℕ → Bool) (p : Pointers)
        → IsHullOfPointers (IsReachable alive stands p) p (dereferenced alive stands p) }
    ensures fits { (alive : ℕ → Bool) (stands : ℕ → ℕ → Bool) (p : Pointers) → IsPointers p
        → IsPointers (dereferenced alive stands p) }
    ensures one { (alive : ℕ → Bool) (stands : ℕ → ℕ → Bool) (p r : Pointers) → IsPointers p → IsPointers r
        → IsHullOfPointers (IsReachable alive stands p) p r → r ≡ dereferenced alive stands p }
{}

/// The value of a comparison of pointers, and what is left of both sets where it is known to hold.
pub fn compared_pointers()
    ensures value { (equal : Bool) (p q : Pointers) → IsExactly (IsEqualityValue equal p q) (equality equal p q) }
    ensures one_value { (equal : Bool) (p q : Pointers) (s : Progression) → IsExactly (IsEqualityValue equal p q) s
        → s ≡ equality equal p q }
    ensures left { (equal : Bool) (p q : Pointers)
        → ArePointersAssumed equal p q (left_pointers equal p q) (right_pointers equal p q) }
    ensures fits { (equal : Bool) (p q : Pointers) → IsPointers p → IsPointers q
        → IsPointers (left_pointers equal p q) × IsPointers (right_pointers equal p q) }
    ensures one_left { (equal : Bool) (p q left right : Pointers) → IsPointers p → IsPointers q → IsPointers left
        → IsPointers right → ArePointersAssumed equal p q left right
        → (left ≡ left_pointers equal p q) × (right ≡ right_pointers equal p q) }
{}

/// What two sets have in common.
pub fn common_values()
    ensures pointers { (p q : Pointers) → IsMeet p q (common_pointers p q) }
    ensures pointers_fit { (p q : Pointers) → IsPointers p → IsPointers q → IsPointers (common_pointers p q) }
    ensures one_pointers { (p q met : Pointers) → IsPointers p → IsPointers q → IsPointers met → IsMeet p q met
        → met ≡ common_pointers p q }
    ensures values { (v w : Values) → IsValuesMeet v w (met_values v w) }
    ensures values_fit { (v w : Values) → IsValues v → IsValues w → IsValues (met_values v w) }
    ensures one_values { (v w met : Values) → IsValues v → IsValues w → IsValues met → IsValuesMeet v w met
        → met ≡ met_values v w }
{}
