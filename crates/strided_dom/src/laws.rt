//! What holds of strided sets whatever computes them. Each law speaks of the definitions alone, so its function does
//! nothing.

ghost use Rattle.std.specs.Prelude.{◌≡◌, ◌↔◌, List, ℤ};
ghost use Rattle.strided_dom.specs.Progression.{Progression, Has, IsSubset, IsExactly, IsHull};
ghost use Rattle.strided_dom.specs.Combinations.{IsInEither, IsInBoth, IsAnother, IsSum, IsProduct};
ghost use Rattle.strided_dom.specs.Rounding.{IsInRounding};

/// Inclusion is an order, and sets with the same members are equal.
pub fn inclusion_is_an_order()
    ensures reflexive { (s : Progression) → IsSubset s s }
    ensures transitive { (s t u : Progression) → IsSubset s t → IsSubset t u → IsSubset s u }
    ensures antisymmetric { (s t : Progression) → IsSubset s t → IsSubset t s → s ≡ t }
    ensures extensional { (s t : Progression) → ((v : ℤ) → Has s v ↔ Has t v) → s ≡ t }
{}

/// The hull of a union is the least upper bound.
pub fn hull_is_the_least_upper_bound()
    ensures left { (s t hull : Progression) → IsHull (IsInEither s t) hull → IsSubset s hull }
    ensures right { (s t hull : Progression) → IsHull (IsInEither s t) hull → IsSubset t hull }
    ensures least { (s t hull u : Progression) → IsHull (IsInEither s t) hull → IsSubset s u
        → IsSubset t u → IsSubset hull u }
{}

/// The intersection is the greatest lower bound.
pub fn meet_is_the_greatest_lower_bound()
    ensures left { (s t meet : Progression) → IsExactly (IsInBoth s t) meet → IsSubset meet s }
    ensures right { (s t meet : Progression) → IsExactly (IsInBoth s t) meet → IsSubset meet t }
    ensures greatest { (s t meet u : Progression) → IsExactly (IsInBoth s t) meet → IsSubset u s
        → IsSubset u t → IsSubset u meet }
{}

/// Greater sets give greater hulls, intersections, sums and products, and greater sets without one number.
pub fn operations_are_monotone()
    ensures hull { (s t s' t' h h' : Progression) → IsSubset s s' → IsSubset t t'
        → IsHull (IsInEither s t) h → IsHull (IsInEither s' t') h' → IsSubset h h' }
    ensures meet { (s t s' t' m m' : Progression) → IsSubset s s' → IsSubset t t'
        → IsExactly (IsInBoth s t) m → IsExactly (IsInBoth s' t') m' → IsSubset m m' }
    ensures without { (s s' r r' : Progression) (w : ℤ) → IsSubset s s'
        → IsHull (IsAnother s w) r → IsHull (IsAnother s' w) r' → IsSubset r r' }
    ensures sum { (s t s' t' r r' : Progression) → IsSubset s s' → IsSubset t t'
        → IsHull (IsSum s t) r → IsHull (IsSum s' t') r' → IsSubset r r' }
    ensures times { (s s' r r' : Progression) (n : ℤ) → IsSubset s s'
        → IsExactly (IsProduct s n) r → IsExactly (IsProduct s' n) r' → IsSubset r r' }
{}

/// Rounding onto any marks is a closure: it loses no number, is monotone, and rounds a rounded set to itself.
pub fn rounding_is_a_closure()
    ensures extensive { (marks : List ℤ) (s r : Progression) → IsExactly (IsInRounding marks s) r
        → IsSubset s r }
    ensures monotone { (marks : List ℤ) (s t r u : Progression) → IsSubset s t
        → IsExactly (IsInRounding marks s) r → IsExactly (IsInRounding marks t) u → IsSubset r u }
    ensures idempotent { (marks : List ℤ) (s r u : Progression) → IsExactly (IsInRounding marks s) r
        → IsExactly (IsInRounding marks r) u → u ≡ r }
{}
