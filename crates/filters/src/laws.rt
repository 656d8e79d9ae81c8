//! What the filters promise, each as the contract of a function that does nothing, over the definitions alone.
ghost use Rattle.std.specs.Prelude.{◌≡◌, ◌≢◌, ◌↔◌, ℤ, Bool, true, false, pos, Ok};
ghost use Rattle.strided_dom.specs.Progression.{Progression, empty, Has, IsSubset};
ghost use Rattle.tm_cint.specs.Operators.{outcome, IsComparison};
ghost use Rattle.tm_cint.specs.declared.int_types.IntType.{IntType};
ghost use Rattle.tm_cint.specs.declared.operators.BinOp.{BinOp};
ghost use Rattle.pointer_dom.specs.Pointer.{Pointer, invalid};
ghost use Rattle.pointer_dom.specs.PointerSets.{Pointers, IsPointers, IsPointer, IsPointersBelow, IsMeet, no_pointer};
ghost use Rattle.pointer_dom.specs.Selections.{IsHullOfPointers, IsOtherPointer};
ghost use Rattle.pointer_dom.specs.Equality.{IsEqualityOf, IsOnly, HasNoneOrTwo};
ghost use Rattle.filters.specs.Partners.{Compares, IsAssumed};
ghost use Rattle.filters.specs.PointerPartners.{ArePointersAssumed};

use tm_cint::{BinOp, IntType};

/// A comparison holds exactly where its operator gives 1, in every type (C99 6.5.8, 6.5.9).
pub fn comparisons_are_the_operators()
    ensures { (op : BinOp) (t : IntType) (x y : ℤ) → IsComparison op
        → (outcome op t x y ≡ Ok (pos 1)) ↔ Compares op x y }
{}

/// What is left of strided sets: no pair of members for which the operator gives 1 is lost (`holds`), smaller operands
/// leave less (`grows`), nothing is added to an operand (`within`), both sides become empty where one operand is, and
/// there is one answer (`one`).
pub fn strided_sets()
    ensures holds { (op : BinOp) (t : IntType) (a b left right : Progression) (x y : ℤ) → IsComparison op
        → IsAssumed op a b left right → Has a x → Has b y → outcome op t x y ≡ Ok (pos 1)
        → Has left x × Has right y }
    ensures grows { (op : BinOp) (a b left right a' b' left' right' : Progression)
        → IsAssumed op a b left right → IsAssumed op a' b' left' right' → IsSubset a a' → IsSubset b b'
        → IsSubset left left' × IsSubset right right' }
    ensures within { (op : BinOp) (a b left right : Progression) → IsAssumed op a b left right
        → IsSubset left a × IsSubset right b }
    ensures empty_left { (op : BinOp) (b left right : Progression) → IsAssumed op empty b left right
        → (left ≡ empty) × (right ≡ empty) }
    ensures empty_right { (op : BinOp) (a left right : Progression) → IsAssumed op a empty left right
        → (left ≡ empty) × (right ≡ empty) }
    ensures one { (op : BinOp) (a b left right left' right' : Progression)
        → IsAssumed op a b left right → IsAssumed op a b left' right'
        → (left ≡ left') × (right ≡ right') }
{}

/// The same for sets of pointers: no pair for which the comparison gives 1 is lost.
pub fn pointer_sets()
    ensures holds { (equal : Bool) (p q left right : Pointers) (x y : Pointer) → ArePointersAssumed equal p q left right
        → IsPointer p x → IsPointer q y → IsEqualityOf equal x y (pos 1) → IsPointer left x × IsPointer right y }
    ensures grows { (equal : Bool) (p q left right p' q' left' right' : Pointers) → IsPointers left → IsPointers right
        → ArePointersAssumed equal p q left right → ArePointersAssumed equal p' q' left' right'
        → IsPointersBelow p p' → IsPointersBelow q q' → IsPointersBelow left left' × IsPointersBelow right right' }
    ensures within { (equal : Bool) (p q left right : Pointers) → IsPointers p → IsPointers q → IsPointers left
        → IsPointers right → ArePointersAssumed equal p q left right
        → IsPointersBelow left p × IsPointersBelow right q }
    ensures empty_left { (equal : Bool) (q left right : Pointers) → IsPointers left → IsPointers right
        → ArePointersAssumed equal no_pointer q left right → (left ≡ no_pointer) × (right ≡ no_pointer) }
    ensures empty_right { (equal : Bool) (p left right : Pointers) → IsPointers left → IsPointers right
        → ArePointersAssumed equal p no_pointer left right → (left ≡ no_pointer) × (right ≡ no_pointer) }
{}

/// What `!=` leaves of the one side, by the other: where that is one pointer, and not the invalid one, all but it.
/// Where it is the invalid one, or there are two, the side stays.
pub fn unequal_pointers_by_the_other_side()
    ensures one { (p q left right : Pointers) (x : Pointer) → ArePointersAssumed false p q left right → IsOnly q x
        → x ≢ invalid → IsHullOfPointers (IsOtherPointer p x) p left }
    ensures invalid { (p q left right : Pointers) → IsPointers p → IsPointers left
        → ArePointersAssumed false p q left right → IsOnly q invalid → left ≡ p }
    ensures two { (p q left right : Pointers) → IsPointers p → IsPointers left
        → ArePointersAssumed false p q left right → HasNoneOrTwo q → q ≢ no_pointer → left ≡ p }
{}
