//! What the operators promise, each as the contract of a function that does nothing, over the definitions alone.
ghost use Rattle.std.specs.Prelude.{◌≡◌, ◌↔◌, ◌<◌, ◌-◌, ◌-ℤ◌, ℕ, ℤ, Ok, Err};
ghost use Rattle.std.specs.Int.{bit_at};
ghost use Rattle.strided_dom.specs.Progression.{Progression, single, Has, IsSubset, IsExactly};
ghost use Rattle.tm_cint.specs.IntTypes.{IsIn, width_of};
ghost use Rattle.tm_cint.specs.Conversions.{converted_value, residue};
ghost use Rattle.tm_cint.specs.Operators.{outcome, IsRightOperand};
ghost use Rattle.tm_cint.specs.declared.Class.{Class};
ghost use Rattle.tm_cint.specs.declared.int_types.IntType.{IntType};
ghost use Rattle.tm_cint.specs.declared.operators.BinOp.{BinOp};
ghost use Rattle.transfer_int.specs.Rows.{InRows};
ghost use Rattle.transfer_int.specs.Values.{IsValue, MayFail, IsConverted, IsWrapped, ones_of};
ghost use Rattle.transfer_int.specs.Wrappings.{IsWrappedSet};

use tm_cint::{BinOp, Class, IntType};

/// Every result of an operator on members is in its value (`holds`), and every class of errors that it gives on members
/// is not excluded (`classes`); smaller operands have a smaller value (`grows`) and fewer classes (`fewer`).
pub fn operators()
    ensures holds { (op : BinOp) (t : IntType) (a b : Progression) (x y r : ℤ)
        → IsIn t x → IsRightOperand op t y → Has a x → Has b y → outcome op t x y ≡ Ok r
        → IsValue op t a b r }
    ensures classes { (op : BinOp) (t : IntType) (a b : Progression) (x y : ℤ) (class : Class)
        → IsIn t x → IsRightOperand op t y → Has a x → Has b y → outcome op t x y ≡ Err class
        → MayFail op t a b class }
    ensures grows { (op : BinOp) (t : IntType) (a b c d : Progression) (v : ℤ)
        → IsSubset a c → IsSubset b d → IsValue op t a b v → IsValue op t c d v }
    ensures fewer { (op : BinOp) (t : IntType) (a b c d : Progression) (class : Class)
        → IsSubset a c → IsSubset b d → MayFail op t a b class → MayFail op t c d class }
{}

/// Conversions hold every converted member, and smaller sets have smaller conversions.
pub fn conversions()
    ensures holds { (t : IntType) (a : Progression) (x : ℤ) → Has a x
        → IsConverted t a (converted_value x t) }
    ensures grows { (t : IntType) (a c : Progression) (v : ℤ) → IsSubset a c
        → IsConverted t a v → IsConverted t c v }
{}

/// The wrapping of a strided set, and of rows that have exactly its numbers, is the table's: the set moved by turns of
/// 2^width where all of it then lies in the type, else the values of the type that are congruent to its members modulo
/// the greatest common divisor of its stride and 2^width.
pub fn wrappings()
    ensures sets { (t : IntType) (r : Progression) (v : ℤ) → IsWrapped t (Has r) v ↔ IsWrappedSet t r v }
    ensures rows { (op : BinOp) (t : IntType) (a b r : Progression) (v : ℤ) → IsExactly (InRows op t a b) r
        → (IsWrapped t (InRows op t a b) v ↔ IsWrappedSet t r v) }
{}

/// `~x` of a value of the type is one too, has at each place the other bit than `x` (C99 6.5.3.3), and is in the value
/// that `invert` gives.
pub fn complements()
    ensures in_type { (t : IntType) (x : ℤ) → IsIn t x → IsIn t (ones_of t -ℤ x) }
    ensures bits { (t : IntType) (x : ℤ) (i : ℕ) → IsIn t x → i < width_of t
        → bit_at (residue (width_of t) (ones_of t -ℤ x)) i ≡ 1 - bit_at (residue (width_of t) x) i }
    ensures holds { (t : IntType) (a : Progression) (x : ℤ) → IsIn t x → Has a x
        → IsValue BinOp.Sub t (single (ones_of t)) a (ones_of t -ℤ x) }
{}
