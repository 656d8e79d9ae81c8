//! The types of what operators give. Each law speaks of definitions alone, so its function does nothing.
ghost use Rattle.std.specs.Prelude.{ℕ, Bool};
ghost use Rattle.operator_values.specs.strided_dom.Progression.{Progression};
ghost use Rattle.tm_cint.specs.Operators.{result_type};
ghost use Rattle.tm_cint.specs.declared.int_types.IntType.{IntType};
ghost use Rattle.tm_cint.specs.declared.operators.BinOp.{BinOp};
ghost use Rattle.tm_laid.specs.Layouts.{LaidTree};
ghost use Rattle.operator_values.specs.transfer_int.Operands.{AreValues};
ghost use Rattle.operator_values.specs.pointer_dom.PointerSets.{Pointers, IsPointers};
ghost use Rattle.operator_values.specs.Integers.{operated, converted};
ghost use Rattle.operator_values.specs.SetsOfPointers.{offset_by, indexed, moved, dereferenced, equality};
ghost use Rattle.operator_values.specs.SetsOfPointers.{left_pointers, right_pointers};
ghost use Rattle.typed_values.specs.Types.{AreObjects};

use tm_cint::{BinOp, IntType};

/// Whatever the operands are, an operator gives numbers of the type of its result, a conversion numbers of its type,
/// and a comparison of pointers an `int`.
pub fn numbers_are_of_types()
    ensures operators { (op : BinOp) (t : IntType) (a b : Progression)
        → AreValues (result_type op t) (operated op t a b) }
    ensures conversions { (t : IntType) (a : Progression) → AreValues t (converted t a) }
    ensures comparisons { (equal : Bool) (p q : Pointers) → AreValues IntType.Int (equality equal p q) }
{}

/// Pointers that advance, that may be dereferenced or that are left in a comparison lead to the objects to which they
/// led, with the same sizes.
pub fn pointers_keep_their_objects()
    ensures parts { (laid : LaidTree) (cells : ℕ) (p : Pointers) → AreObjects laid p
        → AreObjects laid (offset_by cells p) }
    ensures elements { (laid : LaidTree) (n cells : ℕ) (s : Progression) (p : Pointers) → AreObjects laid p
        → AreObjects laid (indexed n cells s p) }
    ensures moves { (laid : LaidTree) (forward : Bool) (cells : ℕ) (s : Progression) (p : Pointers) → AreObjects laid p
        → AreObjects laid (moved forward cells s p) }
    ensures dereferences { (laid : LaidTree) (alive : ℕ → Bool) (stands : ℕ → ℕ → Bool) (p : Pointers) → IsPointers p
        → AreObjects laid p → AreObjects laid (dereferenced alive stands p) }
    ensures left { (laid : LaidTree) (equal : Bool) (p q : Pointers) → IsPointers p → IsPointers q
        → AreObjects laid p → AreObjects laid q → AreObjects laid (left_pointers equal p q) }
    ensures right { (laid : LaidTree) (equal : Bool) (p q : Pointers) → IsPointers p → IsPointers q
        → AreObjects laid p → AreObjects laid q → AreObjects laid (right_pointers equal p q) }
{}
