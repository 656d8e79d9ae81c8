//! The classes of errors. Each law speaks of definitions alone, so its function does nothing.
ghost use Rattle.std.specs.Prelude.{◌≡◌, ◌↔◌, ℕ, Bool, false, IsTrue};
ghost use Rattle.filters.specs.strided_dom.Progression.{Progression};
ghost use Rattle.filters.specs.strided_dom.Combinations.{IsProduct};
ghost use Rattle.tm_cint.specs.declared.Class.{Class};
ghost use Rattle.tm_cint.specs.declared.int_types.IntType.{IntType};
ghost use Rattle.tm_cint.specs.declared.operators.BinOp.{BinOp};
ghost use Rattle.transfer_int.specs.Values.{MayFail};
ghost use Rattle.filters.specs.pointer_dom.Pointer.{Pointer};
ghost use Rattle.filters.specs.pointer_dom.PointerSets.{Pointers, IsPointer};
ghost use Rattle.filters.specs.pointer_dom.Advances.{IsSafeAdvance, AreSubscripts, directed};
ghost use Rattle.operator_values.specs.Classes.{may_fail, index_fails, move_fails, dereference_fails, CanBeRead};

use tm_cint::{BinOp, Class, IntType};

/// The classes of an operator on integers that are not excluded.
pub fn integer_classes()
    ensures { (op : BinOp) (t : IntType) (a b : Progression) (class : Class)
        → IsTrue (may_fail op t a b class) ↔ MayFail op t a b class }
{}

/// The classes of subscripts, moves and dereferences: each test is false exactly where the class is excluded.
pub fn pointer_classes()
    ensures subscripts { (n : ℕ) (s : Progression) → (index_fails n s ≡ false) ↔ AreSubscripts n s }
    ensures moves { (forward : Bool) (cells : ℕ) (counts : Progression) (p : Pointers)
        → (move_fails forward cells counts p ≡ false) ↔ IsSafeAdvance (IsProduct counts (directed forward cells)) p }
    ensures dereferences { (alive : ℕ → Bool) (stands : ℕ → ℕ → Bool) (p : Pointers)
        → (dereference_fails alive stands p ≡ false) ↔ ((x : Pointer) → IsPointer p x → CanBeRead alive stands x) }
{}
