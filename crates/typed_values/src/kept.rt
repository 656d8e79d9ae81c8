//! Values that keep their types. Each law speaks of definitions alone, so its function does nothing.
ghost use Rattle.std.specs.Prelude.{List, ℤ};
ghost use Rattle.tm_typed.specs.declared.types.Scalar.{Scalar};
ghost use Rattle.tm_laid.specs.Layouts.{LaidTree};
ghost use Rattle.operator_values.specs.pointer_dom.Values.{Values, IsValues, IsValuesBelow, no_value, joined_values};
ghost use Rattle.operator_values.specs.pointer_dom.Values.{rounded_values};
ghost use Rattle.operator_values.specs.MetValues.{met_values};
ghost use Rattle.typed_values.specs.Types.{AreObjects, IsOfType, HaveSameValues, HaveEnds};

use tm_typed::Scalar;

/// Nothing is of every type. Two values of a type are so joined; one is so rounded onto thresholds with the ends of the
/// types, met with any value with objects of the program, and where it is less.
pub fn values_keep_their_types()
    ensures none { (laid : LaidTree) (scalar : Scalar) → IsOfType laid scalar no_value }
    ensures same { (laid : LaidTree) (s u : Scalar) (v : Values) → HaveSameValues s u → IsOfType laid s v
        → IsOfType laid u v }
    ensures joined { (laid : LaidTree) (scalar : Scalar) (v w : Values) → IsOfType laid scalar v
        → IsOfType laid scalar w → IsOfType laid scalar (joined_values v w) }
    ensures rounded { (laid : LaidTree) (marks : List ℤ) (scalar : Scalar) (v : Values) → HaveEnds marks
        → IsOfType laid scalar v → IsOfType laid scalar (rounded_values marks v) }
    ensures met { (laid : LaidTree) (scalar : Scalar) (v w : Values) → IsOfType laid scalar v → IsValues w
        → AreObjects laid w.pointers → IsOfType laid scalar (met_values v w) }
    ensures less { (laid : LaidTree) (scalar : Scalar) (v w : Values) → IsOfType laid scalar w → IsValues v
        → AreObjects laid v.pointers → IsValuesBelow v w → IsOfType laid scalar v }
{}
