//! What the walk looks up.
ghost use Rattle.std.specs.Prelude.{◌≡◌, is_some, MatchOption};
ghost use Rattle.tm_typed.specs.TypedTrees.{rvalue_tree};
ghost use Rattle.tm_typed.specs.Files.{no_typed_function};
ghost use Rattle.tm_typed.specs.TypedFiles.{typed_function_tree};
ghost use Rattle.tm_laid.specs.Layouts.{laid_tree};
ghost use Rattle.body_builder.specs.concrete_steps.NextAction.{function_at};
ghost use Rattle.body_builder.specs.lowering.Table.{conversion, implied};

use body_builder::{conversion, function_on, implied};
use tm_cint::IntType;
use tm_laid::Laid;
use tm_terms::Place;
use tm_typed::{Rvalue, TypedFunction};

/// The place of what no expression gave.
pub(crate) const NOWHERE: Place = Place { line: 0, col: 0 };

/// Whether a conversion makes an operation: the type has not all values of the one before.
pub(crate) fn is_conversion(from: IntType, to: IntType) -> bool
    ensures { result ≡ is_some (conversion from to) }
{
    conversion(from, to).is_some()
}

/// Whether an operand is converted once all operands are evaluated: its conversion stands at its own place, and makes
/// an operation.
pub(crate) fn is_implied(value: &Rvalue) -> bool
    ensures { result ≡ is_some (implied (rvalue_tree value.now)) }
{
    implied(value).is_some()
}

/// The function of a path.
#[tactic(auto, using(body_builder::proofs::FileTables::reads), unfolding(body_builder::specs::Fragments::tree_in))]
pub(crate) fn function_at(laid: &Laid, path: u32) -> Option<&TypedFunction>
    ensures { MatchOption result (function_at (laid_tree laid.now) path ≡ no_typed_function)
        (λ f. function_at (laid_tree laid.now) path ≡ typed_function_tree f.now) }
{
    laid.file.functions.get(function_on(laid, path) as usize)
}
