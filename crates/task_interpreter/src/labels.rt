//! Labels of a `switch`, and parts that may be left out.
ghost use Rattle.std.specs.Prelude.{◌≡◌, option_map, option_copied};
ghost use Rattle.tm_typed.specs.TypedTrees.{rvalue_tree};
ghost use Rattle.tm_typed.specs.TypedStatements.{optional_rvalue_tree, as_typed_cases, typed_case};
ghost use Rattle.task_interpreter.specs.reading.Lists.{is_wanted, is_default, case_rest, default_rest};

use concrete_values::{Value, is_case};
use tm_typed::{Rvalue, TypedSwitchPart};

/// An expression that may be left out.
pub(crate) fn borrowed(e: &Option<Box<Rvalue>>) -> Option<&Rvalue>
    ensures { option_map rvalue_tree (option_copied result) ≡ optional_rvalue_tree e.now }
{
    match e {
        Some(e) => Some(e),
        None => None,
    }
}

// Whether a part is a label that is the value.
fn is_wanted(part: &TypedSwitchPart, value: Value) -> bool
    ensures { result ≡ is_wanted (typed_case part.now) value }
{
    match part {
        TypedSwitchPart::Case { label, .. } => is_case(*label, value),
        TypedSwitchPart::Default { .. } => false,
        TypedSwitchPart::Statement(_) => false,
    }
}

fn is_default(part: &TypedSwitchPart) -> bool
    ensures { result ≡ is_default (typed_case part.now) }
{
    match part {
        TypedSwitchPart::Case { .. } => false,
        TypedSwitchPart::Default { .. } => true,
        TypedSwitchPart::Statement(_) => false,
    }
}

// The parts behind the label `default`, none where there is no such label.
#[tactic(auto, using(crate::proofs::Cases::default_here, crate::proofs::Cases::default_later))]
fn default_parts(parts: &[TypedSwitchPart]) -> &[TypedSwitchPart]
    ensures { as_typed_cases result.now ≡ default_rest (as_typed_cases parts.now) }
{
    for (index, part) in parts.iter().enumerate() {
        if is_default(part) {
            return &parts[index + 1..];
        }
    }
    &[]
}

/// The parts from the first label on that is the value, or else those behind the label `default`.
#[tactic(auto, using(crate::proofs::Cases::case_here, crate::proofs::Cases::case_later))]
pub(crate) fn start(parts: &[TypedSwitchPart], value: Value) -> &[TypedSwitchPart]
    ensures { as_typed_cases result.now
        ≡ case_rest value (as_typed_cases parts.now) (default_rest (as_typed_cases parts.now)) }
{
    for (index, part) in parts.iter().enumerate() {
        if is_wanted(part, value) {
            return &parts[index + 1..];
        }
    }
    default_parts(parts)
}
