//! What the form of an expression tells.
ghost use Rattle.std.specs.Prelude.{◌≡◌, option_map, option_copied};
ghost use Rattle.tm_typed.specs.TypedTrees.{rvalue_tree};
ghost use Rattle.tm_typed.specs.TypeRows.{is_pointer_type};
ghost use Rattle.tm_laid.specs.Layouts.{laid_tree};
ghost use Rattle.concrete_steps.specs.Places.{gives_pointer, rvalue_place};
ghost use Rattle.task_interpreter.specs.reading.Direct.{tried};
ghost use Rattle.task_interpreter.specs.reading.Lists.{form_in};

use crate::answers::{Gave, calculated};
use crate::objects::result_of;
use concrete_values::{Answer, Next, Value, usable};
use tm_laid::Laid;
use tm_terms::Place;
use tm_typed::{CType, Rvalue, is_pointer_scalar};

fn is_pointer_type(of: CType) -> bool
    ensures { result ≡ is_pointer_type of }
{
    match of {
        CType::Pointer(_) => true,
        _ => false,
    }
}

// Whether the value of an expression is a pointer.
fn gives_pointer(laid: &Laid, e: &Rvalue) -> bool
    ensures { result ≡ gives_pointer (laid_tree laid.now) (rvalue_tree e.now) }
{
    match e {
        Rvalue::Folded { form, .. } => gives_pointer(laid, form),
        Rvalue::Null { .. } => true,
        Rvalue::Load { scalar, .. } => is_pointer_scalar(*scalar),
        Rvalue::Address { .. } => true,
        Rvalue::Same { value, .. } => gives_pointer(laid, value),
        Rvalue::Move { .. } => true,
        Rvalue::Conditional { first, .. } => gives_pointer(laid, first),
        Rvalue::Assign { scalar, .. } => is_pointer_scalar(*scalar),
        Rvalue::CompoundMove { .. } => true,
        Rvalue::StepMove { .. } => true,
        Rvalue::Call { function, .. } => is_pointer_type(result_of(laid, *function)),
        Rvalue::Comma { right, .. } => gives_pointer(laid, right),
        _ => false,
    }
}

// The place of an expression: that of its operator, or of the name or constant.
fn place_of(e: &Rvalue) -> Place
    ensures { result ≡ rvalue_place (rvalue_tree e.now) }
{
    match e {
        Rvalue::Folded { form, .. } => place_of(form),
        Rvalue::Load { lvalue, .. } => lvalue.place(),
        Rvalue::Structure { lvalue } => lvalue.place(),
        Rvalue::Constant { place, .. } => *place,
        Rvalue::Null { place } => *place,
        Rvalue::Address { place, .. } => *place,
        Rvalue::Same { place, .. } => *place,
        Rvalue::Unary { place, .. } => *place,
        Rvalue::Binary { place, .. } => *place,
        Rvalue::Pointers { place, .. } => *place,
        Rvalue::Move { place, .. } => *place,
        Rvalue::Not { place, .. } => *place,
        Rvalue::And { place, .. } => *place,
        Rvalue::Or { place, .. } => *place,
        Rvalue::Conditional { place, .. } => *place,
        Rvalue::Assign { place, .. } => *place,
        Rvalue::Compound { place, .. } => *place,
        Rvalue::CompoundMove { place, .. } => *place,
        Rvalue::Step { place, .. } => *place,
        Rvalue::StepMove { place, .. } => *place,
        Rvalue::Call { place, .. } => *place,
        Rvalue::Input { place, .. } => *place,
        Rvalue::Probe { place, .. } => *place,
        Rvalue::Comma { place, .. } => *place,
        Rvalue::Convert { place, .. } => *place,
        Rvalue::Discard { place, .. } => *place,
    }
}

/// The form of an expression that is folded.
pub(crate) fn form_of(e: &Rvalue) -> Option<&Rvalue>
    ensures { option_map rvalue_tree (option_copied result) ≡ form_in (rvalue_tree e.now) }
{
    match e {
        Rvalue::Folded { form, .. } => Some(form),
        _ => None,
    }
}

/// The value of a condition: a pointer that is tested must be usable.
#[tactic(auto, unfolding(crate::specs::reading::Direct::tried))]
pub(crate) fn tried(
    laid: &Laid,
    answers: &[Answer],
    e: &Rvalue,
    value: Value,
    at: usize,
) -> Result<Gave, Next>
    ensures { result ≡ tried (laid_tree laid.now) answers.now (rvalue_tree e.now) value at }
{
    if gives_pointer(laid, e) {
        calculated(answers, usable(value), place_of(e), at)
    } else {
        Ok(Gave { value, at })
    }
}
