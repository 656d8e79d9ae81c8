//! Enumerations (C99 6.7.2.2).
ghost use Rattle.std.specs.Prelude.{◌≡◌, length, map, pos, OnOk};
ghost use Rattle.tm_terms.specs.ExprTrees.{tree_of};
ghost use Rattle.tm_trees.specs.DeclarationTrees.{enumerator_tree};
ghost use Rattle.tm_typed.specs.Refusals.{row};
ghost use Rattle.tm_typed.specs.Structures.{is_declared_here, with_enumerator, value_named, enumerator_rules};
ghost use Rattle.tm_typed.specs.Structures.{enumerators, enumeration_tag, with_enumeration, enumeration};
ghost use Rattle.tm_typed.specs.Structures.{enumeration_said};
ghost use Rattle.tm_typed.specs.States.{in_scope};
ghost use Rattle.c_typing_state.specs.Steps.{StepsTo, MovesTo};

use c_type_names::{plain, refusal, said_type};
use c_typing_state::{State, folded_value, is_declared_here};
use std::alloc::Global;
use tm_lattice::NoMemory;
use tm_terms::{Expr, Fail, Kind};
use tm_trees::{Enumerator, Tag};
use tm_typed::{Named, Said, enumeration_number};

// A value of `int`.
fn int_named(value: Option<i128>) -> Option<i32>
    ensures { result ≡ value_named value }
{
    match value {
        Some(value) => {
            if -2147483648 <= value && value <= 2147483647 {
                Some(value as i32)
            } else {
                None
            }
        }
        None => None,
    }
}

// A constant without a value of its own.
fn counted_enumerator(state: &mut State, next: i64, enumerator: &Enumerator) -> Result<i32, Fail>
    ensures { StepsTo (λ z. z) state.new result (enumerator_rules state.old next
        (enumerator_tree enumerator.now) None) }
{
    if is_declared_here(state, enumerator.name) {
        return Err(refusal(Kind::Redeclared, enumerator.place));
    }
    match int_named(Some(i128::from(next))) {
        Some(value) => {
            state.add_name(enumerator.name, Named::Enumerator(i128::from(value)))?;
            Ok(value)
        }
        None => Err(refusal(Kind::NotConstant, enumerator.place)),
    }
}

// A constant with this value.
fn declared_enumerator(state: &mut State, enumerator: &Enumerator, value: i32) -> Result<i32, Fail>
    ensures { StepsTo (λ z. z) state.new result (row (is_declared_here state.old enumerator.now.name) Kind.Redeclared
        enumerator.now.place (Ok (value, with_enumerator state.old enumerator.now.name value))) }
{
    if is_declared_here(state, enumerator.name) {
        return Err(refusal(Kind::Redeclared, enumerator.place));
    }
    state.add_name(enumerator.name, Named::Enumerator(i128::from(value)))?;
    Ok(value)
}

// A constant with the value of an expression, whatever that before it is.
#[tactic(auto, using(c_typing_state::proofs::Frames::passes, c_typing_state::proofs::Frames::goes_on))]
fn valued_enumerator(
    alloc: Global,
    state: &mut State,
    enumerator: &Enumerator,
    expr: &Expr,
) -> Result<i32, Fail>
    ensures { StepsTo (λ z. z) state.new result (enumerator_rules state.old (pos 0) (enumerator_tree enumerator.now)
        (Some (tree_of expr.now))) }
{
    match state.measured(alloc, expr) {
        Ok(operand) => match int_named(folded_value(&operand)) {
            Some(value) => declared_enumerator(state, enumerator, value),
            None => Err(refusal(Kind::NotConstant, expr.place())),
        },
        Err(fail) => Err(fail),
    }
}

// A constant, where `next` is one more than that before it.
fn enumerator_in(
    alloc: Global,
    state: &mut State,
    next: i64,
    enumerator: &Enumerator,
) -> Result<i32, Fail>
    ensures { StepsTo (λ z. z) state.new result (enumerator_rules state.old next (enumerator_tree enumerator.now)
        (enumerator_tree enumerator.now).value) }
{
    match &enumerator.value {
        Some(expr) => valued_enumerator(alloc, state, enumerator, expr),
        None => counted_enumerator(state, next, enumerator),
    }
}

// Constants from 0 on.
#[tactic(auto, using(c_typing_state::proofs::Frames::passes, c_typing_state::proofs::Frames::goes_on))]
fn enumerators_in(alloc: Global, state: &mut State, listed: &[Enumerator]) -> Result<(), Fail>
    ensures { MovesTo state.new result (enumerators state.old (pos 0) (map enumerator_tree listed.now)) }
{
    let mut next = 0i64;
    'enumerators: for enumerator in listed {
        let value = enumerator_in(alloc, state, next, enumerator)?;
        next = i64::from(value) + 1;
    }
    Ok(())
}

// The tag of a list of constants, which is new in the present block.
fn enumeration_tag(state: &mut State, tag: Option<Tag>) -> Result<(), Fail>
    ensures { MovesTo state.new result (enumeration_tag state.old tag) }
{
    match tag {
        None => Ok(()),
        Some(tag) => {
            if state.scope().tagged_here(tag.name).is_some() {
                return Err(refusal(Kind::Redeclared, tag.place));
            }
            state.add_enum_tag(tag.name, false)?;
            Ok(())
        }
    }
}

// What the tag names once the list has ended.
fn add_enumeration(state: &mut State, tag: Option<Tag>, is_from_zero: bool) -> Result<(), NoMemory>
    ensures { OnOk result (state.new ≡ in_scope state.old (with_enumeration tag is_from_zero state.old.scope)) }
{
    match tag {
        None => Ok(()),
        Some(tag) => {
            if is_from_zero {
                state.add_enum_tag(tag.name, true)
            } else {
                Ok(())
            }
        }
    }
}

/// An enumeration with its constants: its type is `int`, in a row of its own where they are all from 0 on.
#[tactic(auto, using(c_typing_state::proofs::Frames::passes, c_typing_state::proofs::Frames::goes_on))]
pub(crate) fn enumeration(
    alloc: Global,
    state: &mut State,
    said: Said,
    tag: Option<Tag>,
    listed: &[Enumerator],
) -> Result<Said, Fail>
    ensures { StepsTo (λ d. d) state.new result (enumeration_said (length state.old.scope.names) said tag
        (enumeration state.old tag (map enumerator_tree listed.now))) }
{
    let before = state.scope().names_len();
    enumeration_tag(state, tag)?;
    enumerators_in(alloc, state, listed)?;
    let is_from_zero = state.scope().are_from_zero(before);
    add_enumeration(state, tag, is_from_zero)?;
    Ok(said_type(said, plain(enumeration_number(is_from_zero))))
}
