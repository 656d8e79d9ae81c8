//! Edges that test temporaries.
ghost use Rattle.std.specs.Prelude.{◌≡◌, IfOk, cond};
ghost use Rattle.strided_dom.specs.Progression.{single, IsInReach};
ghost use Rattle.tm_cint.specs.Operators.{IsComparison};
ghost use Rattle.edge_effects.specs.calculations.interfere_set.Stores.{Interferences};
ghost use Rattle.edge_effects.specs.calculations.transfer_rows.StateForms.{only_numbers, only_pointers};
ghost use Rattle.edge_effects.specs.calculations.transfer_rows.Actions.{temporary, fixed, numbers_compare};
ghost use Rattle.edge_effects.specs.calculations.transfer_rows.Actions.{pointers_compare, usable};
ghost use Rattle.edge_effects.specs.calculations.transfer_rows.Actions.{refines};
ghost use Rattle.edge_effects.specs.calculations.transfer_rows.Rows.{after_filter};
ghost use Rattle.edge_effects.specs.edge_actions.Edges.{around_of, filter_of, only_null};
ghost use Rattle.edge_effects.specs.Effects.{IsAfter};
ghost use Rattle.edge_filters.specs.Tests.{IsTestable};

use crate::refining::{after_refined, arrived_where, both_refined, one_refined};
use cell_env::State;
use edge_effects::{
    After, EdgeView, no_classes, numbers_assumed, numbers_of, plain, pointers_assumed, pointers_of,
};
use flow_graph::Test;
use pointer_dom::{AbsValue, PointerSet};
use std::alloc::Global;
use strided_dom::Strided;
use tm_cint::BinOp;
use tm_lattice::NoMemory;
use transfer_int::Classes;

// The state that a comparison of the numbers of two temporaries lets through.
fn where_numbers(
    alloc: Global,
    view: &EdgeView,
    state: &State<AbsValue>,
    operator: BinOp,
    left: u32,
    right: u32,
) -> Result<Option<State<AbsValue>>, NoMemory>
    requires { IsComparison operator }
    ensures { IfOk result (λ after. after ≡ after_filter (around_of view.now) state.now
        (numbers_compare operator (temporary left) (temporary right))) }
{
    let of_left = numbers_of(state, left);
    let of_right = numbers_of(state, right);
    let sides = numbers_assumed(operator, &of_left, &of_right);
    let after = both_refined(alloc, view, state, left, right, sides)?;
    Ok(after)
}

// The state that a comparison of the numbers of a temporary with one number lets through.
fn where_number(
    alloc: Global,
    view: &EdgeView,
    state: &State<AbsValue>,
    operator: BinOp,
    left: u32,
    number: i128,
) -> Result<Option<State<AbsValue>>, NoMemory>
    requires comparison { IsComparison operator }
    requires reach { IsInReach number }
    ensures { IfOk result (λ after. after ≡ after_filter (around_of view.now) state.now
        (numbers_compare operator (temporary left) (fixed (only_numbers (single number))))) }
{
    let of_left = numbers_of(state, left);
    let constant = Strided::one(number);
    let sides = numbers_assumed(operator, &of_left, &constant);
    let after = one_refined(alloc, view, state, left, sides)?;
    Ok(after)
}

// The state that a comparison of the pointers of two temporaries lets through.
fn where_pointers(
    alloc: Global,
    view: &EdgeView,
    state: &State<AbsValue>,
    equal: bool,
    left: u32,
    right: u32,
) -> Result<Option<State<AbsValue>>, NoMemory>
    ensures { IfOk result (λ after. after ≡ after_filter (around_of view.now) state.now
        (pointers_compare equal (temporary left) (temporary right))) }
{
    let none = PointerSet::new(alloc);
    let of_left = pointers_of(state, left, &none);
    let of_right = pointers_of(state, right, &none);
    let sides = pointers_assumed(alloc, equal, of_left, of_right)?;
    let after = both_refined(alloc, view, state, left, right, sides)?;
    Ok(after)
}

// The state that a comparison of the pointers of a temporary with null lets through.
fn where_null(
    alloc: Global,
    view: &EdgeView,
    state: &State<AbsValue>,
    equal: bool,
    left: u32,
) -> Result<Option<State<AbsValue>>, NoMemory>
    ensures { IfOk result (λ after. after ≡ after_filter (around_of view.now) state.now
        (pointers_compare equal (temporary left) (fixed (only_pointers only_null)))) }
{
    let none = PointerSet::new(alloc);
    let of_left = pointers_of(state, left, &none);
    let constant = PointerSet::null(alloc);
    let sides = pointers_assumed(alloc, equal, of_left, &constant)?;
    let after = one_refined(alloc, view, state, left, sides)?;
    Ok(after)
}

// `==`, or `!=` where `equal` is false.
fn equality(equal: bool) -> BinOp
    ensures value { result ≡ cond equal BinOp.Eq BinOp.Ne }
    ensures comparison { IsComparison result }
{
    if equal { BinOp::Eq } else { BinOp::Ne }
}

// The state that a temporary lets through that is neither 0 nor null, or is one of them.
#[tactic(auto, using(crate::proofs::Sides::zero_in_reach))]
fn where_true(
    alloc: Global,
    view: &EdgeView,
    state: &State<AbsValue>,
    holds: bool,
    value: u32,
) -> Result<Option<State<AbsValue>>, NoMemory>
    ensures { IfOk result (λ after. after ≡ after_filter (around_of view.now) state.now
        (filter_of view.now.tests_pointer (Test.Truth holds value))) }
{
    let pointers = view.tests_pointer;
    if pointers {
        let after = where_null(alloc, view, state, !holds, value)?;
        return Ok(after);
    }
    let after = where_number(alloc, view, state, equality(!holds), value, 0)?;
    Ok(after)
}

// The state that a test lets through.
fn let_through(
    alloc: Global,
    view: &EdgeView,
    state: &State<AbsValue>,
    test: Test,
) -> Result<Option<State<AbsValue>>, NoMemory>
    requires { IsTestable test }
    ensures { IfOk result (λ after. after ≡ after_filter (around_of view.now) state.now
        (filter_of view.now.tests_pointer test)) }
{
    match test {
        Test::Numbers {
            operator,
            left,
            right,
            ..
        } => {
            let after = where_numbers(alloc, view, state, operator, left, right)?;
            Ok(after)
        }
        Test::Pointers { equal, left, right } => {
            let after = where_pointers(alloc, view, state, equal, left, right)?;
            Ok(after)
        }
        Test::Truth { holds, value } => {
            let after = where_true(alloc, view, state, holds, value)?;
            Ok(after)
        }
        Test::Case {
            holds,
            label,
            value,
        } => {
            let after = where_number(alloc, view, state, equality(holds), value, label)?;
            Ok(after)
        }
    }
}

/// An edge that tests temporaries: it leads to what the test lets through. Condition: a comparison of numbers is one of
/// the six, and a label is in the reach of strided sets.
pub fn refine(
    alloc: Global,
    view: &EdgeView,
    state: &State<AbsValue>,
    test: Test,
) -> Result<After, NoMemory>
    requires { IsTestable test }
    ensures { IfOk result (λ after. (store : Interferences)
        → IsAfter (around_of view.now) (refines (filter_of view.now.tests_pointer test)) state.now store after) }
{
    let through = let_through(alloc, view, state, test)?;
    let arrived = arrived_where(alloc, view, through)?;
    Ok(plain(alloc, arrived, no_classes()))
}

/// An edge that asks that a pointer is not the invalid one: the class `pointer` is not excluded exactly where it may
/// be.
pub fn usable(
    alloc: Global,
    view: &EdgeView,
    state: &State<AbsValue>,
    pointer: u32,
) -> Result<After, NoMemory>
    ensures { IfOk result (λ after. (store : Interferences)
        → IsAfter (around_of view.now) (refines (usable pointer)) state.now store after) }
{
    let (left, invalid) = edge_effects::usable(alloc, state, pointer)?;
    let through = after_refined(alloc, view, state, pointer, left)?;
    let arrived = arrived_where(alloc, view, through)?;
    let classes = Classes {
        pointer: invalid,
        ..no_classes()
    };
    Ok(plain(alloc, arrived, classes))
}
